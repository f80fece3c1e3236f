// Replays the recorded answers of the original through the calls, and writes how many agreed, by entry point.
#![tactic(auto)]

ghost use Rattle.std.specs.Prelude.{OnOk};
ghost use Rattle.std.specs.List.{flat_map};
ghost use Rattle.std.specs.Io.KnownBytes.{Appends};
ghost use Rattle.vectors.specs.Counts.{CountsFile};
ghost use Rattle.vectors.specs.Lines.{count_line, count_lines, differing};

use recorded::entry::EntryPoint;
use replays::file::{RecordKind, next_record};
use sequences::tally::Tally;
use std::fs::File;
use std::io;
use std::io::{Read, Write};
use std::rt::Files;
use usb_store::STORE_LEN;

// Replays a file. Where a read or a write fails, what was read before is counted.
fn replay_all<R: Read, W: Write>(
    kind: RecordKind,
    reader: &mut R,
    out: &mut W,
    tally: &mut Tally,
) -> io::Result<()>
    ensures { CountsFile kind tally.old tally.new }
{
    let mut store = [0; STORE_LEN];
    for n in 0..u32::MAX {
        let Some(replayed) = next_record(kind, reader, out, &mut store)? else {
            return Ok(());
        };
        tally.add(replayed.entry, replayed.agrees, n);
    }
    Ok(())
}

// Opens a file and replays it; of one that does not open it says so.
fn replay_file<F: Files + Eprint, W: Write>(
    rt: &F,
    kind: RecordKind,
    path: &str,
    out: &mut W,
    tally: &mut Tally,
) -> io::Result<()>
    ensures { CountsFile kind tally.old tally.new }
{
    match File::open(rt, path) {
        Ok(mut file) => replay_all(kind, &mut file, out, tally),
        Err(error) => eprintln!(rt; "{path}: {error}"),
    }
}

fn write_lines<W: Write>(out: &mut W, tally: &Tally, entries: &[EntryPoint]) -> io::Result<()>
    ensures { OnOk result (Appends (W.contents out.old) (W.contents out.new) (flat_map (count_line tally.now) entries.now)) }
{
    for entry in entries {
        let count = tally.count(*entry);
        writeln!(out, "{entry}: {count}")?;
    }
    Ok(())
}

#[tactic(auto, unfolding(crate::specs::Lines::entry_points))]
fn write_counts<W: Write>(out: &mut W, tally: &Tally) -> io::Result<()>
    ensures { OnOk result (Appends (W.contents out.old) (W.contents out.new) (count_lines tally.now)) }
{
    write_lines(out, tally, &EntryPoint::ALL)
}

fn write_differing<W: Write>(out: &mut W, kind: RecordKind, numbers: &[u32]) -> io::Result<()>
    ensures { OnOk result (Appends (W.contents out.old) (W.contents out.new) (differing kind numbers.now)) }
{
    for number in numbers {
        writeln!(out, "{kind} {number} differs")?;
    }
    Ok(())
}

fn main(rt: HostRuntime) -> io::Result<()> {
    let mut out = rt.stdout();
    let mut tally = Tally::new();
    replay_file(&rt, RecordKind::Call, "calls.bin", &mut out, &mut tally)?;
    replay_file(&rt, RecordKind::Walk, "walks.bin", &mut out, &mut tally)?;
    write_counts(&mut out, &tally)?;
    write_differing(&mut out, RecordKind::Call, tally.calls.numbers())?;
    write_differing(&mut out, RecordKind::Walk, tally.walks.numbers())
}
