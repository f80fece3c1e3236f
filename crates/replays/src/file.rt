// The files of recorded calls and walks: what is read next, replayed.
ghost use Rattle.std.specs.Prelude.{◌≡◌, length, IfOk, IfSome, OnErr};
ghost use Rattle.usb_store.specs.Layout.{store_length};
ghost use Rattle.replays.specs.Files.{IsOf};
ghost use Rattle.replays.specs.declared.file.RecordKind.TheVariants.{Call, Walk};

use crate::{replay, replay_walk};
use recorded::entry::EntryPoint;
use recorded::file::{read_call, read_walk};
use recorded::head::MAX_BYTES;
use std::io::{Read, Write};
use std::{fmt, io};

// Holds the edits of a call, at most 255 of 5 bytes.
const EDITS_LEN: usize = 4096;

// What a file holds.
#[derive(Clone, Copy)]
pub enum RecordKind {
    Call,
    Walk,
}

impl fmt::Display for RecordKind {
    ghost use Rattle.std.specs.Prelude.{Some};
    ghost use Rattle.replays.specs.Files.{kind_name};

    ghost output = { λ kind. Some (kind_name kind) };

    fn fmt<W: fmt::Write>(&self, f: &mut fmt::Formatter<W>) -> fmt::Result {
        f.write_str(match self {
            RecordKind::Call => "call",
            RecordKind::Walk => "walk",
        })
    }
}

// A record that was replayed: what it was made by, and whether it answers as recorded.
#[derive(Clone, Copy)]
pub struct Replayed {
    pub entry: EntryPoint,
    pub agrees: bool,
}

// Reads a call of calls.bin and replays it.
#[tactic(auto, unfolding(recorded::specs::Heads::fits))]
fn next_call<R: Read, W: Write>(
    reader: &mut R,
    out: &mut W,
    store: &mut [u8],
) -> io::Result<Option<Replayed>>
    requires { length store.old ≡ store_length }
    ensures read { IfOk result (λ next. IfSome next (IsOf Call)) }
    ensures failed { OnErr result (store.new ≡ store.old) }
{
    let mut edits = [0; EDITS_LEN];
    let mut outcomes = [0; MAX_BYTES];
    let Some(call) = read_call(reader, out, &mut edits, &mut outcomes)? else {
        return Ok(None);
    };
    let entry = EntryPoint::try_from(call.asked.entry).unwrap();
    let outcomes_len = call.asked.outcomes_len;
    let agrees = replay(call, store, &edits, &outcomes[..outcomes_len]);
    Ok(Some(Replayed { entry, agrees }))
}

// Reads a walk of walks.bin and replays it. Apart from next_call: a walk has no store, one buffer, and its own entry point.
#[tactic(auto, unfolding(recorded::specs::Heads::walk_fits))]
fn next_walk<R: Read, W: Write>(reader: &mut R, out: &mut W) -> io::Result<Option<Replayed>>
    ensures { IfOk result (λ next. IfSome next (IsOf Walk)) }
{
    let mut descriptors = [0; MAX_BYTES];
    let Some(walk) = read_walk(reader, out, &mut descriptors)? else {
        return Ok(None);
    };
    let descriptors_len = walk.descriptors_len;
    Ok(Some(Replayed {
        entry: EntryPoint::ConfigurationWalk,
        agrees: replay_walk(walk, &descriptors[..descriptors_len]),
    }))
}

// Reads a call or a walk and replays it. A garbled one is written to out as such. Where a read or a write fails, nothing is
// replayed, and store stays as it is. A match of two cases: a closure for each would be no plainer.
pub fn next_record<R: Read, W: Write>(
    kind: RecordKind,
    reader: &mut R,
    out: &mut W,
    store: &mut [u8],
) -> io::Result<Option<Replayed>>
    requires { length store.old ≡ store_length }
    ensures read { IfOk result (λ next. IfSome next (IsOf kind)) }
    ensures failed { OnErr result (store.new ≡ store.old) }
{
    match kind {
        RecordKind::Call => next_call(reader, out, store),
        RecordKind::Walk => next_walk(reader, out),
    }
}
