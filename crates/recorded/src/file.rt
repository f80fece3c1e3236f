// The files of recorded calls and walks: what is read next.
ghost use Rattle.std.specs.Prelude.{◌≡◌, ◌≤◌, length, take, drop, true, codes, IfOk, OnOk, OnErr};
ghost use Rattle.std.specs.Io.KnownBytes.{Appends, Consumes};
ghost use Rattle.recorded.specs.Files.{Asks, CallRead, CallIsNext, WalkRead, WalkIsNext};

use crate::head::{
    Asked, EDIT_LEN, HEAD_LEN, Recorded, RecordedWalk, WALK_HEAD_LEN, asked_in, fits, recorded_in,
    walk_fits, walk_in,
};
use bytes_io::read_full;
use std::io;
use std::io::{Read, Write};

// A call of calls.bin.
#[derive(Clone, Copy)]
pub struct RecordedCall {
    pub asked: Asked,
    pub recorded: Recorded,
}

// Says that a record is cut short, or longer than the buffers.
fn write_garbled<W: Write>(out: &mut W) -> io::Result<()>
    ensures { OnOk result (Appends (W.contents out.old) (W.contents out.new) (codes "a record is garbled\n")) }
{
    out.write_all(b"a record is garbled\n")
}

// Reads n bytes into the buffer; did the file hold as many? The buffers are lent, and their lengths stand in the head: a record allocates
// nothing.
fn is_read<R: Read>(reader: &mut R, buffer: &mut [u8], n: usize) -> io::Result<bool>
    requires { n ≤ length buffer.old }
    ensures asks { IfOk result (Asks n buffer.old buffer.new) }
    ensures bytes { IfOk result (λ r. r ≡ true → Consumes (R.remaining reader.old) (R.remaining reader.new) (take n buffer.new)) }
    ensures failed { OnErr result (drop n buffer.new ≡ drop n buffer.old) }
{
    let got = read_full(reader, &mut buffer[..n])?;
    Ok(got == n)
}

// Reads a call of calls.bin: at most 255 edits of 5 bytes, and 65,536 bytes of outcomes. A garbled one is written to out
// as such. Where a read or a write fails, part of a call was read. Reader and out are two borrows of the caller's, here and in replays and
// vectors: a struct of both would be made at each call.
#[tactic(auto, unfolding(crate::specs::Heads::fits))]
pub fn read_call<R: Read, W: Write>(
    reader: &mut R,
    out: &mut W,
    edits: &mut [u8],
    outcomes: &mut [u8],
) -> io::Result<Option<RecordedCall>>
    requires { (1275 ≤ length edits.old) × (65536 ≤ length outcomes.old) }
    ensures read { IfOk result CallRead }
    ensures bytes { IfOk result (CallIsNext (R.remaining reader.old) (R.remaining reader.new) edits.new outcomes.new) }
{
    let mut head = [0; HEAD_LEN];
    let got = read_full(reader, &mut head)?;
    if got == 0 {
        return Ok(None);
    }
    let asked = asked_in(&head);
    if got != HEAD_LEN || !fits(asked) {
        write_garbled(out)?;
        return Ok(None);
    }
    let edits_len = usize::from(asked.edits) * EDIT_LEN;
    let edits_read = is_read(reader, edits, edits_len)?;
    let outcomes_read = is_read(reader, outcomes, asked.outcomes_len)?;
    if !edits_read || !outcomes_read {
        write_garbled(out)?;
        return Ok(None);
    }
    let recorded = recorded_in(&head);
    Ok(Some(RecordedCall { asked, recorded }))
}

// Reads a walk of walks.bin: at most 65,536 bytes of descriptors. A garbled one is written to out as such. Where a read
// or a write fails, part of a walk was read. Apart from read_call, since a walk has another head and one buffer less.
#[tactic(auto, unfolding(crate::specs::Heads::walk_fits))]
pub fn read_walk<R: Read, W: Write>(
    reader: &mut R,
    out: &mut W,
    descriptors: &mut [u8],
) -> io::Result<Option<RecordedWalk>>
    requires { 65536 ≤ length descriptors.old }
    ensures read { IfOk result WalkRead }
    ensures bytes { IfOk result (WalkIsNext (R.remaining reader.old) (R.remaining reader.new) descriptors.new) }
{
    let mut head = [0; WALK_HEAD_LEN];
    let got = read_full(reader, &mut head)?;
    if got == 0 {
        return Ok(None);
    }
    let recorded = walk_in(&head);
    if got != WALK_HEAD_LEN || !walk_fits(recorded) {
        write_garbled(out)?;
        return Ok(None);
    }
    if !is_read(reader, descriptors, recorded.descriptors_len)? {
        write_garbled(out)?;
        return Ok(None);
    }
    Ok(Some(recorded))
}
