// A recorded call or walk, run on the slices that a call of the library takes. Buffers are arrays on the stack, cut to the lengths in a
// record's head: a record allocates nothing.
#![tactic(auto)]

pub mod file;

ghost use Rattle.std.specs.Prelude.{◌≡◌, true};
ghost use Rattle.usb_entry.specs.Replies.{lent, left};
ghost use Rattle.recorded.specs.Heads.{walk_fits};
ghost use Rattle.replays.specs.Replays.{Ready, Replays, entry_point};
ghost use Rattle.replays.specs.Replays.{agrees as Replays·agrees, walked, walk_agrees};

use lidrumak::{
    lidrumak_child_check, lidrumak_child_reset, lidrumak_configuration_walk,
    lidrumak_connection_change, lidrumak_port_check, lidrumak_retried_reset, lidrumak_root_attach,
    lidrumak_scan,
};
use recorded::entry::EntryPoint;
use recorded::file::RecordedCall;
use recorded::head::{Asked, MAX_BYTES, MAX_RECORD, MAX_STORE, Recorded, RecordedWalk};
use sequences::store::{begin, carry, old_store};
use sequences::sum::adler;
use usb_entry::reply::Reply;

// What new store, log and record hold before each call.
const FILL: u8 = 0xEE;

// A match over the entry points of the library, which are functions with different parameters.
#[tactic(auto, unfolding(crate::specs::Replays::entry_point))]
fn run(asked: Asked, old: &[u8], new: &mut [u8], outcomes: &[u8], log: &mut [u8]) -> Reply
    ensures { left result new.new log.new
        ≡ entry_point asked.entry asked.first asked.second (lent old.now new.old outcomes.now log.old) }
{
    let first = asked.first;
    let second = asked.second;
    match EntryPoint::try_from(asked.entry) {
        Ok(EntryPoint::RootAttach) => lidrumak_root_attach(old, new, outcomes, log, first),
        Ok(EntryPoint::Scan) => lidrumak_scan(old, new, outcomes, log, first),
        Ok(EntryPoint::PortCheck) => lidrumak_port_check(old, new, outcomes, log, first, second),
        Ok(EntryPoint::ChildReset) => lidrumak_child_reset(old, new, outcomes, log, first, second),
        Ok(EntryPoint::ChildCheck) => lidrumak_child_check(old, new, outcomes, log, first, second),
        Ok(EntryPoint::RetriedReset) => {
            lidrumak_retried_reset(old, new, outcomes, log, first, second)
        }
        _ => lidrumak_connection_change(old, new, outcomes, log, first, second),
    }
}

// Field by field, so that the sums are made only where the numbers agree.
fn agrees(recorded: Recorded, reply: Reply, new: &[u8], log: &[u8]) -> bool
    ensures { result ≡ Replays·agrees recorded (left reply new.now log.now) }
{
    reply.answer == recorded.answer
        && reply.requests == recorded.requests
        && adler(log) == recorded.log_sum
        && adler(new) == recorded.store_sum
}

// Does a call of a sequence answer as recorded? It runs in buffers of the recorded lengths; the sequence's store goes on.
#[tactic(auto, unfolding(recorded::specs::Heads::fits))]
pub fn replay(call: RecordedCall, store: &mut [u8], edits: &[u8], outcomes: &[u8]) -> bool
    requires { Ready call.asked store.old edits.now }
    ensures { Replays call.asked call.recorded edits.now outcomes.now store.old result store.new }
{
    let RecordedCall { asked, recorded } = call;
    let mut old_buffer = [FILL; MAX_STORE];
    let mut new_buffer = [FILL; MAX_STORE];
    let mut log_buffer = [FILL; MAX_BYTES];
    let old = &mut old_buffer[..asked.old_len];
    let new = &mut new_buffer[..asked.new_len];
    let log = &mut log_buffer[..asked.log_len];
    begin(asked, store);
    old_store(asked, old, edits, store);
    let reply = run(asked, old, new, outcomes, log);
    carry(asked, new, store);
    agrees(recorded, reply, new, log)
}

// Does a walk answer as recorded?
#[tactic(auto, unfolding(recorded::specs::Heads::walk_fits))]
pub fn replay_walk(recorded: RecordedWalk, descriptors: &[u8]) -> bool
    requires { walk_fits recorded ≡ true }
    ensures { result ≡ walk_agrees recorded (walked recorded descriptors.now) }
{
    let mut record = [FILL; MAX_RECORD];
    let record = &mut record[..recorded.record_len];
    lidrumak_configuration_walk(descriptors, record) == recorded.answer
        && adler(record) == recorded.record_sum
}
