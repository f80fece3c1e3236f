// Reads outcomes on standard input, attaches an empty store at speed 0, and writes the log bytes.
#![tactic(auto)]

ghost use Rattle.std.specs.Prelude.{◌≡◌, ◌*◌, ◌≤◌, length, take, replicate};
ghost use Rattle.std.specs.List.{prefix_len};
ghost use Rattle.usb_types.specs.Actions.{action_length};
ghost use Rattle.busrun.specs.Run.{log_length, is_logged, actions_in, attached, busrun};

use bytes_io::read_full;
use lidrumak::lidrumak_root_attach;
use std::io;
use usb_store::STORE_LEN;
use usb_types::pipe::ACTION_LEN;

// How many bytes of outcomes are read at most.
const MAX_OUTCOMES: usize = 65536;

// How many actions stand before the first that was not logged.
fn leading(actions: &[[u8; ACTION_LEN]]) -> usize
    ensures { result ≡ prefix_len is_logged actions.now }
{
    actions.iter().take_while(|action| action[0] != 0).count()
}

// How many actions stand at the start of a log that was zeros.
fn actions(log: &[u8]) -> usize
    requires { length log.now ≡ log_length }
    ensures { (result ≡ actions_in 4096 log.now) × (result ≤ 4096) }
{
    let (actions, _) = log.as_chunks();
    leading(actions)
}

// Attaches the root hub; how many bytes were logged. The call writes a slice that it is lent, so the log has its count beside.
fn attach(outcomes: &[u8], log: &mut [u8]) -> usize
    requires { log.old ≡ replicate log_length 0 }
    ensures log_after { log.new ≡ (attached outcomes.now).log }
    ensures value { result ≡ actions_in 4096 log.new * action_length }
    ensures bytes { take result log.new ≡ busrun outcomes.now }
    ensures prefix_len { (result ≤ length log.new) × (result ≡ length (take result log.new)) }
{
    let old = [0; STORE_LEN];
    let mut new = [0; STORE_LEN];
    lidrumak_root_attach(&old, &mut new, outcomes, log, 0);
    actions(log) * ACTION_LEN
}

fn main(rt: HostRuntime) -> io::Result<()> {
    let mut outcomes = [0; MAX_OUTCOMES];
    let n = read_full(&mut rt.stdin(), &mut outcomes)?;
    let mut log = [0; 65536];
    let logged = attach(&outcomes[..n], &mut log);
    rt.write_all(&log[..logged])
}
