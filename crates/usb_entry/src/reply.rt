// What a call hands back.
ghost use Rattle.std.specs.Prelude.{◌≡◌};
ghost use Rattle.usb_entry.specs.Replies.{refusal_reply, answer_reply};

use usb_types::types::{Failure, Refusal, answer_number};

// The answer by document 01's table, and how many requests were logged. Numbers, and no Result: it is what the C interface hands back.
#[repr(C)]
#[derive(Clone, Copy)]
pub struct Reply {
    pub answer: i32,
    pub requests: u64,
}

// "These entry refusals change no lent byte and report 0 requests".
pub fn refuse(refusal: Refusal) -> Reply
    ensures { result ≡ refusal_reply refusal }
{
    Reply {
        answer: i32::from(refusal),
        requests: 0,
    }
}

pub fn report(answer: Result<(), Failure>, requests: usize) -> Reply
    ensures { result ≡ answer_reply answer requests }
{
    Reply {
        answer: answer_number(answer),
        requests: requests as u64,
    }
}
