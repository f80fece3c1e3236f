// Outcomes: 4 header bytes, then the data.
ghost use Rattle.std.specs.Prelude.{◌≡◌, ◌≤◌, ◌<◌, length};
ghost use Rattle.usb_model.specs.Transfer.{size_of};
ghost use Rattle.usb_transfer.specs.Outcomes.{Takes};

use usb_types::types::{Halt, outcome_listed};

pub const HEADER_LEN: usize = 4;

// The submit code, the error, and how many data bytes follow. The codes are numbers, both listed: `error_word` and `result_of` look them up,
// and nothing else reads them.
#[derive(Clone, Copy)]
pub struct Header {
    pub submit: u8,
    pub error: u8,
    pub size: usize,
}

// The length in a header.
fn data_size(rest: &[u8]) -> usize
    requires { 4 ≤ length rest.now }
    ensures { (result ≡ size_of rest.now) × (result < 65536) }
{
    usize::from(u16::from_le_bytes([rest[2], rest[3]]))
}

// What stands at the start of rest, the part of the outcomes that is not taken.
pub fn read_outcome(rest: &[u8]) -> Result<Header, Halt>
    ensures { Takes rest.now result }
{
    if rest.len() < HEADER_LEN {
        return Err(Halt::OutcomesSpent);
    }
    let submit = rest[0];
    let error = rest[1];
    if !outcome_listed(submit, error) {
        return Err(Halt::GarbledOutcome);
    }
    let size = data_size(rest);
    if rest.len() < HEADER_LEN + size {
        return Err(Halt::OutcomesSpent);
    }
    Ok(Header {
        submit,
        error,
        size,
    })
}
