// The head of a recorded call and of a recorded walk (crates/vectors/README.md).
ghost use Rattle.std.specs.Prelude.{◌≡◌, ◌+◌, ◌≤◌, length, take, drop};
ghost use Rattle.usb_types.specs.Numbers.{number_in};
ghost use Rattle.recorded.specs.Heads.{asked_in, recorded_in, walk_in, fits as Heads·fits, walk_fits};

use crate::entry::EntryPoint;

pub const HEAD_LEN: usize = 48;

pub const WALK_HEAD_LEN: usize = 16;

// Of an edit: an offset of 4 bytes and a byte.
pub const EDIT_LEN: usize = 5;

pub const MAX_STORE: usize = 40000;

pub const MAX_RECORD: usize = 969;

// Of logs, outcomes and descriptors.
pub const MAX_BYTES: usize = 65536;

// What a call is run on.
#[derive(Clone, Copy)]
pub struct Asked {
    // Any byte of a file is read into it: bits 0 and 1 are tested, and the others are passed over.
    pub flags: u8,
    // The file's byte and no EntryPoint, since asked_in cannot fail, and the stores of a sequence are for any entry.
    pub entry: u8,
    pub edits: u8,
    pub first: u32,
    pub second: u32,
    pub old_len: usize,
    pub new_len: usize,
    pub log_len: usize,
    pub outcomes_len: usize,
}

// What came back from the original.
#[derive(Clone, Copy)]
pub struct Recorded {
    pub answer: i32,
    pub requests: u64,
    pub log_sum: u32,
    pub store_sum: u32,
}

#[derive(Clone, Copy)]
pub struct RecordedWalk {
    pub descriptors_len: usize,
    pub record_len: usize,
    pub answer: i32,
    pub record_sum: u32,
}

// The N bytes at an offset.
fn bytes_at<const N: usize>(bytes: &[u8], at: usize) -> [u8; N]
    requires { at + N ≤ length bytes.now }
    ensures { result ≡ take N (drop at bytes.now) }
{
    let mut part = [0; N];
    part.copy_from_slice(&bytes[at..at + N]);
    part
}

// A number of 4 bytes at any offset. That of usb_store, and its array_at, are for a field of a place alone, and promise that.
#[tactic(auto, using(crate::proofs::Bytes::number_4))]
pub fn u32_at(bytes: &[u8], at: usize) -> u32
    requires { at + 4 ≤ length bytes.now }
    ensures { result ≡ number_in bytes.now at 4 }
{
    u32::from_le_bytes(bytes_at(bytes, at))
}

// A number of 8 bytes.
#[tactic(auto, using(crate::proofs::Bytes::number_8))]
fn u64_at(bytes: &[u8], at: usize) -> u64
    requires { at + 8 ≤ length bytes.now }
    ensures { result ≡ number_in bytes.now at 8 }
{
    u64::from_le_bytes(bytes_at(bytes, at))
}

// asked_in, recorded_in and walk_in take any slice of the length; From<&[u8; 48]> and From<&[u8; 16]> would take arrays alone.
#[tactic(auto, unfolding(crate::specs::Heads::asked_in))]
pub fn asked_in(bytes: &[u8]) -> Asked
    requires { length bytes.now ≡ 48 }
    ensures { result ≡ asked_in bytes.now }
{
    Asked {
        flags: bytes[0],
        entry: bytes[1],
        edits: bytes[2],
        first: u32_at(bytes, 4),
        second: u32_at(bytes, 8),
        old_len: u32_at(bytes, 12) as usize,
        new_len: u32_at(bytes, 16) as usize,
        log_len: u32_at(bytes, 20) as usize,
        outcomes_len: u32_at(bytes, 24) as usize,
    }
}

#[tactic(auto, unfolding(crate::specs::Heads::recorded_in), using(crate::proofs::Bytes::signed_word))]
pub fn recorded_in(bytes: &[u8]) -> Recorded
    requires { length bytes.now ≡ 48 }
    ensures { result ≡ recorded_in bytes.now }
{
    Recorded {
        answer: u32_at(bytes, 28).cast_signed(),
        requests: u64_at(bytes, 32),
        log_sum: u32_at(bytes, 40),
        store_sum: u32_at(bytes, 44),
    }
}

#[tactic(auto, unfolding(crate::specs::Heads::walk_in), using(crate::proofs::Bytes::signed_word))]
pub fn walk_in(bytes: &[u8]) -> RecordedWalk
    requires { length bytes.now ≡ 16 }
    ensures { result ≡ walk_in bytes.now }
{
    RecordedWalk {
        descriptors_len: u32_at(bytes, 0) as usize,
        record_len: u32_at(bytes, 4) as usize,
        answer: u32_at(bytes, 8).cast_signed(),
        record_sum: u32_at(bytes, 12),
    }
}

// May the call be run in the buffers that there are?
#[tactic(auto, unfolding(crate::specs::Heads::fits))]
pub fn fits(asked: Asked) -> bool
    ensures { result ≡ Heads·fits asked }
{
    EntryPoint::try_from(asked.entry).is_ok()
        && asked.old_len <= MAX_STORE
        && asked.new_len <= MAX_STORE
        && asked.log_len <= MAX_BYTES
        && asked.outcomes_len <= MAX_BYTES
}

#[tactic(auto, unfolding(crate::specs::Heads::walk_fits))]
pub fn walk_fits(walk: RecordedWalk) -> bool
    ensures { result ≡ walk_fits walk }
{
    walk.descriptors_len <= MAX_BYTES && walk.record_len <= MAX_RECORD
}
