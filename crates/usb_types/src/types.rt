// types.rs: what a call answers, and what an outcome's two codes and a packet size stand for.
ghost use Rattle.std.specs.Prelude.{◌≡◌, ◌<◌, Err};
ghost use Rattle.usb_types.specs.declared.types.Failure.TheVariants.{Error, Stop};
ghost use Rattle.usb_types.specs.Answers.{error_number, halt_number, answer_number, refusal_number};
ghost use Rattle.usb_types.specs.Outcomes.{listed, error_word, result_of};
ghost use Rattle.usb_types.specs.Actions.{packet_size};

// ResultCode -1 to -9, and the two codes of document 01 that travel upward as these do.
#[derive(Clone, Copy, Debug, PartialEq, Eq)]
pub enum ErrorCode {
    General,
    Argument,
    Retry,
    Device,
    Incompatible,
    Compiler,
    Memory,
    Timeout,
    Disconnected,
    GarbledConfiguration,
    BusFull,
}

// What stops the whole call.
#[derive(Clone, Copy, Debug, PartialEq, Eq)]
pub enum Halt {
    GarbledOutcome,
    OutcomesSpent,
    LogFull,
}

// Why a function of the driver did not end well.
#[derive(Clone, Copy, Debug, PartialEq, Eq)]
pub enum Failure {
    Error(ErrorCode),
    Stop(Halt),
}

// Why an entry point does nothing.
#[derive(Clone, Copy, Debug, PartialEq, Eq)]
pub enum Refusal {
    BadArgument,
    StoreDamaged,
    AlreadyAttached,
    RootSpeed,
}

impl From<ErrorCode> for Failure {
    ghost from_gives = { λ e r. r ≡ Error e };

    fn from(error: ErrorCode) -> Failure {
        Failure::Error(error)
    }
}

impl From<Halt> for Failure {
    ghost from_gives = { λ h r. r ≡ Stop h };

    fn from(halt: Halt) -> Failure {
        Failure::Stop(halt)
    }
}

impl From<ErrorCode> for i32 {
    ghost from_gives = { λ e r. r ≡ error_number e };

    fn from(error: ErrorCode) -> i32 {
        match error {
            ErrorCode::General => -1,
            ErrorCode::Argument => -2,
            ErrorCode::Retry => -3,
            ErrorCode::Device => -4,
            ErrorCode::Incompatible => -5,
            ErrorCode::Compiler => -6,
            ErrorCode::Memory => -7,
            ErrorCode::Timeout => -8,
            ErrorCode::Disconnected => -9,
            ErrorCode::GarbledConfiguration => -10,
            ErrorCode::BusFull => -11,
        }
    }
}

impl From<Halt> for i32 {
    ghost from_gives = { λ h r. r ≡ halt_number h };

    fn from(halt: Halt) -> i32 {
        match halt {
            Halt::GarbledOutcome => -13,
            Halt::OutcomesSpent => -14,
            Halt::LogFull => -15,
        }
    }
}

impl From<Refusal> for i32 {
    ghost from_gives = { λ f r. r ≡ refusal_number f };

    fn from(refusal: Refusal) -> i32 {
        match refusal {
            Refusal::BadArgument => -2,
            Refusal::StoreDamaged => -16,
            Refusal::AlreadyAttached => -4,
            Refusal::RootSpeed => -12,
        }
    }
}

impl From<Failure> for i32 {
    ghost from_gives = { λ f r. r ≡ answer_number (Err f) };

    fn from(failure: Failure) -> i32 {
        match failure {
            Failure::Error(error) => i32::from(error),
            Failure::Stop(halt) => i32::from(halt),
        }
    }
}

// The number of what a function of the driver answered. A function: no `From` can be written between two types of std.
pub fn answer_number(answer: Result<(), Failure>) -> i32
    ensures { result ≡ answer_number answer }
{
    match answer {
        Ok(()) => 0,
        Err(failure) => i32::from(failure),
    }
}

// The submit code as ResultCode 0 to -9.
const SUBMIT_RESULTS: [Result<(), Failure>; 10] = [
    Ok(()),
    Err(Failure::Error(ErrorCode::General)),
    Err(Failure::Error(ErrorCode::Argument)),
    Err(Failure::Error(ErrorCode::Retry)),
    Err(Failure::Error(ErrorCode::Device)),
    Err(Failure::Error(ErrorCode::Incompatible)),
    Err(Failure::Error(ErrorCode::Compiler)),
    Err(Failure::Error(ErrorCode::Memory)),
    Err(Failure::Error(ErrorCode::Timeout)),
    Err(Failure::Error(ErrorCode::Disconnected)),
];

// UsbTransferError by its bit number: none at 0, then the bit.
const ERROR_WORDS: [u32; 32] = [
    0x0, 0x2, 0x4, 0x8, 0x10, 0x20, 0x40, 0x80, 0x100, 0x200, 0x400, 0x800, 0x1000, 0x2000, 0x4000,
    0x8000, 0x10000, 0x20000, 0x40000, 0x80000, 0x100000, 0x200000, 0x400000, 0x800000, 0x1000000,
    0x2000000, 0x4000000, 0x8000000, 0x10000000, 0x20000000, 0x40000000, 0x80000000,
];

// Neither code of an outcome is garbled.
#[tactic(auto, unfolding(crate::specs::Outcomes::listed))]
pub fn outcome_listed(submit: u8, error: u8) -> bool
    ensures { result ≡ listed submit error }
{
    matches!(submit, 0..=9) && matches!(error, 0..=9 | 31)
}

// UsbTransferError of an outcome's error.
#[tactic(auto, unfolding(crate::specs::Outcomes::error_word))]
pub fn error_word(error: u8) -> u32
    requires { error < 32 }
    ensures { result ≡ error_word error }
{
    if error == 0 {
        return 0;
    }
    let bit = usize::from(error);
    ERROR_WORDS[bit]
}

// The result of UsbControlMessage.
#[tactic(auto, unfolding(crate::specs::Outcomes::result_of))]
pub fn result_of(submit: u8, error: u8) -> Result<(), Failure>
    requires { submit < 10 }
    ensures { result ≡ result_of submit error }
{
    if submit == 0 {
        match error {
            0 => Ok(()),
            31 => Err(Failure::Error(ErrorCode::Timeout)),
            _ => Err(Failure::Error(ErrorCode::Device)),
        }
    } else {
        let code = usize::from(submit);
        SUBMIT_RESULTS[code]
    }
}

// UsbPacketSize by its number: 0 to 3 for 8, 16, 32 and 64 bytes. A number: it is only written into an action.
#[tactic(auto, unfolding(crate::specs::Actions::packet_size))]
pub fn size_from_number(size: u8) -> u8
    ensures { result ≡ packet_size size }
{
    match size {
        0..=8 => 0,
        9..=16 => 1,
        17..=32 => 2,
        _ => 3,
    }
}
