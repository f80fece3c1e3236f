// The entry points: what a record was made by.
use std::fmt;

#[derive(Clone, Copy, PartialEq, Eq)]
pub enum EntryPoint {
    RootAttach,
    Scan,
    PortCheck,
    ChildReset,
    ChildCheck,
    RetriedReset,
    ConnectionChange,
    ConfigurationWalk,
}

impl EntryPoint {
    pub const COUNT: usize = 8;

    pub const ALL: [EntryPoint; EntryPoint::COUNT] = [
        EntryPoint::RootAttach,
        EntryPoint::Scan,
        EntryPoint::PortCheck,
        EntryPoint::ChildReset,
        EntryPoint::ChildCheck,
        EntryPoint::RetriedReset,
        EntryPoint::ConnectionChange,
        EntryPoint::ConfigurationWalk,
    ];
}

// A number that names no entry point of a call.
#[derive(Clone, Copy)]
pub struct NoEntryPoint(pub u8);

// The entry point of a call, by its number in calls.bin. A walk has no number there.
impl TryFrom<u8> for EntryPoint {
    ghost use Rattle.recorded.specs.Entries.{IsNumbered};

    type Error = NoEntryPoint;

    ghost try_from_gives = { IsNumbered };

    fn try_from(number: u8) -> Result<Self, NoEntryPoint> {
        match number {
            0 => Ok(EntryPoint::RootAttach),
            1 => Ok(EntryPoint::Scan),
            2 => Ok(EntryPoint::PortCheck),
            3 => Ok(EntryPoint::ChildReset),
            4 => Ok(EntryPoint::ChildCheck),
            5 => Ok(EntryPoint::RetriedReset),
            6 => Ok(EntryPoint::ConnectionChange),
            _ => Err(NoEntryPoint(number)),
        }
    }
}

impl fmt::Display for EntryPoint {
    ghost use Rattle.std.specs.Prelude.{Some};
    ghost use Rattle.recorded.specs.Entries.{name};

    ghost output = { λ entry. Some (name entry) };

    fn fmt<W: fmt::Write>(&self, f: &mut fmt::Formatter<W>) -> fmt::Result {
        f.write_str(match self {
            EntryPoint::RootAttach => "root attach",
            EntryPoint::Scan => "scan",
            EntryPoint::PortCheck => "port check",
            EntryPoint::ChildReset => "child reset",
            EntryPoint::ChildCheck => "child check",
            EntryPoint::RetriedReset => "retried reset",
            EntryPoint::ConnectionChange => "connection change",
            EntryPoint::ConfigurationWalk => "configuration walk",
        })
    }
}
