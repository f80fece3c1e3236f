// How many calls and walks agreed, and the first that did not.
ghost use Rattle.std.specs.Prelude.{◌≡◌, []};
ghost use Rattle.sequences.specs.Counts.{no_tally, tallied, count_of, counted, noted};

use recorded::entry::EntryPoint;
use std::fmt;
use std::marker::Model;

// How many numbers of records that differ are noted.
const MOST: usize = 4;

// How many records of an entry point were replayed, and how many of them agreed.
#[derive(Clone, Copy)]
pub struct Count {
    pub seen: u32,
    pub agreed: u32,
}

impl Count {
    // One record more.
    fn add(&mut self, agrees: bool)
        ensures { self.new ≡ counted self.old agrees }
    {
        self.seen = self.seen.saturating_add(1);
        self.agreed = self.agreed.saturating_add(u32::from(agrees));
    }
}

impl fmt::Display for Count {
    ghost use Rattle.std.specs.Prelude.{Some};
    ghost use Rattle.sequences.specs.Counts.{count_text};

    ghost output = { λ count. Some (count_text count) };

    fn fmt<W: fmt::Write>(&self, f: &mut fmt::Formatter<W>) -> fmt::Result {
        write!(f, "{} of {}", self.agreed, self.seen)
    }
}

// The numbers of the first records that differ: a list of fixed room, for a push to a `Vec` can fail, and `add` cannot.
#[derive(Drop)]
pub struct Differing {
    numbers: [u32; MOST],
    noted: usize,
}

impl Model for Differing {
    ghost use Rattle.std.specs.Prelude.{List, ℕ, ◌≤◌, take};

    ghost Value = { List ℕ };

    ghost view = { λ d. take d.noted d.numbers };

    ghost invariant = { λ d. d.noted ≤ 4 };
}

impl Differing {
    pub fn new() -> Self
        ensures { result ≡ [] }
    {
        Differing {
            numbers: [0; MOST],
            noted: 0,
        }
    }

    // Notes a number where there is room for it.
    fn note(&mut self, number: u32)
        ensures { self.new ≡ noted self.old number }
    {
        if self.noted < MOST {
            self.numbers[self.noted] = number;
            self.noted += 1;
        }
    }

    pub fn numbers(&self) -> &[u32]
        ensures { result.now ≡ self.now }
    {
        &self.numbers[..self.noted]
    }
}

// What the replay of the files leaves.
#[derive(Drop)]
pub struct Tally {
    pub counts: [Count; EntryPoint::COUNT],
    pub calls: Differing,
    pub walks: Differing,
}

impl Tally {
    pub fn new() -> Self
        ensures { result ≡ no_tally }
    {
        Tally {
            counts: [Count { seen: 0, agreed: 0 }; EntryPoint::COUNT],
            calls: Differing::new(),
            walks: Differing::new(),
        }
    }

    pub fn count(&self, entry: EntryPoint) -> Count
        ensures { result ≡ count_of self.now.counts entry }
    {
        self.counts[entry as usize]
    }

    // Counts a record of an entry point; the number of one that differs is noted.
    pub fn add(&mut self, entry: EntryPoint, agrees: bool, number: u32)
        ensures { self.new ≡ tallied self.old entry agrees number }
    {
        self.counts[entry as usize].add(agrees);
        if agrees {
            return;
        }
        if entry == EntryPoint::ConfigurationWalk {
            self.walks.note(number);
        } else {
            self.calls.note(number);
        }
    }
}
