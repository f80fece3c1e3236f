// Recorded calls and walks: their files, their heads and their entry points.
#![tactic(auto)]

pub mod entry;
pub mod file;
pub mod head;
