// How a call begins and ends: its refusals at entry, and what it hands back.
#![tactic(auto)]

pub mod reply;
pub mod verdict;
