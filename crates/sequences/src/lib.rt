// The stores of a sequence of recorded calls, the check sum of what they leave, and counts of what agreed.
#![tactic(auto)]

pub mod store;
pub mod sum;
pub mod tallies;
pub mod tally;
