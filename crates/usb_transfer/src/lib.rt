// usbd.rs, the transfer: what a call works on, the log of actions and the outcomes.
#![tactic(auto)]

pub mod bus;
pub mod log;
pub mod outcome;
