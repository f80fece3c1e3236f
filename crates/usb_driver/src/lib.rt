// Attach, hub attach, port check and connection change, which call each other; the attach of the root hub.
#![tactic(auto)]

pub mod hub;
pub mod usbd;
