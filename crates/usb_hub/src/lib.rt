// device/hub.rs: a hub's ports as they are stored, and the requests to a hub and to its ports.
#![tactic(auto)]

pub mod ports;
pub mod requests;
