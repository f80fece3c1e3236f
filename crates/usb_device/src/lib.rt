// device.rs and hcd/hub.rs: the records of the store. The store is a slice of C's caller, so each function that takes it asks for
// its length.
#![tactic(auto)]

pub mod device;
pub mod hub;
