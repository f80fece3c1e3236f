// types.rs, request.rs, pipe.rs and descriptors.rs: answers and their numbers, setup packets, the bytes of an action, and
// the codes that the driver decides on.
#![tactic(auto)]

pub mod descriptors;
pub mod pipe;
pub mod request;
pub mod types;
