// What is right: specs/ defines every function of the driver and every entry point, proofs/ has the laws on them.
#![tactic(auto)]

// How far a call has come: bytes of the log written, bytes of the outcomes taken, requests logged.
#[derive(Clone, Copy)]
pub struct Progress {
    pub logged: usize,
    pub taken: usize,
    pub requests: usize,
}

// Where the bytes that a transfer delivers go: at most room of them, to a field of the device. That they fit there is no ghost field:
// the definitions make a Buffer of any two numbers.
#[derive(Clone, Copy)]
pub struct Buffer {
    pub field: usize,
    pub room: usize,
}

impl Buffer {
    // The bytes are handed back and not stored. No Option: room 0 stores nothing, as the Rust's null buffer of length 0.
    pub const NOWHERE: Buffer = Buffer { field: 0, room: 0 };
}
