//! The gate that a worker passes before each vertex.

/// What a worker calls before each vertex that it visits, so that a test can let workers meet. It
/// decides nothing, and promises nothing but to return.
pub trait Gate: Sync + Drop {
    /// Lets worker number `worker` pass, whose calls of the gate in its round are counted by `turn`
    /// from 0.
    fn pass(&self, worker: u32, turn: u64);
}

/// The gate that lets every worker pass at once.
#[derive(Clone, Copy, Debug)]
pub struct OpenGate;

impl Gate for OpenGate {
    fn pass(&self, _worker: u32, _turn: u64) {}
}
