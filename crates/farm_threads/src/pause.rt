//! Calls around each request, by which tests hold workers.

/// What a worker calls around each request, and a feeder around each draw and close; the threads that a run starts for them have stacks
/// of 1 MiB. Racks, feeds, positions and numbers count from 0.
pub trait Pause: Sync {
    /// Before a request is solved.
    fn before(&self, rack: usize, number: u64);

    /// When the reply to a request is ready.
    fn after(&self, rack: usize, number: u64);

    /// Before a feeder's draw or close, for the order at this position of its list.
    fn ahead(&self, _rack: usize, _feed: usize, _position: usize) {}

    /// After that draw or close.
    fn behind(&self, _rack: usize, _feed: usize, _position: usize) {}
}

/// Does nothing.
#[derive(Clone, Copy, Debug)]
pub struct NoPause;

impl Pause for NoPause {
    fn before(&self, _rack: usize, _number: u64) {}

    fn after(&self, _rack: usize, _number: u64) {}
}
