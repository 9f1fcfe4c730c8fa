//! What is known of a gate's seats. It exists in proofs alone: no value of a record is made.
use std::collections::LinkedList;

/// What one seat has done, and what it may still do.
pub(crate) struct SeatRecord {
    /// How many draws it may make in all.
    pub share: u64,

    /// How many draws it made, refused ones too.
    pub draws: u64,

    /// The numbers that it was given.
    pub numbers: LinkedList<u64>,

    /// How many rights to close it holds.
    pub held: u64,

    /// How many rights to close it used up.
    pub used: u64,

    /// Whether it knows that the gate is closed.
    pub knows: bool,

    /// The answers of the closes that it made.
    pub made: LinkedList<u64>,
}

/// The sum of all shares at the opening of a gate, and the number of its rights.
#[derive(Drop)]
pub(crate) struct GateSize {
    pub total: u64,
    pub rights: u64,
}
