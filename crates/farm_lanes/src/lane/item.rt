//! What is in a lane.

/// A value of a sender, or its end mark. The number counts the sender's own puts from 0.
#[derive(Drop)]
pub enum Item<T> {
    /// A value that the sender put.
    Value { sender: u32, number: u64, value: T },

    /// The sender's end mark, which has the number after the last value.
    End { sender: u32, number: u64 },
}
