//! The limits of lanes and gates.

/// The greatest capacity of a lane, in items.
pub const MOST_CAPACITY: usize = 1024;

/// The greatest number of put ends of a lane.
pub const MOST_PUT_ENDS: usize = 128;

/// The greatest number of take ends of a lane.
pub const MOST_TAKE_ENDS: usize = 32;

/// The greatest number of seats that a gate is opened with.
pub const MOST_SEATS: usize = 16;

/// The greatest number of rights to close that a gate is opened with.
pub const MOST_RIGHTS: usize = 16;

/// The greatest number of draws of a gate over all its seats, refused ones counted.
pub const MOST_DRAWS: u64 = 4294967296;
