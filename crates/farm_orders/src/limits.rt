//! The limits of a farm. `specs/Limits.antt` has them for contracts.

/// The most orders that a rack's list may have.
pub const MOST_ORDERS: usize = 4096;

/// The most racks.
pub const MOST_RACKS: usize = 16;

/// The most feeds of a rack.
pub const MOST_FEEDS: usize = 4;

/// The most workers.
pub const MOST_WORKERS: usize = 16;

/// The greatest capacity of each queue, in jobs or replies.
pub const MOST_QUEUE: usize = 1024;
