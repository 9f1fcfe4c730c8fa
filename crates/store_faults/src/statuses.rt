//! The program's exit statuses.

/// All is done: after a repair or a scrub the store is whole.
pub const DONE: u8 = 0;

/// Something is left: a fragment is lost or damaged, or the store was refused.
pub const LEFT: u8 = 1;

/// The arguments have a mistake.
pub const USAGE: u8 = 2;

/// The system refused to read or write something.
pub const DEVICE: u8 = 3;

/// Memory was refused.
pub const NO_MEMORY: u8 = 4;
