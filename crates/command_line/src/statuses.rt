//! The exit statuses of the program, of line mode and of the command `farm` alike.

/// All was answered, or what was asked for was shown.
pub const DONE: u8 = 0;

/// A line, a list or a folder was refused.
pub const REFUSED: u8 = 1;

/// The arguments or the settings are refused.
pub const USAGE: u8 = 2;

/// A device failed.
pub const DEVICE: u8 = 3;

/// Memory or a thread was refused.
pub const NO_RESOURCES: u8 = 4;
