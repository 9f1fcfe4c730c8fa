//! The commands.
pub(crate) mod encode;
pub(crate) mod read;
pub(crate) mod remove;
pub(crate) mod verify;
