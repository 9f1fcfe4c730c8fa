//! How line mode ends: how many lines were replied to, or why there are no replies.
ghost use Rattle.std.specs.Prelude.{◌≡◌};
ghost use Rattle.line_mode.specs.LineMode.{fault_number};
ghost use Rattle.line_mode.specs.declared.outcomes.LineFault.TheVariants as fault;

use std::alloc::AllocError;
use thiserror::Error;

/// How many lines of an input were replied to.
#[derive(Clone, Copy, Debug, PartialEq, Eq)]
pub struct LineCount {
    /// Lines that were answered by an outcome.
    pub answered: u64,
    /// Lines that were refused.
    pub refused: u64,
}

/// Why line mode ended without replies.
#[derive(Clone, Copy, Debug, Error, PartialEq, Eq)]
pub enum LineFault {
    /// The input is longer than 8,388,608 bytes.
    #[error("the input is too long")]
    InputTooLong,
    /// A read or a write failed, or reading took more than 16,777,216 turns.
    #[error("a read or a write failed")]
    Device,
    /// Memory was refused.
    #[error("memory was refused")]
    OutOfMemory,
}

impl From<AllocError> for LineFault {
    ghost from_gives = { λ _ e. e ≡ fault.OutOfMemory };

    fn from(_: AllocError) -> Self {
        LineFault::OutOfMemory
    }
}

impl LineFault {
    /// The fault's number in the table of refusals.
    pub fn number(self) -> u8
        ensures { result ≡ fault_number self }
    {
        match self {
            LineFault::InputTooLong => 25,
            LineFault::Device => 24,
            LineFault::OutOfMemory => 16,
        }
    }
}
