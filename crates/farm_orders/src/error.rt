//! Why a farm gives no answers.
ghost use Rattle.std.specs.Prelude.{◌≡◌};
ghost use Rattle.farm_orders.specs.declared.error.FarmError.TheVariants.{OutOfMemory};

use std::alloc::AllocError;
use thiserror::Error;

/// Why a farm gives no answers.
#[derive(Debug, Drop, Error)]
pub enum FarmError {
    /// E16: memory was refused.
    #[error("out of memory")]
    OutOfMemory,
    /// E17: a thread was refused.
    #[error("a thread was refused")]
    NoThread,
}

impl From<AllocError> for FarmError {
    ghost from_gives = { λ _ e. e ≡ OutOfMemory };

    fn from(_error: AllocError) -> FarmError {
        FarmError::OutOfMemory
    }
}
