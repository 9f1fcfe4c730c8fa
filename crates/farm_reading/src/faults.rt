//! Why serving ends.
ghost use Rattle.std.specs.Prelude.{◌≡◌};
ghost use Rattle.farm_reading.specs.declared.faults.ServeFault.TheVariants as fault;
ghost use Rattle.farm_reading.specs.Causes.{of_farm, of_shelf};

use farm_lists::ListFault;
use farm_orders::FarmError;
use farm_shelves::ShelfFault;
use std::alloc::{AllocError, AllocFailed};
use thiserror::Error;

/// Why serving a folder ended.
#[derive(Clone, Copy, Debug, Error, PartialEq, Eq)]
pub enum ServeFault {
    /// The list of a rack's feed is refused; it is the first that is.
    #[error("the list of feed {feed} of rack {rack}: {fault}")]
    List {
        rack: usize,
        feed: usize,
        fault: ListFault,
    },
    /// E28: a rack has more than 4 feeds.
    #[error("a rack has more than 4 feeds")]
    BadFeeds,
    /// E18: there is a list of a seventeenth rack.
    #[error("there are more than 16 racks")]
    TooManyRacks,
    /// E23: there is no list of rack 0.
    #[error("there is no rack0.csv")]
    NoRacks,
    /// E24: a device failed while a list was read or a file was written.
    #[error("the device failed")]
    Device,
    /// E17: a thread was refused.
    #[error("a thread was refused")]
    NoThread,
    /// E16: memory was refused.
    #[error("out of memory")]
    OutOfMemory,
}

impl From<AllocError> for ServeFault {
    ghost from_gives = { λ _ f. f ≡ fault.OutOfMemory };

    fn from(_error: AllocError) -> ServeFault {
        ServeFault::OutOfMemory
    }
}

impl<T: Drop> From<AllocFailed<T>> for ServeFault {
    ghost from_gives = { λ _ f. f ≡ fault.OutOfMemory };

    fn from(_error: AllocFailed<T>) -> ServeFault {
        ServeFault::OutOfMemory
    }
}

impl From<FarmError> for ServeFault {
    ghost from_gives = { λ e f. f ≡ of_farm e };

    fn from(error: FarmError) -> ServeFault {
        match error {
            FarmError::OutOfMemory => ServeFault::OutOfMemory,
            FarmError::NoThread => ServeFault::NoThread,
        }
    }
}

impl From<ShelfFault> for ServeFault {
    ghost from_gives = { λ e f. f ≡ of_shelf e };

    fn from(error: ShelfFault) -> ServeFault {
        match error {
            ShelfFault::Device => ServeFault::Device,
            ShelfFault::OutOfMemory => ServeFault::OutOfMemory,
        }
    }
}
