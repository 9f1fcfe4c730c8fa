//! Why a file isn't encoded or read.
use crate::faults::store::StoreFault;
use crate::statuses::{DEVICE, LEFT, NO_MEMORY, USAGE};
use crate::system_words::words_of;
use std::alloc::{AllocError, AllocFailed, Global};
use std::io::{self, ErrorKind};
use thiserror::Error;

/// Why a file isn't encoded or read.
#[derive(Debug, Error)]
pub enum FileFault {
    #[error("out of memory")]
    OutOfMemory,
    /// It can't be done with what is there. The text says why.
    #[error("{what}")]
    Refused { what: String },
    /// The arguments ask for what mustn't be. The text says why.
    #[error("{what}")]
    Usage { what: String },
    /// The system refused to read or write what is at a path, with these words.
    #[error("{path}: {error}")]
    Device { path: String, error: String },
    /// The store is refused.
    #[error("{fault}")]
    Store { fault: StoreFault },
}

impl Drop for FileFault {
    fn drop(self) {
        match self {
            FileFault::OutOfMemory => {}
            FileFault::Refused { what: _ } => {}
            FileFault::Usage { what: _ } => {}
            FileFault::Device { path: _, error: _ } => {}
            FileFault::Store { fault: _ } => {}
        }
    }
}

impl From<AllocError> for FileFault {
    fn from(_error: AllocError) -> FileFault {
        FileFault::OutOfMemory
    }
}

impl<T: Drop> From<AllocFailed<T>> for FileFault {
    fn from(_failed: AllocFailed<T>) -> FileFault {
        FileFault::OutOfMemory
    }
}

impl From<StoreFault> for FileFault {
    fn from(fault: StoreFault) -> FileFault {
        if matches!(&fault, StoreFault::OutOfMemory) {
            return FileFault::OutOfMemory;
        }
        FileFault::Store { fault }
    }
}

/// What the system refused at a path.
pub fn device(alloc: Global, path: &str, error: io::Error) -> FileFault {
    if error.kind() == ErrorKind::OutOfMemory {
        return FileFault::OutOfMemory;
    }
    match words_of(alloc, &error) {
        Ok(error) => device_words(alloc, path, error),
        Err(AllocError) => FileFault::OutOfMemory,
    }
}

/// What the system refused at a path, in its words.
fn device_words(alloc: Global, path: &str, error: String) -> FileFault {
    match String::from_str(alloc, path) {
        Ok(path) => FileFault::Device { path, error },
        Err(AllocError) => FileFault::OutOfMemory,
    }
}

/// What the system refused of the file at a path that is encoded, or that it was changed meanwhile.
pub fn source_fault(alloc: Global, path: &str, error: io::Error) -> FileFault {
    // It has another time of change, or fewer bytes or more than it had.
    let is_changed = matches!(
        error.kind(),
        ErrorKind::ResourceBusy | ErrorKind::UnexpectedEof
    );
    if !is_changed {
        return device(alloc, path, error);
    }
    match format!(in alloc; "{path}: changed while it was read") {
        Ok(what) => FileFault::Refused { what },
        Err(AllocError) => FileFault::OutOfMemory,
    }
}

impl FileFault {
    /// The exit status of a command that a fault ends.
    pub fn status(&self) -> u8 {
        match self {
            FileFault::OutOfMemory => NO_MEMORY,
            FileFault::Refused { .. } => LEFT,
            FileFault::Usage { .. } => USAGE,
            FileFault::Device { .. } => DEVICE,
            FileFault::Store { fault } => fault.status(),
        }
    }
}
