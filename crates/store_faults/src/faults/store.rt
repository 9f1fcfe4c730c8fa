//! Why a store is refused.
use crate::statuses::{DEVICE, LEFT, NO_MEMORY, USAGE};
use crate::system_words::words_of;
use std::alloc::{AllocError, AllocFailed};
use std::io::{self, ErrorKind};
use store_records::SumsFault;
use thiserror::Error;

/// Why a store is refused.
#[derive(Debug, Error)]
pub enum StoreFault {
    #[error("out of memory")]
    OutOfMemory,
    /// The system refused to read the folder, or another file, with these words.
    #[error("{folder}: {error}")]
    Device {
        folder: String,
        error: String,
    },
    /// Another run works in the store.
    #[error("{folder}: another run works in this store")]
    InUse {
        folder: String,
    },
    /// Another run may work in the store: this file of its lock is there, on a file system of whose locks nothing is known.
    #[error("{path}: {run} may work in this store: if it has ended, remove this file")]
    MayBeInUse {
        path: String,
        run: String,
    },
    /// No file in the folder is named as a fragment.
    #[error("{folder}: no file is named as a fragment, {names}: is this the store?")]
    NoFragments {
        folder: String,
        names: String,
    },
    /// No stripe whose fragments can be checked is one of the code; this is one of them.
    #[error("{folder}: no stripe fits the code {code}, as {stripe}: is this the store? With --code {code} each is named")]
    FitsNot {
        folder: String,
        code: &'static str,
        stripe: String,
    },
    /// All stripes are of the other code than the one that was given.
    #[error("{folder}: has fragments of the code {other}: give --code {other}, or another folder")]
    OtherCode {
        folder: String,
        other: &'static str,
    },
    /// A run by root, in a folder that other users may write into.
    #[error("{folder}: user {user} or others may write there, and lead root elsewhere: run as that user, or give --trust-writers")]
    Untrusted {
        folder: String,
        user: u32,
    },
    /// No disk is mounted at a folder, as are at most others.
    #[error("{folder}: no disk is mounted there, as are at most others: mount it, or give --allow-unmounted")]
    Unmounted {
        folder: String,
    },
    /// A report would be written over a file of the store.
    #[error("{path}: is a file of the store, and no place for a report")]
    ReportInStore {
        path: String,
    },
    /// A file of checksums isn't one.
    #[error("{path}: {fault}")]
    BadSums {
        path: String,
        fault: SumsFault,
    },
}

impl Drop for StoreFault {
    fn drop(self) {
        match self {
            StoreFault::OutOfMemory => {}
            StoreFault::Device {
                folder: _,
                error: _,
            } => {}
            StoreFault::InUse { folder: _ } => {}
            StoreFault::MayBeInUse { path: _, run: _ } => {}
            StoreFault::NoFragments {
                folder: _,
                names: _,
            } => {}
            StoreFault::FitsNot {
                folder: _,
                code: _,
                stripe: _,
            } => {}
            StoreFault::OtherCode {
                folder: _,
                other: _,
            } => {}
            StoreFault::Untrusted { folder: _, user: _ } => {}
            StoreFault::Unmounted { folder: _ } => {}
            StoreFault::ReportInStore { path: _ } => {}
            StoreFault::BadSums { path: _, fault: _ } => {}
        }
    }
}

impl From<AllocError> for StoreFault {
    fn from(_error: AllocError) -> StoreFault {
        StoreFault::OutOfMemory
    }
}

impl<T: Drop> From<AllocFailed<T>> for StoreFault {
    fn from(_failed: AllocFailed<T>) -> StoreFault {
        StoreFault::OutOfMemory
    }
}

/// What the system refused of a folder or of another file.
pub fn device_fault(folder: String, error: io::Error) -> StoreFault {
    if error.kind() == ErrorKind::OutOfMemory {
        return StoreFault::OutOfMemory;
    }
    match words_of(*folder.allocator(), &error) {
        Ok(error) => StoreFault::Device { folder, error },
        Err(AllocError) => StoreFault::OutOfMemory,
    }
}

impl StoreFault {
    /// The exit status of a command whose store is refused.
    pub fn status(&self) -> u8 {
        match self {
            StoreFault::Device { .. } => DEVICE,
            StoreFault::OutOfMemory => NO_MEMORY,
            StoreFault::Untrusted { .. } | StoreFault::ReportInStore { .. } => USAGE,
            StoreFault::InUse { .. }
            | StoreFault::MayBeInUse { .. }
            | StoreFault::OtherCode { .. }
            | StoreFault::NoFragments { .. }
            | StoreFault::FitsNot { .. }
            | StoreFault::Unmounted { .. }
            | StoreFault::BadSums { .. } => LEFT,
        }
    }
}
