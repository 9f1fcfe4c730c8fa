//! Why arguments are refused.
use std::alloc::{AllocError, AllocFailed};
use store_folder::PatternFault;
use thiserror::Error;

/// Why arguments are refused. The text of each is whole, and ends with a line feed.
#[derive(Debug, Drop, Error)]
pub enum UsageFault {
    /// A mistake that the parser finds, or that no command is given.
    #[error("{0}")]
    Mistake(String),
    #[error("error: {0}\n")]
    BadPattern(PatternFault),
    /// A pattern of names has the shards' numbers, which only a code gives.
    #[error("error: names with {{shard}} need --code\n")]
    NeedsCode,
    #[error("error: --part takes I/N, with I from 1 to N\n")]
    BadPart,
    #[error("error: --workers takes a number from 1 to 16\n")]
    BadWorkers,
    #[error("error: --rate takes a number of bytes, from 1, as 500K, 50M or 1G\n")]
    BadRate,
    #[error("error: --report and --progress take two files\n")]
    TwoFiles,
    #[error("error: --as and - take one FILE alone\n")]
    OneFile,
    #[error("error: - needs a name, --as NAME\n")]
    NeedsName,
    #[error("error: --as takes a name without /\n")]
    FolderInName,
    #[error("out of memory")]
    OutOfMemory,
}

impl From<AllocError> for UsageFault {
    fn from(_error: AllocError) -> UsageFault {
        UsageFault::OutOfMemory
    }
}

impl<T: Drop> From<AllocFailed<T>> for UsageFault {
    fn from(_failed: AllocFailed<T>) -> UsageFault {
        UsageFault::OutOfMemory
    }
}
