//! Files that are refused.
use std::alloc::AllocError;
use store_faults::FileFault;

/// That a file is refused for what a text says, if there was memory for that.
pub(crate) fn refused(text: Result<String, AllocError>) -> FileFault {
    match text {
        Ok(what) => FileFault::Refused { what },
        Err(AllocError) => FileFault::OutOfMemory,
    }
}
