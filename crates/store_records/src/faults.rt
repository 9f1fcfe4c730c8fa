//! Why a file of sums can't be read.
use crate::sums::LineFault;
use std::io::{self, ErrorKind};
use thiserror::Error;

/// Why a file of sums can't be read.
#[derive(Debug, Drop, Error)]
pub enum SumsFault {
    #[error("out of memory")]
    OutOfMemory,
    /// The system refused to read the file, or it is no regular file.
    #[error("{error}")]
    Unread { error: io::Error },
    /// The line of this number, from 1 on, has another form.
    #[error("line {line} isn't as sha256sum writes it: 64 digits, two spaces or ' *', a name")]
    NotASum { line: u64 },
    /// The line of this number names a file of which an earlier line has another digest.
    #[error("line {line} has another digest of a file than an earlier line")]
    Contradicts { line: u64 },
}

impl From<LineFault> for SumsFault {
    fn from(fault: LineFault) -> SumsFault {
        match fault {
            LineFault::OutOfMemory => SumsFault::OutOfMemory,
            LineFault::NotASum { line } => SumsFault::NotASum { line },
            LineFault::Contradicts { line } => SumsFault::Contradicts { line },
        }
    }
}

impl From<io::Error> for SumsFault {
    fn from(error: io::Error) -> SumsFault {
        if error.kind() == ErrorKind::OutOfMemory {
            return SumsFault::OutOfMemory;
        }
        SumsFault::Unread { error }
    }
}
