//! Files of a folder in memory.
ghost use Rattle.std.specs.Prelude.{length, string_bytes};

use folders::{
    Identity, Kind, NewFile, OpenFile, Record, Rights, Status, Time, WholeFile, Written,
};
use std::io::{self, ErrorKind};

/// A file of a memory folder that is open for reading.
#[derive(Drop)]
pub struct MemoryOpen {
    pub(crate) bytes: Vec<u8>,
    pub(crate) status: Status,
}

/// A file of a memory folder that was made.
#[derive(Drop)]
pub struct MemoryNew {
    pub(crate) node: usize,
    pub(crate) path: String,
    pub(crate) bytes: Vec<u8>,
    pub(crate) made: Record,
    pub(crate) written: Written,
}

/// A file of a memory folder that was made and is on the disk.
#[derive(Drop)]
pub struct MemoryWhole {
    pub(crate) node: usize,
    pub(crate) path: String,
    pub(crate) made: Record,
}

const RIGHTS: Rights = Rights {
    user: 0,
    group: 0,
    mode: 0o600,
};

const NEVER: Time = Time {
    seconds: 0,
    billionths: 0,
};

/// What is said of a file of this number and with so many bytes.
pub(crate) fn status_of(node: usize, length: usize) -> Status {
    Status {
        kind: Kind::File,
        length: length as u64,
        identity: Identity {
            device: 0,
            node: node as u64,
        },
        rights: RIGHTS,
        paths: 1,
        modified: NEVER,
        changed: NEVER,
    }
}

impl OpenFile for MemoryOpen {
    fn status(&self) -> io::Result<Status> {
        Ok(self.status)
    }

    fn read_exact_at(&self, from: u64, bytes: &mut [u8]) -> io::Result<()> {
        let from = (from as usize).min(self.bytes.len());
        let rest = &self.bytes[from..];
        if rest.len() < bytes.len() {
            return Err(io::Error::from(ErrorKind::UnexpectedEof));
        }
        for (to, byte) in bytes.iter_mut().zip(rest) {
            *to = *byte;
        }
        Ok(())
    }
}

impl NewFile for MemoryNew {
    ghost written = { λ file. file.written.bytes };

    ghost number = { λ file. length file.made.calls };

    ghost path = { λ file. string_bytes file.path };

    fn made_at(&self) -> &str {
        self.path.as_str()
    }

    fn append(&mut self, bytes: &[u8]) -> io::Result<()> {
        let answer = self.bytes.extend_from_slice(bytes);
        self.written = Written::with(&self.written, bytes, answer.is_ok());
        match answer {
            Ok(()) => Ok(()),
            Err(error) => Err(io::Error::from(error)),
        }
    }

    fn status(&self) -> io::Result<Status> {
        Ok(status_of(self.node, self.bytes.len()))
    }

    fn try_lock(&self) -> io::Result<bool> {
        Ok(true)
    }

    fn set_owner(&self, _rights: &Rights) -> io::Result<()> {
        Ok(())
    }

    fn set_mode(&self, _mode: u32) -> io::Result<()> {
        Ok(())
    }
}

impl WholeFile for MemoryWhole {
    ghost number = { λ file. length file.made.calls };

    ghost path = { λ file. string_bytes file.path };

    fn made_at(&self) -> &str {
        self.path.as_str()
    }
}
