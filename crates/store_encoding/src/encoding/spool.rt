//! Standard input, kept in a file of the store's folder while it is encoded, since that takes its length first.
use crate::encoding::discarding::discard_file;
use crate::encoding::failures::{after_discarding, go_on_after};
use std::alloc::Global;
use std::io::{self, ErrorKind, Read};
use store_faults::{FileFault, device};
use store_files::Target;
use store_folder::{NewFile, SystemFolder, create_private};
use store_progress::{Progress, most_file_bytes, too_long};
use store_repair::NewFragment;

/// How many bytes are read at once.
const BLOCK: usize = 262_144;

/// A file with what standard input had. A run that is killed leaves it under a name of those that the next run removes.
#[derive(Drop)]
pub struct Spool {
    file: NewFile,
}

impl Spool {
    /// Writes standard input to a new file in a folder, which nobody but its user may read.
    pub fn fill(rt: &HostRuntime, folder: &str, progress: &Progress) -> Result<Spool, FileFault> {
        let alloc = rt.alloc();
        let mut file = match create_private(rt, &mut SystemFolder::new(rt), folder) {
            Ok(file) => file,
            Err(error) => return Err(device(alloc, folder, error)),
        };
        match copy(rt, &mut file, folder) {
            Ok(()) => Ok(Spool { file }),
            Err(fault) => {
                let removed = discard_file(rt, file);
                Err(after_discarding(rt, progress, fault, removed))
            }
        }
    }

    /// The path of the file.
    pub fn path(&self) -> &str {
        self.file.path()
    }

    /// Removes the file, of which this came. If it can't be removed, that is said and noted, or given if it is graver.
    pub fn remove(
        self,
        rt: &HostRuntime,
        target: &mut Target<'_>,
        progress: &Progress,
        encoded: Result<(), FileFault>,
    ) -> Result<(), FileFault> {
        let removed = discard_file(rt, self.file);
        if let Err(fault) = encoded {
            return Err(after_discarding(rt, progress, fault, removed));
        }
        match removed {
            Ok(()) => Ok(()),
            Err(fault) => {
                progress.clear(rt);
                go_on_after(rt, target, fault)
            }
        }
    }
}

/// Writes standard input to a new file in a folder.
fn copy(rt: &HostRuntime, file: &mut NewFile, folder: &str) -> Result<(), FileFault> {
    let mut block = Vec::from_elem(rt.alloc(), 0u8, BLOCK)?;
    copy_by(rt, file, folder, block.as_mut_slice())
}

/// Writes standard input to a new file in a folder, by way of a block of bytes.
fn copy_by(
    rt: &HostRuntime,
    file: &mut NewFile,
    folder: &str,
    block: &mut [u8],
) -> Result<(), FileFault> {
    let alloc = rt.alloc();
    let most = most_file_bytes(rt).unwrap_or(u64::MAX);
    let mut input = rt.stdin();
    let mut written = 0u64;
    for _read in 0..u64::MAX {
        let many = match input.read(block) {
            Ok(0) => return Ok(()),
            Ok(many) => many,
            Err(error) if error.kind() == ErrorKind::Interrupted => continue,
            Err(error) => return Err(of_input(alloc, error)),
        };
        written = written.saturating_add(many as u64);
        if written > most {
            return Err(of_input(alloc, too_long()));
        }
        let (bytes, _) = block.split_at(many.min(block.len()));
        if let Err(error) = file.append(bytes) {
            return Err(device(alloc, folder, error));
        }
    }
    Ok(())
}

/// That standard input can't be read, or is too long.
fn of_input(alloc: Global, error: io::Error) -> FileFault {
    device(alloc, "standard input", error)
}
