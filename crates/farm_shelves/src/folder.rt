//! A shelf over a folder of the system.
ghost use Rattle.std.specs.Prelude.{◌≡◌, ◌<◌, ◌^◌, None, IfOk};
ghost use Rattle.farm_shelves.specs.Files.{CountsFailure};
ghost use Rattle.farm_shelves.specs.Folder.{folder_failed, folder_path};

use crate::regular_files::{open_regular, read_front, write_regular};
use crate::shelf::{Shelf, ShelfFault};
use std::alloc::{AllocError, Global};
use std::rt::Files;

/// A shelf over a folder of the system, which reads each file in its turn. Contracts see only its path and how often it failed, since
/// other programs may change the folder's files.
///
/// It reads and writes regular files, also by links. A read or a write of anything else (a folder, a FIFO, a socket or a device) is a
/// failure of the device: such a file is not opened, since opening a FIFO waits for the other side. What a name is, is asked before it is
/// opened, so a program that puts a FIFO there between the two can still make a call wait.
pub struct FolderShelf<R: Drop> {
    rt: R,
    path: String,
    failed: u64,
}

impl<R: Drop> Drop for FolderShelf<R> {
    fn drop(self) {
        let FolderShelf {
            rt: _,
            path: _,
            failed: _,
        } = self;
    }
}

impl<R: Files + Clone + Drop> FolderShelf<R> {
    /// The shelf over the folder at this path. Touches no device: where the folder isn't there, `read` finds no file and
    /// `write` fails.
    pub fn open(rt: &R, alloc: Global, path: &str) -> Result<FolderShelf<R>, AllocError>
        ensures path { IfOk result (λ s. folder_path s ≡ path.now) }
        ensures failures { IfOk result (λ s. folder_failed s ≡ 0) }
    {
        let path = String::from_str(alloc, path)?;
        Ok(FolderShelf {
            rt: rt.clone()?,
            path,
            failed: 0,
        })
    }
}

impl<R: Drop> FolderShelf<R> {
    /// The folder's path.
    pub fn path(&self) -> &str
        ensures { result.now ≡ folder_path self.now }
    {
        self.path.as_str()
    }

    /// The system that has the folder.
    pub(crate) fn system(&self) -> &R {
        &self.rt
    }

    /// The path of a file of the folder, in place of what the text had.
    pub(crate) fn write_path(&self, path: &mut String, name: &str) -> Result<(), AllocError> {
        path.clear();
        path.push_str(self.path.as_str())?;
        path.push('/')?;
        path.push_str(name)
    }

    /// The path of a file of the folder. Its memory is taken once.
    fn full_path(&self, alloc: Global, name: &str) -> Result<String, AllocError> {
        let room = self.path.len().saturating_add(name.len()).saturating_add(1);
        let mut path = String::with_capacity(alloc, room)?;
        self.write_path(&mut path, name)?;
        Ok(path)
    }

    /// A call's answer, of which a failure of the device is counted.
    fn counted<T: Drop>(&mut self, answer: Result<T, ShelfFault>) -> Result<T, ShelfFault>
        requires { folder_failed self.old < 2 ^ 63 }
        ensures same { result ≡ answer }
        ensures failure { CountsFailure answer (folder_failed self.old) (folder_failed self.new) }
    {
        if let Err(ShelfFault::Device) = &answer {
            self.failed += 1;
        }
        answer
    }
}

impl<R: Files + Clone + Drop> Shelf for FolderShelf<R> {
    ghost files = { λ s. None };

    ghost failed = { λ s. folder_failed s };

    fn failures(&self) -> u64 {
        self.failed
    }

    fn read(
        &mut self,
        alloc: Global,
        name: &str,
        limit: usize,
    ) -> Result<Option<Vec<u8>>, ShelfFault> {
        let Ok(path) = self.full_path(alloc, name) else {
            return Err(ShelfFault::OutOfMemory);
        };
        let read = match open_regular(&self.rt, path.as_str()) {
            Ok(Some(file)) => read_front(Vec::new(alloc), file, limit).map(Some),
            Ok(None) => Ok(None),
            Err(fault) => Err(fault),
        };
        self.counted(read)
    }

    fn write(&mut self, alloc: Global, name: &str, bytes: &[u8]) -> Result<(), ShelfFault> {
        let Ok(path) = self.full_path(alloc, name) else {
            return Err(ShelfFault::OutOfMemory);
        };
        let written = write_regular(&self.rt, path.as_str(), bytes);
        self.counted(written)
    }
}
