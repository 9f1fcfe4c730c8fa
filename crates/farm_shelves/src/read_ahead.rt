//! A shelf over a folder of the system whose files are read ahead in threads.
ghost use Rattle.std.specs.Prelude.{◌≡◌, None, IfOk};
ghost use Rattle.std.specs.Thread.{IsSync};
ghost use Rattle.farm_shelves.specs.ReadAhead.{read_ahead_failed, read_ahead_path};

use crate::ahead::{ReadAhead, has_ahead, read_all, read_beside, take_ahead};
use crate::folder::FolderShelf;
use crate::shelf::{FileRead, Shelf, ShelfFault};
use std::alloc::{AllocError, Global};
use std::mem;
use std::thread::Threads;

/// The memory that is held until files are read ahead. The C library gives free memory back to the system after each batch, unless it
/// has seen a block come back that is as large: it then keeps twice as much. It looks at no block of more than 32 MiB.
const HELD: usize = 25_165_824;

/// A shelf over a folder of the system that reads and writes as a `FolderShelf`, and reads ahead in threads what is named to it. It does so
/// for the system's own runtime alone, since no proof speaks of a type parameter's files in several threads.
///
/// A file that changes between being read ahead and being read gives the bytes that it had when it was read ahead. A read ahead that
/// failed is made again in its turn. A read of another file than the next one that was named, or a write, drops what was read ahead.
pub struct ReadAheadShelf {
    folder: FolderShelf<HostRuntime>,
    /// The files that were read ahead, the next one last.
    ahead: Vec<ReadAhead>,
    /// Memory that files were read into before.
    rooms: Vec<Vec<u8>>,
    /// Given back before the first files are read ahead; nothing is ever in it.
    held: Vec<u8>,
}

impl Drop for ReadAheadShelf {
    fn drop(self) {
        let ReadAheadShelf {
            folder: _,
            ahead: _,
            rooms: _,
            held: _,
        } = self;
    }
}

impl ReadAheadShelf {
    /// The shelf over the folder at this path. Touches no device: where the folder isn't there, `read` finds no file and
    /// `write` fails. Until files are named to be read ahead it holds 24 MiB of address space, if it gets them.
    pub fn open(
        system: &HostRuntime,
        alloc: Global,
        path: &str,
    ) -> Result<ReadAheadShelf, AllocError>
        ensures path { IfOk result (λ s. read_ahead_path s ≡ path.now) }
        ensures failures { IfOk result (λ s. read_ahead_failed s ≡ 0) }
    {
        let folder = FolderShelf::open(system, alloc, path)?;
        let held = match Vec::with_capacity(alloc, HELD) {
            Ok(held) => held,
            Err(_) => Vec::new(alloc),
        };
        Ok(ReadAheadShelf {
            folder,
            ahead: Vec::new(alloc),
            rooms: Vec::new(alloc),
            held,
        })
    }

    /// Whether these files were read ahead, by the first of them and their number.
    fn has_each_ahead(&self, files: &[FileRead]) -> bool {
        match files.first() {
            Some((name, limit)) => self.has_ahead(name.as_str(), *limit, files.len()),
            None => true,
        }
    }

    /// The files that are to be read ahead, the last one first. What was read ahead before is dropped, and the memory that none of them is
    /// read into.
    fn list_ahead(
        &mut self,
        alloc: Global,
        files: Vec<FileRead>,
    ) -> Result<Vec<ReadAhead>, AllocError>
        ensures { read_ahead_failed self.new ≡ read_ahead_failed self.old }
    {
        self.ahead.clear();
        self.held = Vec::new(alloc);
        let mut rooms = mem::replace(&mut self.rooms, Vec::new(alloc));
        let mut ahead = Vec::with_capacity(alloc, files.len())?;
        for file in files.into_iter().rev() {
            ahead.push(ReadAhead::listed(alloc, file, &mut rooms)?)?;
        }
        Ok(ahead)
    }

    /// Does some work while files are read ahead, unless they were or memory is refused for it.
    fn work_beside<H: Threads + Sync, T: Drop, E: Drop, F: Fn() -> Result<T, E>>(
        &mut self,
        rt: &H,
        alloc: Global,
        files: Vec<FileRead>,
        threads: usize,
        work: &F,
    ) -> Result<T, E>
        requires sync { IsSync H.row }
        requires work { F.pre work.now }
        ensures worked { F.post work.now result }
        ensures failure { read_ahead_failed self.new ≡ read_ahead_failed self.old }
    {
        if self.has_each_ahead(files.as_slice()) {
            return work();
        }
        let Ok(listed) = self.list_ahead(alloc, files) else {
            return work();
        };
        let (ahead, done) = read_beside(rt, alloc, &self.folder, listed, threads, work);
        self.ahead = ahead;
        done
    }
}

impl Shelf for ReadAheadShelf {
    ghost files = { λ s. None };

    ghost failed = { λ s. read_ahead_failed s };

    fn failures(&self) -> u64 {
        self.folder.failures()
    }

    fn read(
        &mut self,
        alloc: Global,
        name: &str,
        limit: usize,
    ) -> Result<Option<Vec<u8>>, ShelfFault> {
        if let Some(read) = take_ahead(&mut self.ahead, name, limit) {
            return Ok(read);
        }
        self.folder.read(alloc, name, limit)
    }

    fn has_ahead(&self, name: &str, limit: usize, count: usize) -> bool {
        has_ahead(self.ahead.as_slice(), name, limit, count)
    }

    fn read_ahead<H: Threads + Sync>(
        &mut self,
        rt: &H,
        alloc: Global,
        files: Vec<FileRead>,
        threads: usize,
    ) {
        if self.has_each_ahead(files.as_slice()) {
            return;
        }
        if let Ok(listed) = self.list_ahead(alloc, files) {
            self.ahead = read_all(rt, alloc, &self.folder, listed, threads);
        }
    }

    fn read_beside<H: Threads + Sync, T: Drop, E: Drop, F: Fn() -> Result<T, E>>(
        &mut self,
        rt: &H,
        alloc: Global,
        files: Vec<FileRead>,
        threads: usize,
        work: F,
    ) -> Result<T, E> {
        let done = self.work_beside(rt, alloc, files, threads, &work);
        if done.is_ok() || self.ahead.is_empty() {
            return done;
        }
        self.ahead.clear();
        work()
    }

    fn keep_rooms(&mut self, rooms: Vec<Vec<u8>>) {
        self.rooms = rooms;
    }

    fn write(&mut self, alloc: Global, name: &str, bytes: &[u8]) -> Result<(), ShelfFault> {
        // What was read ahead may be of this file.
        self.ahead.clear();
        self.folder.write(alloc, name, bytes)
    }
}
