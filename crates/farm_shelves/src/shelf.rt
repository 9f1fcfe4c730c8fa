//! Shelves: named files on a device that may fail.
ghost use Rattle.std.specs.Prelude.{◌≡◌, ℕ, List, ◌<◌, ◌^◌, Option, None, IfOk, IfSome, take, option_map};
ghost use Rattle.std.specs.Thread.{IsSync};
ghost use Rattle.farm_shelves.specs.Files.{CountsFailure, Shown, Writes};

use std::alloc::Global;
use std::thread::Threads;
use thiserror::Error;

/// Why a call of a shelf failed.
#[derive(Clone, Copy, Debug, Error, PartialEq, Eq)]
pub enum ShelfFault {
    /// E24: the device failed in that call.
    #[error("the device failed")]
    Device,
    /// E16: memory was refused.
    #[error("out of memory")]
    OutOfMemory,
}

/// A file that is to be read: its name, and the most bytes that are read of it.
pub type FileRead = (String, usize);

/// Named files on a device that may fail.
pub trait Shelf {
    /// The files, where the shelf shows them.
    ghost files: { Self → Shown } = { λ _. None };

    /// How often the device failed.
    ghost failed: { Self → ℕ };

    /// How often the device failed so far.
    fn failures(&self) -> u64
        ensures { result ≡ failed self.now };

    /// The first bytes of a file, as many as the limit at most; none where there is no such file. Changes no file. Where the file was
    /// read ahead they are those that it had then, also if it has changed since.
    fn read(
        &mut self,
        alloc: Global,
        name: &str,
        limit: usize,
    ) -> Result<Option<Vec<u8>>, ShelfFault>
        requires { failed self.old < 2 ^ 63 }
        ensures bytes { IfOk result (λ v. IfSome (files self.old)
            (λ there. option_map (λ b. b.items) v ≡ option_map (take limit) (there name.now))) }
        ensures same { files self.new ≡ files self.old }
        ensures failure { CountsFailure result (failed self.old) (failed self.new) };

    /// Whether the shelf has read so many files ahead, of which this one is read next, up to this limit. A shelf that doesn't say
    /// otherwise has not.
    fn has_ahead(&self, _name: &str, _limit: usize, _count: usize) -> bool {
        false
    }

    /// Gives the shelf the names and limits of the files that are read next, in this order, so that it may read them ahead in at most
    /// so many threads. It answers no read, counts no failure and has no refusal: where it is refused memory or a thread, less is read
    /// ahead. A shelf that doesn't say otherwise reads nothing ahead.
    fn read_ahead<H: Threads + Sync>(
        &mut self,
        _rt: &H,
        _alloc: Global,
        _files: Vec<FileRead>,
        _threads: usize,
    )
        requires { IsSync H.row }
        ensures same { files self.new ≡ files self.old }
        ensures failure { failed self.new ≡ failed self.old }
    {}

    /// Does some work, and gives what it gives. The files are those that are read next, so that the shelf may read them ahead while
    /// the work is done, in at most so many further threads; none where these were named before, or nothing is read after the work.
    /// Work that fails beside the reading is done once more alone, after what was read ahead is dropped, so that it never fails for
    /// memory or a thread that the reading took. As `read_ahead`, it answers no read and counts no failure. A shelf that doesn't say
    /// otherwise does the work once, alone.
    fn read_beside<H: Threads + Sync, T: Drop, E: Drop, F: Fn() -> Result<T, E>>(
        &mut self,
        _rt: &H,
        _alloc: Global,
        _files: Vec<FileRead>,
        _threads: usize,
        work: F,
    ) -> Result<T, E>
        requires sync { IsSync H.row }
        requires work { F.pre work }
        ensures worked { F.post work result }
        ensures same { files self.new ≡ files self.old }
        ensures failure { failed self.new ≡ failed self.old }
    {
        work()
    }

    /// Gives the shelf memory that files were read into, so that it may read others into it. What is in it is never given by a read.
    /// A shelf that doesn't say otherwise drops it.
    fn keep_rooms(&mut self, _rooms: Vec<Vec<u8>>)
        ensures same { files self.new ≡ files self.old }
        ensures failure { failed self.new ≡ failed self.old }
    {}

    /// Replaces a whole file. After a failure of the device nothing is known of this file, and the others are as they
    /// were; if memory is refused no file changes.
    fn write(&mut self, alloc: Global, name: &str, bytes: &[u8]) -> Result<(), ShelfFault>
        requires { failed self.old < 2 ^ 63 }
        ensures written { Writes result name.now bytes.now (files self.old) (files self.new) }
        ensures failure { CountsFailure result (failed self.old) (failed self.new) };
}
