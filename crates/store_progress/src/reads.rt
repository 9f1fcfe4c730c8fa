//! What is read of a store's files, counted as far as it is done.
use crate::progress::Progress;
use folders::{Folder, OpenFile, Status};
use std::alloc::{AllocError, Global};
use std::io;
use std::sync::Arc;
use std::sync::atomic::{AtomicU64, Ordering};

/// How many bytes are read of the unit that one thread works on.
#[derive(Drop)]
pub struct CountedReads {
    rt: HostRuntime,
    progress: Arc<Progress, Global>,
    /// How many bytes of the unit are counted at most, and how many were read.
    most: AtomicU64,
    read: AtomicU64,
}

impl CountedReads {
    /// The reads of a thread, of which none was made.
    pub fn new(
        rt: &HostRuntime,
        progress: &Arc<Progress, Global>,
    ) -> Result<CountedReads, AllocError> {
        Ok(CountedReads {
            rt: *rt,
            progress: Arc::try_clone(progress)?,
            most: AtomicU64::new(0),
            read: AtomicU64::new(0),
        })
    }

    /// Begins a unit that has so many bytes. What is read of it more often than its task says isn't counted.
    pub fn begin(&self, bytes: u64) {
        let most = bytes.saturating_mul(self.progress.passes());
        self.most.store(most, Ordering::SeqCst);
        self.read.store(0, Ordering::SeqCst);
    }

    /// Counts bytes that were read, and keeps to the limit on them.
    fn advance(&self, bytes: u64) {
        self.progress.keep_pace(&self.rt, bytes);
        if !self.progress.is_counted() {
            return;
        }
        let most = self.most.load(Ordering::SeqCst);
        let before = self.read.fetch_add(bytes, Ordering::SeqCst).min(most);
        let after = before.saturating_add(bytes).min(most);
        self.progress
            .advance(&self.rt, after.saturating_sub(before));
    }

    /// Ends what was begun: so many units, which have so many bytes.
    pub fn end(&self, units: u64, bytes: u64) {
        let most = self.most.load(Ordering::SeqCst);
        let counted = self.read.load(Ordering::SeqCst).min(most);
        self.progress.count(&self.rt, units, bytes, counted);
    }
}

/// A file system of which is counted what is read.
pub struct CountingFolder<F> {
    files: F,
    reads: Arc<CountedReads, Global>,
}

impl<F: Drop> Drop for CountingFolder<F> {
    fn drop(self) {
        let CountingFolder { files: _, reads: _ } = self;
    }
}

/// A file that is open for reading, of which is counted what is read.
pub struct CountedOpen<O> {
    file: O,
    reads: Arc<CountedReads, Global>,
}

impl<O: Drop> Drop for CountedOpen<O> {
    fn drop(self) {
        let CountedOpen { file: _, reads: _ } = self;
    }
}

impl<F: Folder> CountingFolder<F> {
    /// A file system, and where its reads are counted.
    pub fn new(files: F, reads: Arc<CountedReads, Global>) -> CountingFolder<F> {
        CountingFolder { files, reads }
    }
}

impl<O: OpenFile> OpenFile for CountedOpen<O> {
    fn status(&self) -> io::Result<Status> {
        self.file.status()
    }

    fn read_exact_at(&self, from: u64, bytes: &mut [u8]) -> io::Result<()> {
        let many = bytes.len() as u64;
        self.file.read_exact_at(from, bytes)?;
        self.reads.advance(many);
        Ok(())
    }
}

impl<F: Folder> Folder for CountingFolder<F> {
    type Open = CountedOpen<F::Open>;

    type New = F::New;

    type Whole = F::Whole;

    ghost calls = { λ folder. F.calls folder.files };

    fn status(&self, path: &str) -> io::Result<Status> {
        self.files.status(path)
    }

    fn status_followed(&self, path: &str) -> io::Result<Status> {
        self.files.status_followed(path)
    }

    fn read_link(&self, path: &str) -> io::Result<String> {
        self.files.read_link(path)
    }

    fn open(&self, path: &str) -> io::Result<CountedOpen<F::Open>> {
        let reads = Arc::try_clone(&self.reads)?;
        Ok(CountedOpen {
            file: self.files.open(path)?,
            reads,
        })
    }

    fn create_new(&mut self, path: &str, mode: u32) -> io::Result<F::New> {
        self.files.create_new(path, mode)
    }

    fn sync(&mut self, file: F::New) -> io::Result<F::Whole> {
        self.files.sync(file)
    }

    fn link(&mut self, file: &F::Whole, to: &str) -> io::Result<()> {
        self.files.link(file, to)
    }

    fn link_again(&mut self, from: &str, to: &str) -> io::Result<()> {
        self.files.link_again(from, to)
    }

    fn rename(&mut self, file: &F::Whole, to: &str) -> io::Result<()> {
        self.files.rename(file, to)
    }

    fn rename_again(&mut self, from: &str, to: &str) -> io::Result<()> {
        self.files.rename_again(from, to)
    }

    fn remove(&mut self, path: &str) -> io::Result<()> {
        self.files.remove(path)
    }

    fn sync_folder(&mut self, path: &str) -> io::Result<()> {
        self.files.sync_folder(path)
    }

    fn is_same_file(&mut self, path: &str, other: &str) -> io::Result<bool> {
        self.files.is_same_file(path, other)
    }

    fn is_absent(&mut self, path: &str) -> io::Result<bool> {
        self.files.is_absent(path)
    }
}
