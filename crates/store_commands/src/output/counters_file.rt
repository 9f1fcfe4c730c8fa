//! The file of `--progress`, which says how far a command is: when it is written anew, and what happens if it can't be.
use crate::output::report_file::write_report;
use std::alloc::{AllocError, Global};
use std::io::{self, ErrorKind};
use std::os::unix::fs::FileExt;
use std::str;
use std::sync::Arc;
use std::sync::atomic::{AtomicU64, Ordering};
use store_faults::{COUNTER_PREFIX, FileFault, StoreFault, say, words_of};
use store_folder::{Links, RegularFile, is_absent, open_regular};
use store_progress::{Progress, Turns};

/// The least time between two writes, in milliseconds.
const BETWEEN: u64 = 5_000;

/// More bytes than counters have: each line has the path of the store, and the system takes none of more than 4,096 bytes.
const MOST_BYTES: u64 = 1_048_576;

/// Where the counters of a command go, if they are wanted: a path, the store that they are of, and what is counted.
#[derive(Drop)]
pub(crate) struct CountersFile<'a> {
    path: Option<&'a str>,
    store: &'a str,
    pub(crate) progress: Arc<Progress, Global>,
    turns: Turns,
    /// 1 while a thread writes.
    is_taken: AtomicU64,
}

impl<'a> CountersFile<'a> {
    /// The counters of a command over a store, for the file at a path if one was given.
    pub(crate) fn new(
        path: Option<&'a str>,
        store: &'a str,
        progress: Arc<Progress, Global>,
    ) -> CountersFile<'a> {
        CountersFile {
            path,
            store,
            progress,
            turns: Turns::new(BETWEEN),
            is_taken: AtomicU64::new(0),
        }
    }

    /// Writes the counters if they were written long enough ago. What fails now may not fail at the end, which says so.
    pub(crate) fn write_in_time(&self, rt: &HostRuntime) {
        let Some(path) = self.path else {
            return;
        };
        let Some(now) = self.progress.milliseconds(rt) else {
            return;
        };
        if !self.turns.take(now) || self.is_taken.swap(1, Ordering::SeqCst) == 1 {
            return;
        }
        let _ = self.write(rt, path, None);
        self.is_taken.store(0, Ordering::SeqCst);
    }

    /// Writes the counters, and the status of a command that has ended.
    fn write(&self, rt: &HostRuntime, path: &str, status: Option<u8>) -> io::Result<()> {
        let text = self.progress.counters(rt, self.store, status)?;
        write_report(rt, path, text.as_str())
    }

    /// Writes the counters of a command that has ended so, if they are wanted, and gives its status: at least that of a failed device, if
    /// they can't be written.
    pub(crate) fn end(
        &self,
        rt: &HostRuntime,
        ended: Result<u8, FileFault>,
    ) -> Result<u8, FileFault> {
        let Some(path) = self.path else {
            return ended;
        };
        let status = match &ended {
            Ok(status) => *status,
            Err(fault) => fault.status(),
        };
        match self.write(rt, path, Some(status)) {
            Ok(()) => ended,
            Err(error) => Err(after_ending(rt, ended, unwritten(rt.alloc(), path, error))),
        }
    }
}

impl CountersFile<'_> {
    /// Ends a command that was refused before its store was open, and gives why. Its counters take the place of those of an earlier run of
    /// the same alone: any other file at the path may be one of the store's. If they can't be written, or it can't be told what is at the
    /// path, that is said too.
    pub(crate) fn end_refused(&self, rt: &HostRuntime, fault: FileFault) -> FileFault {
        let Some(path) = self.path else {
            return fault;
        };
        if is_of_another(&fault) {
            return fault;
        }
        match self.write_over_earlier(rt, path, &fault) {
            Ok(()) => fault,
            Err(error) => after_failing(rt, fault, unwritten(rt.alloc(), path, error)),
        }
    }

    /// Writes the counters of a command that was refused so over those of an earlier run of the same, if these are at a path.
    fn write_over_earlier(
        &self,
        rt: &HostRuntime,
        path: &str,
        fault: &FileFault,
    ) -> io::Result<()> {
        match self.has_earlier(rt, path, fault) {
            Ok(true) => self.write(rt, path, Some(fault.status())),
            Ok(false) => Ok(()),
            Err(error) if is_of_none(error.kind()) => Ok(()),
            Err(error) => Err(error),
        }
    }

    /// Whether the regular file at a path begins as the counters of the same command over the same store do; and, if the store is refused
    /// since a run of another host may work there, whether they are those of one that has ended.
    fn has_earlier(&self, rt: &HostRuntime, path: &str, fault: &FileFault) -> io::Result<bool> {
        let text = self.progress.counters(rt, self.store, None)?;
        let line = text.as_str().split('\n').next().unwrap_or("");
        let Some((begin, _)) = line.rsplit_once(' ') else {
            return Ok(false);
        };
        let opened = open_regular(rt, path, Links::NotFollowed)?;
        let there = first_bytes(rt.alloc(), &opened, begin.len())?;
        if there.as_slice() != begin.as_bytes() {
            return Ok(false);
        }
        Ok(!may_be_of_another(fault) || have_ended(rt.alloc(), &opened)?)
    }
}

/// Whether a store was refused since another run, which writes counters of its own, works in it, or since the file is one of the store's.
fn is_of_another(fault: &FileFault) -> bool {
    matches!(
        fault,
        FileFault::Store {
            fault: StoreFault::InUse { .. } | StoreFault::ReportInStore { .. },
        }
    )
}

/// Whether a store was refused since another run, which would write counters of its own, may work in it.
fn may_be_of_another(fault: &FileFault) -> bool {
    matches!(
        fault,
        FileFault::Store {
            fault: StoreFault::MayBeInUse { .. },
        }
    )
}

/// Whether counters in a file say the status of a command that has ended.
fn have_ended(alloc: Global, counters: &RegularFile) -> io::Result<bool> {
    let length = counters.metadata.len();
    if length > MOST_BYTES {
        return Ok(false);
    }
    let bytes = first_bytes(alloc, counters, length as usize)?;
    let Ok(text) = str::from_utf8(bytes.as_slice()) else {
        return Ok(false);
    };
    Ok(text.split('\n').any(is_status))
}

/// Whether a line of counters says the status of a command that has ended.
fn is_status(line: &str) -> bool {
    let counter = line.strip_prefix(COUNTER_PREFIX);
    counter.is_some_and(|counter| counter.starts_with("status{"))
}

/// Whether an error of this kind says that no regular file is at a path, or one that is shorter than counters.
fn is_of_none(kind: ErrorKind) -> bool {
    is_absent(kind) || kind == ErrorKind::InvalidInput || kind == ErrorKind::UnexpectedEof
}

/// The first bytes of a file, which has to have so many.
fn first_bytes(alloc: Global, opened: &RegularFile, count: usize) -> io::Result<Vec<u8>> {
    let mut room = Vec::from_elem(alloc, 0u8, count)?;
    opened.file.read_exact_at(room.as_mut_slice(), 0)?;
    Ok(room)
}

/// That counters can't be written.
fn unwritten(alloc: Global, path: &str, error: io::Error) -> FileFault {
    if error.kind() == ErrorKind::OutOfMemory {
        return FileFault::OutOfMemory;
    }
    match unwritten_words(alloc, path, &error) {
        Ok(fault) => fault,
        Err(AllocError) => FileFault::OutOfMemory,
    }
}

/// The same, with the words of the system.
fn unwritten_words(alloc: Global, path: &str, error: &io::Error) -> Result<FileFault, AllocError> {
    let why = words_of(alloc, error)?;
    Ok(FileFault::Device {
        path: String::from_str(alloc, path)?,
        error: format!(in alloc; "the counters can't be written: {why}")?,
    })
}

/// How a command ended whose counters couldn't be written.
fn after_ending(rt: &HostRuntime, ended: Result<u8, FileFault>, unwritten: FileFault) -> FileFault {
    match ended {
        Ok(_) => unwritten,
        Err(fault) => after_failing(rt, fault, unwritten),
    }
}

/// Of why a command failed, and why its counters couldn't be written, says the one, and gives the other: that with the higher status.
fn after_failing(rt: &HostRuntime, fault: FileFault, unwritten: FileFault) -> FileFault {
    let (first, last) = if unwritten.status() < fault.status() {
        (unwritten, fault)
    } else {
        (fault, unwritten)
    };
    let said = say(rt, format!(in rt.alloc(); "rebuild-store: {first}"));
    drop(first);
    match said {
        Ok(()) => last,
        Err(AllocError) => {
            drop(last);
            FileFault::OutOfMemory
        }
    }
}
