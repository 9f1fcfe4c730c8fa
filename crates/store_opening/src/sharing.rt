//! What a run knows of itself and of the mounts, by which runs of several hosts that share a store are kept apart.
use std::alloc::{AllocError, Global};
use std::fs;
use std::io::ErrorKind;
use store_faults::{StoreFault, device_fault};
use store_folder::MOST_OF_LOCK;
use store_names::{Locking, is_run, is_unfinished, last_of, locking_at, run_named, run_of};

/// This process, as a link that is its number, and the name of this host.
const PROCESS: &str = "/proc/self";

const HOST: &str = "/proc/sys/kernel/hostname";

const MOUNTS: &str = "/proc/self/mountinfo";

/// A run that writes, and the mounts that it sees.
pub(crate) struct Sharing {
    /// As the names of its files say it; empty if the system doesn't say it.
    run: String,
    /// The kernel's table; empty if there is none.
    mounts: String,
}

impl Drop for Sharing {
    fn drop(self) {
        let Sharing { run: _, mounts: _ } = self;
    }
}

/// A run that may still work on something.
#[derive(Drop)]
pub(crate) struct OtherRun {
    /// What is said of it.
    pub(crate) words: String,
}

impl Sharing {
    /// That of a run that writes nothing.
    pub(crate) fn none(alloc: Global) -> Sharing {
        Sharing {
            run: String::new(alloc),
            mounts: String::new(alloc),
        }
    }

    /// That of this run. A table of mounts that can't be read is a fault; without any nothing is known of locks.
    pub(crate) fn read(rt: &HostRuntime) -> Result<Sharing, StoreFault> {
        let alloc = rt.alloc();
        let process = match fs::read_link(rt, PROCESS) {
            Ok(path) => String::from_str(alloc, path.as_str())?,
            Err(error) => empty_after(alloc, error.kind())?,
        };
        let host = text_of(rt, HOST)?;
        let run = run_named(alloc, process.as_str(), host.trim())?;
        Ok(Sharing {
            run: if is_run(run.as_str()) {
                run
            } else {
                String::new(alloc)
            },
            mounts: mounts_of(rt)?,
        })
    }

    /// This run, as the names of its files say it; empty if the system doesn't say it.
    pub(crate) fn run(&self) -> &str {
        self.run.as_str()
    }

    /// Whom locks keep out at a path.
    pub(crate) fn locking(&self, rt: &HostRuntime, path: &str) -> Result<Locking, AllocError> {
        match fs::canonicalize(rt, path) {
            Ok(end) => locking_at(rt.alloc(), self.mounts.as_str(), end.as_str()),
            Err(error) if error.kind() == ErrorKind::OutOfMemory => Err(AllocError),
            Err(_) => Ok(Locking::Unknown),
        }
    }

    /// The run that left a regular file of its own at a path, if it may still work on it though it doesn't hold the file's lock here:
    /// nothing is known of locks there, and it isn't a run of this host that has ended.
    pub(crate) fn other_at(
        &self,
        rt: &HostRuntime,
        path: &str,
    ) -> Result<Option<OtherRun>, AllocError> {
        match fs::symlink_metadata(rt, path) {
            Ok(there) if there.is_file() => {}
            Err(error) if error.kind() == ErrorKind::OutOfMemory => return Err(AllocError),
            _ => return Ok(None),
        }
        if self.locking(rt, path)? != Locking::Unknown {
            return Ok(None);
        }
        match run_of(last_of(path)) {
            Some(run) => self.other_of(rt, run),
            // What it has is a fragment's bytes.
            None if is_unfinished(last_of(path)) => self.other_of(rt, ""),
            None => self.other_in(rt, path),
        }
    }

    /// The run that the file of a lock names as its own.
    fn other_in(&self, rt: &HostRuntime, path: &str) -> Result<Option<OtherRun>, AllocError> {
        let is_short = fs::symlink_metadata(rt, path).is_ok_and(|there| there.is_file()
            && there.len() <= MOST_OF_LOCK);
        if is_short {
            let text = text_of(rt, path)?;
            return self.other_of(rt, text.trim());
        }
        self.other_of(rt, "")
    }

    /// A run, unless it is one of this host that has ended.
    fn other_of(&self, rt: &HostRuntime, run: &str) -> Result<Option<OtherRun>, AllocError> {
        let alloc = rt.alloc();
        let (Some((process, host)), true) = (run.split_once('@'), is_run(run)) else {
            let words = String::from_str(alloc, "a run that isn't known")?;
            return Ok(Some(OtherRun { words }));
        };
        let own_host = self.run.split_once('@').map(|(_, host)| host);
        if own_host == Some(host) && has_ended(rt, process)? {
            return Ok(None);
        }
        let words = format!(in alloc; "process {process} of the host {host}")?;
        Ok(Some(OtherRun { words }))
    }
}

/// Whether this host has no process with this number.
fn has_ended(rt: &HostRuntime, process: &str) -> Result<bool, AllocError> {
    let path = format!(in rt.alloc(); "/proc/{process}")?;
    Ok(match fs::symlink_metadata(rt, path.as_str()) {
        Ok(_) => false,
        Err(error) => error.kind() == ErrorKind::NotFound,
    })
}

/// The kernel's table of mounts; empty if there is none.
fn mounts_of(rt: &HostRuntime) -> Result<String, StoreFault> {
    let alloc = rt.alloc();
    match fs::read_to_string(rt, MOUNTS) {
        Ok(text) => Ok(text),
        Err(error) if error.kind() == ErrorKind::NotFound => Ok(String::new(alloc)),
        Err(error) => Err(device_fault(String::from_str(alloc, MOUNTS)?, error)),
    }
}

/// The text of a file; empty if it can't be read.
fn text_of(rt: &HostRuntime, path: &str) -> Result<String, AllocError> {
    match fs::read_to_string(rt, path) {
        Ok(text) => Ok(text),
        Err(error) => empty_after(rt.alloc(), error.kind()),
    }
}

/// No text after a failed read, unless memory was refused.
fn empty_after(alloc: Global, kind: ErrorKind) -> Result<String, AllocError> {
    if kind == ErrorKind::OutOfMemory {
        return Err(AllocError);
    }
    Ok(String::new(alloc))
}
