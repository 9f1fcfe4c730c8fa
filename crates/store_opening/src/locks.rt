//! Locks, which keep runs that write to the same out of each other's way.
use crate::sharing::{OtherRun, Sharing};
use std::alloc::{AllocError, Global};
use std::fs::{self, File, TryLockError};
use std::io::{self, ErrorKind, Write};
use store_faults::{StoreFault, device_fault};
use store_folder::{Links, Part, is_named, is_of_run, lock_name, open_as, open_regular, path_in};
use store_listing::NOT_A_FOLDER;
use store_names::Locking;

/// How often the file of a part's lock is opened anew where another run has removed it meanwhile.
const MOST_OPENINGS: usize = 100;

/// The locks of a run that writes: it holds them for as long as their files are open.
pub struct Locks {
    files: Vec<File>,
    /// The path of the lock of a part, whose file is the last.
    part: Option<String>,
    sharing: Sharing,
}

impl Drop for Locks {
    fn drop(self) {
        let Locks {
            files: _,
            part: _,
            sharing: _,
        } = self;
    }
}

impl Locks {
    /// Those of a run that writes nothing.
    pub fn none(alloc: Global) -> Locks {
        Locks {
            files: Vec::new(alloc),
            part: None,
            sharing: Sharing::none(alloc),
        }
    }

    /// Those that keep other runs that write out of a folder, or out of a part of it. A lock of a folder keeps out runs of this host alone:
    /// if others may have the folder too, a run that works on all of it has the lock of part 1 of 1 besides. Of runs of other hosts a lock
    /// keeps out those with the same part alone: for the others `refuse_other_parts` refuses the store, once it is listed.
    pub fn take(rt: &HostRuntime, folder: &str, part: Option<Part>) -> Result<Locks, StoreFault> {
        let sharing = Sharing::read(rt)?;
        let locking = sharing.locking(rt, folder)?;
        let mut locks = Locks {
            files: Vec::new(rt.alloc()),
            part: None,
            sharing,
        };
        match part {
            None => {
                locks.files.push(lock_folder(rt, folder)?)?;
                if locking != Locking::OneHost {
                    locks.add_part(rt, folder, Part { index: 1, of: 1 })?;
                }
            }
            Some(part) => {
                locks.files.push(share_folder(rt, folder)?)?;
                locks.add_part(rt, folder, part)?;
            }
        }
        Ok(locks)
    }

    /// Adds the lock of a part of a folder.
    fn add_part(&mut self, rt: &HostRuntime, folder: &str, part: Part) -> Result<(), StoreFault> {
        let name = lock_name(rt.alloc(), part.index, part.of)?;
        let path = path_in(rt.alloc(), folder, name.as_str())?;
        let file = lock_part(rt, &self.sharing, path.as_str())?;
        self.files.push(file)?;
        self.part = Some(path);
        Ok(())
    }

    /// What the names of this run's unfinished files have before their digits, with this tag of its part.
    pub fn tag_of_run(&self, alloc: Global, part: &str) -> Result<String, AllocError> {
        let run = self.sharing.run();
        if run.is_empty() {
            return String::from_str(alloc, part);
        }
        format!(in alloc; "{part}{run}-")
    }

    /// Whether a run works on the file at a path: this one, whose lock it is, or one that has locked it.
    pub(crate) fn is_worked_on(&self, rt: &HostRuntime, path: &str) -> bool {
        self.part.as_ref().is_some_and(|own| own.as_str() == path) || is_locked(rt, path)
    }

    /// The run that left a file of its own at a path and may still work on it, though none has locked the file here.
    pub(crate) fn other_at(
        &self,
        rt: &HostRuntime,
        path: &str,
    ) -> Result<Option<OtherRun>, AllocError> {
        self.sharing.other_at(rt, path)
    }

    /// Refuses a store in which a run works, or may work, that divides it into another number of parts, by the paths of what runs left.
    pub fn refuse_other_parts(&self, rt: &HostRuntime, paths: &[String]) -> Result<(), StoreFault> {
        let Some(of) = self.part.as_ref().and_then(|own| parts_of(own.as_str())) else {
            return Ok(());
        };
        for path in paths {
            let path = path.as_str();
            if parts_of(path).is_some_and(|other| other != of) {
                refuse_held(rt, &self.sharing, path)?;
            }
        }
        Ok(())
    }

    /// The path of the file of a part's lock, or of the folder if there is none.
    pub fn named<'p>(&'p self, folder: &'p str) -> &'p str {
        match &self.part {
            Some(path) => path.as_str(),
            None => folder,
        }
    }

    /// Removes the file of a part's lock while it is still held, so that no other run holds a file that has no name.
    pub fn release(&self, rt: &HostRuntime) -> io::Result<()> {
        if let (Some(path), Some(file)) = (&self.part, self.files.last()) {
            if is_named(rt, file, path.as_str())? {
                fs::remove_file(rt, path.as_str())?;
            }
        }
        Ok(())
    }
}

/// Keeps other runs that write out of a folder until the file is closed.
fn lock_folder(rt: &HostRuntime, folder: &str) -> Result<File, StoreFault> {
    let name = String::from_str(rt.alloc(), folder)?;
    match open_folder(rt, folder) {
        Ok(file) => {
            let lock = file.try_lock();
            locked(file, lock, name)
        }
        Err(error) => Err(device_fault(name, error)),
    }
}

/// Keeps runs that write to all of a folder out of it, and none that write to a part.
fn share_folder(rt: &HostRuntime, folder: &str) -> Result<File, StoreFault> {
    let name = String::from_str(rt.alloc(), folder)?;
    match open_folder(rt, folder) {
        Ok(file) => {
            let lock = file.try_lock_shared();
            locked(file, lock, name)
        }
        Err(error) => Err(device_fault(name, error)),
    }
}

/// Refuses a store because of the lock of another part, if a run has it, or may have it.
fn refuse_held(rt: &HostRuntime, sharing: &Sharing, path: &str) -> Result<(), StoreFault> {
    if is_locked(rt, path) {
        return Err(StoreFault::InUse {
            folder: String::from_str(rt.alloc(), path)?,
        });
    }
    refuse_other(rt, sharing, path)
}

/// Refuses a store because of the file of a lock that a run has left which may still work.
fn refuse_other(rt: &HostRuntime, sharing: &Sharing, path: &str) -> Result<(), StoreFault> {
    match sharing.other_at(rt, path)? {
        Some(OtherRun { words }) => Err(StoreFault::MayBeInUse {
            path: String::from_str(rt.alloc(), path)?,
            run: words,
        }),
        None => Ok(()),
    }
}

/// Into how many parts the run divides a store that has the lock at a path.
fn parts_of(path: &str) -> Option<u64> {
    let (_, count) = path.rsplit_once("-of-")?;
    count.parse::<u64>().ok()
}

/// Whether a run holds a lock. By NFS a file is locked only if it is open for writing, which one of another user may not be.
fn is_locked(rt: &HostRuntime, path: &str) -> bool {
    let mut options = File::options();
    options.write(true);
    let opened = match open_as(rt, path, Links::NotFollowed, &options) {
        Err(error) if error.kind() == ErrorKind::PermissionDenied => {
            open_regular(rt, path, Links::NotFollowed)
        }
        opened => opened,
    };
    match opened {
        Ok(opened) => matches!(opened.file.try_lock(), Err(TryLockError::WouldBlock)),
        Err(_) => false,
    }
}

/// Opens a folder. Opening a FIFO would wait for a writer.
fn open_folder(rt: &HostRuntime, folder: &str) -> io::Result<File> {
    if !fs::metadata(rt, folder)?.is_dir() {
        return Err(io::Error::from_raw_os_error(NOT_A_FOLDER));
    }
    fs::open(rt, folder)
}

/// Keeps other runs out of a part. A file that another run has removed since it was opened keeps nobody out, so that the file that has the
/// name is locked. One that was made here and can't be this run's lock is removed.
fn lock_part(rt: &HostRuntime, sharing: &Sharing, path: &str) -> Result<File, StoreFault> {
    let alloc = rt.alloc();
    for _opening in 0..MOST_OPENINGS {
        // No memory is taken between the making of the file and its lock.
        let name = String::from_str(alloc, path)?;
        let LockFile { file, is_new } = match open_lock(rt, path) {
            Ok(opened) => opened,
            Err(error) if error.kind() == ErrorKind::NotFound => continue,
            Err(error) => return Err(device_fault(name, error)),
        };
        let lock = file.try_lock();
        let mut file = locked(file, lock, name)?;
        match is_held(rt, sharing, path, &mut file, is_new) {
            Ok(true) => return Ok(file),
            Ok(false) => {}
            Err(fault) => {
                if is_new {
                    remove_held(rt, &file, path);
                }
                return Err(fault);
            }
        }
    }
    Err(StoreFault::InUse {
        folder: String::from_str(alloc, path)?,
    })
}

/// Whether a locked file is at the path of a lock; then it is this run's.
fn is_held(
    rt: &HostRuntime,
    sharing: &Sharing,
    path: &str,
    file: &mut File,
    is_new: bool,
) -> Result<bool, StoreFault> {
    match is_at(rt, file, path) {
        Ok(true) => {
            own(rt, sharing, path, file, is_new)?;
            Ok(true)
        }
        Ok(false) => Ok(false),
        Err(error) => Err(device_fault(String::from_str(rt.alloc(), path)?, error)),
    }
}

/// Whether a lock that is open is at a path. One that has other bytes than locks is a file of somebody else, and refused.
fn is_at(rt: &HostRuntime, file: &File, path: &str) -> io::Result<bool> {
    if !is_of_run(file, path)? {
        return Err(io::Error::other("has the name of a lock and isn't one"));
    }
    is_named(rt, file, path)
}

/// Writes this run into the file of its lock if nothing is known of locks there; it is refused if a run may have the lock that was there
/// before.
fn own(
    rt: &HostRuntime,
    sharing: &Sharing,
    path: &str,
    file: &mut File,
    is_new: bool,
) -> Result<(), StoreFault> {
    if sharing.locking(rt, path)? != Locking::Unknown {
        return Ok(());
    }
    if !is_new {
        refuse_other(rt, sharing, path)?;
    }
    match write_run(rt.alloc(), file, sharing.run()) {
        Ok(()) => Ok(()),
        Err(error) => {
            // It is this run's, also if one that has ended had it before: no other run gets past a lock that names no run.
            remove_held(rt, file, path);
            Err(device_fault(String::from_str(rt.alloc(), path)?, error))
        }
    }
}

/// Removes the file of a lock that is held, if it is still at its path.
fn remove_held(rt: &HostRuntime, file: &File, path: &str) {
    if is_named(rt, file, path).unwrap_or(false) {
        let _ = fs::remove_file(rt, path);
    }
}

/// Writes a run into the file of its lock, in place of what is there.
fn write_run(alloc: Global, file: &mut File, run: &str) -> io::Result<()> {
    let line = format!(in alloc; "{run}\n")?;
    // Written over, the lock says the one run or the other, wherever this one is killed. The end of a longer line would be left behind a
    // shorter one, and both together are no lock's text, while an empty one is of a run that isn't known.
    if (line.len() as u64) < file.metadata()?.len() {
        file.set_len(0)?;
    }
    file.write_all(line.as_bytes())
}

/// The file of a lock that is open, and whether this run has made it.
#[derive(Drop)]
struct LockFile {
    file: File,
    is_new: bool,
}

/// Makes the file of a lock, or opens the regular file that is there.
fn open_lock(rt: &HostRuntime, path: &str) -> io::Result<LockFile> {
    let mut options = File::options();
    options.read(true).write(true);
    let mut new = File::options();
    new.read(true).write(true).create_new(true);
    match new.open(rt, path) {
        Ok(file) => Ok(LockFile { file, is_new: true }),
        Err(error) if error.kind() == ErrorKind::AlreadyExists => {
            let opened = open_as(rt, path, Links::NotFollowed, &options)?;
            Ok(LockFile {
                file: opened.file,
                is_new: false,
            })
        }
        Err(error) => Err(error),
    }
}

/// A file that is locked.
fn locked(file: File, lock: Result<(), TryLockError>, folder: String) -> Result<File, StoreFault> {
    match lock {
        Ok(()) => Ok(file),
        Err(TryLockError::WouldBlock) => Err(StoreFault::InUse { folder }),
        Err(TryLockError::Error(error)) => Err(device_fault(folder, error)),
    }
}
