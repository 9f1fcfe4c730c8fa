//! The system's file system. Each method makes the one call of the system that it is named for, and records it with its answer. That it
//! does so is not proved, since no contract can see what a call of the system does: it has to be read. Bytes beyond the limit on the length
//! of files aren't written: an error is answered in place of the signal.
ghost use Rattle.std.specs.Prelude.{◌≡◌, ◌∷◌, length, string_bytes};

use crate::folder::{Folder, NewFile, OpenFile, WholeFile};
use crate::limits::{most_file_bytes, too_long};
use crate::record::{Call, Record, Written};
use crate::status::{Identity, Kind, Rights, Status, Time, is_absent};
use std::fs::{self, File, Metadata, Permissions, TryLockError};
use std::io::{self, Write};
use std::os::unix::fs::{FileExt, MetadataExt, OpenOptionsExt, PermissionsExt, fchown};

/// The system's folders, and what was called on them by this value.
#[derive(Drop)]
pub struct SystemFolder<'a> {
    rt: &'a HostRuntime,
    past: Record,
    /// The most bytes that a file may get, once that was asked.
    most: Option<u64>,
}

/// A file of the system that is open for reading.
#[derive(Drop)]
pub struct SystemOpen {
    file: File,
}

/// A file of the system that was made.
#[derive(Drop)]
pub struct SystemNew {
    file: File,
    path: String,
    /// How many bytes more it may get.
    room: u64,
    /// What was called up to the call that made it.
    made: Record,
    written: Written,
}

/// A file of the system that was made and is on the disk.
pub struct SystemWhole {
    /// Open until then, so that its lock is held.
    _file: File,
    path: String,
    made: Record,
}

impl Drop for SystemWhole {
    fn drop(self) {
        let SystemWhole {
            _file: _,
            path: _,
            made: _,
        } = self;
    }
}

impl<'a> SystemFolder<'a> {
    ghost use Rattle.folders.specs.Recorded.{recorded};

    /// The system's folders, on which nothing was called yet.
    pub fn new(rt: &'a HostRuntime) -> SystemFolder<'a> {
        SystemFolder {
            rt,
            past: Record::new(),
            most: None,
        }
    }

    /// The most bytes that a file may get, which is asked once.
    fn most(&mut self) -> u64
        ensures { self.new.past ≡ self.old.past }
    {
        let most = match self.most {
            Some(most) => most,
            None => most_file_bytes(self.rt).unwrap_or(u64::MAX),
        };
        self.most = Some(most);
        most
    }

    /// Notes a call in what was recorded, with whether it ended well.
    fn note(&mut self, call: &Call<'_>, is_ok: bool)
        ensures { self.new.past.calls ≡ recorded call.now is_ok ∷ self.old.past.calls }
    {
        self.past = Record::with(&self.past, call, is_ok);
    }
}

/// What the system says of something, in the terms of `folders`.
fn status_of(metadata: &Metadata) -> Status {
    let kind = if metadata.is_file() {
        Kind::File
    } else if metadata.is_dir() {
        Kind::Folder
    } else if metadata.is_symlink() {
        Kind::Link
    } else {
        Kind::Other
    };
    Status {
        kind,
        length: metadata.len(),
        identity: Identity::of(metadata),
        rights: Rights::of(metadata),
        paths: metadata.nlink(),
        modified: Time {
            seconds: metadata.mtime(),
            billionths: metadata.mtime_nsec(),
        },
        changed: Time {
            seconds: metadata.ctime(),
            billionths: metadata.ctime_nsec(),
        },
    }
}

impl OpenFile for SystemOpen {
    fn status(&self) -> io::Result<Status> {
        Ok(status_of(&self.file.metadata()?))
    }

    fn read_exact_at(&self, from: u64, bytes: &mut [u8]) -> io::Result<()> {
        self.file.read_exact_at(bytes, from)
    }
}

impl NewFile for SystemNew {
    ghost written = { λ file. file.written.bytes };

    ghost number = { λ file. length file.made.calls };

    ghost path = { λ file. string_bytes file.path };

    fn made_at(&self) -> &str {
        self.path.as_str()
    }

    fn append(&mut self, bytes: &[u8]) -> io::Result<()> {
        let count = bytes.len() as u64;
        let answer = if count > self.room {
            Err(too_long())
        } else {
            self.file.write_all(bytes)
        };
        self.room = self.room.saturating_sub(count);
        self.written = Written::with(&self.written, bytes, answer.is_ok());
        answer
    }

    fn status(&self) -> io::Result<Status> {
        Ok(status_of(&self.file.metadata()?))
    }

    fn try_lock(&self) -> io::Result<bool> {
        match self.file.try_lock() {
            Ok(()) => Ok(true),
            Err(TryLockError::WouldBlock) => Ok(false),
            Err(TryLockError::Error(error)) => Err(error),
        }
    }

    fn set_owner(&self, rights: &Rights) -> io::Result<()> {
        fchown(&self.file, Some(rights.user), Some(rights.group))
    }

    fn set_mode(&self, mode: u32) -> io::Result<()> {
        self.file.set_permissions(Permissions::from_mode(mode))
    }
}

impl WholeFile for SystemWhole {
    ghost number = { λ file. length file.made.calls };

    ghost path = { λ file. string_bytes file.path };

    fn made_at(&self) -> &str {
        self.path.as_str()
    }
}

impl Folder for SystemFolder<'_> {
    type Open = SystemOpen;

    type New = SystemNew;

    type Whole = SystemWhole;

    ghost calls = { λ folder. folder.past.calls };

    fn status(&self, path: &str) -> io::Result<Status> {
        Ok(status_of(&fs::symlink_metadata(self.rt, path)?))
    }

    fn status_followed(&self, path: &str) -> io::Result<Status> {
        Ok(status_of(&fs::metadata(self.rt, path)?))
    }

    fn read_link(&self, path: &str) -> io::Result<String> {
        let link = fs::read_link(self.rt, path)?;
        Ok(String::from_str(self.rt.alloc(), link.as_str())?)
    }

    fn open(&self, path: &str) -> io::Result<SystemOpen> {
        Ok(SystemOpen {
            file: fs::open(self.rt, path)?,
        })
    }

    fn create_new(&mut self, path: &str, mode: u32) -> io::Result<SystemNew> {
        let room = self.most();
        let mut options = File::options();
        options.write(true).create_new(true).mode(mode);
        let answer = match String::from_str(self.rt.alloc(), path) {
            Ok(own) => options.open(self.rt, path).map(|file| (file, own)),
            Err(error) => Err(io::Error::from(error)),
        };
        self.note(&Call::Make(path), answer.is_ok());
        let (file, path) = answer?;
        Ok(SystemNew {
            file,
            path,
            room,
            made: self.past.again(),
            written: Written::new(),
        })
    }

    fn sync(&mut self, file: SystemNew) -> io::Result<SystemWhole> {
        let SystemNew {
            file,
            path,
            room: _,
            made,
            written,
        } = file;
        let answer = file.sync_all();
        self.note(&Call::Sync(&made, &written), answer.is_ok());
        answer?;
        Ok(SystemWhole {
            _file: file,
            path,
            made,
        })
    }

    fn link(&mut self, file: &SystemWhole, to: &str) -> io::Result<()> {
        let answer = fs::hard_link(self.rt, file.path.as_str(), to);
        self.note(&Call::Link(&file.made, to), answer.is_ok());
        answer
    }

    fn link_again(&mut self, from: &str, to: &str) -> io::Result<()> {
        let answer = fs::hard_link(self.rt, from, to);
        self.note(&Call::LinkAgain(from, to), answer.is_ok());
        answer
    }

    fn rename(&mut self, file: &SystemWhole, to: &str) -> io::Result<()> {
        let answer = fs::rename(self.rt, file.path.as_str(), to);
        self.note(
            &Call::Rename(&file.made, file.path.as_str(), to),
            answer.is_ok(),
        );
        answer
    }

    fn rename_again(&mut self, from: &str, to: &str) -> io::Result<()> {
        let answer = fs::rename(self.rt, from, to);
        self.note(&Call::RenameAgain(from, to), answer.is_ok());
        answer
    }

    fn remove(&mut self, path: &str) -> io::Result<()> {
        let answer = fs::remove_file(self.rt, path);
        self.note(&Call::Remove(path), answer.is_ok());
        answer
    }

    fn sync_folder(&mut self, path: &str) -> io::Result<()> {
        let answer = match fs::open(self.rt, path) {
            Ok(folder) => folder.sync_all(),
            Err(error) => Err(error),
        };
        self.note(&Call::SyncFolder(path), answer.is_ok());
        answer
    }

    fn is_same_file(&mut self, path: &str, other: &str) -> io::Result<bool> {
        let answer = match (self.status(path), self.status(other)) {
            (Ok(one), Ok(another)) => Ok(one.identity == another.identity),
            (Err(error), _) | (_, Err(error)) => Err(error),
        };
        self.note(&Call::SameFile(path, other), matches!(answer, Ok(true)));
        answer
    }

    fn is_absent(&mut self, path: &str) -> io::Result<bool> {
        let answer = match fs::symlink_metadata(self.rt, path) {
            Ok(_) => Ok(false),
            Err(error) if is_absent(error.kind()) => Ok(true),
            Err(error) => Err(error),
        };
        self.note(&Call::Absent(path), matches!(answer, Ok(true)));
        answer
    }
}
