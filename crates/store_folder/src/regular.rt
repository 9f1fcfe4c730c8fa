//! Regular files. What is under a name is asked before it is opened, since opening a FIFO waits for a writer and opening a device may do
//! something, and once more when it is open, since a name may be given to something else meanwhile.
use crate::links::{Links, look_at, status_at};
use folders::{Folder, Identity, OpenFile, Status};
use std::fs::{self, File, Metadata, OpenOptions};
use std::io::{self, ErrorKind};

/// A regular file that is open, and what was said of it then.
#[derive(Drop)]
pub struct RegularFile {
    pub file: File,
    pub metadata: Metadata,
}

/// Opens the regular file at a path for reading. An error of the kind `InvalidInput` says that something else is there.
pub fn open_regular(rt: &HostRuntime, path: &str, links: Links) -> io::Result<RegularFile> {
    let mut options = File::options();
    options.read(true);
    open_as(rt, path, links, &options)
}

/// Opens the regular file at a path as the options say, which must not change it. An error of the kind `InvalidInput` says that something
/// else is there.
pub fn open_as(
    rt: &HostRuntime,
    path: &str,
    links: Links,
    options: &OpenOptions,
) -> io::Result<RegularFile> {
    let asked = look_at(rt, path, links)?;
    if !asked.is_file() {
        return Err(no_regular_file(asked.is_symlink()));
    }
    let file = options.open(rt, path)?;
    let metadata = file.metadata()?;
    if !metadata.is_file() || Identity::of(&metadata) != Identity::of(&asked) {
        return Err(another_file());
    }
    Ok(RegularFile { file, metadata })
}

/// Opens the regular file at a path of a folder for reading, as `open_regular` does, and says what is said of it then.
pub(crate) fn open_in<F: Folder>(
    folder: &F,
    path: &str,
    links: Links,
) -> io::Result<(F::Open, Status)> {
    let asked = status_at(folder, path, links)?;
    if !asked.is_file() {
        return Err(no_regular_file(asked.is_link()));
    }
    let file = folder.open(path)?;
    let status = file.status()?;
    if !status.is_file() || status.identity != asked.identity {
        return Err(another_file());
    }
    Ok((file, status))
}

/// The error of a name that was given to another file while this one was opened.
fn another_file() -> io::Error {
    io::Error::other("another file came under the name while it was opened")
}

/// That something is no regular file, but maybe a link.
fn no_regular_file(is_link: bool) -> io::Error {
    let words = if is_link {
        "is a link, and links aren't followed"
    } else {
        "is no regular file"
    };
    io::Error::new(ErrorKind::InvalidInput, words)
}

/// Whether the file that is open is the one at a path.
pub fn is_named(rt: &HostRuntime, file: &File, path: &str) -> io::Result<bool> {
    let open = file.metadata()?;
    match fs::symlink_metadata(rt, path) {
        Ok(there) => Ok(Identity::of(&there) == Identity::of(&open)),
        Err(error) if error.kind() == ErrorKind::NotFound => Ok(false),
        Err(error) => Err(error),
    }
}
