//! The file of a report.
use std::fs::{self, File, Metadata};
use std::io::{self, ErrorKind, Write};
use store_folder::{
    NewFile, Placed, SystemFolder, create_new, create_private, folder_of, place_again, place_new,
};
use store_progress::allow_file;
use store_repair::NewFragment;

/// Writes a report to what is at a path. A regular file has the whole report or is as it was, and keeps its owner and its rights; where
/// nothing is, one is made. Anything else, as a device, a FIFO or a link, is opened and written, and stays what it is.
pub(crate) fn write_report(rt: &HostRuntime, path: &str, rows: &str) -> io::Result<()> {
    match fs::symlink_metadata(rt, path) {
        Ok(there) if there.is_file() => replace(rt, path, &there, rows),
        Ok(_) => write_into(rt, path, rows),
        Err(error) if error.kind() == ErrorKind::NotFound => match make(rt, path, rows)? {
            Placed::Placed => Ok(()),
            Placed::IsThere => write_into(rt, path, rows),
        },
        Err(error) => Err(error),
    }
}

/// Makes the file, if nothing is there.
fn make(rt: &HostRuntime, path: &str, rows: &str) -> io::Result<Placed> {
    allow_file(rt, rows.len() as u64)?;
    let files = &mut SystemFolder::new(rt);
    let file = create_new(rt, files, folder_of(path))?;
    let file = filled(rt, file, rows)?;
    place_new(files, file, path)
}

/// Replaces a regular file by one with its owner and rights. Where no file can be made beside it, or who runs this can't give it that
/// owner, it is written as it is.
fn replace(rt: &HostRuntime, path: &str, there: &Metadata, rows: &str) -> io::Result<()> {
    allow_file(rt, rows.len() as u64)?;
    let files = &mut SystemFolder::new(rt);
    let file = match create_private(rt, files, folder_of(path)) {
        Ok(file) => file,
        Err(error) if error.kind() == ErrorKind::PermissionDenied => {
            return write_into(rt, path, rows);
        }
        Err(error) => return Err(error),
    };
    let file = filled(rt, file, rows)?;
    match file.take_after(there) {
        Ok(true) => place_again(files, file, path),
        Ok(false) => {
            file.discard(rt)?;
            write_into(rt, path, rows)
        }
        Err(error) => {
            file.discard(rt)?;
            Err(error)
        }
    }
}

/// The file with the rows, or without its name after a failure.
fn filled(rt: &HostRuntime, file: NewFile, rows: &str) -> io::Result<NewFile> {
    let mut file = file;
    match file.append(rows.as_bytes()) {
        Ok(()) => Ok(file),
        Err(error) => {
            file.discard(rt)?;
            Err(error)
        }
    }
}

/// Writes the rows into what is at a path.
fn write_into(rt: &HostRuntime, path: &str, rows: &str) -> io::Result<()> {
    // A limit on the length of files holds of regular ones alone.
    if fs::metadata(rt, path).map_or(true, |there| there.is_file()) {
        allow_file(rt, rows.len() as u64)?;
    }
    let mut options = File::options();
    options.write(true).create(true).truncate(true);
    options.open(rt, path)?.write_all(rows.as_bytes())
}
