//! What runs that were killed may have left in folders that links lead to.
use std::fs;
use std::io::{self, ErrorKind};
use store_names::{is_left_by, path_in};

/// The paths of the files in a folder that a run with this tag may have left.
pub fn left_in(rt: &HostRuntime, folder: &str, tag: &str) -> io::Result<Vec<String>> {
    let alloc = rt.alloc();
    let mut paths = Vec::new(alloc);
    for entry in fs::read_dir(rt, folder)? {
        match entry {
            Ok(entry) => {
                if is_left_by(entry.file_name(), tag) {
                    paths.push(path_in(alloc, folder, entry.file_name())?)?;
                }
            }
            Err(error) if error.kind() == ErrorKind::InvalidFilename => {}
            Err(error) => return Err(error),
        }
    }
    Ok(paths)
}
