//! The files that are encoded.
use crate::refusing::refused;
use std::fs::{self, Metadata};
use std::os::unix::fs::MetadataExt;
use store_faults::{FileFault, device};
use store_folder::{Identity, is_of_runs};

/// The name of the file at a path, which its stripe gets.
pub(crate) fn stripe_name<'a>(rt: &HostRuntime, path: &'a str) -> Result<&'a str, FileFault> {
    let name = match path.rsplit_once('/') {
        Some((_, name)) => name,
        None => path,
    };
    if name.is_empty() || name == "." || name == ".." || name == "lost+found" || is_of_runs(name) {
        return Err(no_name(rt, path));
    }
    Ok(name)
}

/// That the name of the file at a path is none for a stripe.
pub(crate) fn no_name(rt: &HostRuntime, path: &str) -> FileFault {
    refused(format!(in rt.alloc(); "{path}: a stripe can't have this name"))
}

/// What is said of the regular file at a path.
pub(crate) fn regular(rt: &HostRuntime, path: &str) -> Result<Metadata, FileFault> {
    let metadata = match fs::metadata(rt, path) {
        Ok(metadata) => metadata,
        Err(error) => return Err(device(rt.alloc(), path, error)),
    };
    if !metadata.is_file() {
        let what = format!(in rt.alloc(); "{path}: is no regular file")?;
        return Err(FileFault::Refused { what });
    }
    Ok(metadata)
}

/// Whether a file is another one, or was written to, also if its time of that was set back.
pub(crate) fn is_changed(before: &Metadata, after: &Metadata) -> bool {
    before.len() != after.len()
        || before.mtime() != after.mtime()
        || before.mtime_nsec() != after.mtime_nsec()
        || before.ctime() != after.ctime()
        || before.ctime_nsec() != after.ctime_nsec()
        || Identity::of(before) != Identity::of(after)
}
