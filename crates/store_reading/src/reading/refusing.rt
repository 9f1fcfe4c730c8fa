//! Paths that no file is read to, since they are the store's.
use lrc_code::Code;
use std::alloc::{AllocError, Global};
use std::fs::{self, Metadata};
use std::io::{self, ErrorKind};
use std::os::unix::fs::MetadataExt;
use store_faults::{FileFault, device, fragment_name};
use store_files::{Sought, StoredFile};
use store_folder::{Identity, SUMS_NAME, description_names, folder_of, followed, look_at, path_in};
use store_names::{disk_folders, folder_in, stripe_folders};

/// So many folders at most are above another one: each is a `/..` more, and the system takes no path of more than 4,096 bytes.
const MOST_LEVELS: usize = 4_096 / 3;

/// The number of the error that a path has too many links.
const TOO_MANY_LINKS: i32 = 40;

/// The folders of a store that a path is held to.
#[derive(Drop)]
struct Folders {
    /// Those in which no file is to be made that isn't the store's.
    inside: Vec<Identity>,
    /// Those in which and below which none is.
    below: Vec<Identity>,
}

/// Refuses a path in a folder of the store, or below one that may have fragments of it anywhere; one whose links lead there; and one whose
/// links lead to a file of the stripe, which may have another name elsewhere.
pub(crate) fn refuse_in_store(
    rt: &HostRuntime,
    sought: &Sought<'_, '_>,
    path: &str,
) -> Result<(), FileFault> {
    match leads_into_store(rt, sought, path) {
        Ok(false) => refuse_own_file(rt, sought, path),
        Ok(true) => Err(FileFault::Usage {
            what: format!(in rt.alloc(); "{path}: is in a folder of the store")?,
        }),
        Err(error) => Err(device(rt.alloc(), path, error)),
    }
}

/// Refuses a path whose links lead to a file of the stripe: it would be written as it is.
fn refuse_own_file(rt: &HostRuntime, sought: &Sought<'_, '_>, path: &str) -> Result<(), FileFault> {
    match leads_to_own_file(rt, sought, path) {
        Ok(false) => Ok(()),
        Ok(true) => Err(FileFault::Usage {
            what: format!(in rt.alloc(); "{path}: leads to a file of the store")?,
        }),
        Err(error) => Err(device(rt.alloc(), path, error)),
    }
}

/// Whether links lead from a path to a file of the stripe. A regular file that is at the path itself is replaced, and stays as it is under
/// its other names. One of the stripe's that can't be looked at is left out, as its folder is.
fn leads_to_own_file(rt: &HostRuntime, sought: &Sought<'_, '_>, path: &str) -> io::Result<bool> {
    if fs::symlink_metadata(rt, path).is_ok_and(|there| there.is_file()) {
        return Ok(false);
    }
    let end = match fs::metadata(rt, path) {
        Ok(there) if there.is_file() => Identity::of(&there),
        Ok(_) => return Ok(false),
        Err(error) if error.kind() == ErrorKind::NotFound => return Ok(false),
        Err(error) => return Err(error),
    };
    let StoredFile { folder, links, .. } = sought.file;
    for name in own_names(rt.alloc(), &sought.file)? {
        let own = path_in(rt.alloc(), folder, name.as_str())?;
        match look_at(rt, own.as_str(), links) {
            Ok(there) if Identity::of(&there) == end => return Ok(true),
            Err(error) if error.kind() == ErrorKind::OutOfMemory => return Err(error),
            _ => {}
        }
    }
    Ok(false)
}

/// The names that files of the stripe can have, of either code, and that of the digests.
fn own_names(alloc: Global, file: &StoredFile<'_, '_>) -> Result<Vec<String>, AllocError> {
    let mut names = Vec::new(alloc);
    names.push(String::from_str(alloc, SUMS_NAME)?)?;
    for code in [Code::Narrow, Code::Wide] {
        for place in code.places() {
            names.push(fragment_name(alloc, &file.pattern, code, file.name, *place)?)?;
        }
        for name in description_names(alloc, &file.pattern, code, file.name)? {
            names.push(name)?;
        }
    }
    Ok(names)
}

/// Whether a path, or what its links lead to, is in a folder of the store or below one.
fn leads_into_store(rt: &HostRuntime, sought: &Sought<'_, '_>, path: &str) -> io::Result<bool> {
    let folders = folders_of(rt, sought)?;
    if is_among(rt, folder_of(path), &folders)? {
        return Ok(true);
    }
    match end_of_links(rt, path)? {
        Some(end) => is_among(rt, folder_of(end.as_str()), &folders),
        None => Ok(false),
    }
}

/// The store's own folder, those that the fragments are in, and those above these in the store. If each disk has a folder of its own, what
/// is beside these is somebody else's; else other stripes may have theirs anywhere. One that can't be looked at is left out: what has
/// failed on a disk doesn't keep the file from being read.
fn folders_of(rt: &HostRuntime, sought: &Sought<'_, '_>) -> io::Result<Folders> {
    let alloc = rt.alloc();
    let StoredFile { pattern, .. } = sought.file;
    let mut folders = Folders {
        inside: Vec::new(alloc),
        below: Vec::new(alloc),
    };
    let disks = disk_folders(alloc, &pattern, Code::Wide)?;
    let are_disks = disks.is_some();
    let own = Identity::of(&fs::metadata(rt, sought.file.folder)?);
    folders.add(own, are_disks || pattern.depth() == 0)?;
    let of_fragments = match disks {
        Some(disks) => disks,
        None => stripe_folders(alloc, &pattern, Code::Wide, sought.file.name)?,
    };
    for folder in &of_fragments {
        folders.add_with_above(rt, sought, folder.as_str(), are_disks)?;
    }
    Ok(folders)
}

impl Folders {
    /// Adds a folder.
    fn add(&mut self, folder: Identity, is_alone: bool) -> io::Result<()> {
        let list = if is_alone {
            &mut self.inside
        } else {
            &mut self.below
        };
        Ok(list.push(folder)?)
    }

    /// Adds a folder that fragments are in, and those above it in the store.
    fn add_with_above(
        &mut self,
        rt: &HostRuntime,
        sought: &Sought<'_, '_>,
        folder: &str,
        are_disks: bool,
    ) -> io::Result<()> {
        let mut inside = folder;
        for level in 0..sought.file.pattern.depth() {
            if inside.is_empty() {
                break;
            }
            let path = path_in(rt.alloc(), sought.file.folder, inside)?;
            match fs::metadata(rt, path.as_str()) {
                Ok(there) => self.add(Identity::of(&there), are_disks && 0 < level)?,
                Err(error) if error.kind() == ErrorKind::OutOfMemory => return Err(error),
                Err(_) => {}
            }
            inside = folder_in(inside);
        }
        Ok(())
    }
}

/// Whether a folder is one of a store, or below one that may have fragments anywhere. What is above a folder that can't be searched isn't
/// seen.
fn is_among(rt: &HostRuntime, folder: &str, folders: &Folders) -> io::Result<bool> {
    let mut path = String::from_str(rt.alloc(), folder)?;
    let mut lower = Identity::of(&fs::metadata(rt, folder)?);
    if folders.inside.contains(&lower) {
        return Ok(true);
    }
    for _level in 0..MOST_LEVELS {
        if folders.below.contains(&lower) {
            return Ok(true);
        }
        path.push_str("/..")?;
        let above = match fs::metadata(rt, path.as_str()) {
            Ok(above) => Identity::of(&above),
            Err(error) if error.kind() == ErrorKind::PermissionDenied => return Ok(false),
            Err(error) => return Err(error),
        };
        // Above the root is the root.
        if above == lower {
            return Ok(false);
        }
        lower = above;
    }
    Err(io::Error::from(ErrorKind::InvalidFilename))
}

/// The path of what a path's links lead to, if that can be found there, or would be a new file. A pipe, to which `/dev/stdout` may lead,
/// has no path, nor has what was removed, or is outside what this process sees of the system's files.
fn end_of_links(rt: &HostRuntime, path: &str) -> io::Result<Option<String>> {
    let end = match followed(rt, String::from_str(rt.alloc(), path)?) {
        Ok(end) => end,
        Err(error) if error.kind() == ErrorKind::InvalidInput => {
            return Err(io::Error::from_raw_os_error(TOO_MANY_LINKS));
        }
        Err(error) => return Err(error),
    };
    match fs::metadata(rt, path) {
        Ok(there) if 0 < there.nlink() => match is_at(rt, end, &there) {
            // It may be open by a path that its user can't look at.
            Err(error) if !there.is_file() && error.kind() == ErrorKind::PermissionDenied => Ok(
                None,
            ),
            found => found,
        },
        Err(error) if error.kind() == ErrorKind::NotFound => Ok(Some(end)),
        Err(error) => Err(error),
        Ok(_) => Ok(None),
    }
}

/// A path, if this file is there; a link there was none when the links were followed.
fn is_at(rt: &HostRuntime, path: String, file: &Metadata) -> io::Result<Option<String>> {
    match fs::symlink_metadata(rt, path.as_str()) {
        Ok(found) if Identity::of(&found) == Identity::of(file) => Ok(Some(path)),
        Ok(found) if found.is_symlink() => {
            Err(io::Error::new(ErrorKind::ResourceBusy, "changed meanwhile"))
        }
        Ok(_) => Ok(None),
        Err(error) if error.kind() == ErrorKind::NotFound => Ok(None),
        Err(error) => Err(error),
    }
}
