//! The folders of a stripe's fragments.
use crate::encoding::fragments::unmade;
use crate::own_folders::is_above;
use std::alloc::AllocError;
use std::fs;
use std::io::{self, ErrorKind};
use store_faults::{FileFault, device};
use store_files::Target;
use store_folder::{folder_of, path_in, refuse_linked_folders, sync_folder};
use store_names::stripe_folders;

/// Makes the folders that the fragments of a stripe are to be in, as far as they aren't there.
pub(crate) fn make_folders(
    rt: &HostRuntime,
    target: &Target<'_>,
    stripe: &str,
) -> Result<(), FileFault> {
    let folders = stripe_folders(rt.alloc(), &target.pattern, target.code, stripe)?;
    for inside in &folders {
        make_each(rt, target, inside.as_str(), &[])?;
    }
    Ok(())
}

/// Makes the folders that a stripe has alone. Those that another stripe would have too, as those of disks, have to be there.
pub(crate) fn make_own_folders(
    rt: &HostRuntime,
    target: &Target<'_>,
    stripe: &str,
    other: &str,
) -> Result<(), FileFault> {
    let alloc = rt.alloc();
    let others = stripe_folders(alloc, &target.pattern, target.code, other)?;
    let folders = stripe_folders(alloc, &target.pattern, target.code, stripe)?;
    for inside in &folders {
        make_each(rt, target, inside.as_str(), others.as_slice())?;
    }
    Ok(())
}

/// Makes a folder in the store, and those that it is in, but for some folders and those that these are in.
fn make_each(
    rt: &HostRuntime,
    target: &Target<'_>,
    inside: &str,
    but: &[String],
) -> Result<(), FileFault> {
    let alloc = rt.alloc();
    let mut name = String::new(alloc);
    for part in inside.split('/') {
        if part.is_empty() {
            continue;
        }
        add_part(&mut name, part)?;
        if is_above(name.as_str(), but) {
            continue;
        }
        if let Err(error) = make_inside(rt, target, name.as_str()) {
            let error = if but.is_empty() { error } else { unmade(error) };
            return Err(device(alloc, name.as_str(), error));
        }
    }
    Ok(())
}

/// Adds the name of a folder that is in the one of a name.
fn add_part(name: &mut String, part: &str) -> Result<(), AllocError> {
    if !name.is_empty() {
        name.push('/')?;
    }
    name.push_str(part)
}

/// Makes the folder of a name in the store, unless it is there, and writes its name to the disk.
fn make_inside(rt: &HostRuntime, target: &Target<'_>, name: &str) -> io::Result<()> {
    refuse_linked_folders(rt, target.folder, name, target.links)?;
    let path = path_in(rt.alloc(), target.folder, name)?;
    if make_folder(rt, path.as_str())? {
        sync_folder(rt, folder_of(path.as_str()))?;
    }
    Ok(())
}

/// Makes a folder, unless it is there. Gives whether its name may not be on the disk: it is new, or it is empty, as what a run leaves that
/// was killed before it wrote the name there.
pub fn make_folder(rt: &HostRuntime, path: &str) -> io::Result<bool> {
    match fs::create_dir(rt, path) {
        Ok(()) => Ok(true),
        Err(error) if error.kind() == ErrorKind::AlreadyExists => is_empty(rt, path),
        Err(error) => Err(error),
    }
}

/// Whether nothing is in a folder. A name that can't be shown is something.
fn is_empty(rt: &HostRuntime, path: &str) -> io::Result<bool> {
    match fs::read_dir(rt, path)?.next() {
        None => Ok(true),
        Some(Ok(_)) => Ok(false),
        Some(Err(error)) if error.kind() == ErrorKind::InvalidFilename => Ok(false),
        Some(Err(error)) => Err(error),
    }
}
