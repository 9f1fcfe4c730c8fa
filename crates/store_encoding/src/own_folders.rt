//! Folders of a store that are a stripe's own, since their names have the stripe's.
use crate::encoding::failures::after_another;
use lrc_code::Code;
use std::fs;
use std::io::{self, ErrorKind};
use store_faults::{FileFault, device};
use store_files::{Target, is_there};
use store_folder::{is_absent, refuse_linked_folders};
use store_names::{folder_in, stripe_folders};

/// Removes the folders that a stripe's fragments were in, as far as those of another stripe aren't there or below, and nothing is in them.
/// The other is the name of any other stripe: folders that it would have too, as those of disks, aren't the stripe's own. Of those that
/// can't be removed each is said but the last, which is given.
pub(crate) fn remove_own_folders(
    rt: &HostRuntime,
    target: &Target<'_>,
    code: Code,
    stripe: &str,
    other: &str,
) -> Result<(), FileFault> {
    let alloc = rt.alloc();
    let others = stripe_folders(alloc, &target.pattern, code, other)?;
    let folders = stripe_folders(alloc, &target.pattern, code, stripe)?;
    let mut refused = None;
    for folder in &folders {
        if let Err(fault) = remove_levels(rt, target, folder.as_str(), others.as_slice()) {
            refused = Some(after_another(rt, None, refused, fault));
        }
    }
    refused.map_or(Ok(()), Err)
}

/// Whether there is a folder that a stripe has and another one hasn't.
pub(crate) fn has_own_folders(
    rt: &HostRuntime,
    target: &Target<'_>,
    code: Code,
    stripe: &str,
    other: &str,
) -> Result<bool, FileFault> {
    let alloc = rt.alloc();
    let others = stripe_folders(alloc, &target.pattern, code, other)?;
    for folder in stripe_folders(alloc, &target.pattern, code, stripe)? {
        let mut inside = folder.as_str();
        for _level in 0..target.pattern.depth() {
            if inside.is_empty() || is_above(inside, others.as_slice()) {
                break;
            }
            let path = target.path(alloc, inside)?;
            if is_there(rt, path.as_str())? {
                return Ok(true);
            }
            inside = folder_in(inside);
        }
    }
    Ok(false)
}

/// Removes a folder and those that it is in, as far as they aren't those of another stripe, and nothing is in them.
fn remove_levels(
    rt: &HostRuntime,
    target: &Target<'_>,
    folder: &str,
    others: &[String],
) -> Result<(), FileFault> {
    let mut inside = folder;
    for _level in 0..target.pattern.depth() {
        if inside.is_empty() || is_above(inside, others) {
            break;
        }
        remove_empty(rt, target, inside)?;
        inside = folder_in(inside);
    }
    Ok(())
}

/// Whether a folder is one of some folders, or one of these is below it.
pub(crate) fn is_above(folder: &str, others: &[String]) -> bool {
    let is_at_or_below = |other: &String| {
        match other.as_str().strip_prefix(folder) {
            Some(rest) => rest.is_empty() || rest.starts_with('/'),
            None => false,
        }
    };
    others.iter().any(is_at_or_below)
}

/// Removes a folder of the store if nothing is in it. What isn't a folder stays.
fn remove_empty(rt: &HostRuntime, target: &Target<'_>, inside: &str) -> Result<(), FileFault> {
    let path = target.path(rt.alloc(), inside)?;
    match remove_inside(rt, target, inside, path.as_str()) {
        Ok(()) => Ok(()),
        Err(error) if stays(error.kind()) => Ok(()),
        Err(error) => Err(device(rt.alloc(), path.as_str(), error)),
    }
}

/// Removes the empty folder of a name in the store, which is at this path.
fn remove_inside(
    rt: &HostRuntime,
    target: &Target<'_>,
    inside: &str,
    path: &str,
) -> io::Result<()> {
    refuse_linked_folders(rt, target.folder, inside, target.links)?;
    fs::remove_dir(rt, path)
}

/// Whether the kind of an error says that something is in a folder, or that none is there but maybe a link.
fn stays(kind: ErrorKind) -> bool {
    is_absent(kind)
        || matches!(
            kind,
            ErrorKind::DirectoryNotEmpty | ErrorKind::AlreadyExists | ErrorKind::InvalidInput
        )
}
