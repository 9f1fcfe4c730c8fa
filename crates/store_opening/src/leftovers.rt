//! What runs that were killed have left: it is removed by the next run that writes to the same.
use crate::locks::Locks;
use crate::sharing::OtherRun;
use std::alloc::AllocError;
use std::collections::BTreeSet;
use std::fs;
use std::io::{self, ErrorKind};
use store_faults::{say, words_of};
use store_folder::{Identity, Leftover, is_left_by, remove_leftover};
use store_listing::{Listing, left_in};
use store_names::last_of;

/// Removes what a killed run with this tag has left in a folder that was listed, and in those that its links lead to. Each file that is
/// removed, or can't be, is named, and so is one of a run that may still work, which stays. Says whether all others could be removed.
pub fn remove_leftovers(
    rt: &HostRuntime,
    locks: &Locks,
    listing: &Listing,
    tag: &str,
) -> io::Result<bool> {
    let mut are_removed = true;
    let mut met = BTreeSet::new(rt.alloc());
    for path in &listing.leftovers {
        if is_left_by(last_of(path.as_str()), tag) {
            are_removed = remove(rt, locks, path.as_str(), true, &mut met)? && are_removed;
        }
    }
    for folder in &listing.linked {
        are_removed = remove_linked(rt, locks, folder.as_str(), tag, &mut met)? && are_removed;
    }
    Ok(are_removed)
}

/// The same of a folder that a link leads to. It is named if it can't be listed; one that isn't there has nothing.
fn remove_linked(
    rt: &HostRuntime,
    locks: &Locks,
    folder: &str,
    tag: &str,
    met: &mut BTreeSet<String>,
) -> io::Result<bool> {
    let paths = match left_in(rt, folder, tag) {
        Ok(paths) => paths,
        Err(error) => return say_unlisted(rt, folder, error),
    };
    let mut are_removed = true;
    for path in &paths {
        are_removed = remove(rt, locks, path.as_str(), false, met)? && are_removed;
    }
    Ok(are_removed)
}

/// Says that a folder can't be listed, unless it isn't there. Says whether it isn't.
fn say_unlisted(rt: &HostRuntime, folder: &str, error: io::Error) -> io::Result<bool> {
    match error.kind() {
        ErrorKind::NotFound | ErrorKind::NotADirectory => Ok(true),
        ErrorKind::OutOfMemory => Err(error),
        _ => {
            let why = words_of(rt.alloc(), &error)?;
            say(
                rt,
                format!(in rt.alloc();
                    "rebuild-store: {folder}: {why}: what runs that were killed have left there stays"
                ),
            )?;
            Ok(false)
        }
    }
}

/// Removes a file, and says so, if it wasn't met before. Says whether it could be removed, or is to stay.
fn remove(
    rt: &HostRuntime,
    locks: &Locks,
    path: &str,
    is_known_dead: bool,
    met: &mut BTreeSet<String>,
) -> io::Result<bool> {
    match is_new(rt, path, met) {
        Ok(true) => {}
        Ok(false) => return Ok(true),
        Err(error) if error.kind() == ErrorKind::OutOfMemory => return Err(error),
        Err(error) => {
            say_done(rt, path, &Leftover::Refused(error))?;
            return Ok(false);
        }
    }
    if locks.is_worked_on(rt, path) {
        return Ok(true);
    }
    if let Some(OtherRun { words }) = locks.other_at(rt, path)? {
        say(
            rt,
            format!(in rt.alloc();
                "rebuild-store: {path}: was left by {words}, which may still work: remove it if that has ended"
            ),
        )?;
        return Ok(true);
    }
    let done = remove_leftover(rt, path, is_known_dead);
    say_done(rt, path, &done)?;
    Ok(!matches!(done, Leftover::Refused(_)))
}

/// Whether a file is met that wasn't met before: its folder may have several names. One that isn't there any more isn't met.
fn is_new(rt: &HostRuntime, path: &str, met: &mut BTreeSet<String>) -> io::Result<bool> {
    let Identity { device, node } = match fs::symlink_metadata(rt, path) {
        Ok(there) => Identity::of(&there),
        Err(error) if error.kind() == ErrorKind::NotFound => return Ok(false),
        Err(error) => return Err(error),
    };
    let name = last_of(path);
    let key = format!(in rt.alloc(); "{device}/{node}/{name}")?;
    if met.contains(key.as_str()) {
        return Ok(false);
    }
    met.insert(key)?;
    Ok(true)
}

/// Says what became of a leftover at a path, unless it was left to another run.
fn say_done(rt: &HostRuntime, path: &str, done: &Leftover) -> Result<(), AllocError> {
    let alloc = rt.alloc();
    let what = match done {
        Leftover::Removed => {
            String::from_str(alloc, "was left by a run that was killed, and is removed")?
        }
        Leftover::Kept => return Ok(()),
        Leftover::NoLock => String::from_str(alloc, "has the name of a lock and isn't one")?,
        Leftover::Refused(error) => {
            let why = words_of(alloc, error)?;
            format!(in alloc; "is left over, and can't be removed: {why}")?
        }
    };
    say(rt, format!(in alloc; "rebuild-store: {path}: {what}"))
}
