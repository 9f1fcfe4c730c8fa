//! Listing a folder, and what of it couldn't be listed.
use lrc_code::Code;
use std::alloc::{AllocError, Global};
use std::collections::BTreeSet;
use std::io::ErrorKind;
use store_faults::{StoreFault, device_fault, say, words_of};
use store_folder::Pattern;
use store_listing::{Listing, StoreStripes, Unlisted, Wanted, list};
use store_names::{disk_folders, folder_in, stripe_folders};

/// Lists a folder, and says how many links weren't followed, and the first of them.
pub(crate) fn listed(
    rt: &HostRuntime,
    folder: &str,
    wanted: &Wanted<'_>,
) -> Result<Listing, StoreFault> {
    match list(rt, folder, wanted) {
        Ok(listing) => {
            say_links(rt, &listing);
            Ok(listing)
        }
        Err(error) => Err(device_fault(String::from_str(rt.alloc(), folder)?, error)),
    }
}

/// Says which folders couldn't be listed or aren't there, and whether one is there. One that isn't there is said if a stripe should be in
/// it.
pub(crate) fn say_unlisted(
    rt: &HostRuntime,
    listing: &Listing,
    pattern: &Pattern<'_>,
    code: Code,
    stripes: &StoreStripes,
) -> Result<bool, AllocError> {
    let mut is_there = false;
    let expected = if listing.unlisted.iter().any(is_gone) {
        expected_folders(rt.alloc(), pattern, code, stripes)?
    } else {
        BTreeSet::new(rt.alloc())
    };
    for unlisted in &listing.unlisted {
        let Unlisted { name, path, error } = unlisted;
        let is_gone = is_gone(unlisted);
        if is_gone && !expected.contains(name.as_str()) {
            continue;
        }
        is_there = is_there || !is_gone;
        let why = words_of(rt.alloc(), error)?;
        let _ = say(
            rt,
            format!(in rt.alloc();
                "rebuild-store: {path}: {why}: what should be in it counts as lost"
            ),
        );
    }
    Ok(is_there)
}

/// Says which folders of those that rebuilt fragments are written to couldn't be listed, and whether there are some. One that isn't there
/// is said when something is to be made in it.
pub(crate) fn say_unlisted_target(rt: &HostRuntime, target: &Listing) -> Result<bool, AllocError> {
    let mut is_there = false;
    for unlisted in &target.unlisted {
        if is_gone(unlisted) {
            continue;
        }
        is_there = true;
        let Unlisted { path, error, .. } = unlisted;
        let why = words_of(rt.alloc(), error)?;
        let _ = say(
            rt,
            format!(in rt.alloc();
                "rebuild-store: {path}: {why}: what runs that were killed have left there stays"
            ),
        );
    }
    Ok(is_there)
}

/// Whether a folder isn't there.
fn is_gone(unlisted: &Unlisted) -> bool {
    let kind = unlisted.error.kind();
    kind == ErrorKind::NotFound || kind == ErrorKind::NotADirectory
}

/// The folders of disks, or of the stripes, and those that such folders are in.
fn expected_folders(
    alloc: Global,
    pattern: &Pattern<'_>,
    code: Code,
    stripes: &StoreStripes,
) -> Result<BTreeSet<String>, AllocError> {
    let mut expected = BTreeSet::new(alloc);
    if let Some(disks) = disk_folders(alloc, pattern, code)? {
        add_folders(alloc, disks, &mut expected)?;
        return Ok(expected);
    }
    for stripe in stripes.files.keys() {
        let folders = stripe_folders(alloc, pattern, code, stripe.as_str())?;
        add_folders(alloc, folders, &mut expected)?;
    }
    Ok(expected)
}

/// Adds some folders, and those that they are in.
fn add_folders(
    alloc: Global,
    folders: Vec<String>,
    expected: &mut BTreeSet<String>,
) -> Result<(), AllocError> {
    for folder in &folders {
        let mut name = folder.as_str();
        for _depth in 0..folder.len() {
            if name.is_empty() || expected.contains(name) {
                break;
            }
            expected.insert(String::from_str(alloc, name)?)?;
            name = folder_in(name);
        }
    }
    Ok(())
}

/// Says how many links of a store weren't followed.
pub fn say_links(rt: &HostRuntime, listing: &Listing) {
    if let Some(path) = &listing.link {
        let links = listing.links;
        let _ = match links {
            1 => say(
                rt,
                format!(in rt.alloc();
                    "rebuild-store: {path}: is a link, and isn't followed without --follow-links"
                ),
            ),
            _ => say(
                rt,
                format!(in rt.alloc();
                    "rebuild-store: {path} and others are links, {links} in all, and aren't followed without --follow-links"
                ),
            ),
        };
    }
}
