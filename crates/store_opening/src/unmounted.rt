//! Folders of a store's disks at which no disk is mounted.
use crate::opening::{Opening, Unmounted};
use lrc_code::{Code, PlaceSet};
use std::alloc::{AllocError, Global};
use std::fs;
use std::io::{self, ErrorKind};
use std::os::unix::fs::MetadataExt;
use store_faults::{StoreFault, device_fault, say, words_of};
use store_folder::{Found, Links, NO_MEDIUM, Pattern, is_absent, look_at, path_in};
use store_listing::{StoreStripes, Unlisted};
use store_names::{disk_folders, folder_in};

/// A folder of a pattern's disks at which no disk is mounted, or of which that can't be seen.
#[derive(Drop)]
struct Unseen {
    name: String,
    /// Why it can't be looked at, if it can't.
    error: Option<io::Error>,
}

/// The folders of a pattern's disks that can't be looked at, and those that are on the device of the store's own folder, if more of them
/// are on others: no disk is mounted at these, and what is written there would be on another one.
fn unmounted_folders(
    rt: &HostRuntime,
    folder: &str,
    pattern: &Pattern<'_>,
    code: Code,
    links: Links,
) -> Result<Vec<Unseen>, StoreFault> {
    let alloc = rt.alloc();
    let mut unmounted = Vec::new(alloc);
    let Some(disks) = disk_folders(alloc, pattern, code)? else {
        return Ok(unmounted);
    };
    let store = match fs::metadata(rt, folder) {
        Ok(store) => store,
        Err(error) if error.kind() == ErrorKind::NotFound => return Ok(unmounted),
        Err(error) => return Err(device_fault(String::from_str(alloc, folder)?, error)),
    };
    let mut mounted = 0usize;
    let mut unseen = Vec::new(alloc);
    for name in disks {
        let path = path_in(alloc, folder, name.as_str())?;
        match look_at(rt, path.as_str(), links) {
            Ok(there) if there.is_dir() && there.dev() != store.dev() => {
                mounted = mounted.saturating_add(1);
            }
            Ok(there) if there.is_dir() => unmounted.push(Unseen { name, error: None })?,
            Err(error) if error.kind() == ErrorKind::OutOfMemory => {
                return Err(StoreFault::OutOfMemory);
            }
            Err(error) if !is_absent(error.kind()) => {
                let error = Some(error);
                unseen.push(Unseen { name, error })?;
            }
            _ => {}
        }
    }
    // A folder that can't be looked at counts for neither: what is mounted there may have failed.
    if mounted <= unmounted.len() {
        unmounted.clear();
    }
    unseen.append(&mut unmounted)?;
    Ok(unseen)
}

/// Refuses a store that is to be written into if no disk is mounted at a folder of its pattern, as are at most others, or if one of these
/// can't be looked at.
pub fn refuse_unmounted(
    rt: &HostRuntime,
    folder: &str,
    pattern: &Pattern<'_>,
    code: Code,
    links: Links,
) -> Result<(), StoreFault> {
    let unmounted = unmounted_folders(rt, folder, pattern, code, links)?;
    let Some(Unseen { name, error }) = unmounted.into_iter().next() else {
        return Ok(());
    };
    let folder = path_in(rt.alloc(), folder, name.as_str())?;
    Err(match error {
        Some(error) => device_fault(folder, error),
        None => StoreFault::Unmounted { folder },
    })
}

/// The folders into which nothing is to be written, and whether one can't be looked at.
#[derive(Drop)]
pub(crate) struct LeftAlone {
    pub(crate) names: Vec<String>,
    pub(crate) has_unseen: bool,
}

/// The folders at which no disk is mounted, or that can't be looked at, and into which nothing is to be written. Those that aren't allowed
/// are named, unless they couldn't be listed, which is named elsewhere.
pub(crate) fn left_alone(
    rt: &HostRuntime,
    opening: &Opening<'_>,
    code: Code,
    unlisted: &[Unlisted],
) -> Result<LeftAlone, StoreFault> {
    let alloc = rt.alloc();
    let folder = opening.folder;
    let mut names = Vec::new(alloc);
    let mut has_unseen = false;
    if opening.unmounted == Unmounted::Allowed {
        return Ok(LeftAlone { names, has_unseen });
    }
    let is_left_alone = opening.unmounted == Unmounted::LeftAlone;
    for Unseen { name, error } in unmounted_folders(
        rt,
        folder,
        &opening.pattern,
        code,
        opening.links,
    )? {
        if error.is_some() && is_unlisted(unlisted, name.as_str()) {
            continue;
        }
        has_unseen = has_unseen || error.is_some();
        let path = path_in(alloc, folder, name.as_str())?;
        let _ = say(
            rt,
            line_of(alloc, path.as_str(), error.as_ref(), is_left_alone),
        );
        if is_left_alone {
            names.push(name)?;
        }
    }
    Ok(LeftAlone { names, has_unseen })
}

/// Whether a folder couldn't be listed, or one that it is in.
fn is_unlisted(unlisted: &[Unlisted], name: &str) -> bool {
    unlisted.iter().any(|other| {
        let rest = name.strip_prefix(other.name.as_str());
        rest.is_some_and(|rest| rest.is_empty() || rest.starts_with('/'))
    })
}

/// What is said of a folder at which no disk is mounted, or that can't be looked at.
fn line_of(
    alloc: Global,
    path: &str,
    error: Option<&io::Error>,
    is_left_alone: bool,
) -> Result<String, AllocError> {
    match error {
        Some(error) => {
            let why = words_of(alloc, error)?;
            format!(in alloc; "rebuild-store: {path}: {why}: what should be in it counts as lost")
        }
        None if is_left_alone => format!(in alloc;
            "rebuild-store: {path}: no disk is mounted there, as are at most others: nothing is written there without --allow-unmounted"
        ),
        None => format!(in alloc;
            "rebuild-store: {path}: no disk is mounted there, as are at most others"
        ),
    }
}

/// Notes that what isn't in some folders of disks can't be looked at, so that nothing is put there.
pub(crate) fn leave_alone(
    alloc: Global,
    pattern: &Pattern<'_>,
    code: Code,
    folders: &[String],
    found: &mut StoreStripes,
) -> Result<(), AllocError> {
    let mut places = PlaceSet::empty();
    for place in code.places() {
        // Folders of disks are the same for each stripe.
        if let Some(name) = pattern.name_of(alloc, code, "a", *place)? {
            let inside = folder_in(name.as_str());
            if folders.iter().any(|folder| folder.as_str() == inside) {
                places = places.with(*place);
            }
        }
    }
    for files in found.files.values_mut() {
        for place in code.places() {
            if places.has(*place) && files.at(*place) == Found::Absent {
                files.found[place.index()] = Found::Unknown { code: NO_MEDIUM };
            }
        }
    }
    Ok(())
}
