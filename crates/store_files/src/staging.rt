//! Stripes that are to replace others: their names, and whether one is there.
use crate::digesting::digest_at;
use crate::fragments::is_lost;
use crate::stored_file::StoredFile;
use crate::target::Target;
use lrc_code::{Code, Place};
use std::alloc::{AllocError, Global};
use std::fs::{self, Metadata};
use store_faults::{FileFault, device, fragment_name};
use store_folder::{Digest, Identity, is_absent, path_in, refuse_linked_folders};

/// How the name of a stripe ends that is to replace another one.
const STAGED: &str = ".rebuild-store-new";

/// The name of the stripe that is to replace the one of a name.
pub fn staged_name(alloc: Global, name: &str) -> Result<String, AllocError> {
    let mut staged = String::from_str(alloc, name)?;
    staged.push_str(STAGED)?;
    Ok(staged)
}

/// Whether a name is that of a stripe which is to replace another one.
pub fn is_staged(name: &str) -> bool {
    name.ends_with(STAGED)
}

/// Whether there is anything under the name of a fragment of a stripe at one of some places, whatever can't be looked at of the others.
pub fn has_some(
    rt: &HostRuntime,
    file: &StoredFile<'_, '_>,
    code: Code,
    places: &[Place],
) -> Result<bool, FileFault> {
    let mut refused = None;
    for place in places {
        match has_fragment(rt, file, code, *place) {
            Ok(true) => return Ok(true),
            Ok(false) => {}
            Err(fault) if matches!(&fault, FileFault::OutOfMemory) => return Err(fault),
            Err(fault) => refused = Some(fault),
        }
    }
    refused.map_or(Ok(false), Err)
}

/// Whether there is anything under the name of a stripe's fragment at a place.
pub(crate) fn has_fragment(
    rt: &HostRuntime,
    file: &StoredFile<'_, '_>,
    code: Code,
    place: Place,
) -> Result<bool, FileFault> {
    let alloc = rt.alloc();
    let name = fragment_name(alloc, &file.pattern, code, file.name, place)?;
    let path = path_in(alloc, file.folder, name.as_str())?;
    is_there(rt, path.as_str())
}

/// Whether a fragment of a stripe has the name of another stripe's too. What can't be looked at counts as not there.
pub fn shares_fragment(
    rt: &HostRuntime,
    file: &StoredFile<'_, '_>,
    other: &StoredFile<'_, '_>,
) -> Result<bool, FileFault> {
    for code in [Code::Narrow, Code::Wide] {
        for place in code.places() {
            let here = known(fragment_at(rt, file, code, *place))?;
            if here.is_some() && is_one(here, known(fragment_at(rt, other, code, *place))?) {
                return Ok(true);
            }
        }
    }
    Ok(false)
}

/// The same where what can't be looked at is a fault.
pub fn shares_fragment_for_sure(
    rt: &HostRuntime,
    file: &StoredFile<'_, '_>,
    other: &StoredFile<'_, '_>,
) -> Result<bool, FileFault> {
    for code in [Code::Narrow, Code::Wide] {
        for place in code.places() {
            let here = fragment_at(rt, file, code, *place)?;
            if here.is_some() && is_one(here, fragment_at(rt, other, code, *place)?) {
                return Ok(true);
            }
        }
    }
    Ok(false)
}

/// What is known to be somewhere, where what can't be looked at counts as not there.
fn known(there: Result<Option<Metadata>, FileFault>) -> Result<Option<Metadata>, FileFault> {
    match there {
        Err(fault) if matches!(&fault, FileFault::Device { .. }) => Ok(None),
        there => there,
    }
}

/// Whether each fragment of a stripe has the name of another stripe's too, or the bytes of that one.
pub fn has_fragments_of(
    rt: &HostRuntime,
    file: &StoredFile<'_, '_>,
    other: &StoredFile<'_, '_>,
) -> Result<bool, FileFault> {
    for code in [Code::Narrow, Code::Wide] {
        for place in code.places() {
            if !has_fragment_of(rt, file, other, code, *place)? {
                return Ok(false);
            }
        }
    }
    Ok(true)
}

/// The same of the fragment at a place, if there is one.
fn has_fragment_of(
    rt: &HostRuntime,
    file: &StoredFile<'_, '_>,
    other: &StoredFile<'_, '_>,
    code: Code,
    place: Place,
) -> Result<bool, FileFault> {
    let Some(here) = fragment_at(rt, file, code, place)? else {
        return Ok(true);
    };
    let Some(there) = fragment_at(rt, other, code, place)? else {
        return Ok(false);
    };
    if Identity::of(&here) == Identity::of(&there) {
        return Ok(true);
    }
    let length = here.len();
    let own = digest_of_fragment(rt, file, code, place, length)?;
    Ok(own.is_some() && own == digest_of_fragment(rt, other, code, place, length)?)
}

/// The digest of a stripe's fragment at a place, if it is a regular file of this length.
fn digest_of_fragment(
    rt: &HostRuntime,
    file: &StoredFile<'_, '_>,
    code: Code,
    place: Place,
    length: u64,
) -> Result<Option<Digest>, FileFault> {
    let alloc = rt.alloc();
    let name = fragment_name(alloc, &file.pattern, code, file.name, place)?;
    let path = path_in(alloc, file.folder, name.as_str())?;
    match digest_at(rt, path.as_str(), length, file.links) {
        Ok(digest) => Ok(Some(digest)),
        Err(error) if is_lost(error.kind()) => Ok(None),
        Err(error) => Err(device(alloc, path.as_str(), error)),
    }
}

/// Whether two names are of one file.
fn is_one(here: Option<Metadata>, there: Option<Metadata>) -> bool {
    match (here, there) {
        (Some(here), Some(there)) => Identity::of(&here) == Identity::of(&there),
        _ => false,
    }
}

/// What the system says of the fragment of a stripe at a place, if one is there.
fn fragment_at(
    rt: &HostRuntime,
    file: &StoredFile<'_, '_>,
    code: Code,
    place: Place,
) -> Result<Option<Metadata>, FileFault> {
    let alloc = rt.alloc();
    let name = fragment_name(alloc, &file.pattern, code, file.name, place)?;
    let path = path_in(alloc, file.folder, name.as_str())?;
    match fs::symlink_metadata(rt, path.as_str()) {
        Ok(there) => Ok(Some(there)),
        Err(error) if is_absent(error.kind()) => Ok(None),
        Err(error) => Err(device(alloc, path.as_str(), error)),
    }
}

/// That a store has no file of a name.
pub fn no_stored(alloc: Global, name: &str, folder: &str) -> Result<FileFault, AllocError> {
    Ok(FileFault::Refused {
        what: format!(in alloc; "{name}: is no file of the store {folder}")?,
    })
}

/// Refuses names of the store on whose way a folder is a link, unless links are followed.
pub fn refuse_linked(
    rt: &HostRuntime,
    target: &Target<'_>,
    names: &[String],
) -> Result<(), FileFault> {
    let alloc = rt.alloc();
    for name in names {
        match refuse_linked_folders(rt, target.folder, name.as_str(), target.links) {
            Err(error) if !is_absent(error.kind()) => {
                let path = target.path(alloc, name.as_str())?;
                return Err(device(alloc, path.as_str(), error));
            }
            _ => {}
        }
    }
    Ok(())
}

/// Whether there is anything at a path. Nothing has a name that is longer than its folder takes.
pub fn is_there(rt: &HostRuntime, path: &str) -> Result<bool, FileFault> {
    match fs::symlink_metadata(rt, path) {
        Ok(_) => Ok(true),
        Err(error) if is_absent(error.kind()) => Ok(false),
        Err(error) => Err(device(rt.alloc(), path, error)),
    }
}
