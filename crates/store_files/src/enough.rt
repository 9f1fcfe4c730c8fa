//! Whether fragments enough of a file are there to read it.
use crate::fragments::is_lost;
use crate::stored_file::StoredFile;
use lrc_code::{Code, Place, PlaceSet};
use std::alloc::{AllocError, Global};
use std::io::{self, ErrorKind};
use store_faults::{FileFault, device, fragment_name};
use store_folder::{look_at, path_in, refuse_linked_folders};
use store_repair::lost_places;

/// Whether so many fragments of a stripe are there, of a length if one is given, that they determine the others. If that depends on such as
/// can't be looked at, it isn't known; else it is said which can't.
pub fn has_enough(
    rt: &HostRuntime,
    file: &StoredFile<'_, '_>,
    code: Code,
    length: Option<u64>,
) -> Result<bool, FileFault> {
    let alloc = rt.alloc();
    let mut there = PlaceSet::empty();
    let mut may_be = PlaceSet::empty();
    let mut faults = Vec::new(alloc);
    for place in code.places() {
        match is_fragment(rt, file, code, *place, length) {
            Ok(true) => there = there.with(*place),
            Ok(false) => continue,
            Err(fault) if matches!(&fault, FileFault::OutOfMemory) => return Err(fault),
            Err(fault) => faults.push(fault)?,
        }
        may_be = may_be.with(*place);
    }
    if are_determined(alloc, code, there)? {
        return Ok(true);
    }
    let is_unknown = are_determined(alloc, code, may_be)?;
    let mut last = None;
    for fault in faults {
        say_fault(rt, file, last);
        last = Some(fault);
    }
    if is_unknown {
        return last.map_or(Ok(false), Err);
    }
    say_fault(rt, file, last);
    Ok(false)
}

/// Says what can't be looked at, if anything can't.
fn say_fault(rt: &HostRuntime, file: &StoredFile<'_, '_>, fault: Option<FileFault>) {
    if let Some(fault) = fault {
        file.say(rt, format!(in rt.alloc(); "rebuild-store: {fault}"));
    }
}

/// Whether the fragments at some places determine the others.
fn are_determined(alloc: Global, code: Code, there: PlaceSet) -> Result<bool, AllocError> {
    let lost = lost_places(alloc, code, there, code.others(there))?;
    Ok(lost.several.is_empty())
}

/// Whether a regular file is under the name of a stripe's fragment at a place, of a length if one is given.
fn is_fragment(
    rt: &HostRuntime,
    file: &StoredFile<'_, '_>,
    code: Code,
    place: Place,
    length: Option<u64>,
) -> Result<bool, FileFault> {
    let alloc = rt.alloc();
    let name = fragment_name(alloc, &file.pattern, code, file.name, place)?;
    let path = path_in(alloc, file.folder, name.as_str())?;
    match length_below(rt, file, name.as_str(), path.as_str()) {
        Ok(found) => Ok(length.unwrap_or(found) == found),
        Err(error) if is_lost(error.kind()) => Ok(false),
        Err(error) => Err(device(alloc, path.as_str(), error)),
    }
}

/// The length of the regular file of a name in the store.
fn length_below(
    rt: &HostRuntime,
    file: &StoredFile<'_, '_>,
    name: &str,
    path: &str,
) -> io::Result<u64> {
    refuse_linked_folders(rt, file.folder, name, file.links)?;
    let there = look_at(rt, path, file.links)?;
    if !there.is_file() {
        return Err(io::Error::from(ErrorKind::InvalidInput));
    }
    Ok(there.len())
}
