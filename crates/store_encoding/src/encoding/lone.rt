//! Descriptions of a stripe that was to replace another one, where nothing else is there of it.
use lrc_code::{Code, Place, PlaceSet};
use std::slice;
use store_faults::{FileFault, fragment_name};
use store_files::{StoredFile, descriptions_for_sure, fitting_description, has_some, is_there};
use store_folder::{Described, description_names, path_in};
use store_names::folder_in;
use store_repair::lost_places;

/// Whether what was begun that was to replace the file of a name has these descriptions alone, and can't be read again whichever disks come
/// back: too few can be away. The file itself gives what its own description says, so that none of those is the only one of what has its
/// names.
pub(crate) fn is_nothing(
    rt: &HostRuntime,
    staged: &StoredFile<'_, '_>,
    name: &str,
    said: &[Described],
) -> Result<bool, FileFault> {
    let file = StoredFile { name, ..*staged };
    for described in said {
        let code = described.code;
        if has_some(rt, staged, code, code.places())? || may_come_back(rt, staged, &file, code)? {
            return Ok(false);
        }
    }
    let own = descriptions_for_sure(rt, &file)?;
    Ok(fitting_description(rt, &file, own.as_slice())?.is_some())
}

/// Whether so many disks may be away that their fragments would determine all of a stripe of a code.
fn may_come_back(
    rt: &HostRuntime,
    staged: &StoredFile<'_, '_>,
    file: &StoredFile<'_, '_>,
    code: Code,
) -> Result<bool, FileFault> {
    let away = may_be_away(rt, staged, file, code)?;
    let lost = lost_places(rt.alloc(), code, away, code.others(away))?;
    Ok(lost.several.is_empty())
}

/// The places whose disks may be away: in their folders is neither a fragment of the file nor a description of what was to replace it.
fn may_be_away(
    rt: &HostRuntime,
    staged: &StoredFile<'_, '_>,
    file: &StoredFile<'_, '_>,
    code: Code,
) -> Result<PlaceSet, FileFault> {
    let mut away = PlaceSet::empty();
    for place in code.places() {
        let has_fragment = has_some(rt, file, code, slice::from_ref(place))?;
        if !has_fragment && !is_described_at(rt, staged, code, *place)? {
            away = away.with(*place);
        }
    }
    Ok(away)
}

/// Whether a description of a stripe is in the folder of its fragment at a place.
fn is_described_at(
    rt: &HostRuntime,
    file: &StoredFile<'_, '_>,
    code: Code,
    place: Place,
) -> Result<bool, FileFault> {
    let alloc = rt.alloc();
    let fragment = fragment_name(alloc, &file.pattern, code, file.name, place)?;
    for copy in description_names(alloc, &file.pattern, code, file.name)? {
        if folder_in(copy.as_str()) == folder_in(fragment.as_str()) {
            let path = path_in(alloc, file.folder, copy.as_str())?;
            if is_there(rt, path.as_str())? {
                return Ok(true);
            }
        }
    }
    Ok(false)
}
