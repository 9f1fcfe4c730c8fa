//! Whose a description is that is made again where no copy says anything, and who may read it.
use crate::copies::DescribedStripe;
use folders::Rights;
use std::alloc::AllocError;
use std::io::ErrorKind;
use store_faults::fragment_name;
use store_folder::{Site, description_names, is_absent, look_at, path_in};

/// The owner, the group and the rights of a stripe's files: of several rights those that all of them give. None where no file is there,
/// where one can't be looked at, or where they aren't of one owner and one group, so that what is made is its user's alone.
pub(crate) fn rights_of_files(
    rt: &HostRuntime,
    site: &Site<'_>,
    stripe: &DescribedStripe<'_>,
) -> Result<Option<Rights>, AllocError> {
    let alloc = rt.alloc();
    let mut names = description_names(alloc, &site.pattern, site.code, stripe.name)?;
    for place in site.code.places() {
        names.push(fragment_name(alloc, &site.pattern, site.code, stripe.name, *place)?)?;
    }
    let mut narrowest: Option<Rights> = None;
    for name in &names {
        let path = path_in(alloc, site.folder, name.as_str())?;
        let rights = match look_at(rt, path.as_str(), site.links) {
            Ok(there) if there.is_file() => Rights::of(&there),
            Err(error) if error.kind() == ErrorKind::OutOfMemory => return Err(AllocError),
            Err(error) if !is_absent(error.kind()) => return Ok(None),
            _ => continue,
        };
        let before = narrowest.unwrap_or(rights);
        if before.user != rights.user || before.group != rights.group {
            return Ok(None);
        }
        narrowest = Some(Rights {
            mode: before.mode & rights.mode,
            ..rights
        });
    }
    // Its user may read and write it in any case, as the rights of one fragment alone may not allow.
    Ok(narrowest.map(|rights| Rights {
        mode: rights.mode | 0o600,
        ..rights
    }))
}
