//! Copies that are lost of the description of a stripe which is to replace another one, or were never written.
use crate::encoding::descriptions::digest_of_text;
use crate::encoding::failures::go_on_after;
use crate::encoding::placing::{Made, place_one, sync_names};
use crate::encoding::stripe_files::StripeFiles;
use crate::removing::has_any;
use folders::Rights;
use std::io::{self, ErrorKind};
use std::slice;
use store_faults::{FileFault, device};
use store_files::Target;
use store_folder::{
    Described, NewFile, SystemFolder, Touched, create_private, folder_of, is_absent, look_at,
    read_description, refuse_linked_folders,
};
use store_names::folder_in;
use store_repair::NewFragment;

/// Writes the copies of a begun stripe's description that are lost, so that the file which it replaces has each of its own. For one that
/// stays lost, its name is added to those of the fragments, and that of the old copy beside it: it goes as an old fragment does whose new
/// one was lost, since beside the new fragments it would say another file than they give. One that says the same stays.
pub(crate) fn mend_descriptions(
    rt: &HostRuntime,
    target: &mut Target<'_>,
    described: &Described,
    begun: &mut StripeFiles,
    replaced: &mut StripeFiles,
) -> Result<(), FileFault> {
    // What can't be looked at is met before anything is written.
    let lost = lost_copies(rt, target, described, begun, replaced)?;
    if lost.is_empty() {
        return Ok(());
    }
    let text = described.text(rt.alloc())?;
    let like = rights_of_copies(rt, target, begun)?;
    for lost in lost {
        let copy = NewCopy {
            name: lost.as_str(),
            text: text.as_str(),
            like,
        };
        if !is_written(rt, target, begun, &copy)? {
            add_lost(rt, begun, replaced, lost.as_str())?;
        }
    }
    Ok(())
}

/// A copy of a description that is written.
#[derive(Clone, Copy)]
struct NewCopy<'a> {
    name: &'a str,
    text: &'a str,
    /// The owner and the rights of those that are there. If these have none in common, it is its user's alone.
    like: Option<Rights>,
}

/// The owner, the group and the rights of the copies of a stripe's description: of several rights those that all of them give. None where
/// no copy is there, or where they aren't of one owner and one group.
fn rights_of_copies(
    rt: &HostRuntime,
    target: &Target<'_>,
    stripe: &StripeFiles,
) -> Result<Option<Rights>, FileFault> {
    let mut narrowest: Option<Rights> = None;
    for name in &stripe.descriptions {
        let path = target.path(rt.alloc(), name.as_str())?;
        let rights = match look_at(rt, path.as_str(), target.links) {
            Ok(there) if there.is_file() => Rights::of(&there),
            Err(error) if !is_absent(error.kind()) => {
                return Err(device(rt.alloc(), path.as_str(), error));
            }
            _ => continue,
        };
        let before = narrowest.unwrap_or(rights);
        if before.user != rights.user || before.group != rights.group {
            return Ok(None);
        }
        narrowest = Some(Rights {
            mode: before.mode & rights.mode,
            ..rights
        });
    }
    Ok(narrowest)
}

/// Whether the description of a name says this of its file. One that can't be read says nothing.
fn says(
    rt: &HostRuntime,
    target: &Target<'_>,
    name: &str,
    described: &Described,
) -> Result<bool, FileFault> {
    let path = target.path(rt.alloc(), name)?;
    match read_description(rt, path.as_str(), target.links) {
        Ok(said) => Ok(said.as_ref() == Some(described)),
        Err(error) if error.kind() == ErrorKind::OutOfMemory => Err(FileFault::OutOfMemory),
        Err(_) => Ok(false),
    }
}

/// The names of the copies that are lost, but for those of which the old copy, which each was to replace, says the same.
fn lost_copies(
    rt: &HostRuntime,
    target: &Target<'_>,
    described: &Described,
    begun: &StripeFiles,
    replaced: &StripeFiles,
) -> Result<Vec<String>, FileFault> {
    let alloc = rt.alloc();
    let mut lost = Vec::new(alloc);
    for (name, old) in begun.descriptions.iter().zip(replaced.descriptions.iter()) {
        let is_there = has_any(rt, target, slice::from_ref(name))?;
        if !is_there && !says(rt, target, old.as_str(), described)? {
            lost.push(String::from_str(alloc, name.as_str())?)?;
        }
    }
    Ok(lost)
}

/// Writes a copy that is lost, if its folder has fragments of the stripe, since the disk may be away of one that has none. Where it can't
/// be written, as on a full disk, that is said and noted. Gives whether it was.
fn is_written(
    rt: &HostRuntime,
    target: &mut Target<'_>,
    stripe: &StripeFiles,
    copy: &NewCopy<'_>,
) -> Result<bool, FileFault> {
    if !is_beside_some(rt, target, copy.name, stripe)? {
        return Ok(false);
    }
    match write(rt, target, copy) {
        Ok(()) => Ok(true),
        Err(fault) => {
            go_on_after(rt, target, fault)?;
            Ok(false)
        }
    }
}

/// Whether a fragment of a stripe is in the folder of a name. What can't be looked at counts as not there, which is said and noted.
fn is_beside_some(
    rt: &HostRuntime,
    target: &mut Target<'_>,
    name: &str,
    stripe: &StripeFiles,
) -> Result<bool, FileFault> {
    for fragment in &stripe.fragments {
        if folder_in(fragment.as_str()) == folder_in(name) && is_known(rt, target, fragment)? {
            return Ok(true);
        }
    }
    Ok(false)
}

/// Whether something is known to be under a name.
fn is_known(rt: &HostRuntime, target: &mut Target<'_>, name: &String) -> Result<bool, FileFault> {
    match has_any(rt, target, slice::from_ref(name)) {
        Err(fault) => {
            go_on_after(rt, target, fault)?;
            Ok(false)
        }
        Ok(has) => Ok(has),
    }
}

/// Writes a copy, which gets its name when all of it is on the disk, and only if nothing else has come meanwhile.
fn write(rt: &HostRuntime, target: &mut Target<'_>, copy: &NewCopy<'_>) -> Result<(), FileFault> {
    let alloc = rt.alloc();
    let path = target.path(alloc, copy.name)?;
    let folder = folder_of(path.as_str());
    let file = match filled(rt, target, folder, copy) {
        Ok(file) => file,
        Err(error) => return Err(device(alloc, folder, error)),
    };
    let made = Made {
        file,
        digest: digest_of_text(copy.text),
    };
    let files = &mut SystemFolder::new(rt);
    let mut touched = Touched::new(alloc);
    let length = copy.text.len() as u64;
    place_one(rt, files, target, &mut touched, copy.name, length, made)?;
    sync_names(rt, files, None, touched)
}

/// A new file in a folder with the text of a copy, which isn't there after a failure.
fn filled(
    rt: &HostRuntime,
    target: &Target<'_>,
    folder: &str,
    copy: &NewCopy<'_>,
) -> io::Result<NewFile> {
    refuse_linked_folders(rt, target.folder, copy.name, target.links)?;
    let mut file = create_private(rt, &mut SystemFolder::new(rt), folder)?;
    if let Err(error) = fill(&mut file, copy) {
        file.discard(rt)?;
        return Err(error);
    }
    Ok(file)
}

/// Writes the text of a copy, and gives the file its owner and rights.
fn fill(file: &mut NewFile, copy: &NewCopy<'_>) -> io::Result<()> {
    file.append(copy.text.as_bytes())?;
    if let Some(like) = &copy.like {
        file.take_rights(like)?;
    }
    Ok(())
}

/// Adds the name of a copy that stays lost, and beside it that of the old one.
fn add_lost(
    rt: &HostRuntime,
    begun: &mut StripeFiles,
    replaced: &mut StripeFiles,
    lost: &str,
) -> Result<(), FileFault> {
    let alloc = rt.alloc();
    for (name, old) in begun.descriptions.iter().zip(replaced.descriptions.iter()) {
        if name.as_str() == lost {
            begun.fragments.push(String::from_str(alloc, lost)?)?;
            replaced
                .fragments
                .push(String::from_str(alloc, old.as_str())?)?;
        }
    }
    Ok(())
}
