//! Taking files out of a store. The digests go first, so that nothing is expected of the file any more, then its descriptions, then its
//! fragments: what a run that was killed has left is a file that can still be read, or fragments that the same command removes. What was to
//! replace the file goes last. Where a description can't be taken out, the file can still be read, and gets its digests back.
ghost use Rattle.std.specs.Prelude.{◌≡◌, ℕ, List, Option};
ghost use Rattle.store_folder.specs.Written.{Puts};
ghost use Rattle.store_encoding.specs.Digests.{KeepsDigests};
ghost use Rattle.store_encoding.specs.Replaced.{IsTextOf};
ghost use Rattle.store_encoding.specs.Taken.{GoesOf, IsTakenOut, KeepsRest};

use crate::encoding::failures::after_another;
use crate::encoding::stripe_files::StripeFiles;
use crate::encoding::sums::{forget_digests, write_new_sums};
use crate::own_code::{OwnStripe, files_of};
use crate::own_folders::remove_own_folders;
use crate::refusing::refused;
use crate::taking::take_files;
use folders::Folder;
use std::alloc::{AllocError, Global};
use std::io::ErrorKind;
use store_faults::{DEVICE, FileFault, device};
use store_files::{Target, is_there, no_stored, refuse_linked, staged_name};
use store_folder::{Digest, Sums, SystemFolder, is_absent, is_description_name, read_description};
use store_repair::NameFault;

/// Takes the file of a name out of a store, with what a run has left that was to replace it, and with the folders that it had alone. What
/// isn't a regular file is left, and named. A file whose description says another code than the store's goes as one of that code.
pub fn remove_stored(
    rt: &HostRuntime,
    target: &mut Target<'_>,
    name: &str,
) -> Result<(), FileFault> {
    let alloc = rt.alloc();
    // A description is looked for in the store alone.
    if !target.has_names(alloc, name)? {
        return Err(no_stored(alloc, name, target.folder)?);
    }
    let staged = staged_name(alloc, name)?;
    let old = OwnStripe::of(rt, target, name)?;
    let new = OwnStripe::of(rt, target, staged.as_str())?;
    let code = target.code;
    target.code = old.code;
    let removed = remove_named(rt, target, &old, &new);
    target.code = code;
    removed
}

/// Takes the file of a name out of a store, which has the target's code, and what was to replace it.
fn remove_named(
    rt: &HostRuntime,
    target: &mut Target<'_>,
    old: &OwnStripe<'_>,
    new: &OwnStripe<'_>,
) -> Result<(), FileFault> {
    let alloc = rt.alloc();
    let name = old.name;
    if !target.has_names(alloc, name)? || has_description(rt, target, name)? {
        return Err(no_stored(alloc, name, target.folder)?);
    }
    remove_files(rt, target, old, new)
}

/// Whether a description of another file has the name of one of a stripe's fragments, as `disk3/a.file` is of a file `a`.
fn has_description(rt: &HostRuntime, target: &Target<'_>, name: &str) -> Result<bool, FileFault> {
    let alloc = rt.alloc();
    for fragment in target.names(alloc, name)? {
        let fragment = fragment.as_str();
        if is_description_name(alloc, &target.pattern, target.code, fragment)?
            && is_description(rt, target, fragment)?
        {
            return Ok(true);
        }
    }
    Ok(false)
}

/// Whether a description is under a name.
fn is_description(rt: &HostRuntime, target: &Target<'_>, name: &str) -> Result<bool, FileFault> {
    let path = target.path(rt.alloc(), name)?;
    match read_description(rt, path.as_str(), target.links) {
        Ok(said) => Ok(said.is_some()),
        Err(error) if is_absent(error.kind()) || error.kind() == ErrorKind::InvalidInput => {
            Ok(false)
        }
        Err(error) => Err(device(rt.alloc(), path.as_str(), error)),
    }
}

/// Takes a stripe's files out of a store, and those that were to replace them.
fn remove_files(
    rt: &HostRuntime,
    target: &mut Target<'_>,
    old: &OwnStripe<'_>,
    new: &OwnStripe<'_>,
) -> Result<(), FileFault> {
    let old_files = files_of(rt, target, old)?;
    match files_of(rt, target, new) {
        Ok(new_files) => remove_both(rt, target, old, new, &old_files, &new_files),
        Err(fault) => Err(fault),
    }
}

/// A stripe's files, and what the store's digests say of them.
#[derive(Drop)]
struct Listed<'n> {
    files: &'n StripeFiles,
    digests: Vec<(&'n str, Digest)>,
}

impl<'n> Listed<'n> {
    /// A stripe's files, with what these digests say of them.
    fn of(alloc: Global, sums: &Sums, files: &'n StripeFiles) -> Result<Listed<'n>, AllocError> {
        let mut digests = Vec::new(alloc);
        for names in [files.descriptions.as_slice(), files.fragments.as_slice()] {
            for name in names {
                if let Some(digest) = sums.digest_of(name.as_str()) {
                    digests.push((name.as_str(), *digest))?;
                }
            }
        }
        Ok(Listed { files, digests })
    }

    /// Takes the digests of the files out of those of the store.
    fn forget(&self, target: &mut Target<'_>) {
        forget_digests(target, self.files.descriptions.as_slice());
        forget_digests(target, self.files.fragments.as_slice());
    }

    /// Adds the digests to those of the store again.
    fn add_again(&self, alloc: Global, target: &mut Target<'_>) -> Result<(), AllocError> {
        for (name, digest) in &self.digests {
            target.sums.set(alloc, *name, *digest)?;
            target.is_changed = true;
        }
        Ok(())
    }

    /// Whether a description of the stripe is there, or may be, since what has its name can't be looked at or read.
    fn is_described(&self, rt: &HostRuntime, target: &Target<'_>) -> bool {
        for name in &self.files.descriptions {
            let said = is_description(rt, target, name.as_str());
            if !matches!(&said, Ok(false)) {
                return true;
            }
        }
        false
    }

    /// Whether something has the name of one of the stripe's descriptions.
    fn has_description(&self, rt: &HostRuntime, target: &Target<'_>) -> Result<bool, FileFault> {
        has_any(rt, target, self.files.descriptions.as_slice())
    }

    /// Adds the digests again if something still describes the stripe. By those of one that nothing describes a repair would make it again.
    fn add_described(&self, rt: &HostRuntime, target: &mut Target<'_>) -> Result<(), AllocError> {
        if self.is_described(rt, target) {
            self.add_again(rt.alloc(), target)?;
        }
        Ok(())
    }
}

/// Takes the files of two stripes out of a store, their digests, and the folders that they had alone. These go too where fragments stay
/// that couldn't be taken out, as far as nothing is in them: once those are gone, the store has no file of the name that could be removed.
/// Those that a run left which was killed go where there is nothing else of the file.
fn remove_both(
    rt: &HostRuntime,
    target: &mut Target<'_>,
    old: &OwnStripe<'_>,
    new: &OwnStripe<'_>,
    old_files: &StripeFiles,
    new_files: &StripeFiles,
) -> Result<(), FileFault> {
    if !is_any_there(rt, target, old_files, new_files)? {
        let fault = no_stored(rt.alloc(), old.name, target.folder)?;
        return Err(match remove_folders(rt, target, old, new) {
            Ok(()) => fault,
            Err(other) => after_another(rt, None, Some(fault), other),
        });
    }
    let old_listed = Listed::of(rt.alloc(), &target.sums, old_files)?;
    let new_listed = Listed::of(rt.alloc(), &target.sums, new_files)?;
    let Err(fault) = take_listed(rt, target, &old_listed, &new_listed) else {
        return remove_folders(rt, target, old, new);
    };
    let has_some = match old_listed.has_description(rt, target) {
        Ok(false) => new_listed.has_description(rt, target),
        known => known,
    };
    let removed = match has_some {
        Ok(true) => return Err(fault),
        Ok(false) => remove_folders(rt, target, old, new),
        // What can't be looked at was said if it couldn't be taken out either.
        Err(_) if fault.status() == DEVICE => return Err(fault),
        Err(other) => Err(other),
    };
    match removed {
        Ok(()) => Err(fault),
        Err(other) => Err(after_another(rt, None, Some(fault), other)),
    }
}

/// Removes the folders that two stripes had alone.
fn remove_folders(
    rt: &HostRuntime,
    target: &Target<'_>,
    old: &OwnStripe<'_>,
    new: &OwnStripe<'_>,
) -> Result<(), FileFault> {
    let removed = remove_own_folders(rt, target, new.folders, new.name, old.name);
    match remove_own_folders(rt, target, old.folders, old.name, new.name) {
        Ok(()) => removed,
        Err(fault) => Err(after_another(rt, None, removed.err(), fault)),
    }
}

/// Whether one of the files of two stripes is there. They are refused if a folder on the way to one of them is a link, unless links are
/// followed.
fn is_any_there(
    rt: &HostRuntime,
    target: &Target<'_>,
    old: &StripeFiles,
    new: &StripeFiles,
) -> Result<bool, FileFault> {
    let lists = [
        old.descriptions.as_slice(),
        old.fragments.as_slice(),
        new.descriptions.as_slice(),
        new.fragments.as_slice(),
    ];
    for names in lists {
        refuse_linked(rt, target, names)?;
    }
    for names in lists {
        if has_any(rt, target, names)? {
            return Ok(true);
        }
    }
    Ok(false)
}

/// Writes the digests without those of two stripes' files, and takes these out. Where something still describes a stripe then, its digests
/// are written again: it is a file that can be read, until the same command takes it out.
fn take_listed(
    rt: &HostRuntime,
    target: &mut Target<'_>,
    old: &Listed<'_>,
    new: &Listed<'_>,
) -> Result<(), FileFault> {
    let files = &mut SystemFolder::new(rt);
    write_without(rt, files, target, old, new)?;
    match take_both(rt, files, target, old.files, new.files) {
        Ok(()) => Ok(()),
        Err(fault) => match write_again(rt, files, target, old, new) {
            Ok(()) => Err(fault),
            Err(other) => Err(after_another(rt, None, Some(fault), other)),
        },
    }
}

/// Writes the digests without those of two stripes' files. Where they can't be written, the files stay, and so do their digests.
fn write_without(
    rt: &HostRuntime,
    files: &mut SystemFolder<'_>,
    target: &mut Target<'_>,
    old: &Listed<'_>,
    new: &Listed<'_>,
) -> Result<(), FileFault> {
    old.forget(target);
    new.forget(target);
    match write_new_sums(rt, files, target) {
        Ok(()) => {
            target.is_changed = false;
            Ok(())
        }
        Err(fault) => {
            old.add_again(rt.alloc(), target)?;
            new.add_again(rt.alloc(), target)?;
            // Where only their name couldn't be written to the disk, they are the new ones.
            match write_new_sums(rt, files, target) {
                Ok(()) => Err(fault),
                Err(other) => Err(after_another(rt, None, Some(fault), other)),
            }
        }
    }
}

/// Writes the digests with those of the stripes that are still described.
fn write_again(
    rt: &HostRuntime,
    files: &mut SystemFolder<'_>,
    target: &mut Target<'_>,
    old: &Listed<'_>,
    new: &Listed<'_>,
) -> Result<(), FileFault> {
    old.add_described(rt, target)?;
    new.add_described(rt, target)?;
    write_new_sums(rt, files, target)?;
    target.is_changed = false;
    Ok(())
}

/// Takes a stripe's files out of a store, and then those that were to replace them: while the new file can be read it is what is read, and
/// the old one would be again without it. So what was to replace the stripe stays unless all of the old descriptions are gone. Fragments
/// of the old file that stay keep nothing else, since nothing describes them any more.
fn take_both(
    rt: &HostRuntime,
    files: &mut SystemFolder<'_>,
    target: &mut Target<'_>,
    old: &StripeFiles,
    new: &StripeFiles,
) -> Result<(), FileFault> {
    let (descriptions, fragments) = (old.descriptions.as_slice(), old.fragments.as_slice());
    let taken = take_out(rt, files, target, descriptions, fragments)?;
    let (descriptions, fragments) = (new.descriptions.as_slice(), new.fragments.as_slice());
    let replaced = match take_out(rt, files, target, descriptions, fragments) {
        Ok(replaced) => replaced,
        Err(fault) => Err(fault),
    };
    match replaced {
        Ok(()) => taken,
        Err(fault) => Err(after_another(rt, None, taken.err(), fault)),
    }
}

/// Writes the digests that are left, and takes the files of some descriptions and fragments away. Whenever that ends, each of them has what
/// it had, or nothing, the digests' path has what it had, or all of their text, and no other path has changed but temporary ones. The inner
/// fault is that of a fragment: then each of the descriptions is gone, also on the disk.
fn take_out<F: Folder>(
    rt: &HostRuntime,
    files: &mut F,
    target: &mut Target<'_>,
    descriptions: &[String],
    fragments: &[String],
) -> Result<Result<(), FileFault>, FileFault>
    ensures { (text : Option (List ℕ)) × Puts (IsTakenOut target.old.folder.now text descriptions.now fragments.now) (F.calls files.old)
        (F.calls files.new) × IsTextOf target.old.sums text }
{
    write_new_sums(rt, files, target)?;
    remove_names(rt, files, target, descriptions)?;
    Ok(remove_names(rt, files, target, fragments))
}

/// Whether there is anything under one of some names.
pub(crate) fn has_any(
    rt: &HostRuntime,
    target: &Target<'_>,
    names: &[String],
) -> Result<bool, FileFault> {
    for name in names {
        if has_file(rt, target, name.as_str())? {
            return Ok(true);
        }
    }
    Ok(false)
}

/// Whether there is anything under a name.
fn has_file(rt: &HostRuntime, target: &Target<'_>, name: &str) -> Result<bool, FileFault> {
    let path = target.path(rt.alloc(), name)?;
    is_there(rt, path.as_str())
}

/// Removes the regular files of some names, the last first, whose digests go too, and writes that to the disk. Another thing under one of
/// them stays.
pub(crate) fn remove_names<F: Folder>(
    rt: &HostRuntime,
    files: &mut F,
    target: &mut Target<'_>,
    names: &[String],
) -> Result<(), FileFault>
    ensures folder { target.new.folder ≡ target.old.folder }
    ensures sums { KeepsDigests names.now target.old.sums target.new.sums }
    ensures rest { KeepsRest (F.calls files.old) (F.calls files.new) }
    ensures gone { Puts (GoesOf target.old.folder.now names.now) (F.calls files.old) (F.calls files.new) }
{
    let alloc = rt.alloc();
    let mut paths = Vec::with_capacity(alloc, names.len())?;
    'names: for name in names {
        paths.push(target.path(alloc, name.as_str())?)?;
        target.is_changed = target.sums.remove(name.as_str()) || target.is_changed;
    }
    match take_files(files, paths) {
        Ok(None) => Ok(()),
        Ok(Some(index)) => Err(no_file(alloc, names, index)),
        Err(NameFault { name, error }) => Err(device(alloc, name.as_str(), error)),
    }
}

/// That the name at an index has no regular file.
fn no_file(alloc: Global, names: &[String], index: usize) -> FileFault {
    let name = match names.get(index) {
        Some(name) => name.as_str(),
        None => "",
    };
    refused(format!(in alloc; "{name}: is no regular file, and isn't removed"))
}
