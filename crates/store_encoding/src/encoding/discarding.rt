//! Taking away what a run has made, where it then failed: new files, and what there is of a stripe that was to replace another one.
use crate::encoding::placing::Made;
use crate::encoding::stripe_files::StripeFiles;
use crate::encoding::sums::forget_digests;
use crate::removing::{has_any, remove_names};
use std::alloc::{AllocError, Global};
use std::{io, slice};
use store_faults::{FileFault, say, words_of};
use store_files::{Target, refuse_linked};
use store_folder::{NewFile, SystemFolder};
use store_progress::Progress;

/// Takes away what there is of a stripe that was to replace another one: first its descriptions, each that can be taken, since one alone
/// would have the next run give it the names of the old one. Where one stays, its fragments stay too, so that all of the new file is there:
/// with too few of them, each later run would refuse the file.
pub(crate) fn discard_staged(
    rt: &HostRuntime,
    target: &mut Target<'_>,
    staged: &str,
) -> Result<(), FileFault> {
    let files = StripeFiles::of(rt.alloc(), target, staged)?;
    let described = take_each(rt, target, files.descriptions.as_slice());
    let taken = if described.is_ok() {
        take_each(rt, target, files.fragments.as_slice())
    } else {
        described
    };
    let there = has_any(rt, target, files.descriptions.as_slice());
    if matches!(&there, Ok(false)) {
        // Nothing describes the fragments that stay, so none of them is expected.
        forget_digests(target, files.fragments.as_slice());
    }
    taken
}

/// Takes the files of some names away, each that can be taken, and gives why the first of the others couldn't be.
fn take_each(rt: &HostRuntime, target: &mut Target<'_>, names: &[String]) -> Result<(), FileFault> {
    let mut refused = None;
    for name in names {
        match take_one(rt, target, name) {
            Err(fault) if refused.is_none() => refused = Some(fault),
            _ => {}
        }
    }
    refused.map_or(Ok(()), Err)
}

/// Takes the file of a name away, and its digest. If it stays, so does its digest.
fn take_one(rt: &HostRuntime, target: &mut Target<'_>, name: &String) -> Result<(), FileFault> {
    let names = slice::from_ref(name);
    if !has_any(rt, target, names)? {
        forget_digests(target, names);
        return Ok(());
    }
    refuse_linked(rt, target, names)?;
    let digest = target.sums.digest_of(name.as_str()).copied();
    let taken = remove_names(rt, &mut SystemFolder::new(rt), target, names);
    if taken.is_ok() {
        return taken;
    }
    let there = has_any(rt, target, names);
    let is_gone = matches!(&there, Ok(false));
    if let Some(digest) = digest {
        if !is_gone {
            target.sums.set(rt.alloc(), name.as_str(), digest)?;
        }
    }
    taken
}

/// Removes new files, all that can be removed. Of those that can't be each is said but the last, which is given.
pub(crate) fn discard_files(
    rt: &HostRuntime,
    progress: &Progress,
    files: Vec<NewFile>,
) -> Result<(), FileFault> {
    let mut left = None;
    for file in files {
        left = last_left(rt, progress, left, discard_file(rt, file));
    }
    left.map_or(Ok(()), Err)
}

/// The same of files whose digests are known.
pub(crate) fn discard_made(
    rt: &HostRuntime,
    progress: &Progress,
    made: Vec<Made>,
) -> Result<(), FileFault> {
    let mut left = None;
    for one in made {
        left = last_left(rt, progress, left, discard_file(rt, one.file));
    }
    left.map_or(Ok(()), Err)
}

/// Removes a new file.
pub(crate) fn discard_file(rt: &HostRuntime, file: NewFile) -> Result<(), FileFault> {
    let path = String::from_str(rt.alloc(), file.path());
    match file.discard(rt) {
        Ok(()) => {
            drop(path);
            Ok(())
        }
        Err(error) => Err(left_over(rt.alloc(), path?, &error)?),
    }
}

/// That the file at a path can't be removed.
fn left_over(alloc: Global, path: String, error: &io::Error) -> Result<FileFault, AllocError> {
    let why = words_of(alloc, error)?;
    Ok(FileFault::Device {
        path,
        error: format!(in alloc; "is left over, and can't be removed: {why}")?,
    })
}

/// The last of the files that can't be removed, by what became of one more. Another one that was the last before is said.
fn last_left(
    rt: &HostRuntime,
    progress: &Progress,
    left: Option<FileFault>,
    removed: Result<(), FileFault>,
) -> Option<FileFault> {
    let Err(fault) = removed else {
        return left;
    };
    if let Some(before) = left {
        progress.clear(rt);
        let _ = say(rt, format!(in rt.alloc(); "rebuild-store: {before}"));
        drop(before);
    }
    Some(fault)
}
