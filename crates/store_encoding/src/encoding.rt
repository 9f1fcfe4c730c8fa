//! Encoding a file into a store: the fragments of its stripe, and its description.
mod begun;
pub(crate) mod descriptions;
mod discarding;
pub(crate) mod failures;
pub(crate) mod fragments;
mod lone;
mod lost_descriptions;
mod ordering;
pub(crate) mod placing;
mod readying;
mod replacing;
pub(crate) mod source;
pub(crate) mod spool;
pub(crate) mod stripe_files;
pub(crate) mod subfolders;
pub(crate) mod sums;

use crate::own_code::files_beyond;
use crate::removing::has_any;
use discarding::discard_made;
use failures::after_discarding;
use fragments::{Encoded, make_encoded, source_digest};
use lrc_code::{Code, Place};
use ordering::place_stripe;
use placing::is_there_already;
use replacing::{finish_replacing, replace};
use source::{is_changed, no_name, regular, stripe_name};
use std::fs::Metadata;
use std::thread::Threads;
use store_faults::{FileFault, device, fragment_name, source_fault};
use store_files::{Target, is_lost, is_staged, is_there, own_description};
use store_folder::{
    Described, Digest, KEPT, Links, SystemFolder, description_names, is_description_name,
    open_fragment, path_in, read_description,
};
use store_progress::{Progress, refuse_over_limit};
use store_repair::fragment_length;
use stripe_files::{StripeFiles, refuse_irregular, refuse_long};
use subfolders::make_folders;

/// A file that is encoded.
#[derive(Clone, Copy)]
pub struct SourceFile<'a> {
    pub path: &'a str,
    /// The name that it gets in the store, if that isn't its own.
    pub name: Option<&'a str>,
    pub progress: &'a Progress,
}

/// Encodes a file. What is there already stays: the same bytes are kept, others refuse the file before anything gets a name, unless the
/// target's files are replaced. The file's digest is made in a thread of its own where one can be had.
pub fn encode_file<R: Threads + Sync>(
    threads: &R,
    rt: &HostRuntime,
    target: &mut Target<'_>,
    source: &SourceFile<'_>,
) -> Result<(), FileFault> {
    let path = source.path;
    let name = stripe_name(rt, source.name.unwrap_or(path))?;
    let before = regular(rt, path)?;
    refuse_unreadable(rt, path, before.len())?;
    refuse_names(rt, target, source.name.unwrap_or(path), name)?;
    if target.makes_folders {
        make_folders(rt, target, name)?;
    }
    finish_replacing(rt, target, name)?;
    let mut given = Given {
        path,
        name,
        before: &before,
        digest: None,
        progress: source.progress,
    };
    // Only a file that has a description needs the digest before its fragments are made.
    if is_described(rt, target, name)? {
        given.digest = Some(source_digest(rt, &given)?);
    }
    match encode_beside(threads, rt, target, name, &given) {
        Err(fault) if target.replaces && matches!(&fault, FileFault::Refused { .. }) => {
            drop(fault);
            refuse_irregular_old(rt, target, name)?;
            replace(threads, rt, target, name, &given)
        }
        done => done,
    }
}

/// Refuses to replace a file if something else has the name of one of its own, or of one that it is to get.
fn refuse_irregular_old(
    rt: &HostRuntime,
    target: &Target<'_>,
    name: &str,
) -> Result<(), FileFault> {
    refuse_irregular(rt, target, &StripeFiles::of(rt.alloc(), target, name)?)?;
    refuse_irregular(rt, target, &files_beyond(rt, target, name, target.code)?)
}

/// Encodes a file beside what is there of it with the same bytes. Other bytes refuse it.
fn encode_beside<R: Threads + Sync>(
    threads: &R,
    rt: &HostRuntime,
    target: &mut Target<'_>,
    name: &str,
    given: &Given<'_>,
) -> Result<(), FileFault> {
    refuse_others(rt, target, name, given)?;
    encode_as(threads, rt, target, name, given)
}

/// Refuses a file that can't be opened to be read, or hasn't so many bytes.
fn refuse_unreadable(rt: &HostRuntime, path: &str, length: u64) -> Result<(), FileFault> {
    match open_fragment(rt, path, length, Links::Followed) {
        Ok(_) => Ok(()),
        Err(error) => Err(source_fault(rt.alloc(), path, error)),
    }
}

/// A file that is encoded, and what is known of it.
#[derive(Clone, Copy)]
pub(crate) struct Given<'a> {
    pub(crate) path: &'a str,
    /// The name that it gets in the store.
    pub(crate) name: &'a str,
    /// What was said of it before it was read.
    pub(crate) before: &'a Metadata,
    pub(crate) digest: Option<Digest>,
    pub(crate) progress: &'a Progress,
}

/// Encodes a file as the stripe of a name.
pub(crate) fn encode_as<R: Threads + Sync>(
    threads: &R,
    rt: &HostRuntime,
    target: &mut Target<'_>,
    name: &str,
    given: &Given<'_>,
) -> Result<(), FileFault> {
    let alloc = rt.alloc();
    let length = given.before.len();
    let names = StripeFiles::of(alloc, target, name)?;
    refuse_long(rt, target, &names)?;
    let fragment_bytes = fragment_length(target.code, length as usize);
    refuse_over_limit(rt, given.name, fragment_bytes as u64)?;
    let Encoded { digest, made } = make_encoded(threads, rt, target, name, given)?;
    let files = &mut SystemFolder::new(rt);
    let text = match description_of(rt, target.code, given, digest) {
        Ok(text) => text,
        Err(fault) => {
            let removed = discard_made(rt, given.progress, made);
            return Err(after_discarding(rt, given.progress, fault, removed));
        }
    };
    place_stripe(
        rt,
        files,
        target,
        given.progress,
        &names,
        fragment_bytes,
        made,
        text.as_str(),
    )
}

/// The text of a file's description, if the file is as it was before it was read.
fn description_of(
    rt: &HostRuntime,
    code: Code,
    given: &Given<'_>,
    digest: Digest,
) -> Result<String, FileFault> {
    let after = regular(rt, given.path)?;
    if is_changed(given.before, &after) {
        let path = given.path;
        let what = format!(in rt.alloc(); "{path}: changed while it was read")?;
        return Err(FileFault::Refused { what });
    }
    let length = given.before.len();
    let described = Described {
        length,
        digest,
        code,
    };
    Ok(described.text(rt.alloc())?)
}

/// Refuses a file the names of whose fragments would be those of something else, by the path or the name that was given.
fn refuse_names(
    rt: &HostRuntime,
    target: &Target<'_>,
    given: &str,
    name: &str,
) -> Result<(), FileFault> {
    let alloc = rt.alloc();
    for fragment in target.names(alloc, name)? {
        let fragment = fragment.as_str();
        if fragment.ends_with(KEPT)
            || is_description_name(alloc, &target.pattern, target.code, fragment)?
        {
            return Err(no_name(rt, given));
        }
    }
    if is_staged(name) || !target.has_names(alloc, name)? {
        return Err(no_name(rt, given));
    }
    Ok(())
}

/// Whether there is a description of a stripe.
fn is_described(rt: &HostRuntime, target: &Target<'_>, name: &str) -> Result<bool, FileFault> {
    let descriptions = descriptions_of(rt, target, name)?;
    has_any(rt, target, descriptions.as_slice())
}

/// The names of the copies of a stripe's description, also of the one in a store that was made before, if that is one: another thing there
/// is somebody else's, as the folder of a file `a.file` is beside a file `a`.
fn descriptions_of(
    rt: &HostRuntime,
    target: &Target<'_>,
    name: &str,
) -> Result<Vec<String>, FileFault> {
    let mut names = description_names(rt.alloc(), &target.pattern, target.code, name)?;
    match own_description(rt, target, name) {
        Ok(Some(own)) => {
            names.push(own)?;
            Ok(names)
        }
        Ok(None) => Ok(names),
        Err(fault) => Err(fault),
    }
}

/// What is to be said of a file whose digest is known.
fn described_as(code: Code, given: &Given<'_>) -> Option<Described> {
    let digest = given.digest?;
    let length = given.before.len();
    Some(Described {
        length,
        digest,
        code,
    })
}

/// Refuses a file beside whose stripe's names there is another description, or a fragment at a place that its code hasn't.
fn refuse_others(
    rt: &HostRuntime,
    target: &Target<'_>,
    name: &str,
    given: &Given<'_>,
) -> Result<(), FileFault> {
    refuse_descriptions(rt, target, name, described_as(target.code, given))?;
    if target.pattern.has_shards() {
        return Ok(());
    }
    for place in &Place::ALL {
        if !target.code.has(*place) {
            refuse_fragment(rt, target, name, *place)?;
        }
    }
    Ok(())
}

/// Refuses a file under the names of whose descriptions there is something else.
fn refuse_descriptions(
    rt: &HostRuntime,
    target: &Target<'_>,
    name: &str,
    described: Option<Described>,
) -> Result<(), FileFault> {
    let descriptions = descriptions_of(rt, target, name)?;
    for description in &descriptions {
        refuse_description(rt, target, description.as_str(), described)?;
    }
    Ok(())
}

/// Refuses a file under the name of whose description there is something else.
fn refuse_description(
    rt: &HostRuntime,
    target: &Target<'_>,
    description: &str,
    described: Option<Described>,
) -> Result<(), FileFault> {
    let path = target.path(rt.alloc(), description)?;
    if !is_there(rt, path.as_str())? {
        return Ok(());
    }
    match read_description(rt, path.as_str(), target.links) {
        Ok(Some(there)) if described == Some(there) => Ok(()),
        // What can't be read may be the same, and isn't replaced.
        Err(error) if !is_lost(error.kind()) => Err(device(rt.alloc(), path.as_str(), error)),
        _ => Err(is_there_already(rt, description)),
    }
}

/// Refuses a file if there is a fragment of its stripe at a place that its code hasn't.
fn refuse_fragment(
    rt: &HostRuntime,
    target: &Target<'_>,
    name: &str,
    place: Place,
) -> Result<(), FileFault> {
    let alloc = rt.alloc();
    let fragment = fragment_name(alloc, &target.pattern, Code::Wide, name, place)?;
    let path = path_in(alloc, target.folder, fragment.as_str())?;
    if is_there(rt, path.as_str())? {
        return Err(is_there_already(rt, fragment.as_str()));
    }
    Ok(())
}
