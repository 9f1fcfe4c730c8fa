//! Replacing a file of a store by one that has other bytes. The new one is encoded first, as a stripe of a name of its own. Once its
//! description is there, all of it is on the disk, and reading gives the new file. Then each of its files gets its name beside that, in
//! place of the old one, and at last the names of its own go. So at any moment the store has all of the old file or all of the new one.
ghost use Rattle.std.specs.Prelude.{◌≡◌, ◌∷◌, ◌++◌, IfOk, OnOk, string_bytes, true};
ghost use Rattle.folders.specs.Given.{IsAbsent, IsPair};
ghost use Rattle.store_folder.specs.Kept.{KeepsEach};
ghost use Rattle.store_folder.specs.Written.{Puts};
ghost use Rattle.store_encoding.specs.Digests.{KeepsBeside, KeepsBut, KeepsDigests};
ghost use Rattle.store_encoding.specs.Names.{AreApart, CanGive, IsPairOf, Replaces, path_of};
ghost use Rattle.store_encoding.specs.Replaced.{AllGot, GivesOnly, Goes, IsGivenTo, ReplacesFile};

use crate::encoding::begun::Begun;
use crate::encoding::discarding::discard_staged;
use crate::encoding::failures::{after_another, after_discarding, go_on_after};
use crate::encoding::readying::{add_own_description, beyond_of, read_begun, readied};
use crate::encoding::source::no_name;
use crate::encoding::stripe_files::{StripeFiles, are_apart};
use crate::encoding::subfolders::make_own_folders;
use crate::encoding::sums::{forget_digests, has_digest, write_new_sums};
use crate::encoding::{Given, encode_as};
use crate::own_code::OwnStripe;
use crate::own_folders::{has_own_folders, remove_own_folders};
use crate::removing::{has_any, remove_names};
use folders::Folder;
use std::slice;
use std::thread::Threads;
use store_faults::{FileFault, device};
use store_files::{StoredFile, Target, has_some, staged_name};
use store_folder::{SystemFolder, description_names, give_name};

/// Replaces the file of a name.
pub(crate) fn replace<R: Threads + Sync>(
    threads: &R,
    rt: &HostRuntime,
    target: &mut Target<'_>,
    name: &str,
    given: &Given<'_>,
) -> Result<(), FileFault> {
    let staged = staged_name(rt.alloc(), name)?;
    let staged = staged.as_str();
    let had_folders = has_own_folders(rt, target, target.code, staged, name)?;
    if let Err(fault) = encode_staged(threads, rt, target, name, staged, given) {
        // All of it is of this run, and none replaces the file, whose encoding failed.
        let discarded = discard_staged(rt, target, staged);
        let fault = after_discarding(rt, given.progress, fault, discarded);
        if had_folders {
            return Err(fault);
        }
        let removed = remove_own_folders(rt, target, target.code, staged, name);
        let Err(other) = removed else {
            return Err(fault);
        };
        return Err(after_another(rt, Some(given.progress), Some(fault), other));
    }
    let begun = OwnStripe {
        name: staged,
        code: target.code,
        folders: target.code,
    };
    finish_staged(rt, target, name, &begun, true)
}

/// Encodes a file as a stripe that is to replace another one, of this name, in folders that are made for it.
fn encode_staged<R: Threads + Sync>(
    threads: &R,
    rt: &HostRuntime,
    target: &mut Target<'_>,
    name: &str,
    staged: &str,
    given: &Given<'_>,
) -> Result<(), FileFault> {
    make_own_folders(rt, target, staged, name)?;
    encode_as(threads, rt, target, staged, given)
}

/// Ends what a run has begun that was to replace the file of a name. If all of the new file is there, it replaces the old one. What nothing
/// describes is removed, unless it has names of the old one already, and so are descriptions without fragments. What is described, but has
/// too few fragments, or too many damaged ones, stays, and the file is refused. Where nothing was begun, its folders stay too: they may be
/// somebody else's.
pub(crate) fn finish_replacing(
    rt: &HostRuntime,
    target: &mut Target<'_>,
    name: &str,
) -> Result<(), FileFault> {
    let staged = staged_name(rt.alloc(), name)?;
    let begun = OwnStripe::of(rt, target, staged.as_str())?;
    finish_staged(rt, target, name, &begun, false)
}

/// The same of the stripe that was to replace it, whether this run has made it or another.
fn finish_staged(
    rt: &HostRuntime,
    target: &mut Target<'_>,
    name: &str,
    own: &OwnStripe<'_>,
    is_new: bool,
) -> Result<(), FileFault> {
    let file = StoredFile {
        folder: target.folder,
        pattern: target.pattern,
        name: own.name,
        links: target.links,
        progress: None,
    };
    let begun = Begun {
        file,
        is_new,
        code: own.code,
    };
    let has_begun = has_some(rt, &file, own.code, own.code.places())?
        || has_description(rt, target, &begun)?;
    if !has_begun {
        return Ok(());
    }
    replace_files(rt, target, &begun, name)?;
    match remove_own_folders(rt, target, own.folders, own.name, name) {
        Ok(()) => Ok(()),
        Err(fault) => go_on_after(rt, target, fault),
    }
}

/// Whether something has the name of a description of what was begun.
fn has_description(
    rt: &HostRuntime,
    target: &Target<'_>,
    begun: &Begun<'_, '_>,
) -> Result<bool, FileFault> {
    let name = begun.file.name;
    let names = description_names(rt.alloc(), &target.pattern, begun.code, name)?;
    has_any(rt, target, names.as_slice())
}

/// Replaces the files of a stripe by those of one that has been begun, if these are whole, and else removes these.
fn replace_files(
    rt: &HostRuntime,
    target: &mut Target<'_>,
    begun: &Begun<'_, '_>,
    name: &str,
) -> Result<(), FileFault> {
    let described = read_begun(rt, target, begun, name)?;
    let code = described
        .as_ref()
        .map_or(begun.code, |described| described.code);
    let mut files = StripeFiles::by(rt.alloc(), target, code, begun.file.name)?;
    let mut replaced = StripeFiles::by(rt.alloc(), target, code, name)?;
    let beyond = beyond_of(rt, target, name, described.as_ref())?;
    add_own_description(rt, target, begun.file.name, name, &mut files, &mut replaced)?;
    match readied(
        rt,
        target,
        name,
        described.as_ref(),
        &mut files,
        &mut replaced,
        &beyond,
    ) {
        Ok(()) => replace_begun(
            rt,
            target,
            name,
            &files,
            &replaced,
            &beyond,
            described.is_some(),
        ),
        Err(fault) => Err(fault),
    }
}

/// Gives the files of a stripe that has been begun the names of those that it is to replace, if they are whole, and else removes them. What
/// the old file has beyond these goes before, while its own description says that it is its.
fn replace_begun(
    rt: &HostRuntime,
    target: &mut Target<'_>,
    name: &str,
    files: &StripeFiles,
    replaced: &StripeFiles,
    beyond: &StripeFiles,
    is_whole: bool,
) -> Result<(), FileFault> {
    if !are_apart(target.folder, files, beyond) {
        return Err(no_name(rt, name));
    }
    let system = &mut SystemFolder::new(rt);
    if !beyond.is_none() {
        remove_all(rt, system, target, beyond)?;
        // Once the new description is there, nothing says any more that these digests are the file's.
        write_new_sums(rt, system, target)?;
    }
    // Names were added since.
    if !are_apart(target.folder, files, replaced) {
        return Err(no_name(rt, name));
    }
    end(rt, system, target, files, replaced, is_whole)
}

/// Gives the files of a stripe the names of another one's, if they are whole, writes the digests, and takes their own names away. At each
/// moment no other path has changed, or all of the stripe's files are there, or each of the other names has its file and the digests are
/// there, also after a crash.
fn end<F: Folder>(
    rt: &HostRuntime,
    files: &mut F,
    target: &mut Target<'_>,
    begun: &StripeFiles,
    replaced: &StripeFiles,
    is_whole: bool,
) -> Result<(), FileFault>
    requires { AreApart target.old.folder.now begun.now replaced.now }
    ensures { ReplacesFile target.old.folder.now begun.now replaced.now target.old.sums (F.calls files.old) (F.calls files.new) }
{
    if !is_whole {
        return remove_all(rt, files, target, begun);
    }
    give_all(rt, files, target, begun, replaced)?;
    // Before its files go, so that no digest is left of what isn't there, wherever the run is killed.
    forget_digests(target, begun.descriptions.as_slice());
    forget_digests(target, begun.fragments.as_slice());
    write_new_sums(rt, files, target)?;
    remove_all(rt, files, target, begun)
}

/// Takes the names of a stripe's files away, its descriptions first.
fn remove_all<F: Folder>(
    rt: &HostRuntime,
    files: &mut F,
    target: &mut Target<'_>,
    begun: &StripeFiles,
) -> Result<(), FileFault>
    ensures { Puts (Goes target.old.folder.now begun.now) (F.calls files.old) (F.calls files.new) }
{
    remove_names(rt, files, target, begun.descriptions.as_slice())?;
    remove_names(rt, files, target, begun.fragments.as_slice())
}

/// Gives the files of a stripe the names of another one's too, in place of what has these, its descriptions last. Whenever that ends, each
/// path that isn't temporary has what it had, or is one of those names and has what was seen at the file of the stripe that was to get it.
/// Once it is done, each of those names has that, also after a crash, if something was there.
fn give_all<F: Folder>(
    rt: &HostRuntime,
    files: &mut F,
    target: &mut Target<'_>,
    begun: &StripeFiles,
    replaced: &StripeFiles,
) -> Result<(), FileFault>
    requires { CanGive (Replaces target.old.folder.now begun.now replaced.now) }
    ensures folder { target.new.folder ≡ target.old.folder }
    ensures whenever { GivesOnly (Replaces target.old.folder.now begun.now replaced.now) (F.calls files.old) (F.calls files.new) }
    ensures got { OnOk result (AllGot (Replaces target.old.folder.now begun.now replaced.now) (F.calls files.old) (F.calls files.new)) }
    ensures sums { OnOk result (KeepsBeside replaced.now target.old.sums target.new.sums) }
{
    let fragments = replaced.fragments.as_slice();
    give_names(rt, files, target, begun.fragments.as_slice(), fragments)?;
    remove_old(rt, files, target, begun.fragments.as_slice(), fragments)?;
    give_names(
        rt,
        files,
        target,
        begun.descriptions.as_slice(),
        replaced.descriptions.as_slice(),
    )
}

/// Removes what has the names of an old file's fragments where the new one's at the same index was lost meanwhile.
fn remove_old<F: Folder>(
    rt: &HostRuntime,
    files: &mut F,
    target: &mut Target<'_>,
    names: &[String],
    others: &[String],
) -> Result<(), FileFault>
    requires { CanGive (IsPairOf target.old.folder.now names.now others.now) }
    ensures folder { target.new.folder ≡ target.old.folder }
    ensures whenever { GivesOnly (IsPairOf target.old.folder.now names.now others.now) (F.calls files.old) (F.calls files.new) }
    ensures sums { KeepsDigests others.now target.old.sums target.new.sums }
{
    'names: for (name, other) in names.iter().zip(others.iter()) {
        remove_lost(rt, files, target, name.as_str(), other)?;
    }
    Ok(())
}

/// Removes the old fragment that has the other name, if the new one with this name, which was to take its place, was lost meanwhile: an
/// old one beside new ones would pass for one of them.
fn remove_lost<F: Folder>(
    rt: &HostRuntime,
    files: &mut F,
    target: &mut Target<'_>,
    name: &str,
    other: &String,
) -> Result<(), FileFault>
    requires { CanGive (IsPair (target.old.folder.now ++ 47 ∷ name.now) (path_of target.old.folder.now other.now)) }
    ensures folder { target.new.folder ≡ target.old.folder }
    ensures whenever { GivesOnly (IsPair (target.old.folder.now ++ 47 ∷ name.now) (path_of target.old.folder.now other.now))
        (F.calls files.old) (F.calls files.new) }
    ensures sums { KeepsBut (string_bytes other.now) target.old.sums target.new.sums }
{
    let path = target.path(rt.alloc(), name)?;
    if !is_lost(rt, files, path.as_str())? {
        return Ok(());
    }
    remove_names(rt, files, target, slice::from_ref(other))
}

/// Whether nothing is at a path.
fn is_lost<F: Folder>(rt: &HostRuntime, files: &mut F, path: &str) -> Result<bool, FileFault>
    ensures kept { KeepsEach (F.calls files.old) (F.calls files.new) }
    ensures lost { IfOk result (λ is. is ≡ true → IsAbsent path.now (F.calls files.new)) }
{
    match files.is_absent(path) {
        Ok(lost) => Ok(lost),
        Err(error) => Err(device(rt.alloc(), path, error)),
    }
}

/// Gives the files of some names each the name at its index too, in place of what has it, and notes their digests.
fn give_names<F: Folder>(
    rt: &HostRuntime,
    files: &mut F,
    target: &mut Target<'_>,
    names: &[String],
    others: &[String],
) -> Result<(), FileFault>
    requires { CanGive (IsPairOf target.old.folder.now names.now others.now) }
    ensures folder { target.new.folder ≡ target.old.folder }
    ensures whenever { GivesOnly (IsPairOf target.old.folder.now names.now others.now) (F.calls files.old) (F.calls files.new) }
    ensures got { OnOk result (AllGot (IsPairOf target.old.folder.now names.now others.now) (F.calls files.old) (F.calls files.new)) }
    ensures sums { OnOk result (KeepsDigests others.now target.old.sums target.new.sums) }
{
    'names: for (name, other) in names.iter().zip(others.iter()) {
        give_one(rt, files, target, name.as_str(), other.as_str())?;
    }
    Ok(())
}

/// Gives the file of a name another name too, if there is one, in place of what has that, and notes its digest.
fn give_one<F: Folder>(
    rt: &HostRuntime,
    files: &mut F,
    target: &mut Target<'_>,
    name: &str,
    other: &str,
) -> Result<(), FileFault>
    requires { CanGive (IsPair (target.old.folder.now ++ 47 ∷ name.now) (target.old.folder.now ++ 47 ∷ other.now)) }
    ensures folder { target.new.folder ≡ target.old.folder }
    ensures whenever { GivesOnly (IsPair (target.old.folder.now ++ 47 ∷ name.now) (target.old.folder.now ++ 47 ∷ other.now))
        (F.calls files.old) (F.calls files.new) }
    ensures given { OnOk result (IsGivenTo (target.old.folder.now ++ 47 ∷ name.now) (target.old.folder.now ++ 47 ∷ other.now)
        (F.calls files.new)) }
    ensures sums { OnOk result (KeepsBut other.now target.old.sums target.new.sums) }
{
    let alloc = rt.alloc();
    let path = target.path(alloc, name)?;
    let to = target.path(alloc, other)?;
    if is_lost(rt, files, path.as_str())? {
        return Ok(());
    }
    match give_name(rt, files, path.as_str(), to.as_str()) {
        Ok(()) => Ok(note_digest(rt, target, name, other)?),
        Err(error) => Err(device(alloc, to.as_str(), error)),
    }
}

/// Notes that the file of a name has another name too: the digest of the one is that of the other. Where the one has none, since the run
/// that made it was killed, the other keeps the one that it has if that is the file's: a run may have noted it before it was killed.
fn note_digest(
    rt: &HostRuntime,
    target: &mut Target<'_>,
    name: &str,
    other: &str,
) -> Result<(), FileFault>
    ensures folder { target.new.folder ≡ target.old.folder }
    ensures sums { OnOk result (KeepsBut other.now target.old.sums target.new.sums) }
{
    if let Some(digest) = target.sums.digest_of(name).copied() {
        target.sums.set(rt.alloc(), other, digest)?;
        target.is_changed = true;
        return Ok(());
    }
    let Some(digest) = target.sums.digest_of(other).copied() else {
        return Ok(());
    };
    if !has_digest(rt, target, name, &digest)? {
        target.is_changed = target.sums.remove(other) || target.is_changed;
    }
    Ok(())
}
