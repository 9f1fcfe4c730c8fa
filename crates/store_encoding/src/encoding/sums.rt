//! The digests in a store: the file of them that `encode` writes.
ghost use Rattle.std.specs.Prelude.{◌≡◌, ℕ, List, Option, OnOk, IfSome, IsSome, Some, true};
ghost use Rattle.folders.specs.Disk.{IsOnDisk};
ghost use Rattle.store_folder.specs.Written.{Puts, PutsOne};
ghost use Rattle.store_encoding.specs.Digests.{KeepsDigests};
ghost use Rattle.store_encoding.specs.Names.{sums_path};
ghost use Rattle.store_encoding.specs.Replaced.{IsSums, IsTextOf};

use crate::refusing::refused;
use folders::Folder;
use std::alloc::Global;
use std::io::{self, ErrorKind};
use store_faults::{FileFault, device, say};
use store_files::{Target, digest_at, is_lost};
use store_folder::{
    Digest, Links, SUMS_NAME, Sums, SumsFault, look_at, path_in, read_sums, write_over,
};
use store_progress::allow_file;

/// The digests that the store's file of them has; none where there is no such file.
pub fn stored_sums(rt: &HostRuntime, folder: &str) -> Result<Sums, FileFault> {
    let alloc = rt.alloc();
    let path = path_in(alloc, folder, SUMS_NAME)?;
    match read_sums(rt, path.as_str(), Links::NotFollowed) {
        Ok(sums) => Ok(sums),
        Err(SumsFault::OutOfMemory) => Err(FileFault::OutOfMemory),
        Err(SumsFault::Unread { error }) if error.kind() == ErrorKind::NotFound => {
            Ok(Sums::new(alloc))
        }
        Err(SumsFault::Unread { error }) => Err(device(alloc, path.as_str(), error)),
        Err(fault) => Err(no_sums(alloc, path.as_str(), &fault)),
    }
}

/// That what is at a path are no digests.
fn no_sums(alloc: Global, path: &str, fault: &SumsFault) -> FileFault {
    refused(format!(in alloc; "{path}: {fault}"))
}

/// Takes the digests of some names out of those of the store.
pub(crate) fn forget_digests(target: &mut Target<'_>, names: &[String])
    ensures folder { target.new.folder ≡ target.old.folder }
    ensures sums { KeepsDigests names.now target.old.sums target.new.sums }
{
    'names: for name in names {
        target.is_changed = target.sums.remove(name.as_str()) || target.is_changed;
    }
}

/// Whether the file of a name has a digest. Of one that can't be read nothing is known, which is said, as it is where it is left out.
pub(crate) fn has_digest(
    rt: &HostRuntime,
    target: &Target<'_>,
    name: &str,
    digest: &Digest,
) -> Result<bool, FileFault> {
    let path = target.path(rt.alloc(), name)?;
    let error = match digest_of_file(rt, path.as_str(), target.links) {
        Ok(found) => return Ok(found == *digest),
        Err(error) => error,
    };
    if is_lost(error.kind()) {
        return Ok(false);
    }
    let fault = device(rt.alloc(), path.as_str(), error);
    if matches!(&fault, FileFault::OutOfMemory) {
        return Err(fault);
    }
    let _ = say(rt, format!(in rt.alloc(); "rebuild-store: {fault}"));
    drop(fault);
    Ok(false)
}

/// The digest of the regular file at a path.
fn digest_of_file(rt: &HostRuntime, path: &str, links: Links) -> io::Result<Digest> {
    let length = look_at(rt, path, links)?.len();
    digest_at(rt, path, length, links)
}

/// Writes the digests of a store in place of those that are there, if there are new ones. Whenever that ends, their path has what it had,
/// or all of their text, and no other path changes but temporary ones. Once it is done, a crash leaves the text there.
pub fn write_new_sums<F: Folder>(
    rt: &HostRuntime,
    files: &mut F,
    target: &Target<'_>,
) -> Result<(), FileFault>
    ensures { (text : Option (List ℕ)) × Puts (IsSums target.now.folder.now text) (F.calls files.old) (F.calls files.new)
        × IsTextOf target.now.sums text × OnOk result (target.now.is_changed ≡ true → IsSome text)
        × OnOk result (IfSome text (λ bytes. IsOnDisk (sums_path target.now.folder.now) bytes (F.calls files.new))) }
{
    if !target.is_changed {
        return Ok(());
    }
    write_sums(rt, files, target.folder, &target.sums)
}

/// Writes the digests of a store, in place of those that are there.
fn write_sums<F: Folder>(
    rt: &HostRuntime,
    files: &mut F,
    folder: &str,
    sums: &Sums,
) -> Result<(), FileFault>
    ensures { (text : Option (List ℕ)) × Puts (IsSums folder.now text) (F.calls files.old) (F.calls files.new)
        × IsTextOf sums.now text × OnOk result (IsSome text)
        × OnOk result (IfSome text (λ bytes. IsOnDisk (sums_path folder.now) bytes (F.calls files.new))) }
{
    let alloc = rt.alloc();
    let Ok(path) = path_in(alloc, folder, SUMS_NAME) else {
        return Err(FileFault::OutOfMemory);
    };
    let Ok(text) = sums.text(alloc) else {
        return Err(FileFault::OutOfMemory);
    };
    match write_text(rt, files, path.as_str(), text.as_slice()) {
        Ok(()) => Ok(()),
        Err(error) => Err(device(alloc, path.as_str(), error)),
    }
}

/// Writes a text to a file in place of the one at a path, if a file may be so long.
fn write_text<F: Folder>(rt: &HostRuntime, files: &mut F, path: &str, text: &[u8]) -> io::Result<()>
    ensures whenever { PutsOne path.now (Some text.now) (F.calls files.old) (F.calls files.new) }
    ensures done { OnOk result (IsOnDisk path.now text.now (F.calls files.new)) }
{
    allow_file(rt, text.len() as u64)?;
    write_over(rt, files, path, text)
}
