//! A file that is read, written to another file.
ghost use Rattle.std.specs.Prelude.{◌≡◌, [], false, true, IfOk, IfSome, IsSomeAnd, None, OnOk, Some, vec_len};
ghost use Rattle.folders.specs.Disk.{HasWhole, IsOnDisk};
ghost use Rattle.store_folder.specs.Kept.{GivesOne, KeepsEach};
ghost use Rattle.store_folder.specs.Placed.{content_of};
ghost use Rattle.store_folder.specs.Temporary.{is_temporary};
ghost use Rattle.store_folder.specs.Written.{PutsOne};
ghost use Rattle.store_files.specs.Digests.{HasDigest};
ghost use Rattle.store_reading.specs.Written.{GivesFile, HasFile, IsRight, PutsFile};

use crate::reading::output::{changed_meanwhile, write_into};
use crate::reading::refusing::refuse_in_store;
use folders::Folder;
use lrc_code::PlaceSet;
use std::alloc::Global;
use std::fs::{self, File, Metadata};
use std::io::{self, ErrorKind};
use store_faults::{FileFault, device};
use store_files::{Digested, Fragments, Sought, Tries, set_that_fits, survivors_of};
use store_folder::{
    NewFile, Placed, SystemFolder, create_new, create_private, discard_new, folder_of, place_again,
    place_new,
};
use store_progress::{Counted, refuse_over_limit};
use store_repair::{MendFault, read_file};

/// How often a file is read that is written to a path: once where it is written to a new file, which gets its name only if it is right.
pub fn passes_to(rt: &HostRuntime, path: &str) -> u64 {
    match fs::symlink_metadata(rt, path) {
        Ok(there) if !there.is_file() => 2,
        _ => 1,
    }
}

/// Writes the file to a path, if the fragments give it, and says whether they do. It gets its name when all of it is on the disk, and takes
/// the place of a regular file, with the owner and the rights of that one; a device, a FIFO or what a link leads to is written as it is,
/// which no record of calls has, so that the clauses are those of `write_whole`.
pub(crate) fn write_at(
    rt: &HostRuntime,
    files: &mut SystemFolder<'_>,
    sought: &Sought<'_, '_>,
    fragments: &Fragments,
    path: &str,
    tries: &mut Tries,
) -> Result<bool, FileFault>
    requires { vec_len fragments.now.opened ≡ 16 }
{
    let alloc = rt.alloc();
    refuse_in_store(rt, sought, path)?;
    if let Err(fault) = refuse_over_limit(rt, path, sought.described.length) {
        // Another description may have another length.
        return match set_that_fits(rt, sought, fragments, tries)? {
            Some(_) => Err(fault),
            None => Ok(false),
        };
    }
    match fs::symlink_metadata(rt, path) {
        Ok(there) if there.is_file() => {
            write_whole(rt, files, sought, fragments, path, Some(&there), tries)
        }
        Ok(_) => write_through(rt, sought, fragments, path, tries),
        Err(error) if error.kind() == ErrorKind::NotFound => {
            write_whole(rt, files, sought, fragments, path, None, tries)
        }
        Err(error) => Err(device(alloc, path, error)),
    }
}

/// Writes the file to a new one, which gets the path once all of it is on the disk, if the fragments give it, and says whether they do.
/// Whenever that ends, the path has what it had, or all of a file of the described digest, and no other path changes but temporary ones.
/// Where nothing was at the path, nothing that has come meanwhile is replaced.
fn write_whole(
    rt: &HostRuntime,
    files: &mut SystemFolder<'_>,
    sought: &Sought<'_, '_>,
    fragments: &Fragments,
    path: &str,
    there: Option<&Metadata>,
    tries: &mut Tries,
) -> Result<bool, FileFault>
    requires { vec_len fragments.now.opened ≡ 16 }
    ensures whenever { PutsFile path.now sought.now.described.digest (⟦<SystemFolder<'static> as Folder>⟧.calls files.old)
        (⟦<SystemFolder<'static> as Folder>⟧.calls files.new) }
    ensures alone { there.entry ≡ None → GivesFile path.now sought.now.described.digest
        (⟦<SystemFolder<'static> as Folder>⟧.calls files.old) (⟦<SystemFolder<'static> as Folder>⟧.calls files.new) }
    ensures done { IfOk result (λ is. is ≡ true → is_temporary path.now ≡ false → HasFile path.now sought.now.described.digest
        (⟦<SystemFolder<'static> as Folder>⟧.calls files.new)) }
{
    let Some(file) = write_new(rt, files, sought, fragments, path, there, tries)? else {
        return Ok(false);
    };
    match put(files, file, path, there.is_some()) {
        Ok(()) => Ok(true),
        Err(error) => Err(device(rt.alloc(), path, error)),
    }
}

/// Gives a new file a path, in place of what is there if that is asked for and else only if nothing is, and writes the name to the disk.
fn put<F: Folder>(
    files: &mut F,
    file: NewFile<F::New>,
    path: &str,
    replaces: bool,
) -> io::Result<()>
    ensures whenever { PutsOne path.now (content_of file) (F.calls files.old) (F.calls files.new) }
    ensures alone { replaces ≡ false → GivesOne path.now (content_of file) (F.calls files.old) (F.calls files.new) }
    ensures done { OnOk result (is_temporary path.now ≡ false
        → IsSomeAnd (content_of file) (λ bytes. IsOnDisk path.now bytes (F.calls files.new))) }
{
    place_file(files, file, path, replaces)?;
    files.sync_folder(folder_of(path))
}

/// Gives a new file a path, in place of what is there if that is asked for and else only if nothing is.
fn place_file<F: Folder>(
    files: &mut F,
    file: NewFile<F::New>,
    path: &str,
    replaces: bool,
) -> io::Result<()>
    ensures whenever { PutsOne path.now (content_of file) (F.calls files.old) (F.calls files.new) }
    ensures alone { replaces ≡ false → GivesOne path.now (content_of file) (F.calls files.old) (F.calls files.new) }
    ensures given { OnOk result (is_temporary path.now ≡ false
        → IsSomeAnd (content_of file) (λ bytes. HasWhole path.now bytes (F.calls files.new))) }
{
    if replaces {
        return place_again(files, file, path);
    }
    match place_new(files, file, path)? {
        Placed::Placed => Ok(()),
        Placed::IsThere => Err(io::Error::from(ErrorKind::AlreadyExists)),
    }
}

/// Writes the file to what is at a path and is no regular file, if the fragments give it, which is known before its first byte is written.
fn write_through(
    rt: &HostRuntime,
    sought: &Sought<'_, '_>,
    fragments: &Fragments,
    path: &str,
    tries: &mut Tries,
) -> Result<bool, FileFault>
    requires { vec_len fragments.now.opened ≡ 16 }
{
    let Some(set) = set_that_fits(rt, sought, fragments, tries)? else {
        return Ok(false);
    };
    let file = opened(rt, path).map_err(|error| device(rt.alloc(), path, error))?;
    write_into(rt, sought, fragments, set, file, path)?;
    Ok(true)
}

/// Opens what is at a path and is no regular file.
fn opened(rt: &HostRuntime, path: &str) -> io::Result<File> {
    let mut options = File::options();
    options.write(true).truncate(true);
    options.open(rt, path)
}

/// The file under a temporary name beside a path, with the owner and the rights of what is there, if the fragments give it: as all of them
/// have it, or, where that isn't the file that is described, as some do that have it.
fn write_new(
    rt: &HostRuntime,
    files: &mut SystemFolder<'_>,
    sought: &Sought<'_, '_>,
    fragments: &Fragments,
    path: &str,
    there: Option<&Metadata>,
    tries: &mut Tries,
) -> Result<Option<NewFile>, FileFault>
    requires { vec_len fragments.now.opened ≡ 16 }
    ensures whenever { KeepsEach (⟦<SystemFolder<'static> as Folder>⟧.calls files.old)
        (⟦<SystemFolder<'static> as Folder>⟧.calls files.new) }
    ensures file { IfOk result (λ made. IfSome made (λ file. HasDigest sought.now.described.digest (content_of file))) }
{
    let all = fragments.set;
    match write_from(rt, files, sought, fragments, all, path, there)? {
        Attempt::Right(file) => return Ok(Some(file)),
        Attempt::Wrong(Wrong::Other(fault)) => {
            drop(fault);
            let _ = tries.note(sought, all)?;
        }
        Attempt::Wrong(Wrong::Unread { index, error }) => {
            tries.leave_out(rt, sought, index, error)?;
        }
    }
    let Some(set) = set_that_fits(rt, sought, fragments, tries)? else {
        return Ok(None);
    };
    match write_from(rt, files, sought, fragments, set, path, there)? {
        Attempt::Right(file) => Ok(Some(file)),
        Attempt::Wrong(Wrong::Other(fault)) => Err(fault),
        Attempt::Wrong(Wrong::Unread { index: _, error }) => {
            Err(device(rt.alloc(), sought.file.name, error))
        }
    }
}

/// What became of a file that was written from some fragments: it is the one that is described and has a temporary name, or it isn't, and
/// is removed.
#[derive(Drop)]
enum Attempt {
    Right(NewFile),
    Wrong(Wrong),
}

/// Why what was written isn't the file that is described.
#[derive(Drop)]
enum Wrong {
    Other(FileFault),
    /// The fragment at the place of this index can't be read.
    Unread { index: usize, error: io::Error },
}

/// Writes the file as these fragments have it.
fn write_from(
    rt: &HostRuntime,
    files: &mut SystemFolder<'_>,
    sought: &Sought<'_, '_>,
    fragments: &Fragments,
    set: PlaceSet,
    path: &str,
    there: Option<&Metadata>,
) -> Result<Attempt, FileFault>
    requires { vec_len fragments.now.opened ≡ 16 }
    ensures whenever { KeepsEach (⟦<SystemFolder<'static> as Folder>⟧.calls files.old)
        (⟦<SystemFolder<'static> as Folder>⟧.calls files.new) }
    ensures file { IfOk result (IsRight sought.now.described.digest) }
{
    let alloc = rt.alloc();
    let file = match new_beside(rt, files, path, there) {
        Ok(file) => file,
        Err(error) => return Err(device(alloc, path, error)),
    };
    match filled(rt, sought, fragments, set, file, path, there) {
        (file, Ok(None)) => Ok(Attempt::Right(file)),
        (file, Ok(Some(wrong))) => {
            remove(alloc, files, file, path)?;
            Ok(Attempt::Wrong(wrong))
        }
        (file, Err(fault)) => {
            if let Err(left) = remove(alloc, files, file, path) {
                let line = format!(in rt.alloc(); "rebuild-store: {left}");
                sought.file.say(rt, line);
            }
            Err(fault)
        }
    }
}

/// Writes the file as these fragments have it to an empty one, which gets the owner and the rights of what it replaces. Says why what was
/// written isn't the file that is described, if it isn't.
fn filled(
    rt: &HostRuntime,
    sought: &Sought<'_, '_>,
    fragments: &Fragments,
    set: PlaceSet,
    file: NewFile,
    path: &str,
    there: Option<&Metadata>,
) -> (NewFile, Result<Option<Wrong>, FileFault>)
    requires sixteen { vec_len fragments.now.opened ≡ 16 }
    requires empty { content_of file ≡ Some [] }
    ensures { IfOk result.1 (λ fault. fault ≡ None → HasDigest sought.now.described.digest (content_of result.0)) }
{
    let alloc = rt.alloc();
    let mut counted = Counted {
        file: Digested::new(file),
        rt,
        progress: sought.file.progress,
    };
    let survivors = survivors_of(sought, fragments, set);
    let file_bytes = sought.described.length as usize;
    let done = read_file(alloc, &survivors, file_bytes, &mut counted);
    let (file, is_described) = counted.file.finish(&sought.described.digest);
    let done = ended(alloc, sought, path, done, is_described);
    if let Ok(None) = done {
        if let Err(error) = taken_after(&file, there) {
            return (file, Err(device(alloc, path, error)));
        }
    }
    (file, done)
}

/// A new file beside a path.
fn new_beside<F: Folder>(
    rt: &HostRuntime,
    files: &mut F,
    path: &str,
    there: Option<&Metadata>,
) -> io::Result<NewFile<F::New>>
    ensures whenever { KeepsEach (F.calls files.old) (F.calls files.new) }
    ensures empty { IfOk result (λ new. content_of new ≡ Some []) }
{
    let folder = folder_of(path);
    match there {
        Some(_) => create_private(rt, files, folder),
        None => create_new(rt, files, folder),
    }
}

/// Why what was written isn't the file that is described, if it isn't; or why it couldn't be written.
fn ended(
    alloc: Global,
    sought: &Sought<'_, '_>,
    path: &str,
    done: Result<(), MendFault>,
    is_described: bool,
) -> Result<Option<Wrong>, FileFault>
    ensures { IfOk result (λ fault. fault ≡ None → is_described ≡ true) }
{
    match done {
        Ok(()) if is_described => Ok(None),
        Ok(()) | Err(MendFault::Several { .. }) => Ok(Some(Wrong::Other(changed_meanwhile(
            alloc, sought,
        )))),
        Err(MendFault::Unread { index, error }) => Ok(Some(Wrong::Unread { index, error })),
        Err(MendFault::Unwritten { error, .. }) => Err(device(alloc, path, error)),
        Err(MendFault::OutOfMemory) => Err(FileFault::OutOfMemory),
    }
}

/// Removes a file that isn't the one that is described.
fn remove<F: Folder>(
    alloc: Global,
    files: &mut F,
    file: NewFile<F::New>,
    path: &str,
) -> Result<(), FileFault>
    ensures { KeepsEach (F.calls files.old) (F.calls files.new) }
{
    discard_new(files, file).map_err(|error| device(alloc, path, error))
}

/// Gives a file the owner and the rights of what it replaces.
fn taken_after(file: &NewFile, there: Option<&Metadata>) -> io::Result<()> {
    if let Some(there) = there {
        file.take_after(there)?;
    }
    Ok(())
}
