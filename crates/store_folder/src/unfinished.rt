//! Files that aren't whole yet: their names, what a run that was killed has left of them, and the locks of parts.
ghost use Rattle.std.specs.Prelude.{◌≡◌, ◌++◌, [], true, IfOk, IfSome, IsSome, None, OnErr, OnOk, Some, option_map, string_bytes};
ghost use Rattle.store_folder.specs.Temporary.{is_temporary};
ghost use Rattle.store_folder.specs.Kept.{KeepsEach};

use crate::links::Links;
use crate::regular::open_regular;
use folders::{Folder, NewFile, create_locked};
use std::alloc::{AllocError, Global};
use std::fs::{self, File, TryLockError};
use std::io::{self, ErrorKind};
use std::os::unix::fs::FileExt;
use std::random::RandomSource;
use store_names::{
    RANDOM_DIGITS, UNFINISHED, is_free, is_lock_text, is_unfinished, last_of, path_in,
};

/// No text that a run writes into the file of its lock is longer.
pub const MOST_OF_LOCK: u64 = 200;

/// How many names are tried for a new file.
const MOST_NAMES: usize = 100;

/// A new file under a temporary name. Its lock says for as long as it is open that a run works on it.
#[derive(Drop)]
pub struct Unfinished<N: NewFile> {
    pub(crate) file: N,
    /// The path that it has meanwhile.
    pub(crate) made_at: String,
    /// Whether all appends succeeded.
    is_whole: bool,
    ghost temporary: { is_temporary (string_bytes made_at) ≡ true },
    ghost made: { is_temporary (N.path file) ≡ true },
    ghost whole: { is_whole ≡ true → IsSome (N.written file) },
}

impl<N: NewFile> Unfinished<N> {
    /// Writes bytes at its end.
    pub(crate) fn append(&mut self, bytes: &[u8]) -> io::Result<()>
        ensures ok { OnOk result (N.written self.new.file ≡ option_map (λ before. before ++ bytes.now) (N.written self.old.file)) }
        ensures err { OnErr result (N.written self.new.file ≡ None) }
    {
        let appended = self.file.append(bytes);
        self.is_whole = self.is_whole && appended.is_ok();
        appended
    }

    /// Refuses a file that lacks bytes since they couldn't be appended.
    pub(crate) fn refuse_part(&self) -> io::Result<()>
        ensures { IfOk result (λ _. IsSome (N.written self.now.file)) }
    {
        if self.is_whole {
            return Ok(());
        }
        Err(io::Error::other("bytes that were written are missing"))
    }
}

/// Makes a file under a temporary name in a folder, with this tag in the name, and with these rights as far as the user's mask leaves them.
pub(crate) fn create_unfinished<F: Folder>(
    rt: &HostRuntime,
    files: &mut F,
    folder: &str,
    tag: &str,
    mode: u32,
) -> io::Result<Unfinished<F::New>>
    ensures whenever { KeepsEach (F.calls files.old) (F.calls files.new) }
    ensures empty { IfOk result (λ new. F.New.written new.file ≡ Some []) }
{
    for _name in 0..MOST_NAMES {
        if let Some(new) = try_name(rt, files, folder, tag, mode)? {
            return Ok(new);
        }
    }
    Err(io::Error::from(ErrorKind::AlreadyExists))
}

/// Makes a file under a temporary name that nothing else has.
fn try_name<F: Folder>(
    rt: &HostRuntime,
    files: &mut F,
    folder: &str,
    tag: &str,
    mode: u32,
) -> io::Result<Option<Unfinished<F::New>>>
    ensures whenever { KeepsEach (F.calls files.old) (F.calls files.new) }
    ensures empty { IfOk result (λ o. IfSome o (λ new. F.New.written new.file ≡ Some [])) }
{
    let made_at = new_path(rt, folder, tag)?;
    Ok(match create_locked(files, made_at.as_str(), mode)? {
        Some(file) => Some(Unfinished {
            file,
            made_at,
            is_whole: true,
        }),
        None => None,
    })
}

/// A path for a new file, of which is seen that no fragment can have it.
pub(crate) fn new_path(rt: &HostRuntime, folder: &str, tag: &str) -> io::Result<String>
    ensures { IfOk result (λ path. is_temporary (string_bytes path) ≡ true) }
{
    let alloc = rt.alloc();
    let mut bytes = [0u8; RANDOM_DIGITS / 2];
    rt.fill_bytes(&mut bytes)?;
    let digits = hex::encode(alloc, bytes.as_slice())?;
    let name = format!(in alloc; "{UNFINISHED}{tag}{digits}")?;
    // Only a tag with a slash comes to this: else the name is one of an unfinished file.
    if is_free(name.as_str()) {
        return Err(io::Error::from(ErrorKind::InvalidInput));
    }
    Ok(path_in(alloc, folder, name.as_str())?)
}

/// What became of a file that has the name of one that a run which was killed has left.
#[derive(Drop)]
pub enum Leftover {
    Removed,
    /// It is no regular file, or a run works on it, so it stays.
    Kept,
    /// It has the name of a lock and other bytes than a lock has, so it stays.
    NoLock,
    /// The system refused to open it, or to remove it.
    Refused(io::Error),
}

/// Removes the regular file at a path that no run works on. Where it can't be opened or locked to see that, it is removed only if the
/// caller knows, and then if it is an unfinished one, or is empty, as locks are.
pub fn remove_leftover(rt: &HostRuntime, path: &str, is_known_dead: bool) -> Leftover {
    let may_be_unseen = is_known_dead && (is_unfinished(last_of(path)) || is_empty(rt, path));
    match open_regular(rt, path, Links::NotFollowed) {
        Ok(opened) => {
            match opened.file.try_lock() {
                Err(TryLockError::WouldBlock) => return Leftover::Kept,
                Err(TryLockError::Error(error)) if !is_known_dead => {
                    return Leftover::Refused(error);
                }
                _ => {}
            }
            match is_of_run(&opened.file, path) {
                Ok(true) => removed(fs::remove_file(rt, path)),
                Ok(false) => Leftover::NoLock,
                Err(error) => Leftover::Refused(error),
            }
        }
        Err(error) if error.kind() == ErrorKind::InvalidInput => Leftover::Kept,
        Err(error) if error.kind() == ErrorKind::PermissionDenied && may_be_unseen => removed(
            fs::remove_file(rt, path),
        ),
        Err(error) => Leftover::Refused(error),
    }
}

/// Whether an empty regular file is at a path.
fn is_empty(rt: &HostRuntime, path: &str) -> bool {
    fs::symlink_metadata(rt, path).is_ok_and(|there| there.is_file() && there.len() == 0)
}

/// Whether a file that is open for reading has what runs write under its name: the bytes of an unfinished file are any, and those of a lock
/// are what `is_lock_text` says. A fragment of other software that is named like a lock has others.
pub fn is_of_run(file: &File, path: &str) -> io::Result<bool> {
    if is_unfinished(last_of(path)) {
        return Ok(true);
    }
    let length = file.metadata()?.len();
    if length > MOST_OF_LOCK {
        return Ok(false);
    }
    let mut room = [0; MOST_OF_LOCK as usize];
    let bytes = &mut room[..length as usize];
    file.read_exact_at(bytes, 0)?;
    match str::from_utf8(bytes) {
        Ok(text) => Ok(is_lock_text(text)),
        Err(_) => Ok(false),
    }
}

/// What became of a leftover, by how its removal ended.
fn removed(done: io::Result<()>) -> Leftover {
    match done {
        Ok(()) => Leftover::Removed,
        Err(error) => Leftover::Refused(error),
    }
}
