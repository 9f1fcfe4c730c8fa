//! Files at temporary paths, at which nobody looks for a file that is whole.
ghost use Rattle.std.specs.Prelude.{◌≡◌, [], ℕ, List, Bool, true, IfOk, IfSome, OnOk, Some};
ghost use Rattle.folders.specs.Kept.{KeepsBut};
ghost use Rattle.folders.specs.Removed.{EndsByRemoving};

use crate::folder::{Folder, NewFile};
use std::io::{self, ErrorKind};

/// Makes an empty file at a path and locks it for as long as it is open. None if something is at the path, or if somebody else has taken
/// the file meanwhile for one that was left.
pub fn create_locked<F: Folder>(folder: &mut F, path: &str, mode: u32) -> io::Result<Option<F::New>>
    ensures whenever { KeepsBut path.now (F.calls folder.old) (F.calls folder.new) }
    ensures path { IfOk result (λ o. IfSome o (λ file. F.New.path file ≡ path.now)) }
    ensures empty { IfOk result (λ o. IfSome o (λ file. F.New.written file ≡ Some [])) }
{
    match folder.create_new(path, mode) {
        Ok(file) => held(folder, file, path),
        Err(error) if error.kind() == ErrorKind::AlreadyExists => Ok(None),
        Err(error) => Err(error),
    }
}

/// The file if it could be locked. After a failure it is removed.
fn held<F: Folder>(folder: &mut F, file: F::New, path: &str) -> io::Result<Option<F::New>>
    ensures whenever { KeepsBut path.now (F.calls folder.old) (F.calls folder.new) }
    ensures same { IfOk result (λ o. IfSome o (λ held. held ≡ file)) }
{
    match is_held(&file) {
        Ok(true) => Ok(Some(file)),
        Ok(false) => Ok(None),
        Err(error) => {
            let _ = remove_temporary(folder, path);
            Err(error)
        }
    }
}

/// Locks a new file, so that no other run takes it for a leftover; whether it still has a path then.
fn is_held<N: NewFile>(file: &N) -> io::Result<bool> {
    Ok(file.try_lock()? && file.status()?.paths > 0)
}

/// Takes away a temporary path.
pub fn remove_temporary<F: Folder>(folder: &mut F, path: &str) -> io::Result<()>
    ensures whenever { KeepsBut path.now (F.calls folder.old) (F.calls folder.new) }
    ensures removed { OnOk result (EndsByRemoving path.now (F.calls folder.new)) }
{
    folder.remove(path)
}
