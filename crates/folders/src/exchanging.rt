//! A new file gets the path of another one, which a second path keeps: the second path is on the disk before the first is given away.
ghost use Rattle.std.specs.Prelude.{◌≡◌, ◌≢◌, ◌⊎◌, ℕ, List, Bool, true, false, IfOk, IsSome};
ghost use Rattle.folders.specs.Exchanged.{Exchanges, LeadToOne, WasAsked};
ghost use Rattle.folders.specs.Others.{LeavesOthers};
ghost use Rattle.folders.specs.Placed.{HasPath};

use crate::folder::Folder;
use crate::paths::folder_of;
use std::io::{self, ErrorKind};

/// A file that is on the disk, and whether it got the path of another one.
#[derive(Drop)]
pub struct Exchanged<W> {
    pub file: W,
    pub is_done: bool,
}

/// Writes a file to the disk and gives it the path of another one, which the second path then keeps. Not done if something else is at the
/// second path. Whenever that ends, the path has what it had, or all the bytes of the file, and then what was there is at the second path.
/// If it is done, the path leads to the file, whose bytes are on the disk. A whole file at another path than these and the one at which the
/// new file was made stays there.
///
/// # Errors
///
/// The file or the second path's folder couldn't be written to the disk, one of the paths couldn't be given, or
/// what is at the paths couldn't be looked at.
pub fn exchange<F: Folder>(
    folder: &mut F,
    file: F::New,
    path: &str,
    second: &str,
) -> io::Result<Exchanged<F::Whole>>
    requires { IsSome (F.New.written file) }
    ensures whenever { (temporary : List ℕ → Bool) → temporary path.now ≡ false → temporary second.now ≡ false
        → temporary (F.New.path file) ≡ true → path.now ≢ second.now
        → Exchanges (λ p. temporary p ≡ true) (F.New.written file) path.now second.now (F.calls folder.old) (F.calls folder.new) }
    ensures others { LeavesOthers (λ p. (p ≡ path.now) ⊎ (p ≡ second.now) ⊎ (p ≡ F.New.path file)) (F.calls folder.old)
        (F.calls folder.new) }
    ensures path { IfOk result (λ exchanged. F.Whole.path exchanged.file ≡ F.New.path file) }
    ensures given { IfOk result (λ exchanged. exchanged.is_done ≡ true
        → HasPath path.now (F.New.written file) (F.calls folder.new)) }
{
    let whole = folder.sync(file)?;
    if !keep_at(folder, path, second)? {
        return Ok(Exchanged {
            file: whole,
            is_done: false,
        });
    }
    folder.sync_folder(folder_of(second))?;
    folder.rename(&whole, path)?;
    Ok(Exchanged {
        file: whole,
        is_done: true,
    })
}

/// Gives the file at a path a second one, or finds that it has that already, as a run that was killed has left it. False if something else
/// is there.
fn keep_at<F: Folder>(folder: &mut F, path: &str, second: &str) -> io::Result<bool>
    ensures asked { WasAsked path.now second.now (F.calls folder.old) (F.calls folder.new) }
    ensures one { path.now ≢ second.now → IfOk result (λ is. is ≡ true → LeadToOne path.now second.now (F.calls folder.new)) }
{
    match folder.link_again(path, second) {
        Ok(()) => Ok(true),
        Err(error) if error.kind() == ErrorKind::AlreadyExists => folder.is_same_file(path, second),
        Err(error) => Err(error),
    }
}
