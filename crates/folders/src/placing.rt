//! A new file gets the path at which others look for it: only once it is whole and on the disk.
ghost use Rattle.std.specs.Prelude.{◌≡◌, ℕ, List, Bool, true, IfOk, IsSome, MatchResult, OnOk};
ghost use Rattle.folders.specs.Files.{under};
ghost use Rattle.folders.specs.Given.{Gives, IsNewAt, Nothing};
ghost use Rattle.folders.specs.Kept.{Keeps};
ghost use Rattle.folders.specs.Placed.{IsGiven, HasPath, WasRefused};

use crate::folder::Folder;
use std::io;

/// A file that is on the disk, and whether it got its path.
#[derive(Drop)]
pub struct Placed<W> {
    pub file: W,
    pub answer: io::Result<()>,
}

/// Writes a file to the disk and gives it a path at which nothing is, beside the one at which it was made. Whenever that ends, each path
/// but temporary ones has what it had, or, if it had nothing and is this one, all the bytes of the file. If it got the path, that leads to
/// the file, whose bytes are on the disk.
///
/// # Errors
///
/// The file couldn't be written to the disk. If it could and didn't get the path, that is the answer in `Placed`.
pub fn place<F: Folder>(folder: &mut F, file: F::New, to: &str) -> io::Result<Placed<F::Whole>>
    requires { IsSome (F.New.written file) }
    ensures whenever { (temporary : List ℕ → Bool)
        → Keeps (λ path. temporary path ≡ true) (IsGiven to.now (F.New.written file) (F.calls folder.new)) (F.calls folder.old)
        (F.calls folder.new) }
    ensures path { IfOk result (λ placed. F.Whole.path placed.file ≡ F.New.path file) }
    ensures number { IfOk result (λ placed. F.Whole.number placed.file ≡ F.New.number file) }
    ensures given { IfOk result (λ placed. MatchResult placed.answer (λ _. HasPath to.now (F.New.written file) (F.calls folder.new))
        (λ _. WasRefused to.now (F.calls folder.new))) }
{
    let whole = folder.sync(file)?;
    let answer = folder.link(&whole, to);
    Ok(Placed {
        file: whole,
        answer,
    })
}

/// Writes a file to the disk and gives it a path in place of what is there and of the one at which it was made. Whenever that ends, the
/// path has what it had, or all the bytes of the file. If it got the path, that leads to the file, whose bytes are on the disk.
///
/// # Errors
///
/// The file couldn't be written to the disk, or it couldn't get the path.
pub fn place_over<F: Folder>(folder: &mut F, file: F::New, to: &str) -> io::Result<()>
    requires { IsSome (F.New.written file) }
    ensures whenever { (temporary : List ℕ → Bool) → temporary (F.New.path file) ≡ true
        → Gives (λ p. temporary p ≡ true) Nothing (IsNewAt to.now (F.New.written file)) (F.calls folder.old) (F.calls folder.new) }
    ensures given { OnOk result (HasPath to.now (F.New.written file) (F.calls folder.new)) }
{
    let whole = folder.sync(file)?;
    folder.rename(&whole, to)
}
