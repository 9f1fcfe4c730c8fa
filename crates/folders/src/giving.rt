//! The file at a path gets another path too, in place of what has that.
ghost use Rattle.std.specs.Prelude.{◌≡◌, ◌≢◌, ℕ, List, Bool, true, false, OnOk};
ghost use Rattle.folders.specs.Given.{Gives, IsPair, LeadThere, NothingNew};

use crate::folder::Folder;
use crate::paths::folder_of;
use std::io;

/// Gives the file at a path another path too, in place of what has that, by a link at a temporary path that is renamed. Whenever that ends,
/// the other path has what it had, or what the first has. Once it is done both lead to one file, also on the disk.
///
/// # Errors
///
/// The link couldn't be made, renamed, or taken away after that, or the folder of the other path couldn't be written to the disk.
pub fn give_path<F: Folder>(folder: &mut F, path: &str, link: &str, other: &str) -> io::Result<()>
    ensures whenever { (temporary : List ℕ → Bool) → temporary path.now ≡ false → temporary link.now ≡ true
        → Gives (λ p. temporary p ≡ true) (IsPair path.now other.now) NothingNew (F.calls folder.old) (F.calls folder.new) }
    ensures given { link.now ≢ path.now → link.now ≢ other.now → OnOk result (LeadThere path.now other.now (F.calls folder.new)) }
{
    folder.link_again(path, link)?;
    if let Err(error) = folder.rename_again(link, other) {
        folder.remove(link)?;
        return Err(error);
    }
    // It is still there if both paths led to one file before.
    let _ = folder.remove(link);
    folder.sync_folder(folder_of(other))
}
