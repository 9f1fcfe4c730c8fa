//! A file of a store gets another name too, in place of what has that.
ghost use Rattle.std.specs.Prelude.{◌≡◌, ℕ, List, Bool, true, false, OnOk};
ghost use Rattle.folders.specs.Given.{Gives, IsPair, LeadThere, NothingNew};
ghost use Rattle.store_folder.specs.Temporary.{AreTaken, is_temporary};

use crate::links::Links;
use crate::regular::open_regular;
use crate::unfinished::new_path;
use folders::{Folder, folder_of, give_path};
use std::io;

/// Gives the file at a path another one too, in place of what has that, and writes the name to the disk. Whenever that ends, the other path
/// has what it had, or what the first has. The link beside it has a name that runs which were killed leave.
pub fn give_name<F: Folder>(
    rt: &HostRuntime,
    files: &mut F,
    path: &str,
    other: &str,
) -> io::Result<()>
    ensures whenever { (taken : List ℕ → Bool) → AreTaken taken → taken path.now ≡ false
        → Gives (λ p. taken p ≡ true) (IsPair path.now other.now) NothingNew (F.calls files.old) (F.calls files.new) }
    ensures given { is_temporary path.now ≡ false → is_temporary other.now ≡ false
        → OnOk result (LeadThere path.now other.now (F.calls files.new)) }
{
    // The lock says meanwhile that a run works on the file, so that no other takes the link for one that was left.
    let held = open_regular(rt, path, Links::NotFollowed);
    if let Ok(held) = &held {
        let _ = held.file.try_lock();
    }
    let link = new_path(rt, folder_of(other), "")?;
    give_path(files, path, link.as_str(), other)
}
