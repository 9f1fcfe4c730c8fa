//! New files that get the paths of others, which are kept at their second paths.
ghost use Rattle.std.specs.Prelude.{◌≡◌, false, IfOk};
ghost use Rattle.folders.specs.Placed.{HasPath};
ghost use Rattle.store_folder.specs.Kept.{KeepsEach};
ghost use Rattle.store_folder.specs.Placed.{content_of};
ghost use Rattle.store_folder.specs.Replaced.{ReplacesOne, second_path};
ghost use Rattle.store_folder.specs.Temporary.{is_temporary};

use crate::placing::{NewFile, discard_new};
use crate::replacing::{Tried, second_of, try_exchange};
use folders::{Folder, remove_temporary};
use std::io::{self, ErrorKind};
use store_names::is_free;
use stores::Placed;

/// Gives a new file the path of another one, which its second path keeps; if something else is there already, the new one is removed.
/// Whenever that ends, the path has what it had, or all the bytes of the new file, and then what was there is at the second path; no other
/// path changes but temporary ones. The name may still have to be written to the disk.
///
/// # Errors
///
/// Bytes of the file are missing, it or the second path couldn't be written to the disk, or one of the paths couldn't be given.
pub fn exchange_new<F: Folder>(
    rt: &HostRuntime,
    files: &mut F,
    new: NewFile<F::New>,
    path: &str,
) -> io::Result<Placed>
    ensures whenever { ReplacesOne path.now (content_of new) (F.calls files.old) (F.calls files.new) }
    ensures given { IfOk result (λ placed. placed ≡ Placed.Placed → HasPath path.now (content_of new) (F.calls files.new)) }
{
    let second = second_of(rt.alloc(), path);
    match second {
        Ok(second) if is_free(path) => exchange_at(files, new, path, second.as_str()),
        Ok(_) => refused(files, new, io::Error::from(ErrorKind::InvalidInput)),
        Err(error) => refused(files, new, error),
    }
}

/// Removes a new file that can't get the path of another one, and gives why.
fn refused<F: Folder>(files: &mut F, new: NewFile<F::New>, error: io::Error) -> io::Result<Placed>
    ensures kept { KeepsEach (F.calls files.old) (F.calls files.new) }
    ensures none { IfOk result (λ _. ⊥) }
{
    discard_new(files, new)?;
    Err(error)
}

/// The same with the second path.
fn exchange_at<F: Folder>(
    files: &mut F,
    new: NewFile<F::New>,
    path: &str,
    second: &str,
) -> io::Result<Placed>
    requires path { is_temporary path.now ≡ false }
    requires second { (second.now ≡ second_path path.now) × (is_temporary second.now ≡ false) }
    ensures whenever { ReplacesOne path.now (content_of new) (F.calls files.old) (F.calls files.new) }
    ensures given { IfOk result (λ placed. placed ≡ Placed.Placed → HasPath path.now (content_of new) (F.calls files.new)) }
{
    let Tried { made_at, exchanged } = try_exchange(files, new.unfinished, path, second);
    match exchanged {
        Ok(exchanged) if exchanged.is_done => Ok(Placed::Placed),
        Ok(_) => {
            remove_temporary(files, made_at.as_str())?;
            Ok(Placed::IsThere)
        }
        Err(error) => {
            remove_temporary(files, made_at.as_str())?;
            Err(error)
        }
    }
}
