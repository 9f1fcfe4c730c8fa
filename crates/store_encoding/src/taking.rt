//! Files that are taken away.
ghost use Rattle.std.specs.Prelude.{◌≡◌, None, OnOk};
ghost use Rattle.folders.specs.Kept.{KeepsBut};
ghost use Rattle.store_folder.specs.Written.{Puts, PutsOne};
ghost use Rattle.store_encoding.specs.Taken.{GoesFrom, IsGone, KeepsRest, TakesOnly};

use folders::{Folder, folder_of, is_absent};
use std::io;
use store_repair::NameFault;

/// Takes the regular files at some paths away, the last first, each from the disk before the next. Something else at one of them stays, and
/// the index of the first of these is given. Whenever that ends, each of the paths has what it had, or nothing, and each other path has
/// what it had.
pub fn take_files<F: Folder>(files: &mut F, paths: Vec<String>) -> Result<Option<usize>, NameFault>
    ensures only { TakesOnly paths.items (F.calls files.old) (F.calls files.new) }
    ensures gone { Puts (GoesFrom paths.items) (F.calls files.old) (F.calls files.new) }
    ensures rest { KeepsRest (F.calls files.old) (F.calls files.new) }
{
    let mut paths = paths;
    let mut odd = None;
    'paths: while let Some(name) = paths.pop() {
        match take_file(files, name.as_str()) {
            Ok(true) => {}
            Ok(false) => odd = Some(paths.len()),
            Err(error) => return Err(NameFault { name, error }),
        }
    }
    Ok(odd)
}

/// Takes the regular file at a path away, if one is there. False if something else is.
fn take_file<F: Folder>(files: &mut F, path: &str) -> io::Result<bool>
    ensures rest { KeepsRest (F.calls files.old) (F.calls files.new) }
    ensures whenever { KeepsBut path.now (F.calls files.old) (F.calls files.new) }
    ensures one { PutsOne path.now None (F.calls files.old) (F.calls files.new) }
{
    match files.status(path) {
        Ok(there) if there.is_file() => {
            take_away(files, path)?;
            Ok(true)
        }
        Ok(_) => Ok(false),
        Err(error) if is_absent(error.kind()) => Ok(true),
        Err(error) => Err(error),
    }
}

/// Takes a path away from its file, also on the disk. Whenever that ends, the path has what it had, or nothing, and no other path changes.
pub fn take_away<F: Folder>(files: &mut F, path: &str) -> io::Result<()>
    ensures whenever { KeepsBut path.now (F.calls files.old) (F.calls files.new) }
    ensures rest { KeepsRest (F.calls files.old) (F.calls files.new) }
    ensures one { PutsOne path.now None (F.calls files.old) (F.calls files.new) }
    ensures gone { OnOk result (IsGone path.now (F.calls files.new)) }
{
    files.remove(path)?;
    files.sync_folder(folder_of(path))
}
