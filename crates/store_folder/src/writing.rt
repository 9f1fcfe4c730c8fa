//! Files of a store that are written in place of those that are there.
ghost use Rattle.std.specs.Prelude.{◌≡◌, ◌++◌, [], IfOk, OnOk, Some, option_map};
ghost use Rattle.folders.specs.Disk.{IsOnDisk};
ghost use Rattle.store_folder.specs.Written.{PutsOne};

use crate::placing::{OPEN, place_whole_over, take_after};
use crate::unfinished::{Unfinished, create_unfinished};
use folders::{Folder, folder_of};
use std::io::{self, ErrorKind};

/// Writes a text to a file at a path, in place of the one that is there, whose owner and rights it gets as far as the user may give them.
/// Whenever that ends, the path has what it had, or all of the text, and no other path changes but temporary ones. Once it is done, a crash
/// leaves the text there.
pub fn write_over<F: Folder>(
    rt: &HostRuntime,
    files: &mut F,
    path: &str,
    text: &[u8],
) -> io::Result<()>
    ensures whenever { PutsOne path.now (Some text.now) (F.calls files.old) (F.calls files.new) }
    ensures done { OnOk result (IsOnDisk path.now text.now (F.calls files.new)) }
{
    let folder = folder_of(path);
    let mut new = create_unfinished(rt, files, folder, "", OPEN)?;
    if let Err(error) = fill(files, &mut new, path, text) {
        files.remove(new.made_at.as_str())?;
        return Err(error);
    }
    place_whole_over(files, new, path)?;
    files.sync_folder(folder)
}

/// Writes a text into an empty file, which gets the owner and the rights of the one at a path, if there is one.
fn fill<F: Folder>(
    files: &F,
    file: &mut Unfinished<F::New>,
    path: &str,
    text: &[u8],
) -> io::Result<()>
    ensures { OnOk result (F.New.written file.new.file ≡ option_map (λ before. before ++ text.now) (F.New.written file.old.file)) }
{
    match files.status(path) {
        Ok(there) => {
            take_after(&file.file, &there.rights)?;
        }
        Err(error) if error.kind() == ErrorKind::NotFound => {}
        Err(error) => return Err(error),
    }
    file.append(text)
}
