//! The paths of a store's files.
ghost use Rattle.std.specs.Prelude.{◌≡◌, ◌∷◌, ◌++◌, IfOk, string_bytes};
ghost use Rattle.store_names.specs.Folders.{IsFolderOf, IsLastOf};

use crate::texts::around_last;
use std::alloc::{AllocError, Global};

/// The path of a name in a folder.
pub fn path_in(alloc: Global, folder: &str, name: &str) -> Result<String, AllocError>
    ensures { IfOk result (λ path. string_bytes path ≡ folder.now ++ 47 ∷ name.now) }
{
    let mut path = String::from_str(alloc, folder)?;
    path.push('/')?;
    path.push_str(name)?;
    Ok(path)
}

/// The folder in the store of a name: `""` is the store's own.
pub fn folder_in(name: &str) -> &str
    ensures { IsFolderOf name.now result.now }
{
    match around_last(name, '/') {
        Some((folder, _)) => folder,
        None => "",
    }
}

/// The last part of a name.
pub fn last_of(name: &str) -> &str
    ensures { IsLastOf name.now result.now }
{
    match around_last(name, '/') {
        Some((_, last)) => last,
        None => name,
    }
}
