//! The folders of a store's fragments: one for each disk, where the pattern of names says so.
ghost use Rattle.std.specs.Prelude.{◌≡◌, ◌↔◌, IfOk, IsTrue, MatchOption, OnOk, map, string_bytes};
ghost use Rattle.std.specs.List.{Contains};
ghost use Rattle.store_names.specs.Folders.{AreDisks, AreFolders, AreNoDisks, HasFragment, IsAdded};

use crate::paths::folder_in;
use crate::patterns::Pattern;
use lrc_code::Code;
use std::alloc::{AllocError, Global};

/// The folders in the store that the fragments of a stripe are in, each once, in the order of the code's places: `""` is the store's own.
pub fn stripe_folders(
    alloc: Global,
    pattern: &Pattern<'_>,
    code: Code,
    stripe: &str,
) -> Result<Vec<String>, AllocError>
    ensures { IfOk result (λ folders. AreFolders pattern.now code stripe.now (map string_bytes folders.items)) }
{
    let mut folders = Vec::new(alloc);
    for place in code.places() {
        if let Some(name) = pattern.name_of(alloc, code, stripe, *place)? {
            add(alloc, &mut folders, folder_in(name.as_str()))?;
        }
    }
    Ok(folders)
}

/// Puts a folder behind some, unless it is among them.
fn add(alloc: Global, folders: &mut Vec<String>, folder: &str) -> Result<(), AllocError>
    ensures { OnOk result (IsAdded (map string_bytes folders.old.items) folder.now (map string_bytes folders.new.items)) }
{
    if has(folders.as_slice(), folder) {
        return Ok(());
    }
    folders.push(String::from_str(alloc, folder)?)?;
    Ok(())
}

/// Whether a folder, or another name, is among some.
pub(crate) fn has(folders: &[String], folder: &str) -> bool
    ensures { IsTrue result ↔ Contains (map string_bytes folders.now) folder.now }
{
    folders.iter().any(|other| other.as_str() == folder)
}

/// The folders in the store that all fragments are in, if they are the same for each stripe and aren't the store's own.
pub fn disk_folders(
    alloc: Global,
    pattern: &Pattern<'_>,
    code: Code,
) -> Result<Option<Vec<String>>, AllocError>
    ensures { IfOk result (λ o. MatchOption o (AreNoDisks pattern.now code)
        (λ folders. AreDisks pattern.now code (map string_bytes folders.items))) }
{
    let folders = stripe_folders(alloc, pattern, code, "a")?;
    let others = stripe_folders(alloc, pattern, code, "b")?;
    if !are_same(folders.as_slice(), others.as_slice()) || has(folders.as_slice(), "") {
        return Ok(None);
    }
    Ok(Some(folders))
}

/// Whether two lists have the same folders in the same order.
fn are_same(folders: &[String], others: &[String]) -> bool
    ensures { IsTrue result ↔ map string_bytes folders.now ≡ map string_bytes others.now }
{
    folders == others
}

/// Whether fragments of a stripe are in a folder of the store.
pub fn is_folder_of(
    alloc: Global,
    pattern: &Pattern<'_>,
    code: Code,
    stripe: &str,
    folder: &str,
) -> Result<bool, AllocError>
    ensures { IfOk result (λ is. IsTrue is ↔ HasFragment pattern.now code stripe.now folder.now) }
{
    let folders = stripe_folders(alloc, pattern, code, stripe)?;
    Ok(has(folders.as_slice(), folder))
}
