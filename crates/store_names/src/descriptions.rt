//! The names of descriptions: of a stripe `a`, `a.file` in each folder that has fragments of it; where all are in one folder, there is a
//! second copy, `a.file.copy`.
ghost use Rattle.std.specs.Prelude.{◌≡◌, [], ℕ, IfOk, IsTrue, List, MatchOption, codes, map, string_bytes};
ghost use Rattle.store_names.specs.Descriptions.{AreDescriptions, Describes, IsDescription, description_in};

use crate::disks::{has, stripe_folders};
use crate::paths::{last_of, path_in};
use crate::patterns::Pattern;
use crate::texts::until;
use lrc_code::Code;
use std::alloc::{AllocError, Global};

/// How the name of a description ends.
pub const DESCRIPTION: &str = ".file";

/// How the name of the second copy ends where all fragments of a stripe are in one folder.
const SECOND: &str = ".file.copy";

/// The stripe that a file describes by the last part of its name.
pub fn described_stripe(last: &str) -> Option<&str>
    ensures { MatchOption result ((stripe : List ℕ) → ¬ Describes last.now stripe) (λ stripe. Describes last.now stripe.now) }
{
    if let Some(stripe) = until(last, SECOND) {
        return if stripe.is_empty() {
            None
        } else {
            Some(stripe)
        };
    }
    let Some(stripe) = until(last, DESCRIPTION) else {
        return None;
    };
    if stripe.is_empty() {
        None
    } else {
        Some(stripe)
    }
}

/// The names in the store of the copies of a stripe's description: one in each folder that has fragments of the stripe, or two where that
/// is one folder.
pub fn description_names(
    alloc: Global,
    pattern: &Pattern<'_>,
    code: Code,
    stripe: &str,
) -> Result<Vec<String>, AllocError>
    ensures { IfOk result (λ names. AreDescriptions pattern.now code stripe.now (map string_bytes names.items)) }
{
    let folders = stripe_folders(alloc, pattern, code, stripe)?;
    let mut names = Vec::new(alloc);
    for folder in &folders {
        names.push(name_in(alloc, folder.as_str(), stripe, DESCRIPTION)?)?;
    }
    if folders.len() == 1 {
        names.push(name_in(alloc, folders[0].as_str(), stripe, SECOND)?)?;
    }
    Ok(names)
}

/// The name of the description in the store's own folder, where a store that was made before may have its only one.
pub fn first_description_name(alloc: Global, stripe: &str) -> Result<String, AllocError>
    ensures { IfOk result (λ name. string_bytes name ≡ description_in [] stripe.now (codes ".file")) }
{
    name_in(alloc, "", stripe, DESCRIPTION)
}

/// The name of a stripe's description in a folder of the store.
fn name_in(alloc: Global, folder: &str, stripe: &str, ending: &str) -> Result<String, AllocError>
    ensures { IfOk result (λ name. string_bytes name ≡ description_in folder.now stripe.now ending.now) }
{
    let mut name = if folder.is_empty() {
        String::from_str(alloc, stripe)?
    } else {
        path_in(alloc, folder, stripe)?
    };
    name.push_str(ending)?;
    Ok(name)
}

/// Whether a name in the store is that of a stripe's description. A fragment may have it too by some patterns, as
/// `disk{shard}/{stripe}`, so that what is in the file says which it is.
pub fn is_description_name(
    alloc: Global,
    pattern: &Pattern<'_>,
    code: Code,
    name: &str,
) -> Result<bool, AllocError>
    ensures { IfOk result (λ is. IsTrue is → IsDescription pattern.now code name.now) }
{
    let Some(stripe) = described_stripe(last_of(name)) else {
        return Ok(false);
    };
    let names = description_names(alloc, pattern, code, stripe)?;
    Ok(has(names.as_slice(), name))
}
