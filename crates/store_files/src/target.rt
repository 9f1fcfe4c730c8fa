//! The store that files are encoded into.
ghost use Rattle.std.specs.Prelude.{◌≡◌, ◌∷◌, ◌++◌, IfOk, length, string_bytes, vec_len};
ghost use Rattle.lrc_code.specs.Codes.{tables_of};

use lrc_code::{Code, Place};
use std::alloc::{AllocError, Global};
use store_faults::fragment_name;
use store_folder::{Links, Pattern, SUMS_NAME, Sums, path_in};

/// A store that files are encoded into, and the digests of what is in it.
#[derive(Drop)]
pub struct Target<'a> {
    pub folder: &'a str,
    pub pattern: Pattern<'a>,
    pub code: Code,
    pub sums: Sums,
    /// Whether the digests are others than those in the store's file of them.
    pub is_changed: bool,
    /// Whether something has failed that was said, and that the work went on without.
    pub has_failed: bool,
    pub links: Links,
    /// Whether the folders that names have are made.
    pub makes_folders: bool,
    /// Whether files that have other bytes are replaced.
    pub replaces: bool,
}

impl Target<'_> {
    /// The names in the store of a stripe's fragments, in the order of the code's places.
    pub fn names(&self, alloc: Global, stripe: &str) -> Result<Vec<String>, AllocError>
        ensures { IfOk result (λ names. vec_len names ≡ length (tables_of self.now.code).places) }
    {
        let places = self.code.places();
        let mut names = Vec::with_capacity(alloc, places.len())?;
        'names: while names.len() < places.len() {
            names.push(self.name_of(alloc, stripe, places[names.len()])?)?;
        }
        Ok(names)
    }

    /// Whether a stripe may have this name: its fragments then have names that lead nowhere out of the store, and none is that of the
    /// digests or in a folder of that name.
    pub fn has_names(&self, alloc: Global, stripe: &str) -> Result<bool, AllocError> {
        for place in self.code.places() {
            match self.pattern.name_of(alloc, self.code, stripe, *place)? {
                Some(name) if !is_of_sums(name.as_str()) => {}
                _ => return Ok(false),
            }
        }
        Ok(true)
    }

    /// The name in the store of a stripe's fragment at a place.
    pub fn name_of(&self, alloc: Global, stripe: &str, place: Place) -> Result<String, AllocError> {
        fragment_name(alloc, &self.pattern, self.code, stripe, place)
    }

    /// The path of a name in the store.
    pub fn path(&self, alloc: Global, name: &str) -> Result<String, AllocError>
        ensures { IfOk result (λ path. string_bytes path ≡ self.now.folder.now ++ 47 ∷ name.now) }
    {
        path_in(alloc, self.folder, name)
    }
}

/// Whether a name in the store is that of the digests, or in a folder of that name.
fn is_of_sums(name: &str) -> bool {
    match name.strip_prefix(SUMS_NAME) {
        Some(rest) => rest.is_empty() || rest.starts_with('/'),
        None => false,
    }
}
