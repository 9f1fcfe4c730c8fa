//! What something in a store is, by what the system says, or may be, by its name, and where its folders are.
use crate::watching::Wanted;
use std::alloc::{AllocError, Global};
use std::fs::Metadata;
use store_names::{described_stripe, last_of, path_in};
use stores::Found;

/// Whether a name of a store is one that a fragment or a description may get.
pub(crate) fn may_be_made(wanted: &Wanted<'_>, name: &str) -> bool {
    wanted.pattern.read(wanted.code, name).is_some() || described_stripe(last_of(name)).is_some()
}

/// What something is; none for a folder.
pub(crate) fn found_of(metadata: &Metadata) -> Option<Found> {
    if metadata.is_dir() {
        return None;
    }
    if metadata.is_file() {
        return Some(Found::File {
            length: metadata.len(),
        });
    }
    Some(Found::Other)
}

/// The path of a folder inside the store's.
pub(crate) fn path_inside(alloc: Global, folder: &str, inside: &str) -> Result<String, AllocError> {
    if inside.is_empty() {
        return String::from_str(alloc, folder);
    }
    path_in(alloc, folder, inside)
}
