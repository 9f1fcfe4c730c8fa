//! A file that is read from a store.
use lrc_code::{Code, Place};
use std::alloc::{AllocError, Global};
use store_faults::{fragment_name, say};
use store_folder::{Described, Links, Pattern};
use store_progress::Progress;
use store_repair::fragment_length;

/// A file of a store.
#[derive(Clone, Copy)]
pub struct StoredFile<'a, 'p> {
    /// The path of the store's folder.
    pub folder: &'a str,
    pub pattern: Pattern<'a>,
    /// The name of the file, which is its stripe's.
    pub name: &'a str,
    pub links: Links,
    /// Where it is counted how far it is read, if somebody sees that.
    pub progress: Option<&'p Progress>,
}

impl StoredFile<'_, '_> {
    /// Whether a stripe may have its name: it leads nowhere out of the store then.
    pub fn has_name(&self, alloc: Global) -> Result<bool, AllocError> {
        let name = self
            .pattern
            .name_of(alloc, Code::Wide, self.name, Place::X0)?;
        Ok(name.is_some())
    }

    /// Says a line about the file, in place of the one that says how far it is.
    pub fn say(&self, rt: &HostRuntime, line: Result<String, AllocError>) {
        if let Some(progress) = self.progress {
            progress.clear(rt);
        }
        let _ = say(rt, line);
    }
}

/// A file of a store, as one of its descriptions has it.
#[derive(Clone, Copy)]
pub struct Sought<'a, 'p> {
    pub file: StoredFile<'a, 'p>,
    pub described: Described,
    /// How many bytes each fragment has.
    pub length: usize,
}

impl<'a, 'p> Sought<'a, 'p> {
    /// A file that is described so.
    pub fn new(file: &StoredFile<'a, 'p>, described: Described) -> Sought<'a, 'p> {
        Sought {
            file: *file,
            described,
            length: fragment_length(described.code, described.length as usize),
        }
    }

    /// The name in the store of the fragment at a place.
    pub fn name_of(&self, alloc: Global, place: Place) -> Result<String, AllocError> {
        let StoredFile { pattern, name, .. } = self.file;
        fragment_name(alloc, &pattern, self.described.code, name, place)
    }
}
