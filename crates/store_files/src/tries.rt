//! What was tried to give a file that is read.
use crate::fragments::{Fragments, Refused, is_lost, parts_of, unread_now};
use crate::stored_file::Sought;
use lrc_code::{Place, PlaceSet};
use std::alloc::{AllocError, Global};
use std::io::{self, ErrorKind};
use store_faults::{FileFault, device, words_of};
use store_folder::path_in;
use store_repair::without;

/// Which fragments were read to give a file and don't give it, and which of them the system refused to read.
#[derive(Drop)]
pub struct Tries {
    sets: Vec<PlaceSet>,
    unread: PlaceSet,
    /// Why the first of these can't be read: the file may be there with it.
    why: Option<FileFault>,
}

impl Tries {
    /// Nothing was tried.
    pub fn new(alloc: Global) -> Tries {
        Tries {
            sets: Vec::new(alloc),
            unread: PlaceSet::empty(),
            why: None,
        }
    }

    /// Notes that some fragments are tried, and says whether others that are read as these were tried before.
    pub fn note(&mut self, sought: &Sought<'_, '_>, set: PlaceSet) -> Result<bool, AllocError> {
        let read = read_of(sought, set);
        if self.sets.contains(&read) {
            return Ok(true);
        }
        self.sets.push(read)?;
        Ok(false)
    }

    /// Leaves out the fragment at the place of an index, which the system refused to read, and says why.
    pub fn leave_out(
        &mut self,
        rt: &HostRuntime,
        sought: &Sought<'_, '_>,
        index: usize,
        error: io::Error,
    ) -> Result<(), FileFault> {
        let Some(place) = Place::from_index(index) else {
            return Ok(());
        };
        if error.kind() == ErrorKind::OutOfMemory {
            return Err(FileFault::OutOfMemory);
        }
        if self.unread.has(place) {
            return Ok(());
        }
        self.unread = self.unread.with(place);
        let alloc = rt.alloc();
        let name = sought.name_of(alloc, place)?;
        let words = words_of(alloc, &error)?;
        sought.file.say(
            rt,
            format!(in rt.alloc(); "rebuild-store: {name}: left out: {words}"),
        );
        if self.why.is_none() && !is_lost(error.kind()) {
            let path = path_in(alloc, sought.file.folder, name.as_str())?;
            self.why = Some(device(alloc, path.as_str(), error));
        }
        Ok(())
    }

    /// Some fragments without those that the system refused to read.
    pub(crate) fn readable(&self, sought: &Sought<'_, '_>, set: PlaceSet) -> PlaceSet {
        let mut left = set;
        for place in &Place::ALL {
            if self.unread.has(*place) {
                left = without(sought.described.code, left, *place);
            }
        }
        left
    }

    /// Why a fragment can't be read, if the system refused one.
    fn into_why(self) -> Option<FileFault> {
        let Tries {
            sets: _,
            unread: _,
            why,
        } = self;
        why
    }
}

/// The fragments that a file is read from where some are to give it: its parts alone if all of these are among them, else all.
fn read_of(sought: &Sought<'_, '_>, set: PlaceSet) -> PlaceSet {
    let parts = parts_of(sought);
    for place in &Place::ALL {
        if parts.has(*place) && !set.has(*place) {
            return set;
        }
    }
    parts
}

/// Why a fragment can't be read, if the system refuses one, or refused one when it was opened or tried: the file may be there with it.
pub fn unread_of(
    rt: &HostRuntime,
    sought: &Sought<'_, '_>,
    fragments: Fragments,
    tries: Tries,
) -> Result<Option<FileFault>, FileFault> {
    let alloc = rt.alloc();
    let Fragments {
        set: _,
        opened,
        refused,
    } = fragments;
    if let Some(Refused { place, error }) = refused {
        let name = sought.name_of(alloc, place)?;
        let path = path_in(alloc, sought.file.folder, name.as_str())?;
        return Ok(Some(device(alloc, path.as_str(), error)));
    }
    match tries.into_why() {
        Some(fault) => Ok(Some(fault)),
        None => unread_now(rt, sought, opened.as_slice()),
    }
}
