//! Where a store is.
ghost use Rattle.std.specs.Prelude.{IfOk, string_bytes};
ghost use Rattle.store_names.specs.Names.{IsNameOf};
ghost use Rattle.store_folder.specs.Digests.{IsSumOf};

use crate::links::Links;
use crate::shared::Shared;
use lrc_code::{Code, Place};
use std::alloc::{AllocError, Global};
use std::io::{self, ErrorKind};
use store_names::{Pattern, folder_in};
use store_records::{Digest, Sums};

/// The number by which the system says that a drive has no medium (ENOMEDIUM): so it is at the folder of a disk that isn't mounted.
pub const NO_MEDIUM: i32 = 123;

/// Where a store is, and how its fragments are named.
#[derive(Clone, Copy)]
pub struct Site<'a> {
    pub folder: &'a str,
    /// The folder that rebuilt fragments are written to: the store's own, or another.
    pub target: &'a str,
    pub pattern: Pattern<'a>,
    pub code: Code,
    /// The digests that fragments have to have, by their names in the store.
    pub sums: Option<&'a Sums>,
    /// What the names of unfinished files have before their digits, so that those of one part of a store are known.
    pub tag: &'a str,
    pub links: Links,
    /// The folders of the store at which no disk is mounted, and into which nothing is to be written.
    pub unmounted: &'a [String],
    /// The names that share a path, if that was looked for: to write into the store, where links are followed.
    pub shared: Option<&'a Shared>,
}

impl Site<'_> {
    /// Refuses to write under a name whose folder is one at which no disk is mounted.
    pub fn refuse_unmounted(&self, name: &str) -> io::Result<()> {
        let inside = folder_in(name);
        for folder in self.unmounted {
            if folder.as_str() == inside {
                return Err(io::Error::from_raw_os_error(NO_MEDIUM));
            }
        }
        Ok(())
    }

    /// Refuses to write under a name whose folder is one at which no disk is mounted, or that leads where another name of the store leads.
    pub fn refuse_name(&self, alloc: Global, name: &str, is_replaced: bool) -> io::Result<()> {
        self.refuse_unmounted(name)?;
        match self.shared {
            Some(shared) => shared.refuse(alloc, &self.pattern, self.code, name, is_replaced),
            None => Ok(()),
        }
    }

    /// Why a stripe's fragment at a place can't be made, or replaced, if it is known before that is tried.
    pub fn refusal(
        &self,
        alloc: Global,
        stripe: &str,
        place: Place,
        is_replaced: bool,
    ) -> Result<Option<io::Error>, AllocError> {
        let Some(name) = self.pattern.name_of(alloc, self.code, stripe, place)? else {
            return Ok(None);
        };
        match self.refuse_name(alloc, name.as_str(), is_replaced) {
            Ok(()) => Ok(None),
            Err(error) if error.kind() == ErrorKind::OutOfMemory => Err(AllocError),
            Err(error) => Ok(Some(error)),
        }
    }

    /// The name of a stripe's fragment at a place.
    pub(crate) fn name_of(&self, alloc: Global, stripe: &str, place: Place) -> io::Result<String>
        ensures { IfOk result (λ name. IsNameOf self.now.pattern self.now.code stripe.now place (string_bytes name)) }
    {
        match self.pattern.name_of(alloc, self.code, stripe, place)? {
            Some(name) => Ok(name),
            None => Err(io::Error::from(ErrorKind::InvalidInput)),
        }
    }

    /// The digest that a stripe's fragment at a place has to have, if the store's sums say one.
    pub(crate) fn sum_of(
        &self,
        alloc: Global,
        stripe: &str,
        place: Place,
    ) -> Result<Option<Digest>, AllocError>
        ensures { IfOk result (IsSumOf self.now stripe.now place) }
    {
        let Some(sums) = self.sums else {
            return Ok(None);
        };
        match self.pattern.name_of(alloc, self.code, stripe, place)? {
            Some(name) => Ok(sums.digest_of(name.as_str()).copied()),
            None => Ok(None),
        }
    }

    /// The digests that a stripe's fragments have to have, by their places' indexes.
    pub(crate) fn sums_of(
        &self,
        alloc: Global,
        stripe: &str,
    ) -> Result<Vec<Option<Digest>>, AllocError> {
        let mut sums = Vec::with_capacity(alloc, Place::ALL.len())?;
        for place in &Place::ALL {
            sums.push(self.sum_of(alloc, stripe, *place)?)?;
        }
        Ok(sums)
    }
}
