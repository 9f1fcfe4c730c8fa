//! The digests that a store's sums say of its fragments, and which fragments have them.
ghost use Rattle.std.specs.Prelude.{◌≡◌, IfOk, true};
ghost use Rattle.store_folder.specs.Digests.{HasSum, IsAsListed};

use crate::digesting::{digests_of, refusal_of};
use crate::folder_store::FolderStore;
use crate::surviving::FileFragment;
use crate::unfinished_file::UnfinishedFile;
use folders::{Folder, OpenFile};
use lrc_code::Place;
use std::alloc::{AllocError, Global};
use std::io;
use store_records::Digest;
use stores::Refused;

impl<F: Folder> FolderStore<'_, F> {
    /// Whether the store's sums say a digest of a stripe's fragment at a place.
    pub fn has_digest_of(&self, stripe: &str, place: Place) -> Result<bool, AllocError>
        ensures { IfOk result (λ has. has ≡ true → HasSum self.now.site stripe.now place) }
    {
        let sum = self.site.sum_of(self.rt.alloc(), stripe, place)?;
        Ok(sum.is_some())
    }

    /// Whether a new fragment has the digest that the store's sums say of a stripe's fragment at a place, if they say one.
    pub fn is_fragment_as_listed(
        &self,
        file: &UnfinishedFile<F::New>,
        stripe: &str,
        place: Place,
    ) -> Result<bool, AllocError>
        ensures { IfOk result (λ is. is ≡ true → IsAsListed self.now.site stripe.now place (F.New.written file.now.unfinished.file)) }
    {
        let sum = self.site.sum_of(self.rt.alloc(), stripe, place)?;
        file.has_digest(sum)
    }

    /// Which of a stripe's fragments don't have the digests that the store's sums say, or can't be read.
    pub(crate) fn refused_fragments(
        &self,
        alloc: Global,
        stripe: &str,
        length: usize,
        fragments: &[Option<FileFragment<F::Open>>],
    ) -> Result<Vec<Refused>, AllocError> {
        let sums = self.site.sums_of(alloc, stripe)?;
        let held = listed_of(alloc, fragments, sums.as_slice())?;
        let digests = digests_of(alloc, held.as_slice(), length)?;
        refusals(alloc, digests, sums.as_slice())
    }
}

/// The fragments of which the sums say a digest.
fn listed_of<'f, O: OpenFile>(
    alloc: Global,
    fragments: &'f [Option<FileFragment<O>>],
    sums: &[Option<Digest>],
) -> Result<Vec<Option<&'f FileFragment<O>>>, AllocError> {
    let mut held = Vec::with_capacity(alloc, fragments.len())?;
    for (fragment, sum) in fragments.iter().zip(sums.iter()) {
        held.push(match sum {
            Some(_) => fragment.as_ref(),
            None => None,
        })?;
    }
    Ok(held)
}

/// Which fragments are refused, by their digests and those that the sums say, both by the places' indexes.
fn refusals(
    alloc: Global,
    digests: Vec<Option<io::Result<Digest>>>,
    sums: &[Option<Digest>],
) -> Result<Vec<Refused>, AllocError> {
    let mut refused = Vec::new(alloc);
    for (place, (digest, sum)) in Place::ALL.iter().zip(digests.into_iter().zip(sums.iter())) {
        if let Some(error) = refusal_of(digest, sum) {
            let place = *place;
            refused.push(Refused { place, error })?;
        }
    }
    Ok(refused)
}
