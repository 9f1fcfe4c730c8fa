//! What became of all stripes.
use crate::done::Done;
use crate::totals::{Totals, totals_of};
use std::alloc::{AllocError, Global};
use store_folder::Site;
use store_listing::Alone;
use store_repair::Stripe;

/// What is in a store.
#[derive(Clone, Copy)]
pub struct Contents<'a> {
    pub stripes: &'a [Stripe<'a>],
    /// The files that are named as fragments and are of no stripe.
    pub alone: &'a [Alone],
    /// Whether a folder couldn't be listed that is there.
    pub has_unlisted: bool,
}

/// What a command did with the stripes of a store: of each stripe what became of it, and the counts over all.
#[derive(Drop)]
pub struct Results<'a> {
    pub site: &'a Site<'a>,
    pub stripes: &'a [Stripe<'a>],
    pub all: &'a [Done],
    /// The files that are named as fragments and are of no stripe.
    pub alone: &'a [Alone],
    /// What rows say of a fragment that was rebuilt, or would be.
    pub word: &'static str,
    pub totals: Totals,
}

/// What rows are of: a store that a command works on.
#[derive(Clone, Copy)]
pub struct RowSource<'a> {
    pub site: &'a Site<'a>,
    /// What rows say of a fragment that was rebuilt, or would be.
    pub word: &'static str,
}

impl<'a> Results<'a> {
    /// The results of a command over what is in a store, counted.
    pub fn new(
        alloc: Global,
        site: &'a Site<'a>,
        contents: Contents<'a>,
        all: &'a [Done],
        word: &'static str,
    ) -> Result<Results<'a>, AllocError> {
        let Contents {
            stripes,
            alone,
            has_unlisted,
        } = contents;
        let mut totals = totals_of(alloc, site, stripes, all)?;
        totals.device = totals.device || has_unlisted;
        Ok(Results {
            site,
            stripes,
            all,
            alone,
            word,
            totals,
        })
    }

    /// What rows are of.
    pub fn source(&self) -> RowSource<'a> {
        RowSource {
            site: self.site,
            word: self.word,
        }
    }
}
