//! The stripes of a store: which names are those of one, and what is of none.
ghost use Rattle.std.specs.Prelude.{◌↔◌, ◌≡◌, ◌++◌, IfOk, IsTrue, OnOk, map, string_bytes, true};
ghost use Rattle.std.specs.List.{list_all};
ghost use Rattle.store_listing.specs.Names.{at_places, named};
ghost use Rattle.store_listing.specs.Stripes.{AreDescriptionsOf, IsDescriptionOf, IsOfDescribed, IsOwn, Settles, alone_places, at_place};
ghost use Rattle.store_listing.specs.Stripes.{is_alone, is_short, is_stripe};
ghost use Rattle.store_listing.specs.Votes.{is_there};

use crate::votes::{are_stripe, is_found};
use lrc_code::{Code, Place};
use std::alloc::{AllocError, Global};
use std::collections::{BTreeMap, BTreeSet};
use store_names::{Pattern, described_stripe, is_description_name, last_of};
use store_records::MOST_BYTES;
use stores::{Found, StripeFiles, nth_place};

/// What is under the names of a stripe's fragments, if nothing is.
pub(crate) const NO_FILES: StripeFiles = StripeFiles {
    found: [Found::Absent; 16],
};

/// A file that is named as a fragment, and is of no stripe: it has no other fragment beside it, or the code hasn't its place.
#[derive(Drop)]
pub struct Alone {
    pub stripe: String,
    pub place: Place,
}

/// The stripes of a store.
pub struct StoreStripes {
    /// What is under the names of each stripe's fragments.
    pub files: BTreeMap<String, StripeFiles>,
    /// Those of which there is a description, or should be one.
    pub described: BTreeSet<String>,
    /// What is of no stripe.
    pub alone: Vec<Alone>,
}

impl Drop for StoreStripes {
    fn drop(self) {
        let StoreStripes {
            files: _,
            described: _,
            alone: _,
        } = self;
    }
}

impl StoreStripes {
    /// Whether the files of a name are descriptions of stripes, and no stripe of their own.
    fn describes(
        &self,
        alloc: Global,
        pattern: &Pattern<'_>,
        code: Code,
        name: &str,
        files: &StripeFiles,
    ) -> Result<bool, AllocError>
        ensures { IfOk result (λ are. IsTrue are
            → AreDescriptionsOf self.now.described MOST_BYTES pattern.now code name.now files.now.found) }
    {
        if !are_short(files) {
            return Ok(false);
        }
        for index in 0..16 {
            let place = nth_place(index);
            if !self.is_description(alloc, pattern, code, name, files, place)? {
                return Ok(false);
            }
        }
        Ok(true)
    }

    /// Whether there is nothing at a place, or the fragment's name is that of a description of a stripe which is described.
    fn is_description(
        &self,
        alloc: Global,
        pattern: &Pattern<'_>,
        code: Code,
        name: &str,
        files: &StripeFiles,
        place: Place,
    ) -> Result<bool, AllocError>
        ensures { IfOk result (λ is. IsTrue is → is_there (at_place files.now.found place) ≡ true
            → IsDescriptionOf self.now.described pattern.now code name.now place) }
    {
        if !is_found(files, place) {
            return Ok(true);
        }
        let Some(file) = pattern.name_of(alloc, code, name, place)? else {
            return Ok(false);
        };
        if !is_description_name(alloc, pattern, code, file.as_str())? {
            return Ok(false);
        }
        Ok(self.is_described_by(file.as_str()))
    }

    /// Whether a name in the store is that of a description, by its last part, of a stripe which is described.
    fn is_described_by(&self, name: &str) -> bool
        ensures { IsTrue result ↔ IsOfDescribed self.now.described name.now }
    {
        match described_stripe(last_of(name)) {
            Some(stripe) => self.described.contains(stripe),
            None => false,
        }
    }

    /// Takes the files of each name for those of a stripe, for its descriptions, or each for one that is alone.
    pub(crate) fn settle_all(
        &mut self,
        alloc: Global,
        pattern: &Pattern<'_>,
        code: Code,
        files: BTreeMap<String, StripeFiles>,
        expected: &BTreeSet<String>,
    ) -> Result<(), AllocError> {
        for (name, found) in files {
            if !self.describes(alloc, pattern, code, name.as_str(), &found)? {
                let is_expected = expected.contains(name.as_str());
                self.settle(alloc, code, name, found, is_expected)?;
            }
        }
        Ok(())
    }

    /// Adds the stripes that are expected and of which nothing is there.
    pub(crate) fn add_expected(&mut self, expected: BTreeSet<String>) -> Result<(), AllocError> {
        for name in expected {
            if !self.files.contains_key(name.as_str()) {
                self.files.insert(name, NO_FILES)?;
            }
        }
        Ok(())
    }

    /// Takes those stripes for described of which it was doubtful whether a file is of theirs.
    pub(crate) fn add_doubtful(&mut self, doubtful: BTreeSet<String>) -> Result<(), AllocError> {
        for name in doubtful {
            if self.files.contains_key(name.as_str()) {
                self.described.insert(name)?;
            }
        }
        Ok(())
    }

    /// Notes the places at which something is that is no fragment.
    pub(crate) fn block(&mut self, blocked: Vec<Alone>) {
        for Alone { stripe, place } in blocked {
            if let Some(files) = self.files.get_mut(stripe.as_str()) {
                files.found[place.index()] = Found::Other;
            }
        }
    }

    /// Takes the files of a name for those of a stripe, or each for one that is alone.
    fn settle(
        &mut self,
        alloc: Global,
        code: Code,
        name: String,
        found: StripeFiles,
        is_expected: bool,
    ) -> Result<(), AllocError>
        ensures files { OnOk result (Settles (is_stripe is_expected code found.found) code (string_bytes name) found.found
            self.old.files self.new.files) }
        ensures alone { OnOk result (map named self.new.alone.items ≡ map named self.old.alone.items
            ++ at_places (string_bytes name) (alone_places (is_stripe is_expected code found.found) code found.found)) }
        ensures described { self.new.described ≡ self.old.described }
    {
        let is_stripe = is_stripe(&found, code, is_expected);
        self.leave_alone(alloc, code, name.as_str(), &found, is_stripe)?;
        let own = own_of(&found, code);
        if !is_stripe {
            return Ok(());
        }
        self.files.insert(name, own)?;
        Ok(())
    }

    /// Takes each of the files of a name for one that is alone, but those that are a stripe's own.
    fn leave_alone(
        &mut self,
        alloc: Global,
        code: Code,
        name: &str,
        files: &StripeFiles,
        is_stripe: bool,
    ) -> Result<(), AllocError>
        ensures alone { OnOk result (map named self.new.alone.items ≡ map named self.old.alone.items
            ++ at_places name.now (alone_places is_stripe code files.now.found)) }
        ensures files { self.new.files ≡ self.old.files }
        ensures described { self.new.described ≡ self.old.described }
    {
        for index in 0..16 {
            let place = nth_place(index);
            if is_alone(files, code, is_stripe, place) {
                let stripe = String::from_str(alloc, name)?;
                self.alone.push(Alone { stripe, place })?;
            }
        }
        Ok(())
    }
}

/// Whether none of some files is longer than a description.
fn are_short(files: &StripeFiles) -> bool
    ensures { result ≡ list_all (is_short MOST_BYTES) files.now.found }
{
    files.found.iter().all(|found| is_short(*found))
}

/// Whether what was found is no file that is longer than a description.
fn is_short(found: Found) -> bool
    ensures { result ≡ is_short MOST_BYTES found }
{
    match found {
        Found::File { length } => length <= MOST_BYTES,
        _ => true,
    }
}

/// Whether files make a stripe of a code, as those of one that is expected do, whatever is there.
fn is_stripe(files: &StripeFiles, code: Code, is_expected: bool) -> bool
    ensures { result ≡ is_stripe is_expected code files.now.found }
{
    is_expected || are_stripe(files, code)
}

/// Whether there is something at a place that is none of a stripe of a code.
fn is_alone(files: &StripeFiles, code: Code, is_stripe: bool, place: Place) -> bool
    ensures { result ≡ is_alone is_stripe code files.now.found place }
{
    is_found(files, place) && !(is_stripe && code.has(place))
}

/// What of files is at a code's places. A stripe has none at a place of another code, whose length would be taken for one of its own.
fn own_of(files: &StripeFiles, code: Code) -> StripeFiles
    ensures { IsOwn code files.now.found result.found }
{
    let mut own = *files;
    for index in 0..16 {
        if !code.has(nth_place(index)) {
            own.found[index] = Found::Absent;
        }
    }
    own
}
