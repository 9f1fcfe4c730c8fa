//! Stripes of a store: what is under the names of their fragments.
ghost use Rattle.std.specs.Prelude.{◌≡◌, ◌≢◌, ◌&&◌, ◌<◌, ℕ, filter, not, true, false, IfOk, IfSome, IsSomeAnd, MatchOption};
ghost use Rattle.lrc_code.specs.declared.places.Place.{Place};
ghost use Rattle.lrc_code.specs.Code.{has_place};
ghost use Rattle.lrc_code.specs.Codes.{tables_of};
ghost use Rattle.lrc_code.specs.Places.{all_places, index_of};
ghost use Rattle.lrc_code.specs.Sets.{is_in};
ghost use Rattle.stores.specs.Stripes.{IsLengthOf, has_file, has_other_file};

use lrc_code::{Code, Place, PlaceSet};
use std::alloc::{AllocError, Global};

/// What is under the name of a fragment.
#[derive(Clone, Copy, Debug, PartialEq, Eq)]
pub enum Found {
    /// Nothing.
    Absent,
    /// A regular file, also by a link, of so many bytes.
    File { length: u64 },
    /// A link to nothing.
    Dangling,
    /// A folder, a FIFO, a socket or a device.
    Other,
    /// Something that can't be looked at; the number of the system's error, or 0.
    Unknown { code: i32 },
}

/// What is under the names of a stripe's fragments, by the places' indexes.
#[derive(Clone, Copy, Debug)]
pub struct StripeFiles {
    pub found: [Found; 16],
}

/// A stripe of a store.
#[derive(Clone, Copy)]
pub struct Stripe<'a> {
    pub name: &'a str,
    pub files: StripeFiles,
}

/// The place of an index.
pub fn nth_place(index: usize) -> Place
    requires { index < 16 }
    ensures { index_of result ≡ index }
{
    match Place::from_index(index) {
        Some(place) => place,
        None => Place::X0,
    }
}

/// Whether a length is the one before, if there is one.
pub fn is_in_common(common: Option<u64>, length: u64) -> bool
    ensures yes { result ≡ true → IfSome common (λ other. other ≡ length) }
    ensures no { result ≡ false → IsSomeAnd common (λ other. other ≢ length) }
{
    match common {
        Some(other) => other == length,
        None => true,
    }
}

impl Stripe<'_> {
    /// How many bytes each of the stripe's files has, as [`StripeFiles::length`], if memory can be as long.
    pub fn length(&self) -> Option<usize>
        ensures { MatchOption result ((len : ℕ) → ¬ IsLengthOf self.now.files.found len) (IsLengthOf self.now.files.found) }
    {
        usize::try_from(self.files.length()?).ok()
    }
}

impl StripeFiles {
    /// A stripe without files.
    pub fn new() -> StripeFiles {
        StripeFiles {
            found: [Found::Absent; 16],
        }
    }

    /// What is under the name of the fragment at a place.
    pub fn at(&self, place: Place) -> Found {
        self.found[place.index()]
    }

    /// How many bytes each of the stripe's files has; none where it has no files, or where these differ in length. How many bytes the
    /// stripe's fragments have then, [`stripe_length`](crate::stripe_length) says.
    pub fn length(&self) -> Option<u64>
        ensures { MatchOption result ((len : ℕ) → ¬ IsLengthOf self.now.found len) (IsLengthOf self.now.found) }
    {
        let mut common = None;
        for found in &self.found {
            if let Found::File { length } = *found {
                if !is_in_common(common, length) {
                    return None;
                }
                common = Some(length);
            }
        }
        common
    }

    /// Whether there is a file of so many bytes at a place.
    pub fn has(&self, place: Place, length: u64) -> bool
        ensures { result ≡ has_file self.now.found length place }
    {
        match self.found[place.index()] {
            Found::File { length: found } => found == length,
            _ => false,
        }
    }

    /// Whether there is a file at a place that has another number of bytes.
    pub fn has_other(&self, place: Place, length: u64) -> bool
        ensures { result ≡ has_other_file self.now.found length place }
    {
        let found = self.found[place.index()];
        match found {
            Found::File { length: other } => other != length,
            _ => false,
        }
    }

    /// The places of a code at which there is no file of so many bytes, in the order of their indexes.
    pub fn lost(&self, alloc: Global, code: Code, length: u64) -> Result<Vec<Place>, AllocError>
        ensures { IfOk result (λ v. v.items ≡ filter (λ p. has_place (tables_of code) p && not (has_file self.now.found length p))
            all_places) }
    {
        let mut lost = Vec::new(alloc);
        for index in 0..16 {
            let place = nth_place(index);
            if self.is_lost(code, place, length) {
                lost.push(place)?;
            }
        }
        Ok(lost)
    }

    /// Whether a place is the code's, and there is no file of so many bytes.
    fn is_lost(&self, code: Code, place: Place, length: u64) -> bool
        ensures { result ≡ (has_place (tables_of code) place && not (has_file self.now.found length place)) }
    {
        code.has(place) && !self.has(place, length)
    }

    /// The places of a code at which there are files of so many bytes.
    pub fn survivors(&self, code: Code, length: u64) -> PlaceSet
        ensures { (p : Place) → is_in result p ≡ (has_place (tables_of code) p && has_file self.now.found length p) }
    {
        let mut set = PlaceSet::empty();
        for index in 0..16 {
            let place = nth_place(index);
            if self.survives(code, place, length) {
                set = set.with(place);
            }
        }
        set
    }

    /// Whether a place is the code's, and there is a file of so many bytes.
    fn survives(&self, code: Code, place: Place, length: u64) -> bool
        ensures { result ≡ (has_place (tables_of code) place && has_file self.now.found length place) }
    {
        code.has(place) && self.has(place, length)
    }
}
