//! Fragments of a stripe, which a request has of those that survive.
ghost use Rattle.std.specs.Prelude.{◌≡◌, ◌==◌, not, MatchOption, All, true, false, length};
ghost use Rattle.std.specs.List.{list_any, list_all};
ghost use Rattle.lrc_code.specs.declared.places.Place.{Place};
ghost use Rattle.lrc_code.specs.Places.{same_place};
ghost use Rattle.lrc_code.specs.Sets.{is_in};
ghost use Rattle.lrc_code.specs.Code.{AreBytes, has_place};
ghost use Rattle.lrc_code.specs.Codes.{tables_of};
ghost use Rattle.lrc_code.specs.Requests.{AreSources, is_among, is_repeated, has_other_length, bytes_of};
ghost use Rattle.lrc_code.specs.Survivors.{survivors_of};

use crate::codes::Code;
use crate::places::Place;
use crate::sets::PlaceSet;

/// A fragment of a stripe: a place, and the bytes there.
#[derive(Debug, Drop)]
pub struct Fragment {
    pub place: Place,
    pub bytes: Vec<u8>,
}

/// Bytes by the indexes of places, from x0 at 0 to y5 at 15.
pub type Sources<'a> = [&'a [u8]; 16];

/// Whether a fragment is at this place; what it says of requests `is_survivor` states.
fn is_among_places(place: Place, fragments: &[Fragment]) -> bool
    ensures { result ≡ list_any (λ f. same_place place f.place) fragments.now }
{
    fragments.iter().any(|f| place.index() == f.place.index())
}

/// Whether a survivor is at this place.
pub(crate) fn is_survivor(place: Place, fragments: &[Fragment]) -> bool
    ensures { result ≡ is_among place (survivors_of fragments.now) }
{
    is_among_places(place, fragments)
}

/// Whether one of the later fragments is at the place of the first.
fn is_among_later(first: &Fragment, later: &[Fragment]) -> bool
    ensures { result ≡ is_among first.now.place (survivors_of later.now) }
{
    is_survivor(first.place, later)
}

/// Whether two survivors are at one place. Goes at most sixteen fragments deep, since of seventeen two have one place.
pub(crate) fn has_repeated(fragments: &[Fragment]) -> bool
    ensures { result ≡ is_repeated (survivors_of fragments.now) }
{
    match fragments {
        [] => false,
        [first, later @ ..] => is_among_later(first, later) || has_repeated(later),
    }
}

/// Whether each fragment is at a place of the code; what it says of requests `has_all` states.
fn has_each(code: Code, fragments: &[Fragment]) -> bool
    ensures { result ≡ list_all (λ f. has_place (tables_of code) f.place) fragments.now }
{
    fragments.iter().all(|f| code.has(f.place))
}

/// Whether all survivors are at places of the code.
pub(crate) fn has_all(code: Code, fragments: &[Fragment]) -> bool
    ensures { result ≡ list_all (λ s. has_place (tables_of code) s.place) (survivors_of fragments.now) }
{
    has_each(code, fragments)
}

/// Whether a fragment has another length; what it says of requests `lacks_length` states.
fn any_other_length(long: u32, fragments: &[Fragment]) -> bool
    ensures { result ≡ list_any (λ f. not (length f.bytes.items == long)) fragments.now }
{
    fragments.iter().any(|f| f.bytes.len() != long as usize)
}

/// Whether a survivor has another length.
pub(crate) fn lacks_length(long: u32, fragments: &[Fragment]) -> bool
    ensures { result ≡ has_other_length long (survivors_of fragments.now) }
{
    any_other_length(long, fragments)
}

/// Lets a proof know that the items of a slice are bytes. Does nothing.
pub fn are_bytes(bytes: &[u8])
    ensures { AreBytes bytes.now }
{}

/// Fragments hold bytes.
pub(crate) fn fragments_are_bytes(fragments: &[Fragment])
    ensures { All (λ s. AreBytes s.bytes) (survivors_of fragments.now) }
{
    for fragment in fragments {
        are_bytes(fragment.bytes.as_slice());
    }
}

/// The places of the survivors.
pub(crate) fn places_of(fragments: &[Fragment]) -> PlaceSet
    ensures { (p : Place) → is_in result p ≡ is_among p (survivors_of fragments.now) }
{
    let mut set = PlaceSet::empty();
    for fragment in fragments {
        set = set.with(fragment.place);
    }
    set
}

/// The survivors' bytes by the indexes of their places.
pub(crate) fn sources_of(fragments: &[Fragment]) -> Sources<'_>
    ensures { AreSources (survivors_of fragments.now) result }
{
    let mut sources: Sources<'_> = [&[]; 16];
    let mut left = fragments.len();
    'fragments: while left > 0 {
        left -= 1;
        let fragment = &fragments[left];
        sources[fragment.place.index()] = fragment.bytes.as_slice();
    }
    sources
}

/// The bytes of the survivor at this place.
pub(crate) fn find_bytes(fragments: &[Fragment], place: Place) -> Option<&[u8]>
    ensures { MatchOption result (is_among place (survivors_of fragments.now) ≡ false)
        (λ b. (is_among place (survivors_of fragments.now) ≡ true) × (b.now ≡ bytes_of (survivors_of fragments.now) place)) }
{
    for fragment in fragments {
        if place.index() == fragment.place.index() {
            return Some(fragment.bytes.as_slice());
        }
    }
    None
}
