//! What C passes: numbers for codes and places, bits for sets, and the test that all survivors have one length.
ghost use Rattle.std.specs.Prelude.{◌↔◌, ◌≡◌, ◌<◌, ◌==◌, true, false, MatchOption};
ghost use Rattle.std.specs.Bool.{IsTrue};
ghost use Rattle.std.specs.Int.{bit_at};
ghost use Rattle.lrc_code.specs.declared.places.Place.{Place};
ghost use Rattle.lrc_code.specs.declared.codes.Code.{Code};
ghost use Rattle.lrc_code.specs.Places.{index_of};
ghost use Rattle.lrc_code.specs.Sets.{is_in};
ghost use Rattle.lrc_c.specs.Lent.{lent};
ghost use Rattle.lrc_plan.specs.Stripes.{is_whole_at, AreWhole};
ghost use Rattle.lrc_c.specs.Arguments.{code_numbered, is_set, IsLost};

use crate::lent::Lent;
use lrc_code::{Code, Place, PlaceSet};

/// The code of a number: 0 is the (6,2,2) code, 1 the (12,2,2) code.
pub(crate) fn code_numbered(number: u8) -> Option<Code>
    ensures { result ≡ code_numbered number }
{
    match number {
        0 => Some(Code::Narrow),
        1 => Some(Code::Wide),
        _ => None,
    }
}

/// The place of an index.
pub(crate) fn place_at(i: usize) -> Place
    requires { i < 16 }
    ensures { index_of result ≡ i }
{
    Place::from_index(i).unwrap()
}

/// Whether a bit is set.
fn has_bit(mask: u32, i: usize) -> bool
    requires { i < 16 }
    ensures { result ≡ (bit_at mask i == 1) }
{
    (mask >> i) & 1 == 1
}

/// The places whose bits are set: bit i is that of the place of index i. Higher bits play no part.
pub(crate) fn set_of(mask: u32) -> PlaceSet
    ensures { (p : Place) → is_in result p ≡ is_set mask p }
{
    let mut set = PlaceSet::empty();
    for i in 0..16usize {
        if has_bit(mask, i) {
            set = set.with(place_at(i));
        }
    }
    set
}

/// The bits of a set's places.
pub(crate) fn bits_of(set: PlaceSet) -> u32
    ensures bits { (p : Place) → is_set result p ≡ is_in set p }
    ensures below { result < 65536 }
{
    let mut bits = 0u16;
    for i in 0..16usize {
        if set.has(place_at(i)) {
            bits |= 1 << i;
        }
    }
    u32::from(bits)
}

/// Whether a place, if it is in the set, is one of the code's and has so many bytes.
fn is_whole_at(code: Code, set: PlaceSet, at: &[Lent; 16], len: usize, place: Place) -> bool
    ensures { result ≡ is_whole_at code (is_in set) (lent at.now) len place }
{
    !set.has(place) || (code.has(place) && at[place.index()].bytes.len() == len)
}

/// Whether each place in the set is one of the code's and has so many bytes.
pub(crate) fn are_whole(code: Code, set: PlaceSet, at: &[Lent; 16], len: usize) -> bool
    ensures { IsTrue result ↔ AreWhole code (is_in set) (lent at.now) len }
{
    for i in 0..16usize {
        if !is_whole_at(code, set, at, len, place_at(i)) {
            return false;
        }
    }
    true
}

/// A code and one of its places, which is lost.
#[derive(Clone, Copy)]
pub(crate) struct Lost {
    pub(crate) code: Code,
    pub(crate) place: Place,
}

/// The code of a number and its place of an index, which is none of the survivors'.
pub(crate) fn lost_place(number: u8, survivors: u32, target: u8) -> Option<Lost>
    ensures { MatchOption result ((c : Code) (p : Place) → ¬ IsLost number survivors target c p)
        (λ a. IsLost number survivors target a.code a.place) }
{
    let Some(code) = code_numbered(number) else {
        return None;
    };
    let Some(place) = Place::from_index(target as usize) else {
        return None;
    };
    if !code.has(place) {
        return None;
    }
    if set_of(survivors).has(place) {
        return None;
    }
    Some(Lost { code, place })
}
