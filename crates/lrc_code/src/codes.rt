//! The codes, and what is known of each. No other file of the crate asks which code it has.
ghost use Rattle.std.specs.Prelude.{◌≡◌, ◌∷◌, [], ◌++◌, ◌&&◌, not, replicate, Some};
ghost use Rattle.lrc_code.specs.declared.places.Place.{Place};
ghost use Rattle.lrc_code.specs.Code.{has_place};
ghost use Rattle.lrc_code.specs.Codes.{code_named, code_text, data_count, padded_parities_of, tables_of};
ghost use Rattle.lrc_code.specs.Groups.{group_row};
ghost use Rattle.lrc_code.specs.Reduction.{rows_by_index};
ghost use Rattle.lrc_code.specs.Sets.{is_in};
ghost use Rattle.lrc_code.specs.Text.{place_named};

use crate::places::{Group, Place};
use crate::sets::PlaceSet;
use crate::tables::{
    NARROW_COUNT, NARROW_EQUATIONS, NARROW_PARITIES, WIDE_EQUATIONS, WIDE_PARITIES, WIDE_PLACES,
};
use lrc_field::Gf;

/// A code of Huang et al. (section 2).
#[derive(Clone, Copy, Debug, PartialEq, Eq)]
pub enum Code {
    /// (6,2,2): six data fragments in two groups.
    Narrow,
    /// (12,2,2): twelve data fragments in two groups.
    Wide,
}

/// The coefficients of a code's data fragments, in its order, in each parity, with 00 after those of the last fragment.
#[derive(Clone, Copy)]
pub struct ParityRows {
    pub px: [Gf; 12],
    pub py: [Gf; 12],
    pub p0: [Gf; 12],
    pub p1: [Gf; 12],
}

impl Code {
    /// The code of lists, lines and reports that name none.
    pub const UNNAMED: Code = Code::Narrow;

    /// The code of this name, `6-2-2` or `12-2-2`, of bytes that need not be text.
    pub fn parse(name: &[u8]) -> Option<Code>
        ensures { result ≡ code_named name.now }
    {
        match name {
            b"6-2-2" => Some(Code::Narrow),
            b"12-2-2" => Some(Code::Wide),
            _ => None,
        }
    }

    /// The name.
    pub fn text(self) -> &'static str
        ensures { result.now ≡ code_text self }
    {
        match self {
            Code::Narrow => "6-2-2",
            Code::Wide => "12-2-2",
        }
    }

    /// The code's places, in the order of its tables.
    pub fn places(self) -> &'static [Place]
        ensures { result.now ≡ (tables_of self).places }
    {
        match self {
            Code::Narrow => &Place::ALL[..NARROW_COUNT],
            Code::Wide => &WIDE_PLACES,
        }
    }

    /// How many data fragments the code has. Their places come first in its order.
    pub fn data_count(self) -> usize
        ensures { result ≡ data_count self }
    {
        match self {
            Code::Narrow => 6,
            Code::Wide => 12,
        }
    }

    /// The coefficients of the code's parities.
    pub fn parities(self) -> ParityRows
        ensures { (result.px ∷ result.py ∷ result.p0 ∷ result.p1 ∷ []) ≡ padded_parities_of self }
    {
        match self {
            Code::Narrow => ParityRows {
                px: padded(&NARROW_PARITIES[0]),
                py: padded(&NARROW_PARITIES[1]),
                p0: padded(&NARROW_PARITIES[2]),
                p1: padded(&NARROW_PARITIES[3]),
            },
            Code::Wide => ParityRows {
                px: elements_of_twelve(&WIDE_PARITIES[0]),
                py: elements_of_twelve(&WIDE_PARITIES[1]),
                p0: elements_of_twelve(&WIDE_PARITIES[2]),
                p1: elements_of_twelve(&WIDE_PARITIES[3]),
            },
        }
    }

    /// The coefficients of the code's equations, by the places' indexes.
    pub(crate) fn equations(self) -> &'static [[u8; 16]; 4]
        ensures { result.now ≡ rows_by_index (tables_of self) }
    {
        match self {
            Code::Narrow => &NARROW_EQUATIONS,
            Code::Wide => &WIDE_EQUATIONS,
        }
    }

    /// The equation of a group: 01 at its places in the code, 00 elsewhere, by the places' indexes.
    pub fn group_row(self, group: Group) -> [Gf; 16]
        ensures { result ≡ group_row (tables_of self) (Some group) }
    {
        let [of_x, of_y, _, _] = self.equations();
        match group {
            Group::X => elements_of(of_x),
            Group::Y => elements_of(of_y),
        }
    }

    /// Whether the place is one of the code's.
    pub fn has(self, place: Place) -> bool
        ensures { result ≡ has_place (tables_of self) place }
    {
        match self {
            Code::Narrow => place.index() < NARROW_COUNT,
            Code::Wide => true,
        }
    }

    /// The code's places that are not in the set.
    pub fn others(self, set: PlaceSet) -> PlaceSet
        ensures { (p : Place) → is_in result p ≡ (has_place (tables_of self) p && not (is_in set p)) }
    {
        match self {
            Code::Narrow => set.others(),
            Code::Wide => set.complement(),
        }
    }

    /// The code's place of this name, of bytes that need not be text.
    pub fn named(self, name: &[u8]) -> Option<Place>
        ensures { result ≡ place_named (tables_of self) name.now }
    {
        let place = Place::named(name)?;
        if self.has(place) { Some(place) } else { None }
    }
}

/// A row of coefficients as elements of the field.
pub(crate) fn elements_of(row: &[u8; 16]) -> [Gf; 16]
    ensures { result ≡ row.now }
{
    row.map(|c| Gf::new(c))
}

/// Twelve coefficients as elements of the field.
fn elements_of_twelve(row: &[u8; 12]) -> [Gf; 12]
    ensures { result ≡ row.now }
{
    row.map(|c| Gf::new(c))
}

/// Six coefficients as elements of the field, with 00 after them.
fn padded(row: &[u8; 6]) -> [Gf; 12]
    ensures { result ≡ row.now ++ replicate 6 0 }
{
    [
        Gf::new(row[0]),
        Gf::new(row[1]),
        Gf::new(row[2]),
        Gf::new(row[3]),
        Gf::new(row[4]),
        Gf::new(row[5]),
        Gf::new(0),
        Gf::new(0),
        Gf::new(0),
        Gf::new(0),
        Gf::new(0),
        Gf::new(0),
    ]
}
