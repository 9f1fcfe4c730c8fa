//! Parities after a data fragment changed.
ghost use Rattle.std.specs.Prelude.{◌↔◌, ◌≡◌, ◌≢◌, ◌≤◌, true, false, length, map, MatchOption};
ghost use Rattle.std.specs.Bool.{IsTrue};
ghost use Rattle.lrc_field.specs.Field.{times};
ghost use Rattle.lrc_field.specs.Sums.{sums};
ghost use Rattle.lrc_code.specs.declared.places.Place.{Place};
ghost use Rattle.lrc_code.specs.declared.places.Place.TheVariants.{Px, Py, P0, P1};
ghost use Rattle.lrc_code.specs.declared.codes.Code.{Code};
ghost use Rattle.lrc_code.specs.Code.{has_place};
ghost use Rattle.lrc_code.specs.Codes.{tables_of};
ghost use Rattle.lrc_code.specs.Places.{index_of};
ghost use Rattle.lrc_code.specs.Reduction.{coefficient_at};
ghost use Rattle.lrc_c.specs.Updated.{is_parity, AreCoefficients, IsRoom, IsUpdate, IsUpdated};

use crate::arguments::code_numbered;
use crate::statuses::{BAD_ARGUMENT, DONE};
use lrc_code::{Code, Place};
use lrc_field::{Gf, scale_add_into};

/// Whether a place is a parity's.
fn is_parity(place: Place) -> bool
    ensures { result ≡ is_parity place }
{
    match place {
        Place::Px | Place::Py | Place::P0 | Place::P1 => true,
        _ => false,
    }
}

/// The code's data place of an index.
fn data_place(code: Code, index: u8) -> Option<Place>
    ensures { MatchOption result
        ((p : Place) → index_of p ≡ index → has_place (tables_of code) p ≡ true → is_parity p ≡ true)
        (λ p. (index_of p ≡ index) × (has_place (tables_of code) p ≡ true) × (is_parity p ≡ false)) }
{
    let place = Place::from_index(index as usize)?;
    if !code.has(place) {
        return None;
    }
    if is_parity(place) {
        return None;
    }
    Some(place)
}

/// Whether a parity's room has the length, or none.
fn is_room(room: usize, len: usize) -> bool
    ensures { IsTrue result ↔ IsRoom len room }
{
    room == len || room == 0
}

/// A place's coefficient in a row that has one for each of the first places; 00 where it is none of these.
fn coefficient_of(row: &[Gf], places: &[Place], place: Place) -> Gf
    requires { length row.now ≤ length places.now }
    ensures { result ≡ coefficient_at places.now row.now place }
{
    let mut sum = Gf::new(0);
    for i in 0..row.len() {
        if places[i].index() == place.index() {
            sum = sum.add(row[i]);
        }
    }
    sum
}

/// A data place's coefficients in the four parities.
#[derive(Clone, Copy)]
struct Coefficients {
    px: Gf,
    py: Gf,
    p0: Gf,
    p1: Gf,
}

/// The coefficients of a data fragment's place in the four parities of the code.
fn coefficients_of(code: Code, place: Place) -> Coefficients
    ensures { AreCoefficients (tables_of code) place result.px result.py result.p0 result.p1 }
{
    let places = code.places();
    let rows = code.parities();
    let count = code.data_count();
    Coefficients {
        px: coefficient_of(&rows.px[..count], places, place),
        py: coefficient_of(&rows.py[..count], places, place),
        p0: coefficient_of(&rows.p0[..count], places, place),
        p1: coefficient_of(&rows.p1[..count], places, place),
    }
}

/// Adds a coefficient times the difference to a parity that has its length.
fn update(coefficient: Gf, difference: &[u8], parity: &mut [u8])
    ensures given { length parity.old ≡ length difference.now
        → parity.new ≡ sums parity.old (map (times coefficient) difference.now) }
    ensures absent { length parity.old ≢ length difference.now → parity.new ≡ parity.old }
{
    if parity.len() != difference.len() {
        return;
    }
    if coefficient.byte() == 0 {
        return;
    }
    scale_add_into(parity, coefficient, difference);
}

/// Brings parities up to date after the fragment at a data place changed: adds to each the place's coefficient in it times the
/// difference, which is the sum of the fragment's bytes before and after. A parity without bytes is left alone. 0: done. 3: the number is
/// no code's, the index that of no data place of the code, or a parity has bytes and not as many as the difference; nothing
/// is written. The arguments are as many as `library/lrc.h` declares.
#[unsafe(no_mangle)]
pub extern "C" fn lrc_update_into(
    code: u8,
    place: u8,
    difference: &[u8],
    px: &mut [u8],
    py: &mut [u8],
    p0: &mut [u8],
    p1: &mut [u8],
) -> u32
    ensures done { (c : Code) (p : Place)
        → IsUpdate code place (length difference.now) (length px.old) (length py.old) (length p0.old) (length p1.old) c p
        → (result ≡ 0)
        × IsUpdated (tables_of c) p difference.now Px px.old px.new × IsUpdated (tables_of c) p difference.now Py py.old py.new
        × IsUpdated (tables_of c) p difference.now P0 p0.old p0.new × IsUpdated (tables_of c) p difference.now P1 p1.old p1.new }
    ensures refused { ((c : Code) (p : Place)
        → ¬ IsUpdate code place (length difference.now) (length px.old) (length py.old) (length p0.old) (length p1.old) c p)
        → (result ≡ 3) × (px.new ≡ px.old) × (py.new ≡ py.old) × (p0.new ≡ p0.old) × (p1.new ≡ p1.old) }
{
    let Some(own) = code_numbered(code) else {
        return BAD_ARGUMENT;
    };
    let Some(changed) = data_place(own, place) else {
        return BAD_ARGUMENT;
    };
    let len = difference.len();
    if !is_room(px.len(), len) {
        return BAD_ARGUMENT;
    }
    if !is_room(py.len(), len) {
        return BAD_ARGUMENT;
    }
    if !is_room(p0.len(), len) {
        return BAD_ARGUMENT;
    }
    if !is_room(p1.len(), len) {
        return BAD_ARGUMENT;
    }
    let coefficients = coefficients_of(own, changed);
    update(coefficients.px, difference, px);
    update(coefficients.py, difference, py);
    update(coefficients.p0, difference, p0);
    update(coefficients.p1, difference, p1);
    DONE
}
