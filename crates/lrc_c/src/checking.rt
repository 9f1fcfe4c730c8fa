//! The checks of survivors, and what is written beside them in one pass.
ghost use Rattle.std.specs.Prelude.{◌↔◌, ◌≡◌, true, false, length, All, ◌⊎◌};
ghost use Rattle.std.specs.Bool.{IsTrue};
ghost use Rattle.lrc_code.specs.declared.codes.Code.{Code};
ghost use Rattle.lrc_code.specs.Code.{AreBytes};
ghost use Rattle.lrc_code.specs.Codes.{tables_of};
ghost use Rattle.lrc_code.specs.Sets.{is_in};
ghost use Rattle.lrc_plan.specs.Stripes.{AreWhole, at_place, AreUsed, AreZeroRows, IsContradiction, IsPossible};
ghost use Rattle.lrc_c.specs.Arguments.{is_set, IsSurveyed};
ghost use Rattle.lrc_c.specs.Lent.{lent};
ghost use Rattle.lrc_c.specs.Windows.{AreRooms, AreWritten};

use crate::arguments::{are_whole, code_numbered, set_of};
use crate::lent::Lent;
use crate::statuses::{BAD_ARGUMENT, CONTRADICTION, DONE};
use crate::windows::{Checks, Couple, Wants, write_checked};
use lrc_code::{Code, PlaceSet, are_bytes};
use lrc_field::{Gf, no_terms, terms_in};
use lrc_plan::check_rows;

/// Four rows of coefficients, and the lent bytes of which they are to give 00: those whose coefficient isn't 00 have the length.
#[derive(Clone, Copy)]
pub(crate) struct CheckRows<'s, 'a> {
    pub(crate) rows: [[Gf; 16]; 4],
    pub(crate) at: &'s [Lent<'a>; 16],
    pub(crate) len: usize,
}

/// Tests whether the rows' combinations are 00 at every position, and writes what is wanted, in one pass. Where some combination isn't 00
/// the rooms are written up to some position, and the answer is false. A room in which nothing is wanted is empty; one fragment alone is
/// written by `write_value`.
pub(crate) fn write_if_zero(
    checks: &CheckRows,
    wants: &Wants,
    a: &mut [u8],
    b: &mut [u8],
    c: &mut [u8],
    d: &mut [u8],
) -> bool
    requires used { All (λ row. AreUsed row (lent checks.now.at.now) checks.now.len) checks.now.rows }
    requires rooms { AreRooms checks.now.len wants.now (length a.old) (length b.old) (length c.old) (length d.old) }
    ensures zero { result ≡ true → AreZeroRows checks.now.rows (lent checks.now.at.now) checks.now.len }
    ensures written { result ≡ true → AreWritten wants.now checks.now.len a.new b.new c.new d.new }
    ensures no { result ≡ false → ¬ AreZeroRows checks.now.rows (lent checks.now.at.now) checks.now.len }
{
    let at = checks.at;
    let rows = checks.rows;
    let mut first_room = no_terms();
    let mut second_room = no_terms();
    let mut third_room = no_terms();
    let mut fourth_room = no_terms();
    let checked = Checks {
        len: checks.len,
        first: terms_in(&mut first_room, &rows[0], at),
        second: terms_in(&mut second_room, &rows[1], at),
        third: terms_in(&mut third_room, &rows[2], at),
        fourth: terms_in(&mut fourth_room, &rows[3], at),
    };
    write_checked(&checked, wants, a, b, c, d)
}

/// Whether the bytes at the places of a set are those of a stripe.
fn is_possible(code: Code, set: PlaceSet, at: &[Lent; 16], len: usize) -> bool
    requires { AreWhole code (is_in set) (lent at.now) len }
    ensures yes { result ≡ true → IsPossible (tables_of code) (is_in set) (at_place (lent at.now)) len }
    ensures no { result ≡ false → IsContradiction (tables_of code) (is_in set) (at_place (lent at.now)) len }
{
    learn_sixteen(at);
    let rows = check_rows(code, set);
    are_zero(&CheckRows { rows, at, len })
}

/// Whether the rows' combinations are 00 at every position.
pub(crate) fn are_zero(checks: &CheckRows) -> bool
    requires { All (λ row. AreUsed row (lent checks.now.at.now) checks.now.len) checks.now.rows }
    ensures { IsTrue result ↔ AreZeroRows checks.now.rows (lent checks.now.at.now) checks.now.len }
{
    let nothing = Wants {
        front: Couple::nothing(),
        back: Couple::nothing(),
    };
    write_if_zero(checks, &nothing, &mut [], &mut [], &mut [], &mut [])
}

/// Lent bytes are bytes: the prover learns it of each only where code goes over them. Does nothing.
pub(crate) fn learn_lent_bytes(at: &[Lent])
    ensures { All AreBytes (lent at.now) }
{
    for one in at {
        are_bytes(one.bytes);
    }
}

/// Sixteen slices of bytes: the prover learns it from a contract alone. Does nothing.
pub(crate) fn learn_sixteen(at: &[Lent; 16])
    ensures bytes { All AreBytes (lent at.now) }
    ensures count { length (lent at.now) ≡ 16 }
{
    learn_lent_bytes(at);
}

/// Tests the survivors, whose bits are set; their bytes are in `at` by the places' indexes, and have the length. 0:
/// they are those of a stripe. 1: they are not. 3: the arguments are not of that kind.
#[unsafe(no_mangle)]
pub extern "C" fn lrc_verify_at(code: u8, survivors: u32, at: &[Lent; 16], len: usize) -> u32
    ensures answer { (c : Code) → IsSurveyed code survivors (lent at.now) len c
        → ((result ≡ 0) × IsPossible (tables_of c) (is_set survivors) (at_place (lent at.now)) len)
        ⊎ ((result ≡ 1) × IsContradiction (tables_of c) (is_set survivors) (at_place (lent at.now)) len) }
    ensures refused { ((c : Code) → ¬ IsSurveyed code survivors (lent at.now) len c) → result ≡ 3 }
{
    let Some(own) = code_numbered(code) else {
        return BAD_ARGUMENT;
    };
    let set = set_of(survivors);
    if !are_whole(own, set, at, len) {
        return BAD_ARGUMENT;
    }
    if is_possible(own, set, at, len) {
        DONE
    } else {
        CONTRADICTION
    }
}
