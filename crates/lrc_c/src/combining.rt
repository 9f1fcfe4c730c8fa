//! Combinations of lent bytes with coefficients, as terms.
ghost use Rattle.std.specs.Prelude.{◌↔◌, ◌≡◌, ◌<◌, ◌≤◌, length};
ghost use Rattle.std.specs.Bool.{IsTrue};
ghost use Rattle.lrc_field.specs.Combined.{AreZeroBetween};
ghost use Rattle.lrc_field.specs.Terms.{HaveRoom};
ghost use Rattle.lrc_code.specs.Encoding.{IsParity};
ghost use Rattle.lrc_plan.specs.Stripes.{AreUsed, IsUsedAt};
ghost use Rattle.lrc_c.specs.Lent.{lent};
ghost use Rattle.lrc_c.specs.Combined.{IsWritten};

use crate::lent::Lent;
use lrc_field::{Gf, Term, combine_into, no_terms, sums_are_zero_between, terms_in};

/// Writes the combination of lent bytes with coefficients over the bytes. Lent bytes whose coefficient is not 00 have
/// their length.
pub(crate) fn combine(coefficients: &[Gf], at: &[Lent], out: &mut [u8])
    requires few { length coefficients.now ≤ 16 }
    requires used { AreUsed coefficients.now (lent at.now) (length out.old) }
    ensures { IsParity coefficients.now (lent at.now) (length out.old) out.new }
{
    let len = out.len();
    let mut room = no_terms();
    let terms = terms_in(&mut room, coefficients, at);
    write_window(terms, out, 0, len);
}

/// Whether lent bytes have the length where their coefficient isn't 00.
pub(crate) fn are_used(coefficients: &[Gf], at: &[Lent], len: usize) -> bool
    ensures { IsTrue result ↔ AreUsed coefficients.now (lent at.now) len }
{
    for k in 0..coefficients.len() {
        if !is_used_at(coefficients, at, k, len) {
            return false;
        }
    }
    true
}

/// Whether the bytes at an index have the length where their coefficient isn't 00.
fn is_used_at(coefficients: &[Gf], at: &[Lent], k: usize, len: usize) -> bool
    requires { k < length coefficients.now }
    ensures { IsTrue result ↔ IsUsedAt coefficients.now (lent at.now) len k }
{
    if coefficients[k].byte() == 0 {
        return true;
    }
    if k >= at.len() {
        return true;
    }
    at[k].bytes.len() == len
}

/// Writes the terms' sums over the bytes from index `from` on and below `to`.
pub(crate) fn write_window(terms: &[Term], out: &mut [u8], from: usize, to: usize)
    requires ready { HaveRoom (length out.old) terms.now }
    requires ordered { from ≤ to }
    requires inside { to ≤ length out.old }
    ensures len { length out.new ≡ length out.old }
    ensures sums { IsWritten terms.now out.old from → IsWritten terms.now out.new to }
{
    combine_into(&mut out[from..to], from, terms);
}

/// Whether the terms' sums are 00 at each position from `from` on and below `to`.
pub(crate) fn is_zero(terms: &[Term], len: usize, from: usize, to: usize) -> bool
    requires ready { HaveRoom len terms.now }
    requires inside { to ≤ len }
    ensures { IsTrue result ↔ AreZeroBetween from to terms.now }
{
    if terms.is_empty() {
        return true;
    }
    sums_are_zero_between(from, to, terms)
}
