//! Rows of coefficients as sums of scaled fragments, which are made in one pass.
ghost use Rattle.std.specs.Prelude.{◌↔◌, ◌≡◌, ◌==◌, true, length, All, IfOk};
ghost use Rattle.std.specs.Bool.{IsTrue};
ghost use Rattle.std.specs.List.{list_all};
ghost use Rattle.lrc_code.specs.Requests.{AreSources};
ghost use Rattle.lrc_plan.specs.Terms.{AreRowSums, AreRowTerms, IsZeroRow};

use crate::invariant::learn_invariant;
use crate::solving::combining::combined;
use lrc_code::{Place, Request, Sources};
use lrc_field::{Gf, Term, no_terms, sums_are_zero, terms_in};
use std::alloc::{AllocError, Global};

/// The row's sum at each position.
pub(crate) fn row_sums(
    alloc: Global,
    row: &[Gf; 16],
    request: &Request,
    sources: &Sources<'_>,
) -> Result<Vec<u8>, AllocError>
    requires { AreSources request.now.survivors sources.now }
    ensures { IfOk result (λ v. AreRowSums request.now row.now v.items) }
{
    let length = request.length() as usize;
    let mut room = no_terms();
    let terms = row_terms(&mut room, row, request, sources);
    combined(alloc, length, terms)
}

/// Whether the row's sum is 00 at every position.
pub(crate) fn is_zero(row: &[Gf; 16], request: &Request, sources: &Sources<'_>) -> bool
    requires { AreSources request.now.survivors sources.now }
    ensures { IsTrue result ↔ IsZeroRow request.now row.now }
{
    if is_blank(row) {
        return true;
    }
    is_zero_sum(row, request, sources)
}

/// Whether all rows' sums are 00 at every position.
pub(crate) fn are_zero(rows: &[[Gf; 16]], request: &Request, sources: &Sources<'_>) -> bool
    requires { AreSources request.now.survivors sources.now }
    ensures { IsTrue result ↔ All (IsZeroRow request.now) rows.now }
{
    for row in rows {
        if !is_zero(row, request, sources) {
            return false;
        }
    }
    true
}

/// Whether the sum of a row that isn't blank is 00 at every position. A call of its own, since the room for its terms costs more than the
/// look at a blank row.
fn is_zero_sum(row: &[Gf; 16], request: &Request, sources: &Sources<'_>) -> bool
    requires { AreSources request.now.survivors sources.now }
    ensures { IsTrue result ↔ IsZeroRow request.now row.now }
{
    let length = request.length() as usize;
    let mut room = no_terms();
    let terms = row_terms(&mut room, row, request, sources);
    sums_are_zero(length, terms)
}

/// Whether all coefficients are 00, as where a row of a reduction has a pivot.
pub(crate) fn is_blank(row: &[Gf; 16]) -> bool
    ensures { result ≡ list_all (λ c. c == 0) row.now }
{
    row.iter().all(|c| c.byte() == 0)
}

/// The terms of a row's products with the survivors' bytes, at the start of the room.
fn row_terms<'s, 'a>(
    room: &'s mut [Term<'a>; 16],
    row: &[Gf; 16],
    request: &Request,
    sources: &Sources<'a>,
) -> &'s [Term<'a>]
    requires long { length room.old ≡ 16 }
    requires sources { AreSources request.now.survivors sources.now }
    ensures { AreRowTerms request.now row.now result.now }
{
    learn_invariant(request);
    terms_in(room, row, sources)
}
