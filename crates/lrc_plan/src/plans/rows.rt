//! The rows of a reduction.
ghost use Rattle.std.specs.Prelude.{◌≡◌, ◌≢◌, ◌<◌, ℕ, true, false, Some, MatchOption, slice_index};
ghost use Rattle.std.specs.Bool.{OnTrue};
ghost use Rattle.lrc_code.specs.declared.places.Place.{Place};
ghost use Rattle.lrc_code.specs.Places.{index_of, all_places};
ghost use Rattle.lrc_code.specs.Sets.{is_in};
ghost use Rattle.lrc_plan.specs.Rows.{coef_of, pivot_of, GiveTarget, HaveOtherLost};

use lrc_code::{Place, PlaceSet, Reduced};
use lrc_field::Gf;

/// The coefficients of a row.
pub(crate) fn row_of(reduced: &Reduced, row: usize) -> [Gf; 16]
    requires { row < 4 }
    ensures { (p : Place) → slice_index result (index_of p) ≡ coef_of reduced.now row p }
{
    reduced.row(row)
}

/// The row whose pivot the place is.
pub(crate) fn row_with_pivot(reduced: &Reduced, place: Place) -> Option<usize>
    ensures { MatchOption result
        ((r : ℕ) → r < 4 → pivot_of reduced.now r ≢ Some place)
        (λ r. (r < 4) × (pivot_of reduced.now r ≡ Some place)) }
{
    for row in 0..4usize {
        if reduced.pivot(row) == Some(place) {
            return Some(row);
        }
    }
    None
}

/// Whether the row is 00 at each lost place but the target, and so gives the target from survivors.
pub(crate) fn determines(
    row: &[Gf; 16],
    survivors: PlaceSet,
    target: Place,
    places: &[Place],
) -> bool
    requires { places.now ≡ all_places }
    ensures yes { OnTrue result (GiveTarget (is_in survivors) (λ p. slice_index row.now (index_of p)) target) }
    ensures no { result ≡ false → HaveOtherLost (is_in survivors) (λ p. slice_index row.now (index_of p)) target }
{
    for place in places {
        if row[place.index()].byte() != 0 && !survivors.has(*place) && *place != target {
            return false;
        }
    }
    true
}
