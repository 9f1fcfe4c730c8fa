//! Which lost fragments are rebuilt right though two of the survivors are damaged.
ghost use Rattle.std.specs.Prelude.{◌≡◌, ◌≤◌, true, false};
ghost use Rattle.lrc_code.specs.declared.places.Place.{Place};
ghost use Rattle.lrc_code.specs.Code.{has_place};
ghost use Rattle.lrc_code.specs.Codes.{tables_of};
ghost use Rattle.lrc_code.specs.Places.{index_of};
ghost use Rattle.lrc_code.specs.Sets.{is_in};
ghost use Rattle.lrc_plan.specs.Planned.{ExtensionsDiffer};
ghost use Rattle.store_repair.specs.Damage.{IsDetermined, without};
ghost use Rattle.store_repair.specs.Losses.{IsCovered, IsOpenToTwo, IsRightDespiteTwo};

use crate::damage::without;
use crate::losses::determine;
use lrc_code::{Code, Place, PlaceSet};
use stores::nth_place;

/// Whether a lost fragment is covered: without any two of the survivors the others determine it. So it is rebuilt right, from survivors
/// that belong together, though two of them are damaged. Where one fragment of a stripe is lost, or one of each group, parities among
/// them, each of these is covered. Where others are lost, none is: two survivors may be damaged so that they belong together with the
/// others, and give other fragments.
pub fn is_covered(code: Code, survivors: PlaceSet, place: Place) -> bool
    ensures covered { result ≡ true → IsCovered code (is_in survivors) place }
    ensures right { result ≡ true → IsRightDespiteTwo code (is_in survivors) place }
    ensures open { result ≡ false → has_place (tables_of code) place ≡ true → is_in survivors place ≡ false
        → IsOpenToTwo code (is_in survivors) place }
{
    for index in 0..16 {
        let left = without(code, survivors, nth_place(index));
        if !is_covered_beside(code, left, index, place) {
            return false;
        }
    }
    true
}

/// Whether a fragment is determined without any one of the places from an index on.
fn is_covered_beside(code: Code, left: PlaceSet, from: usize, place: Place) -> bool
    requires { from ≤ 16 }
    ensures yes { result ≡ true → (f : Place) → from ≤ index_of f → IsDetermined code (without code (is_in left) f) place }
    ensures no { result ≡ false → has_place (tables_of code) place ≡ true → is_in left place ≡ false
        → (f : Place) × ExtensionsDiffer (tables_of code) (without code (is_in left) f) place }
{
    for index in from..16 {
        let fewer = without(code, left, nth_place(index));
        if !determine(code, fewer, place) {
            return false;
        }
    }
    true
}
