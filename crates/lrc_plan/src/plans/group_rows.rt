//! The equation of a target's group as the row of its value.
ghost use Rattle.std.specs.Prelude.{◌≡◌, false, true, MatchOption, slice_index};
ghost use Rattle.lrc_code.specs.declared.places.Place.{Place};
ghost use Rattle.lrc_code.specs.Code.{has_place};
ghost use Rattle.lrc_code.specs.Codes.{tables_of};
ghost use Rattle.lrc_code.specs.Places.{index_of};
ghost use Rattle.lrc_code.specs.Sets.{is_in};
ghost use Rattle.lrc_plan.specs.Planned.{IsLocal};
ghost use Rattle.lrc_plan.specs.PlanParts.{IsTargetRow, cut, other_parity as other_parity_of};
ghost use Rattle.lrc_plan.specs.RowPlans.{IsGroupRow, IsValueRow};

use crate::plans::rows::determines;
use lrc_code::{Code, Group, Place, PlaceSet};
use lrc_field::Gf;

/// The local parity of the other group.
pub(crate) fn other_parity(group: Group) -> Place
    ensures { result ≡ other_parity_of group }
{
    match group {
        Group::X => Place::Py,
        Group::Y => Place::Px,
    }
}

/// The equation of the target's group without the target, where all others of the group survive.
pub(crate) fn local_row(code: Code, survivors: PlaceSet, target: Place) -> Option<[Gf; 16]>
    requires lost { is_in survivors target ≡ false }
    requires place { has_place (tables_of code) target ≡ true }
    ensures { MatchOption result
        (¬ IsLocal (tables_of code) (is_in survivors) target)
        (λ row. IsValueRow (tables_of code) (is_in survivors) target row × IsGroupRow (tables_of code) target row) }
{
    let row = code.group_row(target.group()?);
    if determines(&row, survivors, target, &Place::ALL) {
        return Some(cut_row(code, row, survivors, target));
    }
    None
}

/// A row that determines the target, without the target's own coefficient.
pub(crate) fn cut_row(code: Code, row: [Gf; 16], survivors: PlaceSet, target: Place) -> [Gf; 16]
    requires lost { is_in survivors target ≡ false }
    requires row { IsTargetRow (tables_of code) (is_in survivors) target (λ p. slice_index row (index_of p)) }
    ensures value { IsValueRow (tables_of code) (is_in survivors) target result }
    ensures cut { (p : Place) → slice_index result (index_of p) ≡ cut (λ q. slice_index row (index_of q)) target p }
{
    let mut coefficients = row;
    coefficients[target.index()] = Gf::new(0);
    coefficients
}
