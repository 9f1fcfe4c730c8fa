//! Plans as rows of coefficients, which take no memory.
ghost use Rattle.std.specs.Prelude.{◌≡◌, ◌<◌, true, false, not, IfSome, IsSomeAnd, MatchOption, Some, replicate};
ghost use Rattle.lrc_code.specs.declared.places.Place.{Place};
ghost use Rattle.lrc_code.specs.Code.{has_place};
ghost use Rattle.lrc_code.specs.Codes.{tables_of};
ghost use Rattle.lrc_code.specs.Reduction.{IsReduction};
ghost use Rattle.lrc_code.specs.Sets.{is_in};
ghost use Rattle.lrc_plan.specs.Rows.{coef_of, pivot_of};
ghost use Rattle.lrc_plan.specs.Planned.{ExtensionsDiffer, HasCheckCount, IsLocal};
ghost use Rattle.lrc_plan.specs.RowPlans.{AreCheckRows, IsCheckRow, IsGroupRow, IsRowPlan, IsValueRow, rows_with_terms};

use crate::plans::group_rows::{cut_row, local_row, other_parity};
use crate::plans::rows::{determines, row_of, row_with_pivot};
use lrc_code::{Code, Place, PlaceSet, Reduced, reduce_in};
use lrc_field::Gf;

/// How a lost fragment is rebuilt from survivors: coefficients by the places' indexes, 00 at places that don't survive. Where the others of
/// the target's group survive, the value reads these alone.
#[derive(Clone, Copy)]
pub struct RowPlan {
    /// What the survivors' bytes are multiplied with to give the target's byte; none where two stripes with the same
    /// survivors differ there.
    pub value: Option<[Gf; 16]>,
    /// What gives 00 at every position, in each row, exactly where the survivors are those of a stripe. A row of 00
    /// asks nothing.
    pub checks: [[Gf; 16]; 4],
}

/// The plan for a lost target of a code, which is one of its places, as `plan_in`. Takes no memory.
pub fn plan_rows(code: Code, survivors: PlaceSet, target: Place) -> RowPlan
    requires lost { is_in survivors target ≡ false }
    requires place { has_place (tables_of code) target ≡ true }
    ensures { IsRowPlan (tables_of code) (is_in survivors) target result.value result.checks }
{
    if let Some(plan) = plan_in_group(code, survivors, target) {
        return plan;
    }
    plan_by_reduction(code, survivors, target)
}

/// The plan from the equations solved for the lost places.
fn plan_by_reduction(code: Code, survivors: PlaceSet, target: Place) -> RowPlan
    requires lost { is_in survivors target ≡ false }
    requires place { has_place (tables_of code) target ≡ true }
    ensures { IsRowPlan (tables_of code) (is_in survivors) target result.value result.checks }
{
    let reduced = reduce_by_lost(code, survivors);
    rows_from(code, &reduced, survivors, target)
}

/// The equations of a code, reduced by the places that don't survive: what `value_from` and `checks_from` take, so that a caller with
/// several targets reduces once. Takes no memory.
pub fn reduce_by_lost(code: Code, survivors: PlaceSet) -> Reduced
    ensures { IsReduction (tables_of code) (λ p. not (is_in survivors p)) result }
{
    let lost = code.others(survivors);
    reduce_in(code, lost)
}

/// The plan of a repair inside the target's group that leaves no checks, where `row_in_group` gives its row.
fn plan_in_group(code: Code, survivors: PlaceSet, target: Place) -> Option<RowPlan>
    requires lost { is_in survivors target ≡ false }
    requires place { has_place (tables_of code) target ≡ true }
    ensures { IfSome result (λ plan. IsRowPlan (tables_of code) (is_in survivors) target plan.value plan.checks) }
{
    let row = row_in_group(code, survivors, target)?;
    Some(RowPlan {
        value: Some(row),
        checks: [[Gf::new(0); 16]; 4],
    })
}

/// The sum of the others of the target's group, where they survive, and the other group's parity and both global parities are lost.
/// There are no checks, since the equations can be solved for the four lost places, whatever the survivors hold.
fn row_in_group(code: Code, survivors: PlaceSet, target: Place) -> Option<[Gf; 16]>
    requires lost { is_in survivors target ≡ false }
    requires place { has_place (tables_of code) target ≡ true }
    ensures { IfSome result (λ row. IsRowPlan (tables_of code) (is_in survivors) target (Some row) (replicate 4 (replicate 16 0))) }
{
    let group = target.group()?;
    let lost = code.others(survivors);
    if !lost.has(other_parity(group)) || !lost.has(Place::P0) || !lost.has(Place::P1) {
        return None;
    }
    local_row(code, survivors, target)
}

/// Rows that give 00 at every position, all of them, exactly where the survivors are those of a stripe; survivors that
/// are not places of the code play no part. Takes no memory.
pub fn check_rows(code: Code, survivors: PlaceSet) -> [[Gf; 16]; 4]
    ensures { AreCheckRows (tables_of code) (is_in survivors) result }
{
    let reduced = reduce_by_lost(code, survivors);
    checks_from(code, &reduced, survivors)
}

/// The plan from a reduction by the lost places.
fn rows_from(code: Code, reduced: &Reduced, survivors: PlaceSet, target: Place) -> RowPlan
    requires lost { is_in survivors target ≡ false }
    requires place { has_place (tables_of code) target ≡ true }
    requires reduced { IsReduction (tables_of code) (λ p. not (is_in survivors p)) reduced.now }
    ensures { IsRowPlan (tables_of code) (is_in survivors) target result.value result.checks }
{
    RowPlan {
        value: value_from(code, reduced, survivors, target),
        checks: checks_from(code, reduced, survivors),
    }
}

/// The rows of `check_rows` from a reduction by the lost places.
pub fn checks_from(code: Code, reduced: &Reduced, survivors: PlaceSet) -> [[Gf; 16]; 4]
    requires { IsReduction (tables_of code) (λ p. not (is_in survivors p)) reduced.now }
    ensures checks { AreCheckRows (tables_of code) (is_in survivors) result }
    ensures count { HasCheckCount (tables_of code) (is_in survivors) (rows_with_terms result) }
{
    [
        check_row(reduced, 0),
        check_row(reduced, 1),
        check_row(reduced, 2),
        check_row(reduced, 3),
    ]
}

/// A row without a pivot, and 00 for another.
fn check_row(reduced: &Reduced, row: usize) -> [Gf; 16]
    requires { row < 4 }
    ensures { IsCheckRow (coef_of reduced.now) (pivot_of reduced.now) row result }
{
    if reduced.pivot(row).is_some() {
        return [Gf::new(0); 16];
    }
    row_of(reduced, row)
}

/// The value of `plan_rows` from a reduction by the lost places: from the equation of the target's group where the others survive, else
/// from the target's row of the reduction.
pub fn value_from(
    code: Code,
    reduced: &Reduced,
    survivors: PlaceSet,
    target: Place,
) -> Option<[Gf; 16]>
    requires place { has_place (tables_of code) target ≡ true }
    requires lost { is_in survivors target ≡ false }
    requires reduced { IsReduction (tables_of code) (λ p. not (is_in survivors p)) reduced.now }
    ensures value { MatchOption result
        (ExtensionsDiffer (tables_of code) (is_in survivors) target)
        (IsValueRow (tables_of code) (is_in survivors) target) }
    ensures local { IsLocal (tables_of code) (is_in survivors) target → IsSomeAnd result (IsGroupRow (tables_of code) target) }
{
    if let Some(row) = local_row(code, survivors, target) {
        return Some(row);
    }
    let Some(pivot_row) = row_with_pivot(reduced, target) else {
        return None;
    };
    let row = row_of(reduced, pivot_row);
    if !determines(&row, survivors, target, &Place::ALL) {
        return None;
    }
    Some(cut_row(code, row, survivors, target))
}
