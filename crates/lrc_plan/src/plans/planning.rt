//! Plans as trees, which are made of a plan's rows.
ghost use Rattle.std.specs.Prelude.{◌≡◌, ◌++◌, ◌∷◌, [], ℕ, List, false, true, map, IfOk, IfSome, OnOk, All, vec_len};
ghost use Rattle.std.specs.Option.{option_map};
ghost use Rattle.lrc_code.specs.declared.places.Place.{Place};
ghost use Rattle.lrc_code.specs.Sets.{is_in};
ghost use Rattle.lrc_code.specs.Code.{narrow, has_place};
ghost use Rattle.lrc_code.specs.Codes.{tables_of};
ghost use Rattle.lrc_plan.specs.Planned.{value_form, check_forms, IsPlan, IsShallow, HasCheckCount};
ghost use Rattle.lrc_plan.specs.RowTrees.{AreRowTrees, IsRowTree, IsValueTree};
ghost use Rattle.lrc_plan.specs.Tree.{form_of};

use crate::plans::Plan;
use crate::plans::products::row_tree;
use crate::plans::row_plans::plan_rows;
use crate::solving::terms::is_blank;
use crate::tree::Tree;
use lrc_code::{Code, Place, PlaceSet};
use lrc_field::Gf;
use std::alloc::{AllocError, Allocator};

/// The plan for a lost target of the (6,2,2) code, as `plan_in`.
pub fn plan<A: Allocator + Clone>(
    alloc: A,
    survivors: PlaceSet,
    target: Place,
) -> Result<Plan<A>, AllocError>
    requires lost { is_in survivors target ≡ false }
    requires place { has_place narrow target ≡ true }
    ensures plan { IfOk result (λ r. IsPlan narrow (is_in survivors) target (value_form r) (check_forms r)) }
    ensures shallow { IfOk result (λ r. IfSome (value_form r) IsShallow × All IsShallow (check_forms r)) }
    ensures count { IfOk result (λ r. HasCheckCount narrow (is_in survivors) (vec_len r.checks)) }
{
    plan_in(alloc, Code::Narrow, survivors, target)
}

/// The plan for a lost target of a code, which is one of its places; survivors that are not play no part (Huang et al., section 2). Its
/// trees are those of the rows of `plan_rows`. Where the others of the target's group survive, three or six, the value is their sum; else
/// it comes from the row of the reduced equations that has its pivot at the target. All survivors count in the checks: there is one
/// for each reduced row without a pivot.
pub fn plan_in<A: Allocator + Clone>(
    alloc: A,
    code: Code,
    survivors: PlaceSet,
    target: Place,
) -> Result<Plan<A>, AllocError>
    requires lost { is_in survivors target ≡ false }
    requires place { has_place (tables_of code) target ≡ true }
    ensures plan { IfOk result (λ r. IsPlan (tables_of code) (is_in survivors) target (value_form r) (check_forms r)) }
    ensures shallow { IfOk result (λ r. IfSome (value_form r) IsShallow × All IsShallow (check_forms r)) }
    ensures count { IfOk result (λ r. HasCheckCount (tables_of code) (is_in survivors) (vec_len r.checks)) }
{
    let rows = plan_rows(code, survivors, target);
    let checks = check_trees(&alloc, &rows.checks)?;
    let value = value_tree(&alloc, &rows.value)?;
    Ok(Plan { value, checks })
}

/// The tree of the value's row, where there is one.
fn value_tree<A: Allocator + Clone>(
    alloc: &A,
    row: &Option<[Gf; 16]>,
) -> Result<Option<Tree<A>>, AllocError>
    ensures { IfOk result (λ o. IsValueTree row.now (option_map form_of o)) }
{
    match row {
        Some(row) => tree_of(alloc, row),
        None => Ok(None),
    }
}

/// The trees of the rows that aren't 00 everywhere.
fn check_trees<A: Allocator + Clone>(
    alloc: &A,
    rows: &[[Gf; 16]; 4],
) -> Result<Vec<Tree<A>, A>, AllocError>
    ensures { IfOk result (λ v. AreRowTrees rows.now (map form_of v.items)) }
{
    let count = rows.iter().filter(|row| !is_blank(row)).count();
    let mut checks = Vec::with_capacity(alloc.clone()?, count)?;
    for row in rows {
        push_tree(alloc, row, &mut checks)?;
    }
    Ok(checks)
}

/// Adds the tree of a row, unless the row is 00 everywhere.
fn push_tree<A: Allocator + Clone>(
    alloc: &A,
    row: &[Gf; 16],
    checks: &mut Vec<Tree<A>, A>,
) -> Result<(), AllocError>
    ensures { OnOk result ((rows : List (List ℕ)) → AreRowTrees rows (map form_of checks.old.items)
        → AreRowTrees (rows ++ row.now ∷ []) (map form_of checks.new.items)) }
{
    if let Some(tree) = tree_of(alloc, row)? {
        checks.push(tree)?;
    }
    Ok(())
}

/// The tree of a row over all places; none where the row is 00 everywhere.
fn tree_of<A: Allocator + Clone>(alloc: &A, row: &[Gf; 16]) -> Result<Option<Tree<A>>, AllocError>
    ensures { IfOk result (λ o. IsRowTree row.now (option_map form_of o)) }
{
    // A variable, since the proof names the facts of its tree by it.
    let tree = row_tree(alloc, row, &Place::ALL)?;
    Ok(tree)
}
