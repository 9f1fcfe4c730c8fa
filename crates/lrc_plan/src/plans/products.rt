//! The tree of a row of coefficients.
ghost use Rattle.std.specs.Prelude.{◌≡◌, ◌≢◌, ◌≤◌, ◌+◌, ℕ, max, length, true, IfOk, IfSome, IsSome, IsNone, ◌||◌, slice_index, All};
ghost use Rattle.std.specs.Option.{option_map};
ghost use Rattle.lrc_code.specs.declared.places.Place.{Place};
ghost use Rattle.lrc_code.specs.Sums.{GivesBytes};
ghost use Rattle.lrc_code.specs.Places.{index_of};
ghost use Rattle.lrc_field.specs.Field.{times};
ghost use Rattle.lrc_plan.specs.Form.{meaning, has_leaf, leaf_total, depth};
ghost use Rattle.lrc_plan.specs.Tree.{form_of};
ghost use Rattle.lrc_plan.specs.Sums.{MeansRow, MeansOneMore, some_leaf, some_depth, some_leaf_total, terms, from_first_term};

use crate::tree::Tree;
use lrc_code::Place;
use lrc_field::Gf;
use std::alloc::{AllocError, Allocator};

/// A scalar times a place's byte.
fn product<A: Allocator>(alloc: A, scalar: Gf, place: Place) -> Result<Tree<A>, AllocError>
    ensures value { IfOk result (λ t. (b : Place → ℕ) → GivesBytes b → meaning b (form_of t) ≡ times scalar (b place)) }
    ensures depth { IfOk result (λ t. depth (form_of t) ≤ 2) }
    ensures leaf { IfOk result (λ t. (p : Place) → has_leaf (form_of t) p ≡ true → p ≡ place) }
    ensures own { IfOk result (λ t. has_leaf (form_of t) place ≡ true) }
    ensures total { IfOk result (λ t. leaf_total (form_of t) ≡ 1) }
{
    let leaf = Tree::Leaf(place);
    if scalar.byte() == 1 {
        return Ok(leaf);
    }
    Ok(Tree::Scale(scalar, Box::new(alloc, leaf)?))
}

/// The places from the first on whose coefficient is not 00.
fn from_first_term<'a>(row: &[Gf; 16], places: &'a [Place]) -> &'a [Place]
    ensures { result.now ≡ from_first_term row.now places.now }
{
    match places {
        [] => places,
        [first, rest @ ..] => {
            if row[first.index()].byte() != 0 {
                return places;
            }
            from_first_term(row, rest)
        }
    }
}

/// The sum of a row's products over places, with no tree where all coefficients are 0.
pub(crate) fn row_tree<A: Allocator + Clone>(
    alloc: &A,
    row: &[Gf; 16],
    places: &[Place],
) -> Result<Option<Tree<A>>, AllocError>
    ensures value { IfOk result (λ o. MeansRow row.now places.now (option_map form_of o)) }
    ensures depth { IfOk result (λ o. some_depth (option_map form_of o) ≤ length places.now + 2) }
    ensures leaves { IfOk result (λ o. IfSome o (λ t.
        (p : Place) → has_leaf (form_of t) p ≡ true → slice_index row.now (index_of p) ≢ 0)) }
    ensures none { IfOk result (λ o. IsNone o → All (λ p. slice_index row.now (index_of p) ≡ 0) places.now) }
    ensures all { IfOk result (λ o. All (λ p.
        slice_index row.now (index_of p) ≢ 0 → some_leaf (option_map form_of o) p ≡ true) places.now) }
    ensures total { IfOk result (λ o. some_leaf_total (option_map form_of o) ≡ terms row.now places.now) }
{
    match from_first_term(row, places) {
        [] => Ok(None),
        [first, rest @ ..] => {
            let others = row_tree(alloc, row, rest)?;
            let own = product(alloc.clone()?, row[first.index()], *first)?;
            // A variable, since the proof names the facts of its tree by it.
            let sum = added(alloc, own, others)?;
            Ok(sum)
        }
    }
}

/// One term more before the others.
fn added<A: Allocator + Clone>(
    alloc: &A,
    own: Tree<A>,
    others: Option<Tree<A>>,
) -> Result<Option<Tree<A>>, AllocError>
    ensures value { IfOk result (λ o. MeansOneMore (form_of own) (option_map form_of others) (option_map form_of o)) }
    ensures depth { IfOk result (λ o. some_depth (option_map form_of o)
        ≤ max (depth (form_of own)) (some_depth (option_map form_of others)) + 1) }
    ensures leaves { IfOk result (λ o. IfSome o (λ t. (p : Place)
        → has_leaf (form_of t) p ≡ (has_leaf (form_of own) p || some_leaf (option_map form_of others) p))) }
    ensures some { IfOk result IsSome }
    ensures total { IfOk result (λ o. some_leaf_total (option_map form_of o)
        ≡ leaf_total (form_of own) + some_leaf_total (option_map form_of others)) }
{
    match others {
        None => Ok(Some(own)),
        Some(rest) => {
            let first = own.in_box(alloc)?;
            let second = rest.in_box(alloc)?;
            Ok(Some(Tree::Sum(first, second)))
        }
    }
}
