//! Answers to requests.
ghost use Rattle.std.specs.Prelude.{◌↔◌, true, map, All, IfOk};
ghost use Rattle.std.specs.Bool.{IsTrue};
ghost use Rattle.lrc_code.specs.Codes.{tables_of};
ghost use Rattle.lrc_code.specs.Answers.{IsAnswer};
ghost use Rattle.lrc_code.specs.Requests.{AreSources, is_among};
ghost use Rattle.lrc_plan.specs.EvaluationParts.{IsZeroTree};
ghost use Rattle.lrc_plan.specs.Said.{IsSaid};
ghost use Rattle.lrc_plan.specs.Planned.{IsPlan, check_forms, value_form};
ghost use Rattle.lrc_plan.specs.Tree.{form_of};

mod combining;
pub(crate) mod terms;

use crate::invariant::learn_invariant;
use crate::plans::Plan;
use crate::plans::planning::plan_in;
use crate::solving::terms::{is_zero, row_sums};
use crate::tree::Tree;
use lrc_code::{Bytes, Outcome, Request, Sources};
use std::alloc::{AllocError, Allocator, Global};

/// The answer to a request over all stripes of its code: the target's bytes that every fitting stripe
/// has, or that no stripe fits, or that two fitting stripes differ at the target. The answer's bytes are in `alloc`, and the trees of the
/// request's plan are in `plan_alloc` until the answer is there.
///
/// ```
/// let outcome = solve(alloc, alloc, &request)?;
/// if let Outcome::Rebuilt(bytes) = &outcome {
///     assert_eq!(rt; bytes.as_slice(), b"\x01".as_slice());
/// }
/// ```
pub fn solve<A: Allocator + Clone>(
    alloc: Global,
    plan_alloc: A,
    request: &Request,
) -> Result<Outcome, AllocError>
    ensures { IfOk result (IsAnswer request.now) }
{
    learn_invariant(request);
    let plan = plan_in(
        plan_alloc,
        request.code(),
        request.survivors(),
        request.target(),
    )?;
    answer_by(alloc, &plan, request)
}

/// What a plan's trees say of a request: a contradiction where a check isn't 00 at every position, else the bytes that the value's tree
/// gives, or several where there is none. By a plan for the request's code, survivors and target it is the answer, as of `solve`. Each tree
/// is read once, the value's only where the checks are 00. The checks need no memory, and the value needs that of its bytes.
pub fn answer_by<A: Allocator>(
    alloc: Global,
    plan: &Plan<A>,
    request: &Request,
) -> Result<Outcome, AllocError>
    ensures said { IfOk result (IsSaid request.now (value_form plan.now) (check_forms plan.now)) }
    ensures answer { IsPlan (tables_of request.now.code) (λ p. is_among p request.now.survivors) request.now.target
        (value_form plan.now) (check_forms plan.now) → IfOk result (IsAnswer request.now) }
{
    learn_invariant(request);
    let sources = request.sources();
    let possible = are_zero_trees(plan.checks.as_slice(), request, &sources);
    if !possible {
        return Ok(Outcome::Contradiction);
    }
    match &plan.value {
        Some(tree) => {
            let row = tree.coefficients();
            let bytes = row_sums(alloc, &row, request, &sources)?;
            Ok(Outcome::Rebuilt(Bytes::new(bytes)))
        }
        None => Ok(Outcome::Several),
    }
}

/// Whether all trees mean 00 at every position.
fn are_zero_trees<A: Allocator>(trees: &[Tree<A>], request: &Request, sources: &Sources<'_>) -> bool
    requires { AreSources request.now.survivors sources.now }
    ensures { IsTrue result ↔ All (λ t. IsZeroTree request.now (form_of t)) trees.now }
{
    for tree in trees {
        if !is_zero_tree(tree, request, sources) {
            return false;
        }
    }
    true
}

/// Whether a tree means 00 at every position.
fn is_zero_tree<A: Allocator>(tree: &Tree<A>, request: &Request, sources: &Sources<'_>) -> bool
    requires { AreSources request.now.survivors sources.now }
    ensures { IsTrue result ↔ IsZeroTree request.now (form_of tree.now) }
{
    learn_invariant(request);
    let row = tree.coefficients();
    is_zero(&row, request, sources)
}
