//! Evaluation with both branches of a sum at once.
ghost use Rattle.std.specs.Prelude.{IfOk};
ghost use Rattle.std.specs.Thread.{IsSync};
ghost use Rattle.lrc_plan.specs.Evaluation.{CanEvaluate, IsValue};
ghost use Rattle.lrc_plan.specs.EvaluationParts.{IsScaledValue};
ghost use Rattle.lrc_plan.specs.Tree.{form_of};

use crate::invariant::learn_invariant;
use crate::tree::Tree;
use crate::tree::evaluation::evaluate_scaled;
use lrc_code::Request;
use lrc_field::{Gf, add_into};
use std::alloc::{AllocError, Allocator, Global};
use std::thread::{Threads, join};

/// The bytes of `evaluate`, under the same condition. At a sum with forks above 0 both branches go to `thread::join`, each with one fork
/// less; forks above 4 count as 4. Where no thread can be started the branches follow one another.
pub fn evaluate_both<R: Threads + Sync, A: Allocator + Sync>(
    rt: &R,
    alloc: Global,
    tree: &Tree<A>,
    request: &Request,
    forks: u8,
) -> Result<Vec<u8>, AllocError>
    requires { CanEvaluate request.now (form_of tree.now) }
    ensures { IfOk result (λ v. IsValue request.now (form_of tree.now) v.items) }
{
    learn_invariant(request);
    evaluate_forked(rt, alloc, tree, Gf::new(1), request, forks.min(4))
}

/// A factor times the tree's value, each branch of a sum in a vector of its own while forks are left.
fn evaluate_forked<R: Threads + Sync, A: Allocator + Sync>(
    rt: &R,
    alloc: Global,
    tree: &Tree<A>,
    factor: Gf,
    request: &Request,
    forks: u8,
) -> Result<Vec<u8>, AllocError>
    requires { CanEvaluate request.now (form_of tree.now) }
    ensures { IfOk result (λ v. IsScaledValue factor request.now (form_of tree.now) v.items) }
{
    if forks == 0 {
        return evaluate_scaled(alloc, tree, factor, request);
    }
    match tree {
        Tree::Leaf(_) => evaluate_scaled(alloc, tree, factor, request),
        Tree::Scale(scalar, below) => evaluate_forked(
            rt,
            alloc,
            below,
            factor.mul(*scalar),
            request,
            forks,
        ),
        Tree::Sum(left, right) => {
            let fewer = forks - 1;
            let (first, second) = join(
                rt,
                || -> Result<Vec<u8>, AllocError>
                    requires { IsSync R.row × IsSync A.row × CanEvaluate request.now (form_of left.now.value) }
                    ensures { IfOk result (λ v.
                        IsScaledValue factor request.entry.now (form_of left.entry.now.value) v.items) }
                { evaluate_forked(rt, alloc, left, factor, request, fewer) },
                || -> Result<Vec<u8>, AllocError>
                    requires { IsSync R.row × IsSync A.row × CanEvaluate request.now (form_of right.now.value) }
                    ensures { IfOk result (λ v.
                        IsScaledValue factor request.entry.now (form_of right.entry.now.value) v.items) }
                { evaluate_forked(rt, alloc, right, factor, request, fewer) },
            );
            let mut sum = first?;
            let second = second?;
            add_into(sum.as_mut_slice(), second.as_slice());
            Ok(sum)
        }
    }
}
