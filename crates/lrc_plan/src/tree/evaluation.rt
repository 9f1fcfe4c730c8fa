//! What a tree gives at each position of a request.
ghost use Rattle.std.specs.Prelude.{◌≡◌, ◌<◌, ℕ, true, false, length, IfOk};
ghost use Rattle.lrc_plan.specs.Form.{meaning};
ghost use Rattle.lrc_plan.specs.Tree.{form_of};
ghost use Rattle.lrc_plan.specs.Evaluation.{byte_at, CanEvaluate, IsValue};
ghost use Rattle.lrc_plan.specs.EvaluationParts.{AreWhole, AreZeros, IsScaledValue, IsValueAdded};

use crate::invariant::learn_invariant;
use crate::tree::Tree;
use lrc_code::Request;
use lrc_field::{Gf, scale_add_into};
use std::alloc::{AllocError, Allocator, Global};

/// The tree's value at each position of the request, in one vector of the request's length. The leaves are
/// survivors of the request.
pub fn evaluate<A: Allocator>(
    alloc: Global,
    tree: &Tree<A>,
    request: &Request,
) -> Result<Vec<u8>, AllocError>
    requires { CanEvaluate request.now (form_of tree.now) }
    ensures { IfOk result (λ v. IsValue request.now (form_of tree.now) v.items) }
{
    learn_invariant(request);
    evaluate_scaled(alloc, tree, Gf::new(1), request)
}

/// A factor times the tree's value at each position.
pub(crate) fn evaluate_scaled<A: Allocator>(
    alloc: Global,
    tree: &Tree<A>,
    factor: Gf,
    request: &Request,
) -> Result<Vec<u8>, AllocError>
    requires { CanEvaluate request.now (form_of tree.now) }
    ensures { IfOk result (λ v. IsScaledValue factor request.now (form_of tree.now) v.items) }
{
    let mut bytes = zeros(alloc, request.length() as usize)?;
    add_scaled(tree, factor, request, bytes.as_mut_slice());
    Ok(bytes)
}

/// So many bytes, all 00.
fn zeros(alloc: Global, len: usize) -> Result<Vec<u8>, AllocError>
    ensures len { IfOk result (λ v. length v.items ≡ len) }
    ensures zero { IfOk result (λ v. AreZeros v.items) }
{
    Vec::from_elem(alloc, 0u8, len)
}

/// Adds the tree's value, times a factor, at each position.
fn add_scaled<A: Allocator>(tree: &Tree<A>, factor: Gf, request: &Request, dst: &mut [u8])
    requires can { CanEvaluate request.now (form_of tree.now) }
    requires whole { AreWhole request.now }
    requires length { length dst.old ≡ request.now.len }
    ensures small { (i : ℕ) → i < length dst.old → meaning (byte_at request.now i) (form_of tree.now) < 256 }
    ensures sum { IsValueAdded factor request.now (form_of tree.now) dst.old dst.new }
{
    match tree {
        Tree::Leaf(place) => {
            if let Some(bytes) = request.bytes_at(*place) {
                scale_add_into(dst, factor, bytes);
            }
        }
        Tree::Scale(scalar, below) => add_scaled(below, factor.mul(*scalar), request, dst),
        Tree::Sum(left, right) => {
            add_scaled(left, factor, request, dst);
            add_scaled(right, factor, request, dst);
        }
    }
}
