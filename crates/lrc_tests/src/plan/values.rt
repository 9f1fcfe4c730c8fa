//! Values of plans, evaluated in one thread and in several.
ghost use Rattle.lrc_plan.specs.Evaluation.{CanEvaluate};
ghost use Rattle.lrc_plan.specs.Tree.{form_of};

use crate::assertions::given;
use lrc_code::Request;
use lrc_plan::{Tree, evaluate, evaluate_both, plan_in};
use std::alloc::Global;
use std::process::Abort;
use std::thread::Threads;

/// Shows how many leaves a tree has, and the bytes that it gives without forks and with so many.
fn show_value<R: Abort + AllocGlobal + Print + Threads + Sync>(
    rt: &R,
    tree: &Tree<Global>,
    request: &Request,
    forks: u8,
)
    requires { CanEvaluate request.now (form_of tree.now) }
{
    let bytes = given(rt, evaluate(rt.alloc(), tree, request));
    let both = given(rt, evaluate_both(rt, rt.alloc(), tree, request, forks));
    let _ = println!(rt; "{} {bytes:?} {both:?}", tree.leaf_count());
}

/// Shows it of a copy of a tree.
fn show_copy<R: Abort + AllocGlobal + Print + Threads + Sync>(
    rt: &R,
    tree: &Tree<Global>,
    request: &Request,
    forks: u8,
)
    requires { CanEvaluate request.now (form_of tree.now) }
{
    let copy = given(rt, tree.copy_in(rt.alloc()));
    show_value(rt, &copy, request, forks);
}

/// Shows it of the value of a request's plan, if there is one. A script refuses memory and threads to this, and counts the threads.
pub fn show_value_of<R: Abort + AllocGlobal + Print + Threads + Sync>(
    rt: &R,
    request: &Request,
    forks: u8,
) {
    if request.survivors().has(request.target()) || !request.code().has(request.target()) {
        return;
    }
    let plan = given(
        rt,
        plan_in(
            rt.alloc(),
            request.code(),
            request.survivors(),
            request.target(),
        ),
    );
    if let Some(tree) = &plan.value {
        show_copy(rt, tree, request, forks);
    }
}
