//! Trees, plans and outcomes as text.
use lrc_code::Outcome;
use lrc_plan::{Plan, Tree};
use std::alloc::Allocator;

/// Shows the nodes of a tree, each before those below it: a place; `*` and a scalar; `+` for a sum.
pub fn show_tree<A: Allocator>(rt: &impl Print, tree: &Tree<A>) {
    match tree {
        Tree::Leaf(place) => {
            let _ = print!(rt; " {}", place.name());
        }
        Tree::Scale(scalar, below) => {
            let _ = print!(rt; " * {}", scalar.byte());
            show_tree(rt, below);
        }
        Tree::Sum(left, right) => {
            let _ = print!(rt; " +");
            show_tree(rt, left);
            show_tree(rt, right);
        }
    }
}

/// Shows a plan: its checks, and its value, with the number of its leaves, if there is one.
pub fn show_plan<A: Allocator>(rt: &impl Print, plan: &Plan<A>) {
    for check in &plan.checks {
        let _ = print!(rt; " check");
        show_tree(rt, check);
    }
    if let Some(value) = &plan.value {
        let _ = print!(rt; " value {} {:?}", value.leaf_count(), value.leaves());
        show_tree(rt, value);
    }
}

/// Shows an outcome, and how many bytes its vector has room for.
pub fn show_outcome(rt: &impl Print, outcome: Outcome) {
    let _ = match outcome {
        Outcome::Rebuilt(bytes) => {
            let bytes = bytes.into_vec();
            println!(rt; "rebuilt {} {bytes:?}", bytes.capacity())
        }
        Outcome::Contradiction => println!(rt; "contradiction"),
        Outcome::Several => println!(rt; "several"),
    };
}
