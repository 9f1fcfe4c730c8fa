//! The nodes of `lrc_plan`'s trees and the fields of its plans: there are no others. Its calls, and what a refused graft gives back, are
//! named in the tests beside.
use crate::assertions::assert_so;
use lrc_code::Place;
use lrc_plan::{Plan, Tree};
use std::alloc::Global;

/// A leaf's place; none of other nodes.
fn place_of(tree: &Tree<Global>) -> Option<Place> {
    match tree {
        Tree::Leaf(place) => Some(*place),
        Tree::Scale(_scalar, _below) => None,
        Tree::Sum(_left, _right) => None,
    }
}

/// The place of a plan's value and the number of its checks.
fn parts_of(Plan { value, checks }: &Plan<Global>) -> (Option<Place>, usize) {
    let place = match value {
        Some(tree) => place_of(tree),
        None => None,
    };
    (place, checks.len())
}

#[test]
fn trees_and_plans_have_their_names(rt: HostRuntime) {
    let plan = Plan {
        value: Some(Tree::Leaf(Place::X1)),
        checks: Vec::new(rt.alloc()),
    };
    assert_so(&rt, parts_of(&plan) == (Some(Place::X1), 0));
}
