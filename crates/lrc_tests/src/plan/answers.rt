//! Answers to requests, by plans in the heap, by plans in an arena and by remembered ones.
use super::shown::show_outcome;
use bumpalo::Bump;
use lrc_code::{Outcome, Request};
use lrc_plan::{RememberedPlans, solve};
use std::alloc::AllocError;
use std::process::Abort;

fn show_given(rt: &(impl Abort + Print), outcome: Result<Outcome, AllocError>) {
    show_outcome(rt, outcome.expect(rt, "an answer"));
}

/// Shows the answer by a plan in the heap, by one in an arena, and by plans that remember those of the requests before it, the second time
/// by one that is remembered. The program answers by more plans than are remembered in gate/reference-lines.sh.
pub fn show_answers(
    rt: &(impl Abort + AllocGlobal + Print),
    plans: &mut RememberedPlans,
    request: &Request,
) {
    show_given(rt, solve(rt.alloc(), rt.alloc(), request));
    show_given(rt, solve(rt.alloc(), &Bump::new(rt.alloc()), request));
    show_given(rt, plans.solve(rt.alloc(), request));
    show_given(rt, plans.solve(rt.alloc(), request));
}
