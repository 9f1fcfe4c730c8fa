//! Plans of requests, in the heap and in an arena, by the call that names a code and by the other.
use super::shown::show_plan;
use bumpalo::Bump;
use lrc_code::{Code, Request};
use lrc_plan::{Plan, plan, plan_in};
use std::alloc::{AllocError, Allocator};
use std::process::Abort;

/// The plan of a request: that of the (6,2,2) code by the call that names no code, if so asked. Where the target survives or isn't in the
/// code, there is an error too.
pub fn plan_of<A: Allocator + Copy>(
    alloc: A,
    is_named: bool,
    request: &Request,
) -> Result<Plan<A>, AllocError> {
    let code = request.code();
    let survivors = request.survivors();
    let target = request.target();
    if survivors.has(target) || !code.has(target) {
        return Err(AllocError);
    }
    match code {
        Code::Narrow if !is_named => plan(alloc, survivors, target),
        _ => plan_in(alloc, code, survivors, target),
    }
}

/// Shows the plans that are made there, by both calls.
fn show_plans<A: Allocator + Copy>(rt: &(impl Abort + Print), alloc: A, request: &Request) {
    for is_named in [false, true] {
        show_plan(rt, &plan_of(alloc, is_named, request).expect(rt, "a plan"));
        let _ = print!(rt; "\n");
    }
}

/// Shows them of the heap and of an arena.
pub fn show_all_plans(rt: &(impl Abort + AllocGlobal + Print), request: &Request) {
    show_plans(rt, rt.alloc(), request);
    show_plans(rt, &Bump::new(rt.alloc()), request);
}
