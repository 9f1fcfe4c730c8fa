//! Plans and answers in heaps of few bytes: the allocations after those that a heap has room for are refused.
use super::plans::plan_of;
use super::shown::{show_outcome, show_plan};
use crate::assertions::given;
use linked_list_allocator::LocalHeap;
use lrc_code::Request;
use lrc_plan::solve;
use std::alloc::AllocError;
use std::process::Abort;

/// A heap of so many bytes.
pub fn heap_of(rt: &(impl Abort + AllocGlobal), size: usize) -> LocalHeap {
    given(rt, LocalHeap::new(rt.alloc(), size))
}

/// Shows a request's plan in this heap, or that the memory is refused.
fn show_planned(rt: &impl Print, heap: &LocalHeap, request: &Request) {
    match plan_of(heap, true, request) {
        Ok(plan) => show_plan(rt, &plan),
        Err(AllocError) => {
            let _ = print!(rt; " refused");
        }
    }
    let _ = print!(rt; "\n");
}

/// Shows the answer, whose plan is made in this heap, or that the memory is refused.
fn show_solved(rt: &(impl AllocGlobal + Print), heap: &LocalHeap, request: &Request) {
    match solve(rt.alloc(), heap, request) {
        Ok(outcome) => show_outcome(rt, outcome),
        Err(AllocError) => {
            let _ = println!(rt; "refused");
        }
    }
}

/// Shows the plan and the answer, each in a heap of so many bytes.
pub fn show_in_heaps(rt: &(impl Abort + AllocGlobal + Print), size: usize, request: &Request) {
    show_planned(rt, &heap_of(rt, size), request);
    show_solved(rt, &heap_of(rt, size), request);
}
