//! What the lines of standard input ask for. gate/codes.py and gate/answers.py test what is shown.
use crate::code::{show_request, show_written};
use crate::field::{show_difference, show_elements, show_sums_of};
use crate::given::given_bytes;
use crate::plan::show_asked;
use crate::plan::trees::{show_copies, show_grafts};
use lrc_plan::RememberedPlans;
use std::process::Abort;
use std::str;
use std::thread::Threads;

/// Shows what a line asks for by its first word.
fn show_line<R: Abort + AllocGlobal + Print + Threads + Sync>(
    rt: &R,
    plans: &mut RememberedPlans,
    line: &str,
) {
    let (what, rest) = line.split_once(' ').unwrap_or(("", ""));
    let words = rest.split_whitespace();
    match what {
        "elements" => show_elements(rt, words),
        "sums" => show_sums_of(rt, words),
        "difference" => show_difference(rt, words),
        "written" => show_written(rt, rest),
        "request" => show_request(rt, rest),
        "copies" => show_copies(rt, words),
        "grafts" => show_grafts(rt, words),
        _ => show_asked(rt, plans, what, words),
    }
}

#[test]
fn shown_of_lines(rt: HostRuntime) {
    let bytes = given_bytes(&rt, rt.alloc(), rt.stdin());
    let mut plans = RememberedPlans::new(rt.alloc());
    for line in str::from_utf8(&bytes).unwrap_or("").lines() {
        show_line(&rt, &mut plans, line);
    }
}
