//! Trees, plans and answers, in the heap, in an arena and in heaps of few bytes.
mod answers;
mod heaps;
mod plans;
mod shown;
pub mod trees;
mod values;

use crate::given::{number, request_of};
use lrc_plan::RememberedPlans;
use std::process::Abort;
use std::str::SplitWhitespace;
use std::thread::Threads;

/// Shows of a request what is asked for. Given are a number, of bytes or of forks, and the request.
pub fn show_asked<R: Abort + AllocGlobal + Print + Threads + Sync>(
    rt: &R,
    plans: &mut RememberedPlans,
    what: &str,
    mut words: SplitWhitespace<'_>,
) {
    let number = number(&mut words);
    let request = request_of(rt, "a", words).expect(rt, "a request");
    match what {
        "answers" => answers::show_answers(rt, plans, &request),
        "plans" => plans::show_all_plans(rt, &request),
        "value" => values::show_value_of(rt, &request, number.min(255) as u8),
        _ => heaps::show_in_heaps(rt, number, &request),
    }
}
