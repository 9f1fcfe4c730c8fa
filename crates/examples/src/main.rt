//! Runs the examples, each in a module of its own, and prints what they do.
#![tactic(auto)]

mod farm;
mod request;
mod store;

use std::process::ExitCode;

/// Shows each example in turn.
fn main(rt: HostRuntime) -> ExitCode {
    let shown = [
        request::show(&rt),
        farm::show(&rt, rt.alloc()),
        store::show(&rt),
    ];
    if shown.contains(&None) {
        ExitCode::FAILURE
    } else {
        ExitCode::SUCCESS
    }
}
