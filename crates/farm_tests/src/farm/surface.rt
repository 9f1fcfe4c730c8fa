//! Each name that callers of `farm_core` are promised, at this crate: one that moves, or a variant or a field more, doesn't compile.
//! The other functions, types, faults and limits are named elsewhere in these tests, each with all its fields or all its variants.
use crate::farm::asserting::assert_holds;
use farm_core::{Job, SettingsFault};
use lrc_code::Request;

/// The slot, the number and the request of a job that isn't to stop.
fn parts_of_job<'a>(job: Job<'a>) -> Option<(usize, u64, &'a Request)> {
    match job {
        Job::Solve {
            rack,
            number,
            request,
        } => Some((rack, number, request)),
        Job::Stop => None,
    }
}

fn number_of_setting(fault: SettingsFault) -> u8 {
    match fault {
        SettingsFault::BadWorkers => 11,
        SettingsFault::BadQueue => 12,
    }
}

#[test]
fn a_stop_and_a_fault_are_at_this_crate(rt: HostRuntime) {
    let stops = parts_of_job(Job::Stop).is_none();
    assert_holds(&rt, stops, "a stop", "it is no stop");
    let fault = number_of_setting(SettingsFault::BadWorkers);
    assert_holds(&rt, fault == 11, "no workers", "another fault");
}
