//! Runs of the farm, each a row of a table: what is asked, with what settings, and what has to come of it.
use crate::farm::asserting::assert_holds;
use crate::farm::fed::{ByFeed, are_all_allowed, feeds_of};
use crate::farm::holding::{Hold, Holding};
use crate::farm::requests::{
    Entry, GLOBAL, LOCAL, SEVERAL, STRIPES, are_answers, list_of, racks_of,
};
use farm_core::{NoPause, Pause, RackList, Settings, run, run_feeds};
use std::alloc::Global;
use std::process::Abort;
use std::sync::Wait;
use std::thread::Threads;

/// What is asked of a run, and what it has to answer.
#[derive(Clone, Copy)]
pub(crate) enum Asked {
    /// Racks of one list each, and the answers of each rack, each as `shown` gives it.
    Lists(&'static [&'static [Entry]], &'static [&'static [u16]]),
    /// Racks of several feeds, and the answers that each rack may have.
    Feeds(&'static [&'static [&'static [Entry]]], &'static [ByFeed]),
}

/// A run.
pub(crate) struct Run {
    /// What it shows.
    pub(crate) name: &'static str,
    pub(crate) asked: Asked,
    /// How many workers there are, and how many jobs the queue holds.
    pub(crate) settings: (usize, usize),
    /// Which calls of the pause hold, if there is one.
    pub(crate) hold: Option<Hold>,
    /// How often it is made.
    pub(crate) times: usize,
}

/// Whether racks of one list each are answered so.
fn are_lists_answered<R: Abort + Threads + Wait + Sync, P: Pause>(
    rt: &R,
    alloc: Global,
    lists: &[&[Entry]],
    settings: Settings,
    pause: &P,
    wanted: &[&[u16]],
) -> bool {
    let racks = racks_of(rt, alloc, lists);
    let answers = run(rt, alloc, &racks, settings, pause).expect(rt, "answers");
    are_answers(answers.as_slice(), wanted)
}

/// Whether racks of several feeds get answers that are allowed.
fn are_feeds_answered<R: Abort + Threads + Wait + Sync, P: Pause>(
    rt: &R,
    alloc: Global,
    racks: &[&[&[Entry]]],
    settings: Settings,
    pause: &P,
    allowed: &[ByFeed],
) -> bool {
    let feeds = feeds_of(rt, alloc, racks);
    let answers = run_feeds(rt, alloc, &feeds, settings, pause).expect(rt, "answers");
    are_all_allowed(racks.len(), answers.as_slice(), allowed)
}

/// Whether a run gives the answers that it must.
pub(crate) fn is_answered<R: Abort + Threads + Wait + Sync, P: Pause>(
    rt: &R,
    alloc: Global,
    asked: Asked,
    (workers, queue): (usize, usize),
    pause: &P,
) -> bool {
    let settings = Settings::new(workers, queue).expect(rt, "settings");
    match asked {
        Asked::Lists(lists, wanted) => {
            are_lists_answered(rt, alloc, lists, settings, pause, wanted)
        }
        Asked::Feeds(racks, allowed) => {
            are_feeds_answered(rt, alloc, racks, settings, pause, allowed)
        }
    }
}

/// Asserts that a run with a pause that holds gives the answers that it must, and that no call is held in vain.
fn assert_held<R: Abort + Threads + Wait + Sync>(rt: &R, alloc: Global, run: &Run, hold: Hold) {
    let pause = Holding::new(hold);
    let answered = is_answered(rt, alloc, run.asked, run.settings, &pause);
    assert_holds(rt, pause.held(), run.name, "a call was held in vain");
    assert_holds(rt, answered, run.name, "other answers");
}

/// Asserts that each of these runs gives what it must.
pub(crate) fn assert_runs<R: Abort + Threads + Wait + Sync>(rt: &R, alloc: Global, runs: &[Run]) {
    for run in runs {
        for _ in 0..run.times {
            match run.hold {
                Some(hold) => assert_held(rt, alloc, run, hold),
                None => {
                    let answered = is_answered(rt, alloc, run.asked, run.settings, &NoPause);
                    assert_holds(rt, answered, run.name, "other answers");
                }
            }
        }
    }
}

/// A list with a close. Nothing after it is served.
const WITH_CLOSE: &[Entry] = &[LOCAL, SEVERAL, Entry::Close, GLOBAL];

/// A rack with a close, one without requests and one without a close, and the answers up to the close.
const CLOSED: Asked = Asked::Lists(
    &[WITH_CLOSE, &[], &[GLOBAL]],
    &[&[0x01, STRIPES], &[], &[0x6e]],
);

const RUNS: &[Run] = &[
    Run {
        name: "one worker answers up to the close",
        asked: CLOSED,
        settings: (1, 1),
        hold: None,
        times: 1,
    },
    Run {
        name: "four workers answer up to the close",
        asked: CLOSED,
        settings: (4, 16),
        hold: None,
        times: 1,
    },
    Run {
        name: "sixteen workers answer up to the close",
        asked: CLOSED,
        settings: (16, 1024),
        hold: None,
        times: 1,
    },
    Run {
        name: "no racks have no answers",
        asked: Asked::Lists(&[], &[]),
        settings: (1, 1),
        hold: None,
        times: 1,
    },
    Run {
        name: "a rack without requests has no answers",
        asked: Asked::Lists(&[&[]], &[&[]]),
        settings: (1, 1),
        hold: None,
        times: 1,
    },
];

#[test]
fn requests_before_the_close_are_answered(rt: HostRuntime) {
    assert_runs(&rt, rt.alloc(), RUNS);
}

#[test]
fn a_list_serves_the_requests_before_its_close(rt: HostRuntime) {
    let list = list_of(&rt, rt.alloc(), WITH_CLOSE);
    assert_serves(&rt, &list, 4, 2);
}

/// Asserts that a list has so many orders, and serves so many requests.
fn assert_serves(rt: &impl Abort, list: &RackList, orders: usize, requests: usize) {
    assert_holds(rt, list.orders().len() == orders, "a list", "other orders");
    assert_holds(rt, list.served() == requests, "a list", "other requests");
}
