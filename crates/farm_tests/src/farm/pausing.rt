//! What a run gives its pause: the racks, feeds, positions and numbers of all calls.
use crate::farm::asserting::assert_holds;
use crate::farm::requests::{GLOBAL, LOCAL, SEVERAL, STRIPES};
use crate::farm::running::{Asked, is_answered};
use farm_core::Pause;
use std::alloc::Global;
use std::process::Abort;
use std::sync::Wait;
use std::sync::atomic::{AtomicU64, Ordering};
use std::thread::Threads;

/// Counts the calls: for each of three racks those before its requests, and as many places on those after them; for each of seven feeds
/// those ahead of its orders and those behind them. The eighth place of each is for a request or an order that isn't there.
struct Calls {
    counts: Vec<AtomicU64>,
}

impl Drop for Calls {
    fn drop(self) {
        let Calls { counts: _ } = self;
    }
}

/// The place of what isn't there.
const STRANGE: usize = 7;

impl Calls {
    fn new(rt: &impl Abort, alloc: Global) -> Calls {
        let mut counts = Vec::new(alloc);
        for _ in 0..32 {
            counts.push(AtomicU64::new(0)).expect(rt, "a count");
        }
        Calls { counts }
    }

    /// Whether there were so many calls for the requests of each rack and for the orders of each feed.
    fn are(&self, requests: &[u64; 8], orders: &[u64; 8]) -> bool {
        for (place, count) in self.counts.iter().enumerate() {
            let wanted = if place < 16 { requests } else { orders };
            if count.load(Ordering::SeqCst) != wanted[place % 8] {
                return false;
            }
        }
        true
    }

    fn count(&self, place: usize) {
        if let Some(count) = self.counts.get(place) {
            count.fetch_add(1, Ordering::SeqCst);
        }
    }
}

/// The rack of a request of the first run, by its number within the rack.
fn rack_of(rack: usize, number: u64) -> usize {
    match (rack, number) {
        (0, 0) | (1, 0..=2) | (2, 0..=3) => rack,
        _ => STRANGE,
    }
}

/// Which of the first run's feeds an order is of, by its position within the feed.
fn feed_of(rack: usize, feed: usize, position: usize) -> usize {
    match (rack, feed, position) {
        (0, 0, 0) => 0,
        (1, 0, 0) => 1,
        (1, 1, 0..=1) => 2,
        (2, 1, 0) => 4,
        (2, 2, 0) => 5,
        (2, 3, 0..=1) => 6,
        _ => STRANGE,
    }
}

impl Pause for Calls {
    fn before(&self, rack: usize, number: u64) {
        self.count(rack_of(rack, number));
    }

    fn after(&self, rack: usize, number: u64) {
        self.count(rack_of(rack, number).saturating_add(8));
    }

    fn ahead(&self, rack: usize, feed: usize, position: usize) {
        self.count(feed_of(rack, feed, position).saturating_add(16));
    }

    fn behind(&self, rack: usize, feed: usize, position: usize) {
        self.count(feed_of(rack, feed, position).saturating_add(24));
    }
}

/// A run whose pause counts.
struct Counted {
    name: &'static str,
    asked: Asked,
    settings: (usize, usize),
    /// How many calls there are for the requests of each rack, and for the orders of each feed.
    requests: [u64; 8],
    orders: [u64; 8],
}

const RUNS: &[Counted] = &[
    Counted {
        name: "racks of one, two and four feeds",
        asked: Asked::Feeds(
            &[
                &[&[LOCAL]],
                &[&[GLOBAL], &[LOCAL, SEVERAL]],
                &[&[], &[LOCAL], &[LOCAL], &[GLOBAL, LOCAL]],
            ],
            &[
                (0, &[&[0x01]]),
                (1, &[&[0x6e], &[0x01, STRIPES]]),
                (2, &[&[], &[0x01], &[0x01], &[0x6e, 0x01]]),
            ],
        ),
        settings: (3, 1),
        requests: [1, 3, 4, 0, 0, 0, 0, 0],
        orders: [1, 1, 2, 0, 1, 1, 2, 0],
    },
    // A list is its rack's feed 0.
    Counted {
        name: "racks of one list each",
        asked: Asked::Lists(&[&[LOCAL], &[GLOBAL]], &[&[0x01], &[0x6e]]),
        settings: (2, 1),
        requests: [1, 1, 0, 0, 0, 0, 0, 0],
        orders: [1, 1, 0, 0, 0, 0, 0, 0],
    },
];

fn assert_counted<R: Abort + Threads + Wait + Sync>(rt: &R, alloc: Global, run: &Counted) {
    let calls = Calls::new(rt, alloc);
    let answered = is_answered(rt, alloc, run.asked, run.settings, &calls);
    assert_holds(rt, answered, run.name, "other answers");
    let are = calls.are(&run.requests, &run.orders);
    assert_holds(rt, are, run.name, "other calls");
}

#[test]
fn each_order_is_given_once(rt: HostRuntime) {
    for run in RUNS {
        assert_counted(&rt, rt.alloc(), run);
    }
}
