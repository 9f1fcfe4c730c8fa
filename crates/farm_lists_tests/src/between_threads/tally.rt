//! Counts of numbers.
use crate::between_threads::asserting::assert_holds;
use std::alloc::Global;
use std::process::Abort;
use std::sync::atomic::{AtomicBool, AtomicU64, Ordering};

/// How often each number below some number was counted, and whether another was.
pub(crate) struct Tally {
    counts: Vec<AtomicU64>,
    wrong: AtomicBool,
}

impl Drop for Tally {
    fn drop(self) {
        let Tally {
            counts: _,
            wrong: _,
        } = self;
    }
}

impl Tally {
    /// For so many numbers.
    pub(crate) fn new(rt: &impl Abort, alloc: Global, numbers: u64) -> Tally {
        let mut counts = Vec::new(alloc);
        for _ in 0..numbers {
            counts.push(AtomicU64::new(0)).expect(rt, "a count");
        }
        Tally {
            counts,
            wrong: AtomicBool::new(false),
        }
    }

    /// Counts a number.
    pub(crate) fn count(&self, number: u64) {
        match self.counts.get(number as usize) {
            Some(count) => {
                count.fetch_add(1, Ordering::SeqCst);
            }
            None => self.refuse(),
        }
    }

    /// Notes a number that must not be there.
    pub(crate) fn refuse(&self) {
        self.wrong.store(true, Ordering::SeqCst);
    }

    /// Asserts that each number below this one was counted once, and no other.
    pub(crate) fn assert_once_below(&self, rt: &impl Abort, end: u64) {
        let mut wrong = self.wrong.load(Ordering::SeqCst);
        for number in 0..self.counts.len() {
            let wanted = if (number as u64) < end { 1 } else { 0 };
            wrong = wrong || self.counts[number].load(Ordering::SeqCst) != wanted;
        }
        assert_holds(rt, !wrong, "each number once below", end as usize);
    }
}
