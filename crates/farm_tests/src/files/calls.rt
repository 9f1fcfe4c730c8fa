//! A pause that counts what it is given.
use farm_core::Pause;
use std::sync::atomic::{AtomicU64, Ordering};

/// Counts the calls of up to three racks, or feeds of one rack, each with a decimal digit for each number or position from 0 on: of those
/// ahead of a request, after one, ahead of an order and behind one.
#[derive(Drop)]
pub(crate) struct Calls([AtomicU64; 12]);

impl Pause for Calls {
    fn before(&self, rack: usize, number: u64) {
        self.count(0, rack, number);
    }

    fn after(&self, rack: usize, number: u64) {
        self.count(3, rack, number);
    }

    fn ahead(&self, rack: usize, feed: usize, position: usize) {
        self.count(6, rack.saturating_add(feed), position as u64);
    }

    fn behind(&self, rack: usize, feed: usize, position: usize) {
        self.count(9, rack.saturating_add(feed), position as u64);
    }
}

impl Calls {
    /// No calls.
    pub(crate) fn new() -> Calls {
        Calls([
            AtomicU64::new(0),
            AtomicU64::new(0),
            AtomicU64::new(0),
            AtomicU64::new(0),
            AtomicU64::new(0),
            AtomicU64::new(0),
            AtomicU64::new(0),
            AtomicU64::new(0),
            AtomicU64::new(0),
            AtomicU64::new(0),
            AtomicU64::new(0),
            AtomicU64::new(0),
        ])
    }

    /// Counts a call of the kind whose counts are from this one on. One of a fourth rack or feed is counted with the third.
    fn count(&self, first: usize, index: usize, number: u64) {
        let mut digit = 1u64;
        for _place in 0..number.min(18) {
            digit = digit.saturating_mul(10);
        }
        if let Some(counted) = self.0.get(first.saturating_add(index.min(2))) {
            counted.fetch_add(digit, Ordering::SeqCst);
        }
    }

    /// Shows the counts, each in a line.
    pub(crate) fn show(&self, rt: &impl Print) {
        for count in &self.0 {
            let _ = println!(rt; "{}", count.load(Ordering::SeqCst));
        }
    }
}
