//! How fast a command may read, so that a store's users aren't kept waiting.

use std::sync::atomic::{AtomicU64, Ordering};
use std::thread;
use std::time::{Duration, Instant};

const MICROSECONDS: u64 = 1_000_000;

/// A limit on what all threads together read in a second. What wasn't read while it could have been isn't made up for.
#[derive(Drop)]
pub(crate) struct Pace {
    start: Instant,
    /// The bytes that may be read in a second.
    rate: u64,
    /// When the next bytes may be read, in microseconds since the start.
    next: AtomicU64,
}

impl Pace {
    /// A limit of so many bytes a second from now on; none if the clock can't be read.
    pub(crate) fn new(rt: &HostRuntime, rate: u64) -> Option<Pace> {
        Some(Pace {
            start: Instant::now(rt).ok()?,
            rate: rate.max(1),
            next: AtomicU64::new(0),
        })
    }

    /// Sleeps after so many bytes were read until others may be.
    pub(crate) fn keep(&self, rt: &HostRuntime, bytes: u64) {
        let Ok(elapsed) = self.start.elapsed(rt) else {
            return;
        };
        let now = u64::try_from(elapsed.as_micros()).unwrap_or(u64::MAX);
        let takes = bytes.saturating_mul(MICROSECONDS) / self.rate.max(1);
        self.next.fetch_max(now, Ordering::SeqCst);
        let begin = self.next.fetch_add(takes, Ordering::SeqCst);
        let wait = begin.saturating_add(takes).saturating_sub(now);
        if wait > 0 {
            thread::sleep(rt, Duration::from_micros(wait));
        }
    }
}
