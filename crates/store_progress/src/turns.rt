//! Who of several threads does what is to be done from time to time.
use std::sync::atomic::{AtomicU64, Ordering};

/// Turns, of which one comes when the last one was long enough ago.
#[derive(Drop)]
pub struct Turns {
    /// When the last was taken, in milliseconds since a start.
    last: AtomicU64,
    /// The least time between two, in milliseconds.
    between: u64,
}

impl Turns {
    /// Turns with so many milliseconds between them at least, also before the first.
    pub fn new(between: u64) -> Turns {
        Turns {
            last: AtomicU64::new(0),
            between,
        }
    }

    /// Takes the turn that there is so many milliseconds after the start, if there is one. Of several threads one gets it.
    pub fn take(&self, now: u64) -> bool {
        let last = self.last.load(Ordering::SeqCst);
        if now.saturating_sub(last) < self.between {
            return false;
        }
        self.last
            .compare_exchange(last, now, Ordering::SeqCst, Ordering::SeqCst)
            .is_ok()
    }
}
