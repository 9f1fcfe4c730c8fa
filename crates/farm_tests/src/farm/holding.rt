//! Pauses that hold a worker or a feeder until another thread has come to a certain call.
use farm_core::Pause;
use std::sync::atomic::{AtomicBool, AtomicU64, Ordering};
use std::thread;

const MOST_TURNS: u64 = 1_000_000;

/// Enough for another worker to answer two requests and to end.
const LATE_TURNS: u64 = 200_000;

/// Which calls hold, and until when.
#[derive(Clone, Copy)]
pub(crate) enum Hold {
    /// For rack 1, request 0 until request 1 was answered, and request 1 until request 0 was begun.
    Crossed,
    /// Each request until so many were begun: as many as there are workers.
    Gathered(u64),
    /// The first request for long.
    Late,
    /// The feeder of each other feed ahead of its order until that of this feed has passed its first. Orders are passed so often in all,
    /// one whose draw is refused counted too.
    First(usize, u64),
    /// The worker in the first request until the feeder has passed the order at this position, which is the first that a full queue has
    /// no room for, and a thousand turns more.
    Full(usize),
}

/// A pause that holds, and what it found.
pub(crate) struct Holding {
    hold: Hold,
    /// How many requests were begun that others wait for; of `First`, how often an order was passed; of `Full`, how many orders
    /// came to the feeder after the one that has to wait.
    begun: AtomicU64,
    /// How often that came for which a call was held.
    come: AtomicU64,
    /// Whether a call was held in vain.
    missed: AtomicBool,
    /// Of `Full`, whether an order came to the feeder before the worker went on.
    early: AtomicBool,
}

impl Drop for Holding {
    fn drop(self) {
        let Holding {
            hold: _,
            begun: _,
            come: _,
            missed: _,
            early: _,
        } = self;
    }
}

impl Holding {
    pub(crate) fn new(hold: Hold) -> Holding {
        Holding {
            hold,
            begun: AtomicU64::new(0),
            come: AtomicU64::new(0),
            missed: AtomicBool::new(false),
            early: AtomicBool::new(false),
        }
    }

    /// Waits until as many are counted, or notes that they weren't in a million turns.
    fn wait(&self, count: &AtomicU64, least: u64) {
        for _ in 0..MOST_TURNS {
            if count.load(Ordering::SeqCst) >= least {
                return;
            }
            thread::yield_now();
        }
        self.missed.store(true, Ordering::SeqCst);
    }

    /// Whether no call was held in vain, none came early, and orders were passed as often as they must be.
    pub(crate) fn held(&self) -> bool {
        let passed = match self.hold {
            Hold::First(_, passed) => self.begun.load(Ordering::SeqCst) == passed,
            _ => true,
        };
        passed && !self.missed.load(Ordering::SeqCst) && !self.early.load(Ordering::SeqCst)
    }
}

fn pass_turns(turns: u64) {
    for _ in 0..turns {
        thread::yield_now();
    }
}

fn add_one(count: &AtomicU64) {
    count.fetch_add(1, Ordering::SeqCst);
}

impl Pause for Holding {
    fn before(&self, rack: usize, number: u64) {
        match (&self.hold, rack, number) {
            (Hold::Crossed, 1, 0) => {
                add_one(&self.begun);
                self.wait(&self.come, 1);
            }
            (Hold::Crossed, 1, 1) => self.wait(&self.begun, 1),
            (Hold::Gathered(workers), _, _) => {
                add_one(&self.begun);
                self.wait(&self.begun, *workers);
            }
            (Hold::Late, 0, 0) => pass_turns(LATE_TURNS),
            (Hold::Full(_), _, 0) => {
                self.wait(&self.come, 1);
                pass_turns(1000);
                let early = self.begun.load(Ordering::SeqCst) > 0;
                self.early.store(early, Ordering::SeqCst);
            }
            _ => {}
        }
    }

    fn after(&self, rack: usize, number: u64) {
        if matches!((&self.hold, rack, number), (Hold::Crossed, 1, 1)) {
            add_one(&self.come);
        }
    }

    fn ahead(&self, _rack: usize, feed: usize, position: usize) {
        match &self.hold {
            Hold::First(first, _) if feed != *first => self.wait(&self.come, 1),
            Hold::Full(waiting) if position > *waiting => add_one(&self.begun),
            _ => {}
        }
    }

    fn behind(&self, _rack: usize, feed: usize, position: usize) {
        match &self.hold {
            Hold::First(first, _) => {
                add_one(&self.begun);
                if feed == *first {
                    add_one(&self.come);
                }
            }
            Hold::Full(waiting) if position == *waiting => add_one(&self.come),
            _ => {}
        }
    }
}
