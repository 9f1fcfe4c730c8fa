//! Settings of a farm.
ghost use Rattle.std.specs.Prelude.{◌≡◌, ◌≤◌, IfOk, IfErr};
ghost use Rattle.farm_orders.specs.Limits.{IsFrom1To, IsOutOfLimits, queue_limit, worker_limit};

use crate::limits::{MOST_QUEUE, MOST_WORKERS};
use thiserror::Error;

/// The number of workers, 1 to 16, and the capacity of each queue, 1 to 1,024.
#[derive(Clone, Copy, Debug)]
pub struct Settings {
    workers: usize,
    queue: usize,
    pub ghost workers_fit: { 1 ≤ workers },
    pub ghost workers_most: { workers ≤ worker_limit },
    pub ghost queue_fits: { 1 ≤ queue },
    pub ghost queue_most: { queue ≤ queue_limit },
}

/// A setting out of its limits.
#[derive(Clone, Copy, Debug, Error, PartialEq, Eq)]
pub enum SettingsFault {
    /// E11: the number of workers isn't 1 to 16.
    #[error("the number of workers is not 1 to 16")]
    BadWorkers,
    /// E12: the capacity of the queues isn't 1 to 1,024.
    #[error("the queue is not 1 to 1024")]
    BadQueue,
}

impl Settings {
    /// These settings; the workers are tested first. Takes no memory.
    pub fn new(workers: usize, queue: usize) -> Result<Settings, SettingsFault>
        ensures ok { IfOk result (λ s. (s.workers ≡ workers) × (s.queue ≡ queue)) }
        ensures refused { IfErr result (IsOutOfLimits workers queue) }
    {
        if workers == 0 || workers > MOST_WORKERS {
            return Err(SettingsFault::BadWorkers);
        }
        if queue == 0 || queue > MOST_QUEUE {
            return Err(SettingsFault::BadQueue);
        }
        Ok(Settings { workers, queue })
    }

    /// The number of workers.
    pub fn workers(self) -> usize
        ensures same { result ≡ self.workers }
        ensures limits { IsFrom1To worker_limit result }
    {
        self.workers
    }

    /// The capacity of each queue.
    pub fn queue(self) -> usize
        ensures same { result ≡ self.queue }
        ensures limits { IsFrom1To queue_limit result }
    {
        self.queue
    }
}
