//! How far a command is: what is read and written is counted, and a terminal or a file shows it; how fast it may read; and how long the
//! files may be that are written.
//!
//! ```rust
//! let task = Task { operation: Operation::Encode, units: 3, bytes, passes: 2 };
//! let progress = Arc::new(rt.alloc(), Progress::new(&rt, task, false))?;
//! let reads = Arc::new(rt.alloc(), CountedReads::new(&rt, &progress)?)?;
//! let mut files = CountingFolder::new(SystemFolder::new(&rt), reads);
//! ```
#![tactic(auto)]

mod counters;
mod counting;
mod limits;
mod pace;
mod progress;
mod reads;
mod turns;

pub use counting::{Counted, CountedSource};
pub use folders::{most_file_bytes, too_long};
pub use limits::{allow_file, allow_output, refuse_over_limit};
pub use progress::{Operation, Progress, Task};
pub use reads::{CountedOpen, CountedReads, CountingFolder};
pub use turns::Turns;
