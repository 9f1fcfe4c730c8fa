//! A file system in memory, over which a store's calls are tried: with each call failing, and with all that a crash may leave.
//!
//! ```
//! use memory_folder::{Fault, MemoryFolder};
//!
//! let mut files = MemoryFolder::new(alloc);
//! files.put("store/a.x0", b"abc")?;
//! files.fail(Fault { at: 2, lasts: true, is_done: false });
//! // .. calls ..
//! for way in 0..files.crashes() {
//!     let left = files.after_crash(way)?;
//! }
//! ```
#![tactic(auto)]

mod calls;
mod handles;
mod memory;
mod worlds;

pub use handles::{MemoryNew, MemoryOpen, MemoryWhole};
pub use memory::{Fault, MemoryFolder};
pub use worlds::synchronous_is_lawful;
