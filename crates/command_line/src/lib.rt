//! The program's arguments: what they ask for, and the text of help or of a mistake; and its exit statuses. This crate uses only clap, so
//! it is proved beside the codes and the farm.
//!
//! ```rust
//! match read_words(alloc, words)? {
//!     Words::Lines => ..,
//!     Words::Farm { input, output, workers, queue } => ..,
//!     Words::Help(text) => ..,
//! }
//! ```
#![tactic(auto)]

mod definition;
mod statuses;
mod values;
pub mod words;

pub use statuses::{DEVICE, DONE, NO_RESOURCES, REFUSED, USAGE};
pub use words::{Words, WordsFault, read_words};
