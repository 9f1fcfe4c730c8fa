//! The texts that are kept beside a store's fragments: the description of a file, and the sums of files. Nothing here reads a file.
#![tactic(auto)]

mod descriptions;
mod digits;
mod faults;
mod sum_laws;
mod sums;

pub use descriptions::{Described, MOST_BYTES};
pub use digits::{Digest, digits_of};
pub use faults::SumsFault;
pub use sum_laws::{lines_are_whole, lines_read_back};
pub use sums::{LineFault, Sums};
