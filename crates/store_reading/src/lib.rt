//! Reading a file of a store, also while fragments are lost, and the copies of its description.
//!
//! ```rust
//! read_file(&rt, StoredFile { folder, pattern, name: "notes.txt", links, progress: None }, None)?;
//! let descriptions = tend_descriptions(&rt, &site, &stripe, CopyWork::Name)?;
//! ```
#![tactic(auto)]

mod copies;
mod reading;

pub use copies::{CopyWork, DescribedStripe, tend_descriptions};
pub use reading::destination::passes_to;
pub use reading::{read_file, verify_file};
