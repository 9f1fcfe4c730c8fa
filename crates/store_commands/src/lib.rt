//! The commands of `rebuild-store` that go through the stripes of a store: `repair`, `scrub`, `lost` and `list`. Each does what its options
//! ask for, says what came of it and gives the exit status.
//!
//! ```rust
//! let status = scrub(&threads, &rt, &options)?;
//! ```
#![tactic(auto)]

mod commands;
mod output;
mod work;

pub use commands::list::list;
pub use commands::lost::lost;
pub use commands::repair::repair;
pub use commands::scrub::scrub;
