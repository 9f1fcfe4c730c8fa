//! The commands of `rebuild-store` on single files of a store: `encode`, `read`, `verify` and `remove`. Each does what its options ask for,
//! says what came of it and gives the exit status.
//!
//! ```rust
//! let status = read(&rt, &options)?;
//! ```
#![tactic(auto)]

mod commands;
mod tally;

pub use commands::encode::encode;
pub use commands::read::read;
pub use commands::remove::remove;
pub use commands::verify::verify;
