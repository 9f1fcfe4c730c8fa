//! The arguments of `rebuild-store`, and what they ask for: a struct of options for each command, or the text of help or of a mistake.
//!
//! ```rust
//! match read_arguments(alloc, arguments)? {
//!     Command::Repair(options) => .. options.store.folder, options.to ..,
//!     Command::Help(text) => ..,
//!     ..
//! }
//! ```
#![tactic(auto)]

mod commands;
mod encode;
mod faults;
mod list;
mod lost;
mod read;
mod remove;
mod repair;
mod scrub;
mod shared;
mod verify;

pub use commands::{Command, read_arguments};
pub use encode::EncodeOptions;
pub use faults::UsageFault;
pub use list::ListOptions;
pub use lost::LostOptions;
pub use read::ReadOptions;
pub use remove::RemoveOptions;
pub use repair::RepairOptions;
pub use scrub::ScrubOptions;
pub use shared::naming::Naming;
pub use shared::store::StoreOptions;
pub use shared::testing::TestOptions;
pub use verify::VerifyOptions;
