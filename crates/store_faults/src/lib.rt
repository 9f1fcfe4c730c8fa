//! Why a store or a file is refused, what is wrong with the copies of a description, and how that is said: lines, words and exit statuses.
//! Nothing here looks at a store. Begin with `faults/store.rt` and `faults/file.rt`.
//!
//! ```rust
//! let fault = device(rt.alloc(), "store/notes.x0", error);
//! say(&rt, format!(in rt.alloc(); "rebuild-store: {fault}"))?;
//! let status = fault.status();
//! ```
#![tactic(auto)]

mod copies;
mod faults;
mod lines;
mod names;
mod outputs;
mod statuses;
mod system_words;

pub use copies::{Copies, CopyFinding, CopyReason, CopyState, Descriptions, FoundCopy};
pub use faults::file::{FileFault, device, source_fault};
pub use faults::store::{StoreFault, device_fault};
pub use lines::{escaped, say, write};
pub use names::fragment_name;
pub use outputs::{COUNTER_PREFIX, REPORT_HEADER, ROW_BEGIN};
pub use statuses::{DEVICE, DONE, LEFT, NO_MEMORY, USAGE};
pub use system_words::{without_number, words_of};
