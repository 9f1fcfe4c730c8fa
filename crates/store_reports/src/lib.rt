//! What is said of a store's stripes: findings, the rows of a report, summaries, requests for what is lost, and the exit status. All are
//! functions of what became of the stripes. Begin with `results`, then `rows`.
//!
//! ```rust
//! let results = Results::new(alloc, &site, contents, &all, "rebuilt")?;
//! let rows = rows_of(alloc, &results, Rows::Csv)?;
//! let status = status_of(&results.totals, true);
//! ```
#![tactic(auto)]

mod done;
mod files;
mod findings;
mod plans;
mod requests;
mod results;
mod rows;
mod statuses;
mod summaries;
mod totals;

pub use done::Done;
pub use files::{FileState, ListedFile, file_line};
pub use findings::{
    alone_lines, finding_lines, unchecked_lines, unknown_lines, unlisted_lines, unread_lines,
};
pub use plans::{without_left, without_refused, without_repeated};
pub use requests::{header_of, request_lines};
pub use results::{Contents, Results, RowSource};
pub use rows::{Rows, add_alone, add_stripe, rows_of};
pub use statuses::{status_of, status_of_plan};
pub use summaries::{
    encoded, files_listed, listed, planned, removed, repaired, scrubbed, verified,
};
pub use totals::Totals;
