//! The files that answer request lists: the rebuilt fragments, each under its name, and the reports, with digests.
//!
//! ```
//! use farm_lists::read_list;
//! use farm_reports::report_text;
//! use lrc_code::Outcome;
//!
//! let list = read_list(alloc, b"order,stripe,target,length,survivors\nrebuild,abc,x0,3,x1 x2\n")?;
//! let report = report_text(alloc, &list, &[Outcome::Several], &[Vec::new(alloc)])?;
//! let text = b"number,stripe,target,length,outcome,digest,unread\n0,abc,x0,3,several,,\n".as_slice();
//! assert_eq!(rt; report.as_slice(), text);
//! ```
#![tactic(auto)]

mod digests;
pub mod grains;
mod rack_files;
mod report;
pub mod report_laws;
mod rows;

pub use digests::digests_of_racks;
pub use rack_files::{NamedFile, make_files};
pub use report::{ReportRow, ReportShape, merged_report_text, report_text};
