//! Folders of request lists: lists and reports, shelves of named files, and `serve`, which answers the lists of
//! one shelf by files on another.
//!
//! ```
//! use farm_core::{NoPause, Settings};
//! use farm_files::{MemoryShelf, serve};
//!
//! let mut input = MemoryShelf::new(alloc);
//! input.place(alloc, "rack0.csv", b"order,stripe,target,length,survivors\nrebuild,abc,x0,3,x1 x2 px\n")?;
//! input.place(alloc, "abc.x1", b"\0\0\0")?;
//! input.place(alloc, "abc.x2", b"\0\0\0")?;
//! input.place(alloc, "abc.px", b"abc")?;
//! let mut output = MemoryShelf::new(alloc);
//! let served = serve(&rt, alloc, &mut input, &mut output, Settings::new(4, 16)?, &NoPause)?;
//! assert_eq!(rt; (served.racks, served.answers), (1, 1));
//! assert!(rt; output.file("rack0-0.abc.x0") == Some(b"abc".as_slice()));
//! ```
#![tactic(auto)]

mod batch_pause;
mod batches;
mod folders;
mod serving;
pub mod serving_laws;
mod writing;

pub use batches::{Answered, Batching, MOST_BATCH_BYTES, answer_lists};
pub use farm_core::FeedAnswer;
pub use farm_lists::{
    ListFault, Listed, ReadRequest, Record, count_requests, list_file, read_list,
};
pub use farm_reading::{RackLists, ServeFault, read_lists};
pub use farm_reports::{ReportRow, ReportShape, merged_report_text, report_laws, report_text};
pub use farm_shelves::{FileRead, FolderShelf, MemoryShelf, ReadAheadShelf, Shelf, ShelfFault};
pub use folders::{Folders, serve_folders};
pub use serving::{Served, serve};
