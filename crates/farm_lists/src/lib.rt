//! Lists of lost fragments: how they are read, what their requests are, and how the files are named that answer them.
//!
//! ```
//! use farm_lists::{count_requests, read_list};
//!
//! let list = read_list(alloc, b"order,stripe,target,length,survivors\nrebuild,abc,x0,3,x1 x2\n")?;
//! assert_eq!(rt; count_requests(&list), 1);
//! ```
#![tactic(auto)]

mod listed;
mod listing;
pub mod names;
mod requests;

pub use listed::Listed;
pub use listing::{ListFault, MOST_LIST_BYTES, MOST_RECORDS, Record, read_list};
pub use names::{fragment_file, list_file, write_fragment_file};
pub use requests::{ReadRequest, count_requests, requests_before_close};
