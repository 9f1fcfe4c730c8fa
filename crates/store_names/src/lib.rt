//! The names of a store's files: of the fragments of a stripe, by a pattern; of the descriptions of stripes; of files that runs keep to
//! themselves. Nothing here reads a file or a folder. Start with `Pattern`, whose `name_of` and `read` are each other's inverse.
//!
//! ```
//! use lrc_code::{Code, Place};
//! use store_names::{Layout, Pattern};
//!
//! let pattern = Pattern::parse("disk{shard}/{stripe}", Layout::Plain)?;
//! let name = pattern.name_of(alloc, Code::Narrow, "note", Place::X1)?;
//! assert_eq!(rt; name.map(|name| name.as_str() == "disk1/note"), Some(true));
//! assert_eq!(rt; pattern.read(Code::Narrow, "disk1/note"), Some(("note", Place::X1)));
//! ```
#![tactic(auto)]

mod descriptions;
mod disks;
mod layouts;
mod mounts;
mod name_laws;
mod names;
mod parsing;
mod parts;
mod paths;
mod patterns;
mod temporary;
mod texts;

pub use descriptions::{
    DESCRIPTION, described_stripe, description_names, first_description_name, is_description_name,
};
pub use disks::{disk_folders, is_folder_of, stripe_folders};
pub use layouts::Layout;
pub use mounts::{Locking, locking_at};
pub use name_laws::names_differ;
pub use names::KEPT;
pub use parsing::PatternFault;
pub use parts::Part;
pub use paths::{folder_in, last_of, path_in};
pub use patterns::Pattern;
pub use temporary::{
    RANDOM_DIGITS, UNFINISHED, is_free, is_left_by, is_lock_text, is_of_runs, is_run,
    is_unfinished, lock_name, run_named, run_of, tag_of_part,
};
