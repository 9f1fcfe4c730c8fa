//! What a store asks of a file system, and how a new file gets the path at which others look for it.
//!
//! ```
//! use folders::{Folder, NewFile, SystemFolder, place};
//!
//! let mut files = SystemFolder::new(&rt);
//! let mut new = files.create_new("/tmp/.note", 0o600)?;
//! new.append(b"abc")?;
//! let placed = place(&mut files, new, "/tmp/note")?;
//! placed.answer?;
//! files.remove("/tmp/.note")?;
//! files.sync_folder("/tmp")?;
//! ```
#![tactic(auto)]

mod exchanging;
mod folder;
mod giving;
mod limits;
mod paths;
mod placing;
mod record;
mod status;
mod system;
mod temporary;

pub use exchanging::{Exchanged, exchange};
pub use folder::{Folder, NewFile, OpenFile, WholeFile};
pub use giving::give_path;
pub use limits::{most_file_bytes, too_long};
pub use paths::folder_of;
pub use placing::{Placed, place, place_over};
pub use record::{Call, Record, Written};
pub use status::{Identity, Kind, Rights, Status, Time, is_absent};
pub use system::{SystemFolder, SystemNew, SystemOpen, SystemWhole};
pub use temporary::{create_locked, remove_temporary};
