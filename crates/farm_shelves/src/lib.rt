//! Shelves of named files on a device that may fail: a folder of the system, and a shelf in memory.
//!
//! ```
//! use farm_shelves::{MemoryShelf, Shelf};
//!
//! let mut shelf = MemoryShelf::new(alloc);
//! shelf.write(alloc, "a", b"abc")?;
//! assert!(rt; shelf.read(alloc, "a", 2)?.is_some_and(|bytes| bytes.as_slice() == b"ab".as_slice()));
//! assert_eq!(rt; shelf.failures(), 0);
//! ```
#![tactic(auto)]

mod ahead;
mod folder;
mod memory;
mod read_ahead;
mod regular_files;
mod shelf;
mod sized_file;
mod worth;

pub use folder::FolderShelf;
pub use memory::MemoryShelf;
pub use read_ahead::ReadAheadShelf;
pub use regular_files::read_front;
pub use shelf::{FileRead, Shelf, ShelfFault};
pub use worth::{LEAST_PART, worthwhile};
