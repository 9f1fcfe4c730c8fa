//! What a folder of request lists asks: the lists of all racks, the fragments of the requests that they list, as orders for the farm, and
//! the batches that these are read in; and how the command `farm` ends: the exit status for each end, and the line on each fault.
//!
//! ```
//! use farm_reading::read_lists;
//! use farm_shelves::MemoryShelf;
//!
//! let mut input = MemoryShelf::new(alloc);
//! input.place(alloc, "rack0.csv", b"order,stripe,target,length,survivors\nrebuild,abc,x0,3,x1 x2 px\n")?;
//! let racks = read_lists(alloc, &mut input)?;
//! assert!(rt; racks[0].feeds()[0].len() == 1);
//! ```
#![tactic(auto)]

pub mod ahead;
pub mod cutting;
mod fault_lines;
mod faults;
pub mod fragments;
mod lists;
mod rack_lists;
pub mod rooms;

pub use fault_lines::{farm_status, fault_line};
pub use faults::ServeFault;
pub use lists::read_lists;
pub use rack_lists::RackLists;
