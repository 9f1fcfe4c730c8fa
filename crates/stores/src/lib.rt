//! Stores of fragments: the trait `Store`, with what its calls leave whenever they end; what is found under the names of a stripe's
//! fragments; and a store in memory.
//!
//! ```
//! use lrc_code::Place;
//! use std::alloc::Global;
//! use stores::{MemoryStore, NewFragment, Placed, Store};
//!
//! let mut store = MemoryStore::new(Global);
//! let mut new = store.create("films", Place::X0)?;
//! new.append(b"abc")?;
//! let placed = store.place(new, "films", Place::X0)?;
//! assert_eq!(placed, Placed::Placed);
//! ```
#![tactic(auto)]

mod memory;
mod store;
mod stripes;

pub use memory::{MemoryFragment, MemoryStore};
pub use store::{Fragment, NameFault, NewFragment, Placed, Refused, Store};
pub use stripes::{Found, Stripe, StripeFiles, is_in_common, nth_place};
