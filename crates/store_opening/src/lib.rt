//! Opening a store: its locks, its listing, what has to be in it and its code, and why one is refused; and what killed runs have left.
//!
//! ```rust
//! let store = open_store(&rt, &opening)?;
//! let stripes = store.stripes(&rt)?;
//! let site = store.site_of(&opening);
//! store.locks.release(&rt)?;
//! ```
#![tactic(auto)]

mod expecting;
mod fitting;
mod leftovers;
mod locks;
mod open_stores;
mod opening;
mod refusing;
mod shared;
mod sharing;
mod unlisted;
mod unmounted;

pub use fitting::refuse_other_stores;
pub use leftovers::remove_leftovers;
pub use locks::Locks;
pub use open_stores::{OpenStore, open_store};
pub use opening::{Access, Opening, Unmounted};
pub use refusing::refuse_untrusted;
pub use unlisted::say_links;
pub use unmounted::refuse_unmounted;
