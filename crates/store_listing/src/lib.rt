//! What is in the folder of a store: fragments, descriptions, folders, and files that runs have left, by their names.
//!
//! ```rust
//! let wanted = Wanted { pattern, code, knows_code: true, has_stripes: true, part: None, links, watched: &[] };
//! let listing = list(&rt, "store", &wanted)?;
//! ```
#![tactic(auto)]

mod disks;
mod ends;
mod expecting;
mod kinds;
mod leaving;
mod listed_descriptions;
mod listed_folders;
mod listing;
mod store_stripes;
mod stripe_names;
mod votes;
mod watching;

pub use disks::{NOT_A_FOLDER, Unlisted};
pub use ends::{End, Ends, NamedEnd, NamedFolder, UnknownEnd};
pub use expecting::expect_listed;
pub use leaving::left_in;
pub use listing::{Listing, list};
pub use store_stripes::{Alone, StoreStripes};
pub use stripe_names::StripeNames;
pub use votes::{Others, other_than};
pub use watching::{Foreign, Wanted, Watched};
