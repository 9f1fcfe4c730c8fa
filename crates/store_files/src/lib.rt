//! The files of a store, as they are looked for and as they are made: what describes one, the names of its stripe, which of its fragments
//! give it, and the names that it has while it replaces another.
//!
//! ```rust
//! let file = StoredFile { folder, pattern, name: "notes.txt", links, progress: None };
//! let described = first_described(&rt, &file)?;
//! ```
#![tactic(auto)]

mod choosing;
mod descriptions;
mod digesting;
mod enough;
mod fitting;
mod fragments;
mod own_sums;
mod staging;
mod stored_file;
mod target;
mod tries;

pub use choosing::set_that_fits;
pub use descriptions::{
    Cause, Copies, Refusal, copies_of, descriptions_for_sure, descriptions_of, first_described,
    is_whole, own_description,
};
pub use digesting::{Digested, Unkept, digest_at};
pub use enough::has_enough;
pub use fitting::fitting_description;
pub use fragments::{Fragments, Missing, Refused, is_lost, open_fragments, survivors_of};
pub use staging::{
    has_fragments_of, has_some, is_staged, is_there, no_stored, refuse_linked, shares_fragment,
    shares_fragment_for_sure, staged_name,
};
pub use stored_file::{Sought, StoredFile};
pub use target::Target;
pub use tries::{Tries, unread_of};
