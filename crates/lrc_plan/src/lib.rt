//! Plans: trees that give a lost fragment from survivors, what they give, and the answer to a request. The code
//! is the (6,2,2) code or the (12,2,2) code of Huang et al., "Erasure Coding in Windows Azure Storage", USENIX ATC 2012, sections 2
//! and 3.
//!
//! ```
//! use lrc_code::{Fragment, Outcome, Place, Request};
//! use lrc_plan::solve;
//!
//! let mut survivors = Vec::new(alloc);
//! survivors.push(Fragment { place: Place::X1, bytes: vec![in alloc; 2]? })?;
//! survivors.push(Fragment { place: Place::X2, bytes: vec![in alloc; 3]? })?;
//! survivors.push(Fragment { place: Place::Px, bytes: vec![in alloc; 0]? })?;
//! let stripe = String::from_str(alloc, "a")?;
//! let Ok(request) = Request::new(stripe, Place::X0, 1, survivors) else {
//!     panic!(rt; "refused");
//! };
//! let outcome = solve(alloc, alloc, &request)?;
//! assert!(rt; matches!(&outcome, Outcome::Rebuilt(bytes) if bytes.as_slice() == b"\x01".as_slice()));
//! ```
#![tactic(auto)]

pub mod answer_laws;
mod invariant;
mod plans;
mod solving;
mod tree;

pub use plans::Plan;
pub use plans::planning::{plan, plan_in};
pub use plans::remembered::RememberedPlans;
pub use plans::row_plans::{
    RowPlan, check_rows, checks_from, plan_rows, reduce_by_lost, value_from,
};
pub use solving::{answer_by, solve};
pub use tree::Tree;
pub use tree::both_branches::evaluate_both;
pub use tree::evaluation::evaluate;
pub use tree::grafting::GraftRefused;
