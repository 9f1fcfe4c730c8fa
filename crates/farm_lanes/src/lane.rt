//! A lane is a bounded queue that carries values from several senders to several takers.
//!
//! `Lane::open` gives its ends. Each put end numbers what it puts from 0 and puts an end mark last; it is an `EndedPut` then. Each
//! take end takes what is at the front. `settle` spends all ends, and its contract says what was put and what was taken.

mod item;
mod opening;
mod put_end;
mod rule;
mod settling;
mod steps;
mod take_end;

pub use item::Item;
pub use opening::{Lane, LaneError};
pub use put_end::{EndedPut, PutEnd};
pub use settling::{Settled, settle};
pub use take_end::TakeEnd;
