//! What the threads of a farm share: lanes, which are queues of several senders and several takers, and gates, at which threads
//! draw numbers until one of them closes.
//!
//! A lane's ends and a gate's seats each keep a record of what was done through them. The contracts say what each call adds to the
//! record of its own end or seat, and what is known of all records together once they come into one thread again: `settle` says it
//! of a lane's ends, `Gate::join` of a gate's seats. No contract says that a call which may wait returns, in which order threads
//! are served, or which of two senders comes first.
//!
//! ```
//! use farm_lanes::{Gate, Item, Lane};
//!
//! let (mut puts, mut takes) = Lane::open(rt.alloc(), 4, 1, 1)?;
//! let (gate, mut seats, mut rights) = Gate::open(rt.alloc(), 1, 1)?;
//! ```
#![tactic(auto)]

pub mod gate;
pub mod lane;
pub mod limits;
mod room;

pub use gate::{AlreadyClosed, Gate, GateError, GateRefusal, Right, Seat};
pub use lane::{EndedPut, Item, Lane, LaneError, PutEnd, Settled, TakeEnd, settle};
