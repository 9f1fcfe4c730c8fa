//! Line mode: each line of an input is a request for a lost fragment, and each line of the output the reply to one.
//!
//! ```
//! use line_mode::{LineCount, line_mode};
//!
//! let mut input = b"a x0 1 x1=02 x2=03 px=00\n".as_slice();
//! let mut output = Vec::new(alloc);
//! let count = line_mode(alloc, &mut input, &mut output)?;
//! assert_eq!(rt; output.as_slice(), b"rebuilt 01\n".as_slice());
//! assert_eq!(rt; count, LineCount { answered: 1, refused: 0 });
//! ```
#![tactic(auto)]

mod hexadecimal;
mod input;
pub mod laws;
mod line;
mod lines;
mod memory;
mod outcomes;
mod parsing;
mod pieces;
mod refusals;
mod replies;
mod scanning;
mod words;

pub use line::{line_mode, line_mode_in_threads, line_status};
pub use outcomes::{LineCount, LineFault};
