//! The field of 256 elements, GF(2^8) with the polynomial x^8 + x^4 + x^3 + x^2 + 1 (11D): arithmetic on one
//! element, kernels on slices of bytes, and the field's laws. Nothing here takes memory.
//!
//! ```
//! use lrc_field::{Gf, add_into, scale_add_into};
//!
//! assert_eq!(rt; Gf::new(0x80).mul(Gf::new(0x02)).byte(), 0x1d);
//! let mut sum = *b"\x01\x02";
//! add_into(&mut sum, b"\x03\x03");
//! scale_add_into(&mut sum, Gf::new(0x02), b"\x80\x01");
//! assert_eq!(rt; sum, *b"\x1f\x03");
//! ```
#![tactic(auto)]

mod blocks;
mod combining;
mod element;
mod high_products;
mod kernels;
pub mod laws;
mod low_products;
mod pairs;
mod sums_of_three;
mod tables;
mod term_sums;
mod terms;
mod zero_sums;

pub use combining::combine_into;
pub use element::Gf;
pub use kernels::{add_into, scale_add_into};
pub use pairs::{Pair, combine_pairs_into, no_pairs, pairs_in};
pub use term_sums::SUMMED_AT_ONCE;
pub use terms::{Source, Term, no_terms, terms_in};
pub use zero_sums::{TESTED_AT_ONCE, sums_are_zero, sums_are_zero_between};
