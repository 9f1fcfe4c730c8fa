//! SHA-256 (FIPS 180-4) of eight messages of one length at once: each word of the computation is a vector of eight words of 32
//! bits, a lane for each message. Every digest is proved to be the one that the crate `sha2` defines. Nothing here takes memory
//! or refuses, and no length is excluded.
//!
//! ```
//! use sha256_lanes::digests;
//!
//! let messages = [b"abc".as_slice(), b"".as_slice()];
//! let mut found = [[0; 32]; 2];
//! digests(&messages, &mut found);
//! assert_eq!(found[0][..4], [0xba, 0x78, 0x16, 0xbf]);
//! ```
#![tactic(auto)]

mod block;
mod consts;
mod digest;
mod hasher;
mod many;
mod rounds;
mod tail;

pub use digest::{Digest, are_of_one_length};
pub use hasher::{HasherOfEight, digests_of_eight};
pub use many::digests;
