//! The codes for C: exports over the caller's own buffers. Each tests its arguments, none takes memory, and none ends
//! the process. C declares them in `library/lrc.h`:
//!
//! ```c
//! const uint8_t *left[LRC_PLACES] = {0}; /* the survivors by place */
//! uint32_t status = lrc_rebuild(LRC_6_2_2, left, LRC_X0, out, length);
//! ```
#![tactic(auto)]

mod arguments;
mod checking;
mod combining;
mod encoding;
mod kernels;
mod lent;
mod pairing;
mod planning;
mod reading;
mod rebuilding;
mod rebuilding_many;
mod statuses;
mod updating;
mod version;
mod windows;

pub use lent::Lent;
