//! The names that callers of each crate rely on: one that moves, or takes or gives something else, doesn't compile here.
mod code;
mod field;
mod plan;
