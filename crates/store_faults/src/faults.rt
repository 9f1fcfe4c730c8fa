//! Why a store is refused, and why a file isn't encoded or read.
pub(crate) mod file;
pub(crate) mod store;
