//! The names of fragments in a store.
use lrc_code::{Code, Place};
use std::alloc::{AllocError, Global};
use store_names::Pattern;

/// The name of a stripe's fragment in a store; of a place that has none, the stripe's.
pub fn fragment_name(
    alloc: Global,
    pattern: &Pattern<'_>,
    code: Code,
    stripe: &str,
    place: Place,
) -> Result<String, AllocError> {
    match pattern.name_of(alloc, code, stripe, place)? {
        Some(name) => Ok(name),
        None => String::from_str(alloc, stripe),
    }
}
