//! Assertions in a function of their own: a test that has values to drop is proved faster if it calls it than if it asserts itself.
use std::process::Abort;

/// Asserts that something holds, and says what it is where it doesn't.
pub(crate) fn assert_holds(rt: &impl Abort, holds: bool, what: &str) {
    assert!(rt; holds, "{what}");
}
