//! The assertion that all tests share: a test that has values to drop is proved faster if it calls it than if it asserts itself.
use std::process::Abort;

/// Asserts that something holds of a row of a table, and names it where it doesn't.
pub(crate) fn assert_holds(rt: &impl Abort, holds: bool, row: &str, number: usize) {
    assert!(rt; holds, "{row} {number}");
}
