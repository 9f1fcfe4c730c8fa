//! The assertion that all tests share: a test that has values to drop is proved faster if it calls it than if it asserts itself.
ghost use Rattle.std.specs.Prelude.{◌≡◌, true};

use std::process::Abort;

/// Asserts that something holds of a case, and names the case where it doesn't.
pub(crate) fn assert_holds(rt: &impl Abort, holds: bool, case: &str, what: &str)
    ensures { holds ≡ true }
{
    assert!(rt; holds, "{case}: {what}");
}
