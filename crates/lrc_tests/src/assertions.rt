//! Where tests of this crate end: in assertions, and where memory is refused. The proof of a function grows with each of its ends and
//! with what it owns there, so the other functions have one end each.
ghost use Rattle.std.specs.Prelude.{◌≡◌, Ok};

use std::alloc::AllocError;
use std::process::Abort;

/// Asserts that what a test is named for holds.
pub fn assert_so(rt: &impl Abort, holds: bool) {
    assert!(rt; holds);
}

/// What a call gives that is granted its memory. Where it is refused the test ends, and says so in the words of a test that gives the
/// error.
pub fn given<T, E: Into<AllocError>>(rt: &impl Abort, outcome: Result<T, E>) -> T
    ensures { outcome ≡ Ok result }
{
    match outcome {
        Ok(value) => value,
        Err(refusal) => {
            let error: AllocError = refusal.into();
            rt.panic(format_args!("Error: {error:?}"))
        }
    }
}

/// Whether bytes are the same: the proof of a function that compares them itself takes longer.
pub fn are_same_bytes(one: &[u8], other: &[u8]) -> bool {
    one == other
}
