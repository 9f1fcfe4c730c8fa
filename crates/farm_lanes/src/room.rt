//! Room for a list of which the length is known before its first member.
ghost use Rattle.std.specs.Prelude.{◌≡◌, ◌≤◌, [], IfOk, vec_capacity};

use std::alloc::{AllocError, Allocator};

/// An empty list with room for so many members.
pub(crate) fn room_for<T, A: Allocator + Clone>(
    alloc: &A,
    count: usize,
) -> Result<Vec<T, A>, AllocError>
    ensures { IfOk result (λ v. (v.items ≡ []) × (count ≤ vec_capacity v)) }
{
    Vec::with_capacity(alloc.clone()?, count)
}
