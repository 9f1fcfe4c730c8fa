//! Sums of several scaled slices in vectors.
ghost use Rattle.std.specs.Prelude.{◌≡◌, ◌<◌, ◌≤◌, IfOk, OnOk, length};
ghost use Rattle.lrc_field.specs.Blocks.{AreSet};
ghost use Rattle.lrc_field.specs.Combined.{HaveLength, sum_at};
ghost use Rattle.lrc_plan.specs.Terms.{IsCombined};

use lrc_field::{Term, combine_into};
use std::alloc::{AllocError, Global};

/// So many positions are summed at a time; no fewer than twice as many are left for another part, so that none is shorter than one that is
/// summed by tables.
const PART_BYTES: usize = 4096;

/// The sum of the terms at each of `len` positions, in a vector. The vector is written once: nothing is filled with zeros but the part
/// that is about to be written.
pub(crate) fn combined(alloc: Global, len: usize, terms: &[Term]) -> Result<Vec<u8>, AllocError>
    requires few { length terms.now ≤ 16 }
    requires lengths { HaveLength len terms.now }
    ensures { IfOk result (λ v. IsCombined len terms.now v.items) }
{
    let mut bytes = Vec::with_capacity(alloc, len)?;
    'parts: while bytes.len() < len {
        append_part(&mut bytes, len, terms)?;
    }
    Ok(bytes)
}

/// Appends the sums at the next `PART_BYTES` positions, or at all that are left where these are fewer than two parts.
fn append_part(bytes: &mut Vec<u8>, len: usize, terms: &[Term]) -> Result<(), AllocError>
    requires few { length terms.now ≤ 16 }
    requires lengths { HaveLength len terms.now }
    requires more { length bytes.old.items < len }
    ensures longer { OnOk result (length bytes.old.items < length bytes.new.items) }
    ensures within { OnOk result (length bytes.new.items ≤ len) }
    ensures set { AreSet (sum_at terms.now) bytes.old.items (length bytes.old.items)
        → OnOk result (AreSet (sum_at terms.now) bytes.new.items (length bytes.new.items)) }
{
    let from = bytes.len();
    let left = len - from;
    let part = if left < 2 * PART_BYTES {
        left
    } else {
        PART_BYTES
    };
    bytes.resize(from + part, 0)?;
    combine_into(bytes.slice_mut(from..), from, terms);
    Ok(())
}
