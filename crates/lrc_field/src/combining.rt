//! Sums of several scaled slices in one pass.
ghost use Rattle.std.specs.Prelude.{◌≡◌, ◌<◌, ◌≤◌, ◌+◌, ◌^◌, length};
ghost use Rattle.lrc_field.specs.Blocks.{AreSet};
ghost use Rattle.lrc_field.specs.Combined.{Reach, sum_at};

use crate::term_sums::write_sums;
use crate::terms::Term;

/// Writes over each byte the sum of the terms at its index, where the first byte is at index `from`. Takes no memory.
pub fn combine_into(dst: &mut [u8], from: usize, terms: &[Term])
    requires few { length terms.now ≤ 16 }
    requires fits { from + length dst.old < 2 ^ 64 }
    requires room { Reach (from + length dst.old) terms.now }
    ensures len { length dst.new ≡ length dst.old }
    ensures sums { AreSet (λ k. sum_at terms.now (from + k)) dst.new (length dst.old) }
{
    write_sums(dst, from, terms);
}
