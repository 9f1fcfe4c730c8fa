//! Sums of three slices as they are.
ghost use Rattle.std.specs.Prelude.{◌≡◌, ◌<◌, ◌≤◌, ◌+◌, ◌^◌, length};
ghost use Rattle.lrc_field.specs.Blocks.{HasLanes, HasQuad, AreSet};
ghost use Rattle.lrc_field.specs.Combined.{three_at};

use crate::blocks::{self, Quad};
use std::simd::prelude::*;

/// Writes over each byte the sum of three slices at its index, where the first byte is at index `from`. A group of four has such a sum for
/// one that is lost. No table is looked for.
pub(crate) fn write_sums_of_three(
    dst: &mut [u8],
    from: usize,
    first: &[u8],
    second: &[u8],
    third: &[u8],
)
    requires many { 32 ≤ length dst.old }
    requires fits { from + length dst.old < 2 ^ 64 }
    requires in_first { from + length dst.old ≤ length first.now }
    requires in_second { from + length dst.old ≤ length second.now }
    requires in_third { from + length dst.old ≤ length third.now }
    ensures len { length dst.new ≡ length dst.old }
    ensures sums { AreSet (λ k. three_at first.now second.now third.now (from + k)) dst.new (length dst.old) }
{
    let mut i = write_quads_of_three(dst, from, first, second, third);
    'singles: while dst.len() - i >= 32 {
        let sums = block_of_three(first, second, third, from + i);
        blocks::put(dst, i, sums);
        i += 32;
    }
    if i == dst.len() {
        return;
    }
    // The last 32, of which some are written already.
    let rest = dst.len() - 32;
    let sums = block_of_three(first, second, third, from + rest);
    blocks::put(dst, rest, sums);
}

/// Writes the sums at as many of the first positions as whole blocks of 128 have, and says how many. A block is written after the next
/// one's bytes are read: a read waits for a write before it whose address has the same low twelve bits, and memory that is taken
/// after the sources' is often a few bytes past theirs in that measure.
#[inline(always)]
fn write_quads_of_three(
    dst: &mut [u8],
    from: usize,
    first: &[u8],
    second: &[u8],
    third: &[u8],
) -> usize
    requires fits { from + length dst.old < 2 ^ 64 }
    requires in_first { from + length dst.old ≤ length first.now }
    requires in_second { from + length dst.old ≤ length second.now }
    requires in_third { from + length dst.old ≤ length third.now }
    ensures len { length dst.new ≡ length dst.old }
    ensures within { result ≤ length dst.old }
    ensures sums { AreSet (λ k. three_at first.now second.now third.now (from + k)) dst.new result }
{
    if dst.len() < 128 {
        return 0;
    }
    let mut sums = quad_of_three(first, second, third, from);
    let mut i = 0;
    'quads: while dst.len() - i >= 256 {
        let next = quad_of_three(first, second, third, from + i + 128);
        blocks::put_quad(dst, i, sums);
        sums = next;
        i += 128;
    }
    blocks::put_quad(dst, i, sums);
    i + 128
}

/// The sums of three slices at 32 positions, from index `i` on.
#[inline(always)]
fn block_of_three(first: &[u8], second: &[u8], third: &[u8], i: usize) -> u8x32
    requires in_first { i + 32 ≤ length first.now }
    requires in_second { i + 32 ≤ length second.now }
    requires in_third { i + 32 ≤ length third.now }
    ensures { HasLanes result (λ k. three_at first.now second.now third.now (i + k)) }
{
    let later = blocks::added(blocks::load(second, i), blocks::load(third, i));
    blocks::added(blocks::load(first, i), later)
}

/// The sums of three slices at 128 positions, from index `i` on.
#[inline(always)]
fn quad_of_three(first: &[u8], second: &[u8], third: &[u8], i: usize) -> Quad
    requires in_first { i + 128 ≤ length first.now }
    requires in_second { i + 128 ≤ length second.now }
    requires in_third { i + 128 ≤ length third.now }
    ensures { HasQuad result (λ k. three_at first.now second.now third.now (i + k)) }
{
    let later = blocks::added_quad(blocks::load_quad(second, i), blocks::load_quad(third, i));
    blocks::added_quad(blocks::load_quad(first, i), later)
}
