//! Whether sums of scaled slices are 00.
ghost use Rattle.std.specs.Prelude.{◌≡◌, ◌<◌, ◌≤◌, ◌+◌, ◌^◌, ◌↔◌, ℕ, length};
ghost use Rattle.std.specs.Bool.{IsTrue};
ghost use Rattle.lrc_field.specs.Blocks.{AreSet};
ghost use Rattle.lrc_field.specs.Combined.{AreZeroBelow, AreZeroBetween, HaveLength, Reach, sum_at};

use crate::term_sums::{write_few, write_sums};
use crate::terms::Term;

/// How many sums are made before they are tested.
pub const TESTED_AT_ONCE: usize = 1152;

/// Whether the sum of the terms is 00 at each of `len` positions.
pub fn sums_are_zero(len: usize, terms: &[Term]) -> bool
    requires few { length terms.now ≤ 16 }
    requires lengths { HaveLength len terms.now }
    ensures { IsTrue result ↔ AreZeroBelow len terms.now }
{
    if terms.is_empty() {
        return true;
    }
    if len < 32 {
        let mut sums = [0u8; 32];
        return few_are_zero(&mut sums[..len], terms);
    }
    sums_are_zero_between(0, len, terms)
}

/// Whether the sum of the terms is 00 at each index from `from` on and below `to`.
pub fn sums_are_zero_between(from: usize, to: usize, terms: &[Term]) -> bool
    requires few { length terms.now ≤ 16 }
    requires room { Reach to terms.now }
    ensures { IsTrue result ↔ AreZeroBetween from to terms.now }
{
    if from >= to {
        return true;
    }
    let mut part = [0u8; TESTED_AT_ONCE];
    let mut at = from;
    'parts: while at < to {
        let size = (to - at).min(TESTED_AT_ONCE);
        if !part_is_zero(&mut part[..size], at, terms) {
            return false;
        }
        at += size;
    }
    true
}

/// Whether the sum of the terms is 00 at each of few positions, as many as `sums` has. The sums are written there.
fn few_are_zero(sums: &mut [u8], terms: &[Term]) -> bool
    requires { HaveLength (length sums.old) terms.now }
    ensures { IsTrue result ↔ AreZeroBelow (length sums.old) terms.now }
{
    write_few(sums, 0, terms);
    are_zeros(sums)
}

/// Whether the sums are 00 at as many positions as `part` has, from index `from` on. The sums are written there.
fn part_is_zero(part: &mut [u8], from: usize, terms: &[Term]) -> bool
    requires fits { from + length part.old < 2 ^ 64 }
    requires room { Reach (from + length part.old) terms.now }
    ensures { IsTrue result ↔ ((k : ℕ) → k < length part.old → sum_at terms.now (from + k) ≡ 0) }
{
    write_sums(part, from, terms);
    are_zeros(part)
}

/// Whether all bytes are 00.
fn are_zeros(bytes: &[u8]) -> bool
    ensures { IsTrue result ↔ AreSet (λ k. 0) bytes.now (length bytes.now) }
{
    let mut bits = 0u8;
    for byte in bytes {
        bits |= *byte;
    }
    bits == 0
}
