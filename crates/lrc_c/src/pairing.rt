//! Two combinations of the same lent bytes, as pairs.
ghost use Rattle.std.specs.Prelude.{◌≡◌, ◌≤◌, ◌+◌, length};
ghost use Rattle.lrc_field.specs.Blocks.{AreSet};
ghost use Rattle.lrc_field.specs.Pairs.{first_sum_at, second_sum_at, HavePairsRoom};

use lrc_field::{Gf, Pair, combine_pairs_into};

/// Pairs are written over at least so many bytes at once.
pub(crate) const LEAST_PAIRED_BYTES: usize = 96;

/// What the products of a pair of coefficients cost, in the unit of `cost`.
const PAIR_COST: usize = 13;

/// What the products of one coefficient cost alone, in eighths of what they cost where it is neither 0 nor 1. These are times that were
/// measured; a wrong one makes a call slower.
fn cost(coefficient: Gf) -> usize
    ensures { result ≤ 8 }
{
    match coefficient.byte() {
        0 => 0,
        1 => 2,
        _ => 8,
    }
}

/// Whether two combinations are faster as pairs than each alone.
pub(crate) fn are_worth_pairing(firsts: &[Gf; 16], seconds: &[Gf; 16]) -> bool {
    let mut apart = 0;
    let mut paired = 0;
    for k in 0..16usize {
        apart += cost(firsts[k]) + cost(seconds[k]);
        if firsts[k].byte() != 0 || seconds[k].byte() != 0 {
            paired += PAIR_COST;
        }
    }
    paired < apart
}

/// Writes both sums of pairs over the bytes from index `from` on and below `to`.
pub(crate) fn write_pairs(pairs: &[Pair], a: &mut [u8], b: &mut [u8], from: usize, to: usize)
    requires room { HavePairsRoom (length a.old) pairs.now }
    requires same { length b.old ≡ length a.old }
    requires many { from + 96 ≤ to }
    requires inside { to ≤ length a.old }
    ensures first_len { length a.new ≡ length a.old }
    ensures second_len { length b.new ≡ length b.old }
    ensures first_sums { AreSet (first_sum_at pairs.now) a.old from → AreSet (first_sum_at pairs.now) a.new to }
    ensures second_sums { AreSet (second_sum_at pairs.now) b.old from → AreSet (second_sum_at pairs.now) b.new to }
{
    combine_pairs_into(&mut a[from..to], &mut b[from..to], from, pairs);
}
