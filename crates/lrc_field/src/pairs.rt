//! Pairs of scalars with the bytes that both scale, lists of them, and two sums over the same slices in one pass: each byte is read and
//! halved once for both.
ghost use Rattle.std.specs.Prelude.{◌≡◌, ◌≢◌, ◌⊎◌, ◌<◌, ◌≤◌, ◌+◌, ◌^◌, ℕ, true, false, [], bit_xor, length, map};
ghost use Rattle.std.specs.Prelude.{slice_index, slice_index_or, take};
ghost use Rattle.lrc_field.specs.Blocks.{AreSet, HasTrio};
ghost use Rattle.lrc_field.specs.Field.{times};
ghost use Rattle.lrc_field.specs.Pairs.{AllReach, ArePairsOf, first_sum_at, second_sum_at};
ghost use Rattle.lrc_field.specs.Sums.{column, combination};
ghost use Rattle.lrc_field.specs.Terms.{HaveLengthWhereUsed};

use crate::blocks::{self, Trio};
use crate::element::Gf;
use crate::terms::{Source, bytes_at};

/// Two scalars, and the bytes that each of them scales. The bytes come first, as those of a term.
#[derive(Clone, Copy)]
pub struct Pair<'a> {
    pub bytes: &'a [u8],
    pub first: Gf,
    pub second: Gf,
}

/// Room for sixteen pairs, which has none yet.
#[inline(always)]
pub fn no_pairs<'a>() -> [Pair<'a>; 16]
    ensures { length result ≡ 16 }
{
    [
        no_pair(),
        no_pair(),
        no_pair(),
        no_pair(),
        no_pair(),
        no_pair(),
        no_pair(),
        no_pair(),
        no_pair(),
        no_pair(),
        no_pair(),
        no_pair(),
        no_pair(),
        no_pair(),
        no_pair(),
        no_pair(),
    ]
}

/// 00 times no bytes, twice.
fn no_pair<'a>() -> Pair<'a> {
    Pair {
        bytes: &[],
        first: Gf::new(0),
        second: Gf::new(0),
    }
}

/// The pairs of sources with two coefficients for each, at most sixteen of each kind: a pair for each source that isn't empty, unless both
/// its coefficients are 00. They are written at the start of the room, as by `terms_in`.
pub fn pairs_in<'s, 'a, S: Source<'a>>(
    room: &'s mut [Pair<'a>; 16],
    firsts: &[Gf],
    seconds: &[Gf],
    sources: &[S],
) -> &'s [Pair<'a>]
    requires many { length room.old ≡ 16 }
    requires few { length firsts.now ≤ 16 }
    requires same { length seconds.now ≡ length firsts.now }
    ensures few { length result.now ≤ 16 }
    ensures first_sums { (i : ℕ) → first_sum_at result.now i ≡ combination firsts.now (column (map S.bytes_of sources.now) i) }
    ensures second_sums { (i : ℕ) → second_sum_at result.now i ≡ combination seconds.now (column (map S.bytes_of sources.now) i) }
    ensures pairs { (len : ℕ) → HaveLengthWhereUsed firsts.now (map S.bytes_of sources.now) len
        → HaveLengthWhereUsed seconds.now (map S.bytes_of sources.now) len
        → ArePairsOf firsts.now seconds.now (map S.bytes_of sources.now) len result.now }
{
    let count = fill_room(room, firsts, seconds, sources);
    &room[..count]
}

/// Writes the pairs at the start of the room, and returns how many there are.
fn fill_room<'a, S: Source<'a>>(
    room: &mut [Pair<'a>; 16],
    firsts: &[Gf],
    seconds: &[Gf],
    sources: &[S],
) -> usize
    requires many { length room.old ≡ 16 }
    requires few { length firsts.now ≤ 16 }
    requires same { length seconds.now ≡ length firsts.now }
    ensures len { length room.new ≡ 16 }
    ensures count { result ≤ 16 }
    ensures first_sums { (i : ℕ) → first_sum_at (take result room.new) i ≡ combination firsts.now (column (map S.bytes_of sources.now) i) }
    ensures second_sums { (i : ℕ) → second_sum_at (take result room.new) i
        ≡ combination seconds.now (column (map S.bytes_of sources.now) i) }
    ensures pairs { (len : ℕ) → HaveLengthWhereUsed firsts.now (map S.bytes_of sources.now) len
        → HaveLengthWhereUsed seconds.now (map S.bytes_of sources.now) len
        → ArePairsOf firsts.now seconds.now (map S.bytes_of sources.now) len (take result room.new) }
{
    let mut count = 0;
    for k in 0..firsts.len() {
        let first = firsts[k];
        let second = seconds[k];
        if has_products(first, second, sources, k) {
            let bytes = bytes_at(sources, k);
            room[count] = Pair {
                bytes,
                first,
                second,
            };
            count += 1;
        }
    }
    count
}

/// Whether the products of two scalars with the bytes of the source at an index may be other than 00.
#[inline(always)]
fn has_products<'a, S: Source<'a>>(first: Gf, second: Gf, sources: &[S], k: usize) -> bool
    ensures yes { result ≡ true → ((first ≢ 0) ⊎ (second ≢ 0)) × (length (slice_index_or (map S.bytes_of sources.now) k []) ≢ 0) }
    ensures no { result ≡ false → (i : ℕ) → (times first (slice_index (slice_index_or (map S.bytes_of sources.now) k []) i) ≡ 0)
        × (times second (slice_index (slice_index_or (map S.bytes_of sources.now) k []) i) ≡ 0) }
{
    (first.byte() != 0 || second.byte() != 0) && !bytes_at(sources, k).is_empty()
}

/// Adds to two sums at 96 positions the products of the bytes from position `i` on, each with a scalar of its own. Where both scalars
/// are 01, no tables are needed.
#[inline(always)]
fn with_products(a: Trio, b: Trio, first: Gf, second: Gf, bytes: &[u8], i: usize) -> (Trio, Trio)
    requires { i + 96 ≤ length bytes.now }
    ensures first { (f : ℕ → ℕ) → HasTrio a f → HasTrio result.0 (λ k. bit_xor (f k) (times first (slice_index bytes.now (i + k)))) }
    ensures second { (f : ℕ → ℕ) → HasTrio b f → HasTrio result.1 (λ k. bit_xor (f k) (times second (slice_index bytes.now (i + k)))) }
{
    let trio = blocks::load_trio(bytes, i);
    if first.byte() == 1 && second.byte() == 1 {
        return (blocks::added_trio(a, trio), blocks::added_trio(b, trio));
    }
    (
        blocks::trio_with_products(a, first, trio),
        blocks::trio_with_products(b, second, trio),
    )
}

/// Writes both sums at 96 positions, from position `i` on.
#[inline(always)]
fn put_sums(first: &mut [u8], second: &mut [u8], i: usize, from: usize, pairs: &[Pair])
    requires fits { from + length first.old < 2 ^ 64 }
    requires first { i + 96 ≤ length first.old }
    requires second { i + 96 ≤ length second.old }
    requires room { AllReach (from + i + 96) pairs.now }
    ensures first_len { length first.new ≡ length first.old }
    ensures second_len { length second.new ≡ length second.old }
    ensures first_set { AreSet (λ k. first_sum_at pairs.now (from + k)) first.old i
        → AreSet (λ k. first_sum_at pairs.now (from + k)) first.new (i + 96) }
    ensures second_set { AreSet (λ k. second_sum_at pairs.now (from + k)) second.old i
        → AreSet (λ k. second_sum_at pairs.now (from + k)) second.new (i + 96) }
{
    let at = from + i;
    let mut a = blocks::zero_trio();
    let mut b = blocks::zero_trio();
    for pair in pairs {
        let sums = with_products(a, b, pair.first, pair.second, pair.bytes, at);
        a = sums.0;
        b = sums.1;
    }
    blocks::put_trio(first, i, a);
    blocks::put_trio(second, i, b);
}

/// Writes over each byte of `first` the sum at its index of the bytes times their first scalars, and over each of `second` that of the
/// bytes times their second scalars, where the first byte is at index `from`. Both have one length, of at least 96. Takes no memory.
pub fn combine_pairs_into(first: &mut [u8], second: &mut [u8], from: usize, pairs: &[Pair])
    requires many { 96 ≤ length first.old }
    requires same { length second.old ≡ length first.old }
    requires fits { from + length first.old < 2 ^ 64 }
    requires room { AllReach (from + length first.old) pairs.now }
    ensures first_len { length first.new ≡ length first.old }
    ensures second_len { length second.new ≡ length second.old }
    ensures first_sums { AreSet (λ k. first_sum_at pairs.now (from + k)) first.new (length first.old) }
    ensures second_sums { AreSet (λ k. second_sum_at pairs.now (from + k)) second.new (length second.old) }
{
    let mut i = 0;
    'trios: while first.len() - i >= 96 {
        put_sums(first, second, i, from, pairs);
        i += 96;
    }
    if i == first.len() {
        return;
    }
    // The last 96, of which some are written already.
    let last = first.len() - 96;
    put_sums(first, second, last, from, pairs);
}
