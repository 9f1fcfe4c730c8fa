//! Sums of scaled slices, written over bytes: each source is read once, and the sums stay in registers until they are written.
ghost use Rattle.std.specs.Prelude.{◌≡◌, ◌<◌, ◌≤◌, ◌+◌, ◌^◌, ℕ, bit_xor, length, slice_index};
ghost use Rattle.lrc_field.specs.Blocks.{HasLanes, HasSix, AreSet};
ghost use Rattle.lrc_field.specs.Combined.{IsAddedBelow, Reach, sum_at};
ghost use Rattle.lrc_field.specs.Field.{times};

use crate::blocks::{self, Six, Tables};
use crate::element::Gf;
use crate::sums_of_three::write_sums_of_three;
use crate::terms::Term;
use std::simd::prelude::*;

/// How many sums of terms are made at once where there are so many, in six vectors.
pub const SUMMED_AT_ONCE: usize = 192;

/// Adds 32 products of a scalar, from index `i` on. The scalar 01 needs no tables.
#[inline(always)]
fn with_products(sums: u8x32, c: Gf, bytes: &[u8], i: usize) -> u8x32
    requires { i + 32 ≤ length bytes.now }
    ensures { (f : ℕ → ℕ) → HasLanes sums f → HasLanes result (λ k. bit_xor (f k) (times c (slice_index bytes.now (i + k)))) }
{
    if c.byte() == 1 {
        blocks::added(sums, blocks::load(bytes, i))
    } else {
        let tables = Tables::new(c);
        blocks::added(sums, tables.scaled(blocks::load(bytes, i)))
    }
}

/// Adds 192 products of a scalar, from index `i` on.
#[inline(always)]
fn six_with_products(sums: Six, c: Gf, bytes: &[u8], i: usize) -> Six
    requires { i + 192 ≤ length bytes.now }
    ensures { (f : ℕ → ℕ) → HasSix sums f → HasSix result (λ k. bit_xor (f k) (times c (slice_index bytes.now (i + k)))) }
{
    if c.byte() == 1 {
        blocks::six_with_bytes(sums, bytes, i)
    } else {
        let tables = Tables::new(c);
        blocks::six_with_products(sums, tables, bytes, i)
    }
}

/// The sums at 32 positions, from index `i` on.
#[inline(always)]
fn sums_at(terms: &[Term], i: usize) -> u8x32
    requires { Reach (i + 32) terms.now }
    ensures { HasLanes result (λ k. sum_at terms.now (i + k)) }
{
    let mut sums = blocks::zeros();
    for term in terms {
        sums = with_products(sums, term.scalar, term.bytes, i);
    }
    sums
}

/// The sums at 192 positions, from index `i` on.
#[inline(always)]
fn six_sums_at(terms: &[Term], i: usize) -> Six
    requires { Reach (i + 192) terms.now }
    ensures { HasSix result (λ k. sum_at terms.now (i + k)) }
{
    let mut sums = blocks::zero_six();
    for term in terms {
        sums = six_with_products(sums, term.scalar, term.bytes, i);
    }
    sums
}

/// The product of a scalar and a byte; for 01 no table is asked.
fn product(c: Gf, byte: u8) -> u8
    ensures { result ≡ times c byte }
{
    if c.byte() == 1 {
        byte
    } else {
        c.mul(Gf::new(byte)).byte()
    }
}

/// Writes over each byte the sum at its index, where the first byte is at index `from`.
pub(crate) fn write_sums(dst: &mut [u8], from: usize, terms: &[Term])
    requires fits { from + length dst.old < 2 ^ 64 }
    requires room { Reach (from + length dst.old) terms.now }
    ensures len { length dst.new ≡ length dst.old }
    ensures sums { AreSet (λ k. sum_at terms.now (from + k)) dst.new (length dst.old) }
{
    if dst.len() < 32 {
        write_few(dst, from, terms);
        return;
    }
    if let [first, second, third] = terms {
        if first.scalar.byte() == 1 && second.scalar.byte() == 1 && third.scalar.byte() == 1 {
            write_sums_of_three(dst, from, first.bytes, second.bytes, third.bytes);
            return;
        }
    }
    let mut i = 0;
    'sixes: while dst.len() - i >= SUMMED_AT_ONCE {
        let sums = six_sums_at(terms, from + i);
        blocks::put_six(dst, i, sums);
        i += SUMMED_AT_ONCE;
    }
    'singles: while dst.len() - i >= 32 {
        let sums = sums_at(terms, from + i);
        blocks::put(dst, i, sums);
        i += 32;
    }
    if i == dst.len() {
        return;
    }
    // The last 32, of which some are written already.
    let last = dst.len() - 32;
    let sums = sums_at(terms, from + last);
    blocks::put(dst, last, sums);
}

/// Writes over each byte the sum at its index, as `write_sums`, but adds one term after the other, byte by byte.
pub(crate) fn write_few(dst: &mut [u8], from: usize, terms: &[Term])
    requires fits { from + length dst.old < 2 ^ 64 }
    requires room { Reach (from + length dst.old) terms.now }
    ensures len { length dst.new ≡ length dst.old }
    ensures sums { AreSet (λ k. sum_at terms.now (from + k)) dst.new (length dst.old) }
{
    clear(dst);
    for term in terms {
        add_few(dst, from, term.scalar, term.bytes);
    }
}

/// Writes 00 over each byte.
fn clear(bytes: &mut [u8])
    ensures len { length bytes.new ≡ length bytes.old }
    ensures zero { AreSet (λ k. 0) bytes.new (length bytes.old) }
{
    for k in 0..bytes.len() {
        bytes[k] = 0;
    }
}

/// Adds products with the bytes from index `from` on, byte by byte.
fn add_few(dst: &mut [u8], from: usize, c: Gf, bytes: &[u8])
    requires fits { from + length dst.old < 2 ^ 64 }
    requires room { from + length dst.old ≤ length bytes.now }
    ensures { IsAddedBelow (λ k. times c (slice_index bytes.now (from + k))) dst.old dst.new (length dst.old) }
{
    for k in 0..dst.len() {
        dst[k] ^= product(c, bytes[from + k]);
    }
}
