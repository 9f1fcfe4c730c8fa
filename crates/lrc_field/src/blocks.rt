//! Blocks of 32 bytes, one lane a byte.
ghost use Rattle.std.specs.Prelude.{◌≡◌, ◌<◌, ◌≤◌, ◌+◌, ◌*◌, ◌/◌, ◌%◌, ◌^◌, ℕ, bit_xor, length, slice_index};
ghost use Rattle.lrc_field.specs.Field.{times};
ghost use Rattle.lrc_field.specs.Blocks.{HasLanes, HasQuad, HasSix, HasTrio, AreTables, AreSet, IsBlockAdded};

use crate::element::Gf;
use crate::high_products::HIGH_PRODUCTS;
use crate::low_products::LOW_PRODUCTS;
use std::simd::prelude::*;

/// A scalar's products with the low halves of bytes (00 to 0F) and with the high halves (00, 10 to F0), in registers.
/// Each table is there twice, since a shuffle reads within blocks of 16 lanes.
#[derive(Clone, Copy)]
pub(crate) struct Tables {
    low: u8x32,
    high: u8x32,
}

/// 96 bytes, in registers.
#[derive(Clone, Copy)]
pub(crate) struct Trio {
    first: u8x32,
    second: u8x32,
    third: u8x32,
}

/// 192 bytes, in registers.
#[derive(Clone, Copy)]
pub(crate) struct Six {
    front: Trio,
    back: Trio,
}

/// 128 bytes, in registers.
#[derive(Clone, Copy)]
pub(crate) struct Quad {
    first: u8x32,
    second: u8x32,
    third: u8x32,
    fourth: u8x32,
}

/// The 32 bytes from index `i` on.
#[inline(always)]
pub(crate) fn load(bytes: &[u8], i: usize) -> u8x32
    requires { i + 32 ≤ length bytes.now }
    ensures { HasLanes result (λ k. slice_index bytes.now (i + k)) }
{
    u8x32::from_slice(&bytes[i..])
}

/// Writes the vector over the 32 bytes from index `i` on.
#[inline(always)]
fn store(bytes: &mut [u8], i: usize, v: u8x32)
    requires room { i + 32 ≤ length bytes.old }
    requires whole { length v ≡ 32 }
    ensures len { length bytes.new ≡ length bytes.old }
    ensures below { (k : ℕ) → k < i → slice_index bytes.new k ≡ slice_index bytes.old k }
    ensures inside { (k : ℕ) → k < 32 → slice_index bytes.new (i + k) ≡ slice_index v k }
    ensures above { (k : ℕ) → i + 32 ≤ k → slice_index bytes.new k ≡ slice_index bytes.old k }
{
    v.copy_to_slice(&mut bytes[i..]);
}

/// The sums of two blocks of 32 bytes.
#[inline(always)]
pub(crate) fn added(a: u8x32, b: u8x32) -> u8x32
    ensures { HasLanes result (λ k. bit_xor (slice_index a k) (slice_index b k)) }
{
    a ^ b
}

/// The lower four bits of each lane.
#[inline(always)]
fn low_halves(bytes: u8x32) -> u8x32
    ensures { HasLanes result (λ k. slice_index bytes k % 16) }
{
    bytes & u8x32::splat(15)
}

/// The upper four bits of each lane.
#[inline(always)]
fn high_halves(bytes: u8x32) -> u8x32
    ensures { HasLanes result (λ k. slice_index bytes k / 16) }
{
    bytes >> u8x32::splat(4)
}

/// In each lane the table's entry at that half, read within the lane's own block of 16.
#[inline(always)]
fn looked_up(table: u8x32, halves: u8x32) -> u8x32
    requires { (k : ℕ) → k < 32 → slice_index halves k < 16 }
    ensures { HasLanes result (λ k. slice_index table (16 * (k / 16) + slice_index halves k)) }
{
    table.swizzle_dyn_within::<16>(halves)
}

/// The 16 bytes from index `i` on.
#[inline(always)]
fn load_sixteen(bytes: &[u8], i: usize) -> u8x16
    requires { i + 16 ≤ length bytes.now }
    ensures long { length result ≡ 16 }
    ensures each { (k : ℕ) → k < 16 → slice_index result k ≡ slice_index bytes.now (i + k) }
{
    u8x16::from_slice(&bytes[i..])
}

/// Sixteen lanes, twice.
#[inline(always)]
fn twice(lanes: u8x16) -> u8x32
    requires { length lanes ≡ 16 }
    ensures { HasLanes result (λ k. slice_index lanes (k % 16)) }
{
    lanes.swizzle([
        0, 1, 2, 3, 4, 5, 6, 7, 8, 9, 10, 11, 12, 13, 14, 15, 0, 1, 2, 3, 4, 5, 6, 7, 8, 9, 10, 11,
        12, 13, 14, 15,
    ])
}

/// The line of a byte in a table of all bytes' lines, twice.
#[inline(always)]
fn line(table: &[u8; 4096], byte: u8) -> u8x32
    ensures { HasLanes result (λ k. slice_index table.now (16 * byte + k % 16)) }
{
    twice(load_sixteen(table, 16 * byte as usize))
}

impl Tables {
    /// The tables of a scalar's products.
    #[inline(always)]
    pub(crate) fn new(scalar: Gf) -> Tables
        ensures { AreTables scalar result.low result.high }
    {
        let low = line(&LOW_PRODUCTS, scalar.byte());
        let high = line(&HIGH_PRODUCTS, scalar.byte());
        Tables { low, high }
    }

    /// The scalar times each lane.
    #[inline(always)]
    pub(crate) fn scaled(self, bytes: u8x32) -> u8x32
        ensures { (c : ℕ) → AreTables c self.low self.high → HasLanes result (λ k. times c (slice_index bytes k)) }
    {
        let low = looked_up(self.low, low_halves(bytes));
        let high = looked_up(self.high, high_halves(bytes));
        added(low, high)
    }

    /// The scalar times each of 96 bytes.
    #[inline(always)]
    fn scaled_trio(self, bytes: Trio) -> Trio
        ensures { (c : ℕ) (f : ℕ → ℕ) → AreTables c self.low self.high → HasTrio bytes f → HasTrio result (λ k. times c (f k)) }
    {
        Trio {
            first: self.scaled(bytes.first),
            second: self.scaled(bytes.second),
            third: self.scaled(bytes.third),
        }
    }
}

/// 32 bytes 00.
#[inline(always)]
pub(crate) fn zeros() -> u8x32
    ensures { HasLanes result (λ k. 0) }
{
    u8x32::splat(0)
}

/// 96 bytes 00.
#[inline(always)]
pub(crate) fn zero_trio() -> Trio
    ensures { HasTrio result (λ k. 0) }
{
    Trio {
        first: zeros(),
        second: zeros(),
        third: zeros(),
    }
}

/// 192 bytes 00.
#[inline(always)]
pub(crate) fn zero_six() -> Six
    ensures { HasSix result (λ k. 0) }
{
    Six {
        front: zero_trio(),
        back: zero_trio(),
    }
}

/// The 96 bytes from index `i` on.
#[inline(always)]
pub(crate) fn load_trio(bytes: &[u8], i: usize) -> Trio
    requires { i + 96 ≤ length bytes.now }
    ensures { HasTrio result (λ k. slice_index bytes.now (i + k)) }
{
    Trio {
        first: load(bytes, i),
        second: load(bytes, i + 32),
        third: load(bytes, i + 64),
    }
}

/// The sums of two blocks of 96 bytes.
#[inline(always)]
pub(crate) fn added_trio(p: Trio, q: Trio) -> Trio
    ensures { (f g : ℕ → ℕ) → HasTrio p f → HasTrio q g → HasTrio result (λ k. bit_xor (f k) (g k)) }
{
    Trio {
        first: added(p.first, q.first),
        second: added(p.second, q.second),
        third: added(p.third, q.third),
    }
}

/// Adds to sums at 96 positions the products of a scalar with the bytes there.
#[inline(always)]
pub(crate) fn trio_with_products(sums: Trio, c: Gf, bytes: Trio) -> Trio
    ensures { (f x : ℕ → ℕ) → HasTrio sums f → HasTrio bytes x → HasTrio result (λ k. bit_xor (f k) (times c (x k))) }
{
    let tables = Tables::new(c);
    added_trio(sums, tables.scaled_trio(bytes))
}

/// Adds to sums at 192 positions the bytes from index `i` on.
#[inline(always)]
pub(crate) fn six_with_bytes(sums: Six, bytes: &[u8], i: usize) -> Six
    requires { i + 192 ≤ length bytes.now }
    ensures { (f : ℕ → ℕ) → HasSix sums f → HasSix result (λ k. bit_xor (f k) (slice_index bytes.now (i + k))) }
{
    Six {
        front: added_trio(sums.front, load_trio(bytes, i)),
        back: added_trio(sums.back, load_trio(bytes, i + 96)),
    }
}

/// Adds to sums at 192 positions the products with the bytes from index `i` on.
#[inline(always)]
pub(crate) fn six_with_products(sums: Six, tables: Tables, bytes: &[u8], i: usize) -> Six
    requires { i + 192 ≤ length bytes.now }
    ensures { (c : ℕ) (f : ℕ → ℕ) → AreTables c tables.low tables.high → HasSix sums f
        → HasSix result (λ k. bit_xor (f k) (times c (slice_index bytes.now (i + k)))) }
{
    Six {
        front: added_trio(sums.front, tables.scaled_trio(load_trio(bytes, i))),
        back: added_trio(sums.back, tables.scaled_trio(load_trio(bytes, i + 96))),
    }
}

/// The 128 bytes from index `i` on.
#[inline(always)]
pub(crate) fn load_quad(bytes: &[u8], i: usize) -> Quad
    requires { i + 128 ≤ length bytes.now }
    ensures { HasQuad result (λ k. slice_index bytes.now (i + k)) }
{
    Quad {
        first: load(bytes, i),
        second: load(bytes, i + 32),
        third: load(bytes, i + 64),
        fourth: load(bytes, i + 96),
    }
}

/// The sums of two blocks of 128 bytes.
#[inline(always)]
pub(crate) fn added_quad(p: Quad, q: Quad) -> Quad
    ensures { (f g : ℕ → ℕ) → HasQuad p f → HasQuad q g → HasQuad result (λ k. bit_xor (f k) (g k)) }
{
    Quad {
        first: added(p.first, q.first),
        second: added(p.second, q.second),
        third: added(p.third, q.third),
        fourth: added(p.fourth, q.fourth),
    }
}

/// Writes 32 bytes from index `i` on. Where all bytes before them are what they should be, all up to their end are.
#[inline(always)]
pub(crate) fn put(bytes: &mut [u8], i: usize, v: u8x32)
    requires room { i + 32 ≤ length bytes.old }
    requires whole { length v ≡ 32 }
    ensures len { length bytes.new ≡ length bytes.old }
    ensures set { (f : ℕ → ℕ) → AreSet f bytes.old i → HasLanes v (λ k. f (i + k)) → AreSet f bytes.new (i + 32) }
{
    store(bytes, i, v);
}

/// Writes 128 bytes from index `i` on. Where all bytes before them are what they should be, all up to their end are.
#[inline(always)]
pub(crate) fn put_quad(bytes: &mut [u8], i: usize, q: Quad)
    requires room { i + 128 ≤ length bytes.old }
    requires whole { (length q.first ≡ 32) × (length q.second ≡ 32) × (length q.third ≡ 32) × (length q.fourth ≡ 32) }
    ensures len { length bytes.new ≡ length bytes.old }
    ensures set { (f : ℕ → ℕ) → AreSet f bytes.old i → HasQuad q (λ k. f (i + k)) → AreSet f bytes.new (i + 128) }
{
    put(bytes, i, q.first);
    put(bytes, i + 32, q.second);
    put(bytes, i + 64, q.third);
    put(bytes, i + 96, q.fourth);
}

/// Writes 96 bytes from index `i` on. Where all bytes before them are what they should be, all up to their end are.
#[inline(always)]
pub(crate) fn put_trio(bytes: &mut [u8], i: usize, t: Trio)
    requires room { i + 96 ≤ length bytes.old }
    requires whole { (length t.first ≡ 32) × (length t.second ≡ 32) × (length t.third ≡ 32) }
    ensures len { length bytes.new ≡ length bytes.old }
    ensures set { (f : ℕ → ℕ) → AreSet f bytes.old i → HasTrio t (λ k. f (i + k)) → AreSet f bytes.new (i + 96) }
{
    put(bytes, i, t.first);
    put(bytes, i + 32, t.second);
    put(bytes, i + 64, t.third);
}

/// Writes 192 bytes from index `i` on. Where all bytes before them are what they should be, all up to their end are.
#[inline(always)]
pub(crate) fn put_six(bytes: &mut [u8], i: usize, s: Six)
    requires room { i + 192 ≤ length bytes.old }
    requires front { (length s.front.first ≡ 32) × (length s.front.second ≡ 32) × (length s.front.third ≡ 32) }
    requires back { (length s.back.first ≡ 32) × (length s.back.second ≡ 32) × (length s.back.third ≡ 32) }
    ensures len { length bytes.new ≡ length bytes.old }
    ensures set { (f : ℕ → ℕ) → AreSet f bytes.old i → HasSix s (λ k. f (i + k)) → AreSet f bytes.new (i + 192) }
{
    put_trio(bytes, i, s.front);
    put_trio(bytes, i + 96, s.back);
}

/// Adds 32 bytes of `src`, from index `i` on.
#[inline(always)]
pub(crate) fn add_block(dst: &mut [u8], i: usize, src: &[u8])
    requires to { i + 32 ≤ length dst.old }
    requires from { i + 32 ≤ length src.now }
    ensures { IsBlockAdded (λ k. slice_index src.now k) dst.old dst.new i 32 }
{
    let bytes = load(src, i);
    let old = load(dst, i);
    let sums = added(old, bytes);
    store(dst, i, sums);
}

/// Adds 32 products with bytes of `src`, from index `i` on.
#[inline(always)]
pub(crate) fn scale_add_block(dst: &mut [u8], i: usize, tables: Tables, src: &[u8])
    requires to { i + 32 ≤ length dst.old }
    requires from { i + 32 ≤ length src.now }
    ensures { (c : ℕ) → AreTables c tables.low tables.high → IsBlockAdded (λ k. times c (slice_index src.now k)) dst.old dst.new i 32 }
{
    let bytes = load(src, i);
    let products = tables.scaled(bytes);
    let old = load(dst, i);
    let sums = added(old, products);
    store(dst, i, sums);
}

/// The first 16 of 32 bytes.
#[inline(always)]
fn front(v: u8x32) -> u8x16
    requires { length v ≡ 32 }
    ensures long { length result ≡ 16 }
    ensures each { (k : ℕ) → k < 16 → slice_index result k ≡ slice_index v k }
{
    v.swizzle([0, 1, 2, 3, 4, 5, 6, 7, 8, 9, 10, 11, 12, 13, 14, 15])
}

/// Writes the vector over the 16 bytes from position `i` on.
#[inline(always)]
fn store_sixteen(bytes: &mut [u8], i: usize, v: u8x16)
    requires room { i + 16 ≤ length bytes.old }
    requires whole { length v ≡ 16 }
    ensures len { length bytes.new ≡ length bytes.old }
    ensures below { (k : ℕ) → k < i → slice_index bytes.new k ≡ slice_index bytes.old k }
    ensures inside { (k : ℕ) → k < 16 → slice_index bytes.new (i + k) ≡ slice_index v k }
    ensures above { (k : ℕ) → i + 16 ≤ k → slice_index bytes.new k ≡ slice_index bytes.old k }
{
    v.copy_to_slice(&mut bytes[i..]);
}

/// Adds 16 products with bytes of `src`, from position `i` on.
#[inline(always)]
pub(crate) fn scale_add_half(dst: &mut [u8], i: usize, tables: Tables, src: &[u8])
    requires to { i + 16 ≤ length dst.old }
    requires from { i + 16 ≤ length src.now }
    ensures { (c : ℕ) → AreTables c tables.low tables.high → IsBlockAdded (λ k. times c (slice_index src.now k)) dst.old dst.new i 16 }
{
    let bytes = twice(load_sixteen(src, i));
    let products = tables.scaled(bytes);
    let old = twice(load_sixteen(dst, i));
    store_sixteen(dst, i, front(added(old, products)));
}
