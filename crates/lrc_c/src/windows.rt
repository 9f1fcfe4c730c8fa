//! Several combinations in one pass: window by window, each over the same bytes while these are near the processor.
ghost use Rattle.std.specs.Prelude.{◌↔◌, ◌≡◌, ◌<◌, ◌≤◌, None, true, false, length};
ghost use Rattle.std.specs.Bool.{IsTrue};
ghost use Rattle.lrc_c.specs.Windows.{AreReady, AreRooms, AreWritten, AreZeroWithin, HasRoom, HaveRooms, IsSomeWritten};

use crate::combining::{is_zero, write_window};
use crate::pairing::{LEAST_PAIRED_BYTES, write_pairs};
use lrc_field::{Pair, Term};

/// How many bytes of each fragment a window has.
const WINDOW: usize = 2304;

/// What is wanted in two rooms: sums by their terms, or nothing. Pairs give both sums in one pass over their bytes; there are none where
/// each is written alone.
#[derive(Clone, Copy)]
pub(crate) struct Couple<'s, 'a> {
    pub(crate) first: Option<&'s [Term<'a>]>,
    pub(crate) second: Option<&'s [Term<'a>]>,
    pub(crate) pairs: &'s [Pair<'a>],
}

impl<'s, 'a> Couple<'s, 'a> {
    /// Nothing in either room.
    pub(crate) fn nothing() -> Couple<'s, 'a>
        ensures first { result.first ≡ None }
        ensures second { result.second ≡ None }
        ensures pairs { length result.pairs.now ≡ 0 }
    {
        Couple {
            first: None,
            second: None,
            pairs: &[],
        }
    }
}

/// What is wanted in four rooms: in the first two, and in the last two.
#[derive(Clone, Copy)]
pub(crate) struct Wants<'s, 'a> {
    pub(crate) front: Couple<'s, 'a>,
    pub(crate) back: Couple<'s, 'a>,
}

/// Sums over fragments of a length, which are tested for 00.
#[derive(Clone, Copy)]
pub(crate) struct Checks<'s, 'a> {
    pub(crate) len: usize,
    pub(crate) first: &'s [Term<'a>],
    pub(crate) second: &'s [Term<'a>],
    pub(crate) third: &'s [Term<'a>],
    pub(crate) fourth: &'s [Term<'a>],
}

/// Tests whether all checks are 00 at every position, and writes what is wanted. Where some check isn't 00 the rooms are written up to some
/// position, and the answer is false.
pub(crate) fn write_checked(
    checks: &Checks,
    wants: &Wants,
    a: &mut [u8],
    b: &mut [u8],
    c: &mut [u8],
    d: &mut [u8],
) -> bool
    requires ready { AreReady checks.now }
    requires rooms { AreRooms checks.now.len wants.now (length a.old) (length b.old) (length c.old) (length d.old) }
    ensures zero { result ≡ true → AreZeroWithin 0 checks.now.len checks.now }
    ensures written { result ≡ true → AreWritten wants.now checks.now.len a.new b.new c.new d.new }
    ensures no { result ≡ false → ¬ AreZeroWithin 0 checks.now.len checks.now }
{
    let len = checks.len;
    let mut from = 0;
    'windows: while from < len {
        let to = window_end(from, len);
        if !are_zero(checks, from, to) {
            return false;
        }
        write_two(&wants.front, a, b, len, from, to);
        write_two(&wants.back, c, d, len, from, to);
        from = to;
    }
    true
}

/// The end of the window that begins at an index.
fn window_end(from: usize, len: usize) -> usize
    requires { from < len }
    ensures further { from < result }
    ensures within { result ≤ len }
{
    from + (len - from).min(WINDOW)
}

/// Whether all sums are 00 at the positions of a window.
fn are_zero(checks: &Checks, from: usize, to: usize) -> bool
    requires ready { AreReady checks.now }
    requires inside { to ≤ checks.now.len }
    ensures { IsTrue result ↔ AreZeroWithin from to checks.now }
{
    let len = checks.len;
    is_zero(checks.first, len, from, to)
        && is_zero(checks.second, len, from, to)
        && is_zero(checks.third, len, from, to)
        && is_zero(checks.fourth, len, from, to)
}

/// Writes what is wanted in two rooms over the positions of a window, by pairs where there are any and the window is long enough.
fn write_two(couple: &Couple, a: &mut [u8], b: &mut [u8], len: usize, from: usize, to: usize)
    requires rooms { HaveRooms len couple.now (length a.old) (length b.old) }
    requires ordered { from ≤ to }
    requires inside { to ≤ len }
    ensures first_len { length a.new ≡ length a.old }
    ensures second_len { length b.new ≡ length b.old }
    ensures first_sums { IsSomeWritten couple.now.first a.old from → IsSomeWritten couple.now.first a.new to }
    ensures second_sums { IsSomeWritten couple.now.second b.old from → IsSomeWritten couple.now.second b.new to }
{
    let pairs = couple.pairs;
    if !pairs.is_empty() && to - from >= LEAST_PAIRED_BYTES {
        write_pairs(pairs, a, b, from, to);
        return;
    }
    write_wanted(couple.first, a, len, from, to);
    write_wanted(couple.second, b, len, from, to);
}

/// Writes the sums that are wanted over the positions of a window.
fn write_wanted(wanted: Option<&[Term]>, out: &mut [u8], len: usize, from: usize, to: usize)
    requires ready { HasRoom len wanted (length out.old) }
    requires ordered { from ≤ to }
    requires inside { to ≤ len }
    ensures len { length out.new ≡ length out.old }
    ensures sums { IsSomeWritten wanted.entry out.old from → IsSomeWritten wanted.entry out.new to }
{
    if let Some(terms) = wanted {
        write_window(terms, out, from, to);
    }
}
