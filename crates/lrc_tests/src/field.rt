//! Elements, rooms and windows, by tests that show what calls give: gate/codes.py compares it with known vectors and with products that it
//! works out itself. library/test-sums.c has the sums of long slices.
ghost use Rattle.std.specs.Prelude.{◌≡◌, ◌+◌, ◌≤◌, length};

use super::given::{byte, number};
use lrc_field::{
    Gf, Pair, Term, combine_into, combine_pairs_into, no_pairs, no_terms, pairs_in, sums_are_zero,
    sums_are_zero_between, terms_in,
};
use std::str::SplitWhitespace;

/// The next word as an element.
fn element(words: &mut SplitWhitespace<'_>) -> Gf {
    Gf::new(byte(words))
}

/// Shows the sum and the product of two elements, and the inverse of the first.
pub fn show_elements(rt: &impl Print, mut words: SplitWhitespace<'_>) {
    let a = element(&mut words);
    let b = element(&mut words);
    let _ = println!(rt; "{:?}", (a.add(b), a.mul(b), a.inverse()));
}

/// The second source is empty, and the last coefficient has no source.
static SOURCES: &[&[u8]] = &[&[0x80, 0x04], &[], &[0xff, 0x0c], &[0x61, 0x61]];

static FIRSTS: [u8; 5] = [0x00, 0x53, 0x02, 0x10, 0xff];

static SECONDS: [u8; 5] = [0x04, 0x00, 0x00, 0x01, 0x00];

fn elements(bytes: [u8; 5]) -> [Gf; 5] {
    let [a, b, c, d, e] = bytes;
    [Gf::new(a), Gf::new(b), Gf::new(c), Gf::new(d), Gf::new(e)]
}

fn show_terms(rt: &impl Print, terms: &[Term]) {
    for term in terms {
        let _ = println!(rt; "{:?} {:?}", term.scalar, term.bytes);
    }
}

fn show_pairs(rt: &impl Print, pairs: &[Pair]) {
    for pair in pairs {
        let _ = println!(rt; "{:?} {:?} {:?}", pair.first, pair.second, pair.bytes);
    }
}

/// Shows rooms as they are at first, so that what is read of one by mistake is seen, and then with terms and with pairs.
#[test]
fn shown_of_rooms(rt: HostRuntime) {
    let mut terms = no_terms();
    let mut pairs = no_pairs();
    show_terms(&rt, &terms);
    show_pairs(&rt, &pairs);
    let firsts = elements(FIRSTS);
    show_terms(&rt, terms_in(&mut terms, &firsts, SOURCES));
    show_pairs(
        &rt,
        pairs_in(&mut pairs, &firsts, &elements(SECONDS), SOURCES),
    );
}

/// Bytes of each source of windows, more than any window needs.
const SOURCE: usize = 4_200;

/// Fills a slice with bytes of a linear congruential generator.
fn fill(bytes: &mut [u8], seed: u32)
    ensures { length bytes.new ≡ length bytes.old }
{
    let mut state = seed;
    for byte in bytes {
        state = state.wrapping_mul(1_664_525).wrapping_add(1_013_904_223);
        *byte = (state >> 24) as u8;
    }
}

fn term_of<'a>(scalar: u8, bytes: &'a [u8]) -> Term<'a>
    ensures { result.bytes.now ≡ bytes.entry.now }
{
    Term {
        scalar: Gf::new(scalar),
        bytes,
    }
}

fn pair_of<'a>(first: u8, second: u8, bytes: &'a [u8]) -> Pair<'a>
    ensures { result.bytes.now ≡ bytes.entry.now }
{
    Pair {
        first: Gf::new(first),
        second: Gf::new(second),
        bytes,
    }
}

/// Shows the sums of a window, with these scalars of the second and the third source.
fn show_sums(
    rt: &impl Print,
    sums: &mut [u8],
    from: usize,
    b: u8,
    c: u8,
    sources: [&[u8; SOURCE]; 3],
)
    requires { from + length sums.old ≤ 4200 }
{
    let [first, second, third] = sources;
    let terms = [term_of(0x01, first), term_of(b, second), term_of(c, third)];
    fill(sums, 23);
    combine_into(sums, from, &terms);
    let _ = println!(rt; "{:?}", &*sums);
}

/// Shows both sums of a window of pairs.
fn show_both_sums(
    rt: &impl Print,
    sums: &mut [u8],
    others: &mut [u8],
    from: usize,
    sources: [&[u8; SOURCE]; 3],
)
    requires many { 96 ≤ length sums.old }
    requires same { length others.old ≡ length sums.old }
    requires room { from + length sums.old ≤ 4200 }
{
    let [first, second, third] = sources;
    let pairs = [
        pair_of(0x01, 0x01, first),
        pair_of(0x53, 0x8e, second),
        pair_of(0x00, 0x04, third),
    ];
    fill(sums, 23);
    fill(others, 29);
    combine_pairs_into(sums, others, from, &pairs);
    let _ = println!(rt; "{:?}\n{:?}", &*sums, &*others);
}

/// Shows whether the sums of three terms of a length are zero, and those of two equal terms.
fn show_zeros(rt: &impl Print, first: &[u8], second: &[u8])
    requires { length second.now ≡ length first.now }
{
    let len = first.len();
    let terms = [
        term_of(0x01, first),
        term_of(0x53, second),
        term_of(0x00, second),
    ];
    let equal = [term_of(0x07, first), term_of(0x07, first)];
    let are_zero = sums_are_zero(len, &terms);
    let _ = println!(rt; "{are_zero} {}", sums_are_zero(len, &equal));
}

/// Shows the sums of windows of a length, from an index on.
fn show_window(rt: &impl Print, from: usize, len: usize, sources: [&[u8; SOURCE]; 3])
    requires from { from ≤ 100 }
    requires len { len ≤ 4100 }
{
    let mut sums = [0; SOURCE];
    let mut others = [0; SOURCE];
    let (sums, others) = (&mut sums[..len], &mut others[..len]);
    show_zeros(rt, &sources[0][..len], &sources[1][..len]);
    show_sums(rt, sums, from, 0x01, 0x01, sources);
    show_sums(rt, sums, from, 0x53, 0x00, sources);
    if len >= 96 {
        show_both_sums(rt, sums, others, from, sources);
    }
}

/// Shows the sums of a window, of which the first index and the length are given.
pub fn show_sums_of(rt: &impl Print, mut words: SplitWhitespace<'_>) {
    let mut first = [0; SOURCE];
    let mut second = [0; SOURCE];
    let mut third = [0; SOURCE];
    fill(&mut first, 5);
    fill(&mut second, 11);
    fill(&mut third, 17);
    let from = number(&mut words).min(100);
    let len = number(&mut words).min(4_100);
    show_window(rt, from, len, [&first, &second, &third]);
}

/// Whether two terms with a scalar have zero sums in a window.
fn are_zero_between(scalar: u8, from: usize, to: usize, both: [&[u8; SOURCE]; 2]) -> bool {
    let [first, second] = both;
    let terms = [term_of(scalar, first), term_of(scalar, second)];
    sums_are_zero_between(from, to.min(SOURCE), &terms)
}

/// Shows whether two terms have zero sums in a window. Given are their scalar, an index at which they differ, and the window's bounds.
pub fn show_difference(rt: &impl Print, mut words: SplitWhitespace<'_>) {
    let mut first = [0; SOURCE];
    fill(&mut first, 5);
    let mut second = first;
    let scalar = byte(&mut words);
    let changed = number(&mut words).min(SOURCE - 1);
    second[changed] ^= 0x40;
    let from = number(&mut words);
    let to = number(&mut words);
    let _ = println!(rt; "{}", are_zero_between(scalar, from, to, [&first, &second]));
}
