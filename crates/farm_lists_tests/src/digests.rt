//! The digests of the rebuilt fragments of several racks, in lanes and threads, each against the crate `sha2`.
ghost use Rattle.std.specs.Prelude.{◌<◌};

use crate::asserting::{assert_holds, given};
use farm_reports::digests_of_racks;
use lrc_code::{Bytes, Outcome};
use sha2::{Digest, Sha256};
use std::process::Abort;
use std::thread::Threads;

/// The digest of a million times `a` in FIPS 180-2.
static MILLION: [u8; 32] =
    *b"\xcd\xc7\x6e\x5c\x99\x14\xfb\x92\x81\xa1\xc7\xe2\x84\xd7\x3e\x67\xf1\x80\x9a\x48\xa4\x97\x20\x0e\x04\x6d\x39\xcc\xc7\x11\x2c\xd0";

/// How long the fragments are.
enum Lengths {
    // All of one length.
    Equal,
    // One within the first eight is longer, and one after them empty.
    Broken,
    // No two have one length.
    Mixed,
}

/// How long a fragment is.
fn length_of(lengths: &Lengths, number: u8) -> usize {
    match lengths {
        Lengths::Equal => 100,
        Lengths::Broken => match number {
            3 => 101,
            12 => 0,
            _ => 64,
        },
        Lengths::Mixed => 55 + number as usize,
    }
}

/// A rebuilt fragment of so many bytes.
fn rebuilt(rt: &(impl Abort + AllocGlobal), byte: u8, length: usize) -> Outcome {
    Outcome::Rebuilt(Bytes::new(given(rt, vec![in rt.alloc(); byte; length])))
}

/// The answers of a rack, each with the number of its feed.
type Rack = Vec<(usize, Outcome)>;

/// A rack with the rebuilt fragments from one number on and before another, each of bytes that all are its number, other outcomes between
/// them, and one after them.
fn rack_of(
    rt: &(impl Abort + AllocGlobal),
    lengths: &Lengths,
    longer: usize,
    first: u8,
    end: u8,
) -> Rack {
    let mut rack = Vec::new(rt.alloc());
    for number in first..end {
        if number % 3 == 0 {
            given(rt, rack.push((0, Outcome::Several)));
        }
        let length = length_of(lengths, number).saturating_add(longer);
        given(rt, rack.push((1, rebuilt(rt, number, length))));
        if number % 5 == 1 {
            given(rt, rack.push((0, Outcome::Contradiction)));
        }
    }
    given(rt, rack.push((0, Outcome::Contradiction)));
    rack
}

/// Racks with so many rebuilt fragments, six in each but the last, and a rack without answers after each.
fn racks_of(
    rt: &(impl Abort + AllocGlobal),
    lengths: &Lengths,
    longer: usize,
    fragments: u8,
) -> Vec<Rack> {
    let mut racks = Vec::new(rt.alloc());
    for group in 0..=fragments / 6 {
        let first = group.saturating_mul(6);
        let end = fragments.min(first.saturating_add(6));
        given(rt, racks.push(rack_of(rt, lengths, longer, first, end)));
        given(rt, racks.push(Vec::new(rt.alloc())));
    }
    racks
}

/// The digest of an outcome's fragment by the crate `sha2`; none for another outcome.
fn plain_digest(outcome: &Outcome) -> Option<[u8; 32]> {
    match outcome {
        Outcome::Rebuilt(bytes) => Some(Sha256::digest(bytes.as_slice())),
        Outcome::Contradiction | Outcome::Several => None,
    }
}

/// Whether these are the digests of the fragments, made one after the other by the crate `sha2`, and none for the other outcomes.
fn are_plain(made: &[Option<[u8; 32]>], racks: &[Rack]) -> bool {
    let mut at = 0usize;
    let mut are = true;
    for rack in racks {
        for number in 0..rack.len() {
            are &= made.get(at) == Some(&plain_digest(&rack[number].1));
            at = at.saturating_add(1);
        }
    }
    are & (at == made.len())
}

/// Whether the digests that so many threads make of these racks are the plain ones.
fn agree<R: Abort + AllocGlobal + Threads + Sync>(rt: &R, racks: &[Rack], threads: usize) -> bool
    requires { 0 < threads }
{
    let made = given(rt, digests_of_racks(rt, rt.alloc(), racks, threads));
    are_plain(made.as_slice(), racks)
}

/// How many fragments there are: around one and two groups of eight, and around the grains that threads take.
static FRAGMENTS: [u8; 9] = [0, 1, 7, 8, 9, 16, 17, 33, 64];

static LENGTHS: [(Lengths, &str); 3] = [
    (Lengths::Equal, "equal lengths"),
    (Lengths::Broken, "broken lengths"),
    (Lengths::Mixed, "mixed lengths"),
];

/// In one thread and in several.
#[test]
fn digests_of_any_lengths_agree_with_sha2(rt: HostRuntime) {
    for (lengths, name) in &LENGTHS {
        for number in 0..FRAGMENTS.len() {
            let racks = racks_of(&rt, lengths, 0, FRAGMENTS[number]);
            let agree = agree(&rt, &racks, 1) & agree(&rt, &racks, 16);
            assert_holds(&rt, agree, (*name, FRAGMENTS[number]));
        }
    }
}

/// 33 fragments that are so much longer are worth three threads: they are two grains and one fragment alone.
#[test]
fn digests_in_threads_agree_with_sha2(rt: HostRuntime) {
    for (lengths, name) in &LENGTHS {
        let racks = racks_of(&rt, lengths, 100_000, 33);
        assert_holds(&rt, agree(&rt, &racks, 16), *name);
    }
}

/// A rack with 33 fragments of a million times `a`, and an outcome without a fragment after each.
fn rack_of_million(rt: &(impl Abort + AllocGlobal)) -> Rack {
    let mut rack = Vec::new(rt.alloc());
    for _ in 0..33 {
        given(rt, rack.push((0, rebuilt(rt, b'a', 1_000_000))));
        given(rt, rack.push((0, Outcome::Several)));
    }
    rack
}

/// Two grains and one alone, for as many threads as can be made. Every other digest, from the first on, is that of a million times `a`.
#[test]
fn three_threads_make_the_known_digest(rt: HostRuntime) {
    let racks = [rack_of_million(&rt)];
    let made = given(&rt, digests_of_racks(&rt, rt.alloc(), racks.as_slice(), 3));
    assert_holds(&rt, made.len() == 66, made.len());
    for number in 0..made.len() {
        let wanted = if number % 2 == 0 { Some(MILLION) } else { None };
        assert_holds(&rt, made[number] == wanted, number);
    }
}
