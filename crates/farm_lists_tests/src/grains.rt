//! Which digests the threads make: all of them, the longest fragments first. Only the time would say it otherwise.
use crate::asserting::{assert_holds, given};
use farm_reports::grains::{LEAST_PART, made_in_threads, places_by_length};
use std::process::Abort;
use std::thread::Threads;

/// 33 fragments of this length, of which a third is empty, are worth two threads.
const LONG: usize = 131_072;

/// The greatest number of fragments.
const MOST: usize = 97;

/// Fragments of these bytes, each shorter than the one before it, and every third one empty.
fn fragments_of(bytes: &[u8]) -> [&[u8]; MOST] {
    let mut fragments = [bytes; MOST];
    for number in 0..MOST {
        let length = if number % 3 == 2 {
            0
        } else {
            bytes.len().saturating_sub(number)
        };
        fragments[number] = bytes.get(..length).unwrap_or(&[]);
    }
    fragments
}

/// How many digests are made.
fn made(digests: &[Option<[u8; 32]>]) -> usize {
    let mut made = 0usize;
    for number in 0..digests.len() {
        if digests[number].is_some() {
            made = made.saturating_add(1);
        }
    }
    made
}

/// How many of the digests of so many fragments, the longest of so many bytes, threads make.
fn made_of<R: Abort + AllocGlobal + Threads + Sync>(rt: &R, row: &(usize, usize, usize)) -> usize {
    let bytes = given(rt, vec![in rt.alloc(); 7u8; row.0]);
    let fragments = fragments_of(&bytes);
    let fragments = fragments.get(..row.1).unwrap_or(&[]);
    made(&given(rt, made_in_threads(rt, rt.alloc(), fragments, row.2)))
}

/// The length of the longest fragment, the number of fragments, and that of threads: for short ones there is one thread, else two.
static FRAGMENTS: [(usize, usize, usize); 10] = [
    (100, 0, 16),
    (100, 1, 16),
    (100, 15, 16),
    (100, 16, 16),
    (100, 17, 16),
    (100, 32, 16),
    (100, 33, 16),
    (100, 60, 16),
    (100, MOST, 16),
    (LONG, 33, 2),
];

#[test]
fn threads_make_all_digests(rt: HostRuntime) {
    assert_holds(&rt, 22 * LONG as u64 > 2 * LEAST_PART, LONG);
    for number in 0..FRAGMENTS.len() {
        let row = &FRAGMENTS[number];
        assert_holds(&rt, made_of(&rt, row) == row.1, row.1);
    }
}

/// The lengths of six fragments by their places.
static LENGTHS: [usize; 6] = [3, 9, 0, 5, 9, 1];

/// And in their order.
static IN_ORDER: [usize; 6] = [9, 9, 5, 3, 1, 0];

#[test]
fn the_longest_come_first(rt: HostRuntime) {
    let fragments: [&[u8]; 6] = [&[7; 3], &[7; 9], &[], &[7; 5], &[7; 9], &[7]];
    let places = given(&rt, places_by_length(rt.alloc(), fragments.as_slice()));
    assert_holds(&rt, places.len() == 6, places.len());
    for number in 0..places.len().min(6) {
        let length = LENGTHS[places[number].min(5)];
        assert_holds(&rt, length == IN_ORDER[number], number);
    }
}
