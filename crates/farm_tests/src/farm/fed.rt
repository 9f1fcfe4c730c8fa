//! The feeds of racks, and the answers that these may have.
use crate::farm::requests::{Entry, lists_of, shown};
use farm_core::Feeds;
use lrc_code::Outcome;
use std::alloc::Global;
use std::process::Abort;

/// The feeds of racks whose feeds have these entries.
pub(crate) fn feeds_of(rt: &impl Abort, alloc: Global, asked: &[&[&[Entry]]]) -> Feeds {
    let mut racks = Vec::new(alloc);
    for rack in asked {
        racks.push(lists_of(rt, alloc, rack)).expect(rt, "racks");
    }
    Feeds::new(racks).expect(rt, "feeds")
}

/// The number of a rack, and the answers to each of its feeds, in their order, each as `shown` gives it.
pub(crate) type ByFeed = (usize, &'static [&'static [u16]]);

/// Whether these are the answers to a rack's feeds.
fn are_by_feed(answers: &[(usize, Outcome)], feeds: &[&[u16]]) -> bool {
    let mut count = 0usize;
    for (feed, wanted) in feeds.iter().enumerate() {
        let mut left = wanted.iter();
        for (from, outcome) in answers {
            if *from == feed {
                match left.next() {
                    Some(wanted) if *wanted == shown(outcome) => {}
                    _ => return false,
                }
            }
        }
        if left.next().is_some() {
            return false;
        }
        count = count.saturating_add(wanted.len());
    }
    answers.len() == count
}

/// Whether the answers to a rack are one of those that are allowed.
fn are_allowed(rack: usize, answers: &[(usize, Outcome)], allowed: &[ByFeed]) -> bool {
    for (of, feeds) in allowed {
        if *of == rack && are_by_feed(answers, feeds) {
            return true;
        }
    }
    false
}

/// Whether those to each of so many racks are.
pub(crate) fn are_all_allowed(
    count: usize,
    racks: &[Vec<(usize, Outcome)>],
    allowed: &[ByFeed],
) -> bool {
    for (rack, answers) in racks.iter().enumerate() {
        if !are_allowed(rack, answers.as_slice(), allowed) {
            return false;
        }
    }
    racks.len() == count
}
