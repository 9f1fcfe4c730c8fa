//! Calls that a script also makes with each of their allocations and threads refused in turn: they end with the refusal where they meet
//! one, and else with the answers.
use crate::farm::collecting::{ALL, assert_ended};
use crate::farm::held::TWICE;
use crate::farm::requests::{Entry, GLOBAL, LOCAL, SEVERAL, STRIPES};
use crate::farm::running::{Asked, Run, assert_runs};

const TWO_RACKS: &[Run] = &[Run {
    name: "two workers answer two racks",
    asked: TWICE,
    settings: (2, 1),
    hold: None,
    times: 1,
}];

/// Sixteen workers answer the same two racks in `held`.
#[test]
fn two_workers_answer_two_racks(rt: HostRuntime) {
    assert_runs(&rt, rt.alloc(), TWO_RACKS);
}

/// A rack of four feeds without a close, and one of two feeds that both have one. The request beside a close is answered if it is drawn
/// first.
const SIX_FEEDS: Asked = Asked::Feeds(
    &[
        &[&[LOCAL, SEVERAL], &[GLOBAL], &[], &[LOCAL]],
        &[&[LOCAL, Entry::Close], &[Entry::Close]],
    ],
    &[
        (0, &[&[0x01, STRIPES], &[0x6e], &[], &[0x01]]),
        (1, &[&[], &[]]),
        (1, &[&[0x01], &[]]),
    ],
);

const BY_TWO: &[Run] = &[Run {
    name: "two workers answer six feeds",
    asked: SIX_FEEDS,
    settings: (2, 1),
    hold: None,
    times: 1,
}];

#[test]
fn two_workers_answer_six_feeds(rt: HostRuntime) {
    assert_runs(&rt, rt.alloc(), BY_TWO);
}

const BY_SIXTEEN: &[Run] = &[Run {
    name: "sixteen workers answer six feeds",
    asked: SIX_FEEDS,
    settings: (16, 1024),
    hold: None,
    times: 1,
}];

#[test]
fn sixteen_workers_answer_six_feeds(rt: HostRuntime) {
    assert_runs(&rt, rt.alloc(), BY_SIXTEEN);
}

#[test]
fn collector_takes_its_room(rt: HostRuntime) {
    assert_ended(&rt, rt.alloc(), &ALL);
}
