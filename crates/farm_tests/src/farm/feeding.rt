//! Racks with several feeds.
use crate::farm::holding::Hold;
use crate::farm::requests::{Entry, GLOBAL, LOCAL, SEVERAL, STRIPES};
use crate::farm::running::{Asked, Run, assert_runs};

const CLOSE: Entry = Entry::Close;

/// A rack without a close, one of closes alone, one whose close is in the other feed, and one of two feeds with a close. The first feed of
/// the first rack gets a byte and several, the second a byte; the closes get nothing; the request beside a close is answered if it is drawn
/// first; and of the last rack one feed gets its answer, or both.
const TWO_FEEDS: Asked = Asked::Feeds(
    &[
        &[&[LOCAL, SEVERAL], &[GLOBAL]],
        &[&[CLOSE], &[CLOSE]],
        &[&[CLOSE], &[LOCAL]],
        &[&[LOCAL, CLOSE, GLOBAL], &[LOCAL, CLOSE, GLOBAL]],
    ],
    &[
        (0, &[&[0x01, STRIPES], &[0x6e]]),
        (1, &[&[], &[]]),
        (2, &[&[], &[]]),
        (2, &[&[], &[0x01]]),
        (3, &[&[0x01], &[]]),
        (3, &[&[], &[0x01]]),
        (3, &[&[0x01], &[0x01]]),
    ],
);

const RACED: &[&[&[Entry]]] = &[&[&[CLOSE], &[LOCAL]]];

const RUNS: &[Run] = &[
    Run {
        name: "feeds are answered up to a close",
        asked: TWO_FEEDS,
        settings: (3, 1),
        hold: None,
        times: 100,
    },
    // The feeders of a rack run at the same time: either may go first.
    Run {
        name: "the feeder of the request goes first",
        asked: Asked::Feeds(RACED, &[(0, &[&[], &[0x01]])]),
        settings: (3, 1),
        hold: Some(Hold::First(1, 2)),
        times: 100,
    },
    Run {
        name: "the feeder of the close goes first",
        asked: Asked::Feeds(RACED, &[(0, &[&[], &[]])]),
        settings: (3, 1),
        hold: Some(Hold::First(0, 2)),
        times: 100,
    },
    // While its one worker is held in the first request, as many jobs wait as the queue holds, and one more at its end: no more and no
    // fewer.
    Run {
        name: "a queue of one fills",
        asked: Asked::Feeds(&[&[&[LOCAL; 4]]], &[(0, &[&[0x01; 4]])]),
        settings: (1, 1),
        hold: Some(Hold::Full(2)),
        times: 1,
    },
    Run {
        name: "a queue of four fills",
        asked: Asked::Feeds(&[&[&[LOCAL; 7]]], &[(0, &[&[0x01; 7]])]),
        settings: (1, 4),
        hold: Some(Hold::Full(5)),
        times: 1,
    },
    Run {
        name: "a queue of five fills",
        asked: Asked::Feeds(&[&[&[LOCAL; 8]]], &[(0, &[&[0x01; 8]])]),
        settings: (1, 5),
        hold: Some(Hold::Full(6)),
        times: 1,
    },
    Run {
        name: "a queue of seven fills",
        asked: Asked::Feeds(&[&[&[LOCAL; 10]]], &[(0, &[&[0x01; 10]])]),
        settings: (1, 7),
        hold: Some(Hold::Full(8)),
        times: 1,
    },
];

#[test]
fn feeds_are_answered_and_wait_in_the_queue_alone(rt: HostRuntime) {
    assert_runs(&rt, rt.alloc(), RUNS);
}
