//! Runs in which a pause holds requests: two until each has met the other, so that one thread alone can't answer both; and one until
//! the other worker has ended.
use crate::farm::holding::Hold;
use crate::farm::requests::{ANSWERS_OF_ONE, GLOBAL, LOCAL, ONE, SEVERAL, STRIPES};
use crate::farm::running::{Asked, Run, assert_runs};

/// Two racks that ask the same, where two requests of the second have to meet.
const TWO_BY_TWO: Asked = Asked::Lists(
    &[&[LOCAL, SEVERAL, GLOBAL], &[LOCAL, SEVERAL, GLOBAL]],
    &[&[0x01, STRIPES, 0x6e], &[0x01, STRIPES, 0x6e]],
);

/// Two racks that each ask for one fragment twice, and for one that several stripes fit.
pub(crate) const TWICE: Asked = Asked::Lists(
    &[&[LOCAL, LOCAL, SEVERAL], &[LOCAL, LOCAL, SEVERAL]],
    &[&[0x01, 0x01, STRIPES], &[0x01, 0x01, STRIPES]],
);

const RUNS: &[Run] = &[
    Run {
        name: "two workers meet, with a queue of eight",
        asked: TWO_BY_TWO,
        settings: (2, 8),
        hold: Some(Hold::Crossed),
        times: 1,
    },
    Run {
        name: "two workers meet, with a queue of one",
        asked: TWO_BY_TWO,
        settings: (2, 1),
        hold: Some(Hold::Crossed),
        times: 1,
    },
    Run {
        name: "two of sixteen workers meet",
        asked: TWICE,
        settings: (16, 1024),
        hold: Some(Hold::Crossed),
        times: 1,
    },
    // As many workers are started as are set: sixteen requests are worked on at once.
    Run {
        name: "all sixteen workers meet",
        asked: Asked::Lists(&[&[LOCAL; 16]], &[&[0x01; 16]]),
        settings: (16, 1),
        hold: Some(Hold::Gathered(16)),
        times: 1,
    },
    // The collector waits for the worker that ends last: in a queue of one its reply and its mark have no room together.
    Run {
        name: "the worker that ends last is waited for",
        asked: Asked::Lists(ONE, ANSWERS_OF_ONE),
        settings: (2, 1),
        hold: Some(Hold::Late),
        times: 1,
    },
];

#[test]
fn workers_meet_and_are_waited_for(rt: HostRuntime) {
    assert_runs(&rt, rt.alloc(), RUNS);
}
