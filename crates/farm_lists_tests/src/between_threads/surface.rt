//! The limits and the refusals that callers of `farm_lanes` are promised, each by its name: one that moves, or a variant more, doesn't
//! compile.
use crate::between_threads::asserting::assert_holds;
use crate::between_threads::gates::refusal_of as refusal_of_gate;
use crate::between_threads::lanes::refusal_of as refusal_of_lane;
use farm_lanes::limits::{
    MOST_CAPACITY, MOST_DRAWS, MOST_PUT_ENDS, MOST_RIGHTS, MOST_SEATS, MOST_TAKE_ENDS,
};
use farm_lanes::{AlreadyClosed, GateError, GateRefusal, LaneError};

/// The numbers of refusals.
fn numbers_of(
    lane: LaneError,
    gate: GateError,
    refusal: GateRefusal,
    _closed: AlreadyClosed,
) -> [u8; 3] {
    let lane = match lane {
        LaneError::NoRoom => 6,
        LaneError::NoEnds => 7,
        LaneError::OutOfMemory => 16,
    };
    let gate = match gate {
        GateError::NoSeats => 27,
        GateError::OutOfMemory => 16,
    };
    let refusal = match refusal {
        GateRefusal::Closed => 8,
        GateRefusal::SeatSpent => 9,
    };
    [lane, gate, refusal]
}

/// Each limit, as it is and as it must be.
const LIMITS: &[(u64, u64)] = &[
    (MOST_CAPACITY as u64, 1024),
    (MOST_PUT_ENDS as u64, 128),
    (MOST_TAKE_ENDS as u64, 32),
    (MOST_SEATS as u64, 16),
    (MOST_RIGHTS as u64, 16),
    (MOST_DRAWS, 4_294_967_296),
];

#[test]
fn limits_and_refusals_have_their_numbers(rt: HostRuntime) {
    for number in 0..LIMITS.len() {
        let (limit, wanted) = LIMITS[number];
        assert_holds(&rt, limit == wanted, "limit", number);
    }
    let lane = refusal_of_lane(rt.alloc(), 0, 1, 1).expect(&rt, "a refused lane");
    let gate = refusal_of_gate(rt.alloc(), 0, 1).expect(&rt, "a refused gate");
    let numbers = numbers_of(lane, gate, GateRefusal::Closed, AlreadyClosed);
    assert_holds(&rt, numbers == [6, 27, 8], "numbers of refusals", 3);
}
