//! Lanes and gates whose room is refused.
use crate::between_threads::asserting::assert_holds;
use farm_lanes::{Gate, GateError, Lane, LaneError};
use linked_list_allocator::LocalHeap;
use std::alloc::Global;
use std::process::Abort;

/// What comes of an opening.
enum Opening {
    Opened,
    OutOfMemory,
    Other,
}

/// What comes of opening a gate in a heap of so many bytes, if there is such a heap.
fn gate_in(alloc: Global, bytes: usize) -> Option<Opening> {
    let heap = LocalHeap::new(alloc, bytes).ok()?;
    Some(match Gate::open_in(&heap, 4, 2).err() {
        None => Opening::Opened,
        Some(GateError::OutOfMemory) => Opening::OutOfMemory,
        Some(GateError::NoSeats) => Opening::Other,
    })
}

/// The same of a lane.
fn lane_in(alloc: Global, bytes: usize) -> Option<Opening> {
    let heap = LocalHeap::new(alloc, bytes).ok()?;
    Some(
        match Lane::open_in::<u64, &LocalHeap>(&heap, 4, 2, 2).err() {
            None => Opening::Opened,
            Some(LaneError::OutOfMemory) => Opening::OutOfMemory,
            Some(_) => Opening::Other,
        },
    )
}

/// Asserts that a gate, or a lane, is opened in some heap, and that in each smaller one that is said, and nothing else.
fn assert_refused(rt: &impl Abort, alloc: Global, what: &str, is_gate: bool) {
    let mut refused = false;
    for words in 0..1000usize {
        let opening = if is_gate {
            gate_in(alloc, 8 * words)
        } else {
            lane_in(alloc, 8 * words)
        };
        match opening {
            None => {}
            Some(Opening::OutOfMemory) => refused = true,
            Some(Opening::Other) => assert_holds(rt, false, what, words),
            Some(Opening::Opened) => {
                assert_holds(rt, refused, what, words);
                return;
            }
        }
    }
    assert_holds(rt, false, what, 1000);
}

/// Where the room is refused, that is said, and nothing else. The heap grows by steps smaller than any allocation, so that each allocation
/// in turn is the one that is refused.
#[test]
fn refused_memory_is_said(rt: HostRuntime) {
    assert_refused(&rt, rt.alloc(), "a gate in words", true);
    assert_refused(&rt, rt.alloc(), "a lane in words", false);
}
