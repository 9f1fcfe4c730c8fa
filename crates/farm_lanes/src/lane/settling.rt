//! The settling of a lane.
ghost use Rattle.std.specs.Prelude.{◌≡◌};
ghost use Rattle.farm_lanes.specs.LaneEnds.{puts_of, takes_of, AreAllEnds};
ghost use Rattle.farm_lanes.specs.LaneSettled.{IsSettled};

use crate::lane::put_end::EndedPut;
use crate::lane::steps::{learn, take_in};
use crate::lane::take_end::TakeEnd;
use std::alloc::{Allocator, Global};
use std::snapshot::Snapshot;

/// How many items were put into a lane and taken from it: values and end marks.
#[derive(Drop)]
pub struct Settled<T: Drop, A: Allocator = Global> {
    pub put: u64,
    pub taken: u64,

    /// What contracts see of the put ends, each with the list that its sender put. It takes no room.
    pub ended: Snapshot<Vec<EndedPut<T, A>, A>>,
}

/// Spends all ends of a lane and says what was put and taken in all. What was not taken is dropped.
///
/// The put ends come in the order in which `Lane::open` gave them.
pub fn settle<T: Drop, A: Allocator>(
    mut ended: Vec<EndedPut<T, A>, A>,
    mut takers: Vec<TakeEnd<T, A>, A>,
) -> Settled<T, A>
    requires { AreAllEnds ended.items takers.items }
    ensures settled { IsSettled result.put result.taken (puts_of ended.items) (takes_of takers.items) }
    ensures ended { result.ended.value.items ≡ ended.items }
{
    let all = Snapshot::of(&ended);
    let Some(first) = ended.pop() else {
        unreachable!()
    };
    let (sends, mut pass, _, mut put) = first.into_parts();
    let mut taken = 0u64;
    while let Some(end) = ended.pop() {
        let (_, other, _, count) = end.into_parts();
        take_in(&sends, &mut pass, other);
        put = put.saturating_add(count);
    }
    while let Some(end) = takers.pop() {
        let (_, other, count) = end.into_parts();
        take_in(&sends, &mut pass, other);
        taken = taken.saturating_add(count);
    }
    learn(&sends, &mut pass);
    Settled {
        put,
        taken,
        ended: all,
    }
}
