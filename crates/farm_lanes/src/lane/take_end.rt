//! Take ends: each takes the items at the front of its lane.
ghost use Rattle.std.specs.Prelude.{◌≡◌, ◌<◌, [], length};
ghost use Rattle.crossbeam_channel.specs.Claims.{IsSeatAt, view};
ghost use Rattle.crossbeam_channel.specs.Ends.{receives_on};
ghost use Rattle.list_members.specs.Lists.{Each};
ghost use Rattle.farm_lanes.specs.LaneRecord.{sender_of, number_of, Rises};
ghost use Rattle.farm_lanes.specs.LaneEnds.{new_take, with_taken, counted};
ghost use Rattle.farm_lanes.specs.LaneNames.{lane_of};
ghost use Rattle.farm_lanes.specs.LaneRule.{end_record};

use crate::lane::item::Item;
use crate::lane::steps::{LanePass, LaneReceiver, receive};
use std::alloc::{Allocator, Global};
use std::marker::Model;
use std::sync::Wait;

/// A take end. Contracts see its lane and the list that it took.
///
/// It must be spent by `settle`: a lane of which a take end was let go can't be settled.
pub struct TakeEnd<T: Drop, A: Allocator = Global> {
    pub(crate) takes: LaneReceiver<T, A>,
    pub(crate) pass: LanePass<T>,
    pub(crate) count: u64,
}

impl<T: Drop, A: Allocator> Drop for TakeEnd<T, A> {
    fn drop(self) {
        let TakeEnd {
            takes: _,
            pass: _,
            count: _,
        } = self;
    }
}

impl<T: Drop, A: Allocator> Model for TakeEnd<T, A> {
    ghost use Rattle.std.specs.Prelude.{◌≡◌, [], length};
    ghost use Rattle.crossbeam_channel.specs.Claims.{IsSeatAt, view as known};
    ghost use Rattle.crossbeam_channel.specs.Ends.{receives_on};
    ghost use Rattle.farm_lanes.specs.LaneRecord.{Rises};
    ghost use Rattle.farm_lanes.specs.LaneEnds.{TakeView, counted};
    ghost use Rattle.farm_lanes.specs.LaneNames.{lane_of};

    ghost Value = { TakeView T };

    ghost view = { λ e. record { lane = lane_of e.pass; taken = (known e.pass).taken } };

    ghost invariant = { λ e. IsSeatAt (receives_on e.takes) e.pass × ((known e.pass).puts ≡ [])
        × (e.count ≡ counted (length (known e.pass).taken)) × ((known e.pass).parts ≡ 1) × Rises (known e.pass).taken };
}

impl<T: Drop, A: Allocator> TakeEnd<T, A> {
    /// Its receives, its pass and how many items it took.
    pub(crate) fn into_parts(self) -> (LaneReceiver<T, A>, LanePass<T>, u64)
        ensures seated { IsSeatAt (receives_on result.0) result.1 }
        ensures puts { (view result.1).puts ≡ [] }
        ensures counted { result.2 ≡ counted (length (view result.1).taken) }
        ensures parts { (view result.1).parts ≡ 1 }
        ensures rises { Rises (view result.1).taken }
        ensures own { self ≡ record { lane = lane_of result.1; taken = (view result.1).taken } }
    {
        let TakeEnd { takes, pass, count } = self;
        (takes, pass, count)
    }

    /// A take end, with the pass that was cut off for it.
    pub(crate) fn new(takes: LaneReceiver<T, A>, pass: LanePass<T>) -> TakeEnd<T, A>
        requires seated { IsSeatAt (receives_on takes) pass }
        requires cut { view pass ≡ end_record (view pass).ends 1 [] [] }
        ensures { result ≡ new_take (lane_of pass) }
    {
        TakeEnd {
            takes,
            pass,
            count: 0,
        }
    }

    /// Takes the item at the front.
    pub fn take<R: Wait>(&mut self, rt: &R) -> Item<T>
        ensures taken { self.new ≡ with_taken self.old result }
        ensures rises { Each (λ y. sender_of y ≡ sender_of result → number_of y < number_of result) self.old.taken }
    {
        let item = receive(rt, &self.takes, &mut self.pass);
        self.count = self.count.saturating_add(1);
        item
    }

    /// How many items this end took. It stays at the greatest `u64` where there are more.
    pub fn count(&self) -> u64
        ensures { result ≡ counted (length self.now.taken) }
    {
        self.count
    }
}
