//! Put ends: each puts its values at the back of its lane, and its end mark last.
ghost use Rattle.std.specs.Prelude.{◌≡◌, ◌+◌, ◌<◌, ◌≤◌, [], ◌∷◌, length};
ghost use Rattle.crossbeam_channel.specs.Claims.{IsSeatAt, view};
ghost use Rattle.crossbeam_channel.specs.Ends.{sends_on};
ghost use Rattle.farm_lanes.specs.declared.lane.item.Item.TheVariants.{Value, End};
ghost use Rattle.farm_lanes.specs.LaneEnds.{new_put, with_put};
ghost use Rattle.farm_lanes.specs.LaneNames.{lane_of};
ghost use Rattle.farm_lanes.specs.LaneRecord.{EndsLast};
ghost use Rattle.farm_lanes.specs.LaneRule.{end_record, put_of, IsPutRecord};

use crate::lane::item::Item;
use crate::lane::steps::{LanePass, LaneSender, send};
use std::alloc::{Allocator, Global};
use std::marker::Model;
use std::sync::Wait;

/// A put end. Contracts see its lane, its sender's number and the list that it put.
///
/// It must be spent by `end`: a lane of which a put end was let go can't be settled.
pub struct PutEnd<T: Drop, A: Allocator = Global> {
    sends: LaneSender<T, A>,
    pass: LanePass<T>,
    sender: u32,
    count: u64,
}

impl<T: Drop, A: Allocator> Drop for PutEnd<T, A> {
    fn drop(self) {
        let PutEnd {
            sends: _,
            pass: _,
            sender: _,
            count: _,
        } = self;
    }
}

impl<T: Drop, A: Allocator> Model for PutEnd<T, A> {
    ghost use Rattle.std.specs.Prelude.{◌≡◌, ◌<◌, ◌≤◌, [], ◌∷◌, length, false};
    ghost use Rattle.crossbeam_channel.specs.Claims.{IsSeatAt, view as known};
    ghost use Rattle.crossbeam_channel.specs.Ends.{sends_on};
    ghost use Rattle.list_members.specs.Lists.{Each};
    ghost use Rattle.farm_lanes.specs.LaneRecord.{is_end};
    ghost use Rattle.farm_lanes.specs.LaneRule.{put_of, IsPutRecord};
    ghost use Rattle.farm_lanes.specs.LaneEnds.{PutView};
    ghost use Rattle.farm_lanes.specs.LaneNames.{lane_of};

    ghost Value = { PutView T };

    ghost view = { λ e. record { lane = lane_of e.pass; sender = e.sender; put = put_of (known e.pass) } };

    ghost invariant = { λ e. IsSeatAt (sends_on e.sends) e.pass × IsPutRecord e.sender e.count (known e.pass) × (e.count < 4294967296)
        × Each (λ x. is_end x ≡ false) (put_of (known e.pass)) };
}

/// A put end that put its end mark. Contracts see of it what they see of a put end.
///
/// It must be spent by `settle`.
pub struct EndedPut<T: Drop, A: Allocator = Global> {
    pub(crate) sends: LaneSender<T, A>,
    pub(crate) pass: LanePass<T>,
    pub(crate) sender: u32,
    pub(crate) count: u64,
}

impl<T: Drop, A: Allocator> Drop for EndedPut<T, A> {
    fn drop(self) {
        let EndedPut {
            sends: _,
            pass: _,
            sender: _,
            count: _,
        } = self;
    }
}

impl<T: Drop, A: Allocator> Model for EndedPut<T, A> {
    ghost use Rattle.std.specs.Prelude.{◌≡◌, ◌≤◌, [], ◌∷◌, length};
    ghost use Rattle.crossbeam_channel.specs.Claims.{IsSeatAt, view as known};
    ghost use Rattle.crossbeam_channel.specs.Ends.{sends_on};
    ghost use Rattle.farm_lanes.specs.LaneRecord.{EndsLast};
    ghost use Rattle.farm_lanes.specs.LaneRule.{put_of, IsPutRecord};
    ghost use Rattle.farm_lanes.specs.LaneEnds.{PutView};
    ghost use Rattle.farm_lanes.specs.LaneNames.{lane_of};

    ghost Value = { PutView T };

    ghost view = { λ e. record { lane = lane_of e.pass; sender = e.sender; put = put_of (known e.pass) } };

    ghost invariant = { λ e. IsSeatAt (sends_on e.sends) e.pass × IsPutRecord e.sender e.count (known e.pass) × (e.count ≤ 4294967296)
        × EndsLast (put_of (known e.pass)) };
}

impl<T: Drop, A: Allocator> PutEnd<T, A> {
    /// The put end of a sender, with the pass that was cut off for it.
    pub(crate) fn new(sends: LaneSender<T, A>, pass: LanePass<T>, sender: u32) -> PutEnd<T, A>
        requires seated { IsSeatAt (sends_on sends) pass }
        requires few { (view pass).ends ≤ 65536 }
        requires cut { view pass ≡ end_record (view pass).ends 1 ((sender, []) ∷ []) [] }
        ensures { result ≡ new_put (lane_of pass) sender }
    {
        PutEnd {
            sends,
            pass,
            sender,
            count: 0,
        }
    }

    /// How many values this end put.
    pub fn puts(&self) -> u64
        ensures { result ≡ length self.now.put }
    {
        self.count
    }

    /// Puts a value, which gets the sender's next number. A put end puts at most 4,294,967,295 values.
    pub fn put<R: Wait>(&mut self, rt: &R, value: T)
        requires { length self.old.put < 4294967295 }
        ensures { self.new ≡ with_put self.old (Value self.old.sender (length self.old.put) value) }
    {
        let item = Item::Value {
            sender: self.sender,
            number: self.count,
            value,
        };
        send(rt, &self.sends, &mut self.pass, item);
        self.count += 1;
    }

    /// Puts the end mark, which gets the number after the last value.
    pub fn end<R: Wait>(self, rt: &R) -> EndedPut<T, A>
        ensures { result ≡ with_put self (End self.sender (length self.put)) }
    {
        let PutEnd {
            sends,
            mut pass,
            sender,
            count,
        } = self;
        let item = Item::End {
            sender,
            number: count,
        };
        send(rt, &sends, &mut pass, item);
        EndedPut {
            sends,
            pass,
            sender,
            count: count + 1,
        }
    }
}

impl<T: Drop, A: Allocator> EndedPut<T, A> {
    /// Its sends, its pass, its sender's number and how many items it put.
    pub(crate) fn into_parts(self) -> (LaneSender<T, A>, LanePass<T>, u32, u64)
        ensures seated { IsSeatAt (sends_on result.0) result.1 }
        ensures counted { IsPutRecord result.2 result.3 (view result.1) }
        ensures small { result.3 ≤ 4294967296 }
        ensures last { EndsLast (put_of (view result.1)) }
        ensures own { self ≡ record { lane = lane_of result.1; sender = result.2; put = put_of (view result.1) } }
    {
        let EndedPut {
            sends,
            pass,
            sender,
            count,
        } = self;
        (sends, pass, sender, count)
    }

    /// How many items this end put: its values and the end mark.
    pub fn count(&self) -> u64
        ensures all { result ≡ length self.now.put }
        ensures most { result ≤ 4294967296 }
    {
        self.count
    }
}
