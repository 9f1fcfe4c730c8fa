//! The rule that a lane's queue keeps, and its kinds of step (put, take, three cuts, join, read), as types for proofs: what they do is in
//! `put_end.rt` and `take_end.rt`.
use crate::lane::item::Item;
use crossbeam_channel::protocol::{Join, Lesson, Outcome, Protocol, Split};
use std::collections::LinkedList;
use std::marker::{Brand, PhantomData};

/// What is known of one end, or of several together: the list that each sender put, by sender, and what was taken. `parts` of the
/// lane's `ends` are in it. It exists in proofs alone: no value of it is made.
pub(crate) struct EndRecord<T> {
    pub ends: u64,
    pub parts: u64,
    pub puts: LinkedList<(u64, LinkedList<Item<T>>)>,
    pub taken: LinkedList<Item<T>>,
}

/// The rule between what a lane holds and what its ends know of it.
pub(crate) struct LaneRule;

impl<T> Protocol<Item<T>, EndRecord<T>> for LaneRule {
    ghost use Rattle.std.specs.Prelude.{[]};
    ghost use Rattle.farm_lanes.specs.LaneRule.{KeepsLane, end_record};

    ghost holds = { KeepsLane };

    ghost first = { end_record 1 1 [] [] };
}

/// An end puts an item: it joins the list of its sender.
pub(crate) struct Puts;

impl<T> Outcome<Item<T>, EndRecord<T>> for Puts {
    ghost use Rattle.farm_lanes.specs.LaneRule as lane;

    ghost then = { lane.Puts };
}

impl<T> Lesson<Item<T>, EndRecord<T>> for Puts {
    ghost fact = { λ _ _. Unit {0} };
}

/// An end takes an item: it joins what was taken.
pub(crate) struct Takes;

impl<T> Outcome<Item<T>, EndRecord<T>> for Takes {
    ghost use Rattle.farm_lanes.specs.LaneRule as lane;

    ghost then = { lane.Takes };
}

impl<T> Lesson<Item<T>, EndRecord<T>> for Takes {
    ghost fact = { λ _ _. Unit {0} };
}

/// A read by which who holds all parts learns the whole.
pub(crate) struct Shows;

impl<T> Lesson<Item<T>, EndRecord<T>> for Shows {
    ghost use Rattle.farm_lanes.specs.LaneRule as lane;

    ghost fact = { lane.Shows };
}

/// How many ends a new lane has, and how many of them are put ends.
pub(crate) trait EndCounts {
    ghost use Rattle.std.specs.Prelude.{ℕ};

    ghost ends: { ℕ };

    ghost putters: { ℕ };
}

impl EndCounts for Brand {
    ghost ends = { 0 };

    ghost putters = { 0 };
}

/// The first cut of a lane, which names its ends and senders.
pub(crate) struct NameEnds<Z>(PhantomData<Z>);

impl<T, Z: EndCounts> Split<EndRecord<T>> for NameEnds<Z> {
    ghost use Rattle.std.specs.Prelude.{[]};
    ghost use Rattle.farm_lanes.specs.LaneRule.{end_record, empty_lists};

    ghost left = { λ _. end_record Z.ends Z.ends (empty_lists 0 Z.putters) [] };

    ghost right = { λ _. end_record 0 0 [] [] };
}

/// A put end of its own, with the list of the first sender that is left.
pub(crate) struct CutPut;

impl<T> Split<EndRecord<T>> for CutPut {
    ghost use Rattle.std.specs.Prelude.{◌-◌, []};
    ghost use Rattle.farm_lanes.specs.LaneRule.{end_record, puts_rest, puts_first};

    ghost left = { λ v. end_record v.ends (v.parts - 1) (puts_rest v.puts) v.taken };

    ghost right = { λ v. end_record v.ends 1 (puts_first v.puts) [] };
}

/// A take end of its own, which has taken nothing.
pub(crate) struct CutTake;

impl<T> Split<EndRecord<T>> for CutTake {
    ghost use Rattle.std.specs.Prelude.{◌-◌, []};
    ghost use Rattle.farm_lanes.specs.LaneRule.{end_record};

    ghost left = { λ v. end_record v.ends (v.parts - 1) v.puts v.taken };

    ghost right = { λ v. end_record v.ends 1 [] [] };
}

/// What is known of two ends becomes what is known of both.
pub(crate) struct Together;

impl<T> Join<EndRecord<T>> for Together {
    ghost use Rattle.std.specs.Prelude.{[]};
    ghost use Rattle.farm_lanes.specs.LaneRule.{end_record, joined};

    ghost both = { joined };

    ghost spent = { end_record 0 0 [] [] };
}
