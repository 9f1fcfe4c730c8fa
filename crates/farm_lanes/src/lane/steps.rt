//! The steps of a lane's queue, each with what it leaves in the record of its pass.
ghost use Rattle.std.specs.Prelude.{◌≡◌, ◌-◌, ◌<◌, List, [], ◌∷◌, ◌++◌, length};
ghost use Rattle.crossbeam_channel.specs.Claims.{IsSeatAt, view};
ghost use Rattle.crossbeam_channel.specs.Ends.{sends_on, receives_on};
ghost use Rattle.farm_lanes.specs.declared.lane.item.Item.{Item};
ghost use Rattle.list_members.specs.Lists.{Each};
ghost use Rattle.farm_lanes.specs.LaneRecord.{sender_of, number_of};
ghost use Rattle.farm_lanes.specs.LaneRule.{end_record, put_of, put_last, empty_lists, puts_rest, puts_first, joined, KnowsWhole};

use crate::lane::item::Item;
use crate::lane::rule::{
    CutPut, CutTake, EndCounts, EndRecord, LaneRule, NameEnds, Puts, Shows, Takes, Together,
};
use crossbeam_channel::{Pass, RuledReceiver, RuledSender};
use std::alloc::Allocator;
use std::sync::Wait;

/// A token of no bytes that holds an end's record.
pub(crate) type LanePass<T> = Pass<Item<T>, EndRecord<T>>;

/// The back of a lane's queue.
pub(crate) type LaneSender<T, A> = RuledSender<Item<T>, EndRecord<T>, LaneRule, A>;

/// The front of a lane's queue.
pub(crate) type LaneReceiver<T, A> = RuledReceiver<Item<T>, EndRecord<T>, LaneRule, A>;

/// Puts an item at the back. A send that did nothing is made again until it is done.
pub(crate) fn send<T: Drop, A: Allocator, R: Wait>(
    rt: &R,
    sends: &LaneSender<T, A>,
    pass: &mut LanePass<T>,
    mut item: Item<T>,
)
    requires seated { IsSeatAt (sends_on sends.now) pass.old }
    requires mine { (view pass.old).puts ≡ (sender_of item, put_of (view pass.old)) ∷ [] }
    requires next { number_of item ≡ length (put_of (view pass.old)) }
    requires part { 0 < (view pass.old).parts }
    ensures seated { IsSeatAt (sends_on sends.now) pass.new × (pass.new.id ≡ pass.old.id) }
    ensures put { view pass.new ≡ end_record (view pass.old).ends (view pass.old).parts (put_last (view pass.old).puts item)
        (view pass.old).taken }
{
    for _ in rt.forever() {
        match sends.send_as::<Puts, R>(rt, pass, item) {
            Ok(()) => return,
            Err(e) => item = e.into_inner(),
        }
    }
    unreachable!()
}

/// Takes the item at the front. A receive that did nothing is made again until it is done.
pub(crate) fn receive<T: Drop, A: Allocator, R: Wait>(
    rt: &R,
    takes: &LaneReceiver<T, A>,
    pass: &mut LanePass<T>,
) -> Item<T>
    requires seated { IsSeatAt (receives_on takes.now) pass.old }
    requires part { 0 < (view pass.old).parts }
    ensures seated { IsSeatAt (receives_on takes.now) pass.new × (pass.new.id ≡ pass.old.id) }
    ensures taken { view pass.new ≡ end_record (view pass.old).ends (view pass.old).parts (view pass.old).puts
        ((view pass.old).taken ++ result ∷ []) }
    ensures rises { Each (λ y. sender_of y ≡ sender_of result → number_of y < number_of result) (view pass.old).taken }
{
    for _ in rt.forever() {
        if let Ok(item) = takes.recv_as::<Takes, R>(rt, pass) {
            return item;
        }
    }
    unreachable!()
}

/// Names the ends and the senders of a new lane in its first pass.
pub(crate) fn name_ends<T: Drop, A: Allocator, Z: EndCounts>(
    sends: &LaneSender<T, A>,
    pass: &mut LanePass<T>,
    ends: usize,
    putters: usize,
)
    requires seated { IsSeatAt (sends_on sends.now) pass.old }
    requires first { view pass.old ≡ end_record 1 1 [] [] }
    requires counts { (ends ≡ Z.ends) × (putters ≡ Z.putters) × (0 < ends) }
    ensures seated { IsSeatAt (sends_on sends.now) pass.new }
    ensures named { view pass.new ≡ end_record ends ends (empty_lists 0 putters) [] }
{
    let _none = sends.another::<NameEnds<Z>>(pass);
}

/// Cuts a put end's pass off, with the list of the first sender.
pub(crate) fn cut_put<T: Drop, A: Allocator>(
    sends: &LaneSender<T, A>,
    pass: &mut LanePass<T>,
) -> LanePass<T>
    requires seated { IsSeatAt (sends_on sends.now) pass.old }
    requires more { 1 < (view pass.old).parts }
    ensures seated { IsSeatAt (sends_on sends.now) pass.new × IsSeatAt (sends_on sends.now) result }
    ensures rest { view pass.new ≡ end_record (view pass.old).ends ((view pass.old).parts - 1) (puts_rest (view pass.old).puts)
        (view pass.old).taken }
    ensures cut { view result ≡ end_record (view pass.old).ends 1 (puts_first (view pass.old).puts) [] }
{
    sends.another::<CutPut>(pass)
}

/// Cuts a take end's pass off.
pub(crate) fn cut_take<T: Drop, A: Allocator>(
    sends: &LaneSender<T, A>,
    pass: &mut LanePass<T>,
) -> LanePass<T>
    requires seated { IsSeatAt (sends_on sends.now) pass.old }
    requires more { 0 < (view pass.old).parts }
    requires empty { ((view pass.old).puts ≡ []) × ((view pass.old).taken ≡ []) }
    ensures seated { IsSeatAt (sends_on sends.now) pass.new × IsSeatAt (sends_on sends.now) result }
    ensures rest { view pass.new ≡ end_record (view pass.old).ends ((view pass.old).parts - 1) (view pass.old).puts (view pass.old).taken }
    ensures cut { view result ≡ end_record (view pass.old).ends 1 [] [] }
{
    sends.another::<CutTake>(pass)
}

/// Joins another pass to this one.
pub(crate) fn take_in<T: Drop, A: Allocator>(
    sends: &LaneSender<T, A>,
    pass: &mut LanePass<T>,
    other: LanePass<T>,
)
    requires seated { IsSeatAt (sends_on sends.now) pass.old × IsSeatAt (sends_on sends.now) other }
    requires part { 0 < (view pass.old).parts }
    ensures seated { IsSeatAt (sends_on sends.now) pass.new }
    ensures both { view pass.new ≡ joined (view pass.old) (view other) }
{
    sends.absorb::<Together>(pass, other);
}

/// Reads the queue by the pass that has all parts.
pub(crate) fn learn<T: Drop, A: Allocator>(sends: &LaneSender<T, A>, pass: &mut LanePass<T>)
    requires seated { IsSeatAt (sends_on sends.now) pass.old }
    requires all { (0 < (view pass.old).parts) × ((view pass.old).parts ≡ (view pass.old).ends) }
    ensures seated { IsSeatAt (sends_on sends.now) pass.new }
    ensures whole { (items : List (Item T)) × KnowsWhole (view pass.old) items }
{
    sends.learn_as::<Shows>(pass);
}
