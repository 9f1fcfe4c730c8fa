//! The opening of a lane: its one queue, in which what was put first is taken first, and the ends that put and take.
ghost use Rattle.std.specs.Prelude.{◌≡◌, ℕ, ◌+◌, ◌<◌, ◌≤◌, [], length, All, IfOk, IsOkUnless, Ok, Err, vec_capacity};
ghost use Rattle.crossbeam_channel.specs.Claims.{IsSeatAt, view};
ghost use Rattle.crossbeam_channel.specs.Ends.{sends_on, receives_on};
ghost use Rattle.farm_lanes.specs.LaneNames.{lane_on};
ghost use Rattle.farm_lanes.specs.LaneRule.{end_record, empty_lists};
ghost use Rattle.farm_lanes.specs.LaneEnds.{AreNewEnds, AreNewPutEnds, AreNewTakeEnds, IsCapacity, IsPutterCount, IsTakerCount};

use crate::lane::item::Item;
use crate::lane::put_end::PutEnd;
use crate::lane::rule::{EndRecord, LaneRule};
use crate::lane::steps::{LanePass, LaneReceiver, LaneSender, cut_put, cut_take, name_ends};
use crate::lane::take_end::TakeEnd;
use crate::limits::{MOST_CAPACITY, MOST_PUT_ENDS, MOST_TAKE_ENDS};
use crate::room::room_for;
use crossbeam_channel::bounded_with;
use std::alloc::{AllocError, Allocator, Global};
use std::marker::Brand;
use thiserror::Error;

/// A lane, which is known by its ends alone.
pub struct Lane;

/// Why a lane was not opened.
#[derive(Clone, Copy, Debug, PartialEq, Eq, Error)]
pub enum LaneError {
    /// The capacity is 0 or greater than `MOST_CAPACITY`.
    #[error("the capacity of the lane is 0 or too great")]
    NoRoom,

    /// There are no put ends or more than `MOST_PUT_ENDS`, or no take ends or more than `MOST_TAKE_ENDS`.
    #[error("the number of put ends or of take ends is 0 or too great")]
    NoEnds,

    /// The lane's room was refused.
    #[error("out of memory")]
    OutOfMemory,
}

impl Lane {
    /// Opens a lane for at most `capacity` items at once, with its put ends and its take ends. Senders are numbered from 0, in the
    /// order of the put ends.
    ///
    /// It takes all the room that the ends ever need. The capacity is tested before the numbers of ends.
    ///
    /// ```
    /// let (mut puts, mut takes) = Lane::open(rt.alloc(), 4, 1, 1)?;
    /// let (Some(mut put), Some(mut take)) = (puts.pop(), takes.pop()) else {
    ///     unreachable!();
    /// };
    /// put.put(&rt, 7);
    /// let Item::Value { number, value, .. } = take.take(&rt) else {
    ///     panic!(rt; "an end mark");
    /// };
    /// assert_eq!(rt; (number, value), (0, 7));
    /// ```
    pub fn open<T: Send + Drop>(
        alloc: Global,
        capacity: usize,
        putters: usize,
        takers: usize,
    ) -> Result<(Vec<PutEnd<T>>, Vec<TakeEnd<T>>), LaneError>
        ensures ends { IfOk result (λ r. AreNewEnds putters takers r.0.items r.1.items) }
        ensures no_room { ¬ IsCapacity capacity → result ≡ Err LaneError.NoRoom }
        ensures no_ends { IsCapacity capacity → ¬ (IsPutterCount putters × IsTakerCount takers) → result ≡ Err LaneError.NoEnds }
        ensures memory { IsCapacity capacity → IsPutterCount putters × IsTakerCount takers → IsOkUnless result LaneError.OutOfMemory }
    {
        Lane::open_in(alloc, capacity, putters, takers)
    }

    /// Opens a lane whose queue, and whose lists of ends, are in the memory of `alloc`.
    pub fn open_in<T: Send + Drop, A: Allocator + Clone>(
        alloc: A,
        capacity: usize,
        putters: usize,
        takers: usize,
    ) -> Result<(Vec<PutEnd<T, A>, A>, Vec<TakeEnd<T, A>, A>), LaneError>
        ensures ends { IfOk result (λ r. AreNewEnds putters takers r.0.items r.1.items) }
        ensures no_room { ¬ IsCapacity capacity → result ≡ Err LaneError.NoRoom }
        ensures no_ends { IsCapacity capacity → ¬ (IsPutterCount putters × IsTakerCount takers) → result ≡ Err LaneError.NoEnds }
        ensures memory { IsCapacity capacity → IsPutterCount putters × IsTakerCount takers → IsOkUnless result LaneError.OutOfMemory }
    {
        if capacity == 0 || capacity > MOST_CAPACITY {
            return Err(LaneError::NoRoom);
        }
        if putters == 0 || putters > MOST_PUT_ENDS || takers == 0 || takers > MOST_TAKE_ENDS {
            return Err(LaneError::NoEnds);
        }
        let Ok(ends) = open_ends(alloc, capacity, putters, takers) else {
            return Err(LaneError::OutOfMemory);
        };
        Ok(ends)
    }
}

/// Opens the queue, whose first pass is cut for the ends.
fn open_ends<T: Drop, A: Allocator + Clone>(
    alloc: A,
    capacity: usize,
    putters: usize,
    takers: usize,
) -> Result<(Vec<PutEnd<T, A>, A>, Vec<TakeEnd<T, A>, A>), AllocError>
    requires { (0 < capacity) × IsPutterCount putters × IsTakerCount takers }
    ensures { IfOk result (λ r. AreNewEnds putters takers r.0.items r.1.items) }
{
    let (sends, takes, mut pass) = bounded_with::<Item<T>, EndRecord<T>, LaneRule, A>(
        alloc.clone()?,
        capacity,
    )?;
    make_ends(alloc, &sends, &takes, &mut pass, putters, takers)
}

/// All that may be refused comes before the first end is made.
fn make_ends<T: Drop, A: Allocator + Clone>(
    alloc: A,
    sends: &LaneSender<T, A>,
    takes: &LaneReceiver<T, A>,
    pass: &mut LanePass<T>,
    putters: usize,
    takers: usize,
) -> Result<(Vec<PutEnd<T, A>, A>, Vec<TakeEnd<T, A>, A>), AllocError>
    requires seated { IsSeatAt (sends_on sends.now) pass.old }
    requires first { view pass.old ≡ end_record 1 1 [] [] }
    requires queue { receives_on takes.now ≡ sends_on sends.now }
    requires counts { IsPutterCount putters × IsTakerCount takers }
    ensures { IfOk result (λ r. AreNewEnds putters takers r.0.items r.1.items) }
{
    let send_list = copy_sends(&alloc, sends, putters)?;
    let take_list = copy_takes(&alloc, takes, takers)?;
    let put_room = room_for(&alloc, putters)?;
    let take_room = Vec::with_capacity(alloc, takers)?;
    name_ends::<T, A, Brand>(sends, pass, putters + takers, putters);
    let puts = deal_puts(sends, pass, send_list, put_room, putters, takers);
    let takes = deal_takes(sends, pass, take_list, take_room, putters, takers);
    Ok((puts, takes))
}

/// So many ends to put by, one for each putter, before any of them has a name.
fn copy_sends<T: Drop, A: Allocator + Clone>(
    alloc: &A,
    sends: &LaneSender<T, A>,
    count: usize,
) -> Result<Vec<LaneSender<T, A>, A>, AllocError>
    ensures { IfOk result (λ v. (length v.items ≡ count) × All (λ s. sends_on s ≡ sends_on sends.now) v.items) }
{
    let mut list = room_for(alloc, count)?;
    for made in 0..count {
        let _made = made;
        list.push_reserved(sends.try_clone()?);
    }
    Ok(list)
}

/// So many ends to take by, one for each taker, before any of them has a name.
fn copy_takes<T: Drop, A: Allocator + Clone>(
    alloc: &A,
    takes: &LaneReceiver<T, A>,
    count: usize,
) -> Result<Vec<LaneReceiver<T, A>, A>, AllocError>
    ensures { IfOk result (λ v. (length v.items ≡ count) × All (λ r. receives_on r ≡ receives_on takes.now) v.items) }
{
    let mut list = room_for(alloc, count)?;
    for made in 0..count {
        let _made = made;
        list.push_reserved(takes.try_clone()?);
    }
    Ok(list)
}

/// The ends to put by: each of these with a name of its own, cut off this one, and its number among the putters.
fn deal_puts<T: Drop, A: Allocator>(
    sends: &LaneSender<T, A>,
    pass: &mut LanePass<T>,
    mut copies: Vec<LaneSender<T, A>, A>,
    mut puts: Vec<PutEnd<T, A>, A>,
    putters: usize,
    takers: usize,
) -> Vec<PutEnd<T, A>, A>
    requires seated { IsSeatAt (sends_on sends.now) pass.old }
    requires named { view pass.old ≡ end_record (putters + takers) (putters + takers) (empty_lists 0 putters) [] }
    requires counts { IsPutterCount putters × IsTakerCount takers }
    requires copies { (length copies.items ≡ putters) × All (λ s. sends_on s ≡ sends_on sends.now) copies.items }
    requires room { (puts.items ≡ []) × (putters ≤ vec_capacity puts) }
    ensures seated { IsSeatAt (sends_on sends.now) pass.new }
    ensures rest { view pass.new ≡ end_record (putters + takers) takers [] [] }
    ensures puts { AreNewPutEnds (lane_on (sends_on sends.now) (putters + takers)) putters result.items }
{
    for sender in 0..putters {
        let Some(copy) = copies.pop() else {
            unreachable!()
        };
        let mine = cut_put(sends, pass);
        puts.push_reserved(PutEnd::new(copy, mine, sender as u32));
    }
    puts
}

/// The ends to take by: each of these with a name of its own, cut off this one.
fn deal_takes<T: Drop, A: Allocator>(
    sends: &LaneSender<T, A>,
    pass: &mut LanePass<T>,
    mut copies: Vec<LaneReceiver<T, A>, A>,
    mut takes: Vec<TakeEnd<T, A>, A>,
    putters: usize,
    takers: usize,
) -> Vec<TakeEnd<T, A>, A>
    requires seated { IsSeatAt (sends_on sends.now) pass.old }
    requires named { view pass.old ≡ end_record (putters + takers) takers [] [] }
    requires counts { IsPutterCount putters × IsTakerCount takers }
    requires copies { (length copies.items ≡ takers) × All (λ r. receives_on r ≡ sends_on sends.now) copies.items }
    requires room { (takes.items ≡ []) × (takers ≤ vec_capacity takes) }
    ensures takes { AreNewTakeEnds (lane_on (sends_on sends.now) (putters + takers)) takers result.items }
{
    for taker in 0..takers {
        let _taker = taker;
        let Some(copy) = copies.pop() else {
            unreachable!()
        };
        let mine = cut_take(sends, pass);
        takes.push_reserved(TakeEnd::new(copy, mine));
    }
    takes
}
