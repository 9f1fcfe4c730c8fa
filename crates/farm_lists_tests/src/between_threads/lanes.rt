//! Runs of lanes, in one thread and in several.
ghost use Rattle.std.specs.Prelude.{◌≡◌, ℕ, ◌<◌, ◌≤◌, slice_index_or, vec_len};
ghost use Rattle.farm_lanes.specs.LaneEnds.{new_put, new_take};

use crate::between_threads::asserting::assert_holds;
use crate::between_threads::tally::Tally;
use farm_lanes::{EndedPut, Item, Lane, LaneError, PutEnd, TakeEnd, settle};
use std::alloc::Global;
use std::process::Abort;
use std::sync::Wait;
use std::sync::atomic::{AtomicBool, AtomicU64, Ordering};
use std::thread::{self, Threads, join, map_vec};

/// An item's sender, its number and its value, of which an end mark has none.
type Shown = (u32, u64, Option<u64>);

fn shown(item: Item<u64>) -> Shown {
    match item {
        Item::Value {
            sender,
            number,
            value,
        } => (sender, number, Some(value)),
        Item::End { sender, number } => (sender, number, None),
    }
}

/// A lane with one end of each kind.
fn pair<T: Send + Drop>(rt: &impl Abort, alloc: Global, capacity: usize) -> (PutEnd<T>, TakeEnd<T>)
    requires { (0 < capacity) × (capacity ≤ 1024) }
    ensures { (result.0 ≡ new_put result.0.lane 0) × (result.1 ≡ new_take result.0.lane) × (result.0.lane.ends ≡ 2) }
{
    let (mut puts, mut takes) = Lane::open(alloc, capacity, 1, 1).expect(rt, "a lane");
    let put = puts.pop().expect(rt, "a put end");
    let take = takes.pop().expect(rt, "a take end");
    (put, take)
}

/// How many items were put into such a lane, and how many were taken.
fn settle_pair<T: Drop>(
    rt: &impl Abort,
    alloc: Global,
    ended: EndedPut<T>,
    taker: TakeEnd<T>,
) -> (u64, u64)
    requires { (ended.sender ≡ 0) × (taker.lane ≡ ended.lane) × (ended.lane.ends ≡ 2) }
{
    let puts = Vec::from_array(alloc, [ended]).expect(rt, "ended put ends");
    let takes = Vec::from_array(alloc, [taker]).expect(rt, "take ends");
    let settled = settle(puts, takes);
    (settled.put, settled.taken)
}

/// What is taken where 7, 9 and the end mark were put.
const SEVEN_AND_NINE: &[Shown] = &[(0, 0, Some(7)), (0, 1, Some(9)), (0, 2, None)];

/// Takes as many items as these: whether they are the same.
fn take_three<R: Wait>(rt: &R, mut end: TakeEnd<u64>, done: &AtomicBool) -> (TakeEnd<u64>, bool)
    ensures { result.0.lane ≡ end.lane }
{
    let mut are = true;
    for wanted in SEVEN_AND_NINE {
        let item = shown(end.take(rt));
        are = are && item == *wanted;
    }
    done.store(true, Ordering::SeqCst);
    (end, are)
}

/// Asserts that it is set within a million turns.
fn assert_in_time(rt: &impl Abort, done: &AtomicBool) {
    for _ in 0..1_000_000u32 {
        if done.load(Ordering::SeqCst) {
            return;
        }
        thread::yield_now();
    }
    let is = done.load(Ordering::SeqCst);
    assert_holds(rt, is, "the items that were put are not taken:", 3);
}

/// Takes the items in another thread, within a bounded number of turns.
fn take_in_time<R: Abort + Threads + Wait + Sync>(
    rt: &R,
    take: TakeEnd<u64>,
) -> (TakeEnd<u64>, bool)
    ensures { result.0.lane ≡ take.lane }
{
    let done = AtomicBool::new(false);
    let set_when_done = &done;
    let (taken, _) = join(
        rt,
        move || -> (TakeEnd<u64>, bool)
            ensures { result.0.lane ≡ take.lane }
        { take_three(rt, take, set_when_done) },
        || assert_in_time(rt, &done),
    );
    taken
}

fn put_two<R: Wait>(rt: &R, mut end: PutEnd<u64>) -> EndedPut<u64>
    requires { end ≡ new_put end.lane 0 }
    ensures { (result.lane ≡ end.lane) × (result.sender ≡ end.sender) }
{
    end.put(rt, 7);
    end.put(rt, 9);
    end.end(rt)
}

/// What was put is taken in another thread, within a bounded number of turns.
#[test]
fn takes_in_another_thread_what_was_put(rt: HostRuntime) {
    let (put, take) = pair::<u64>(&rt, rt.alloc(), 4);
    let ended = put_two(&rt, put);
    let (take, are) = take_in_time(&rt, take);
    assert_holds(&rt, are, "other items than were put:", 3);
    let settled = settle_pair(&rt, rt.alloc(), ended, take);
    assert_holds(&rt, settled == (3, 3), "put and taken, not", 3);
}

/// Capacities and numbers of putting and of taking ends, with what they are refused as.
const LIMITS: &[(usize, usize, usize, Option<LaneError>)] = &[
    (0, 1, 1, Some(LaneError::NoRoom)),
    (1025, 1, 1, Some(LaneError::NoRoom)),
    (1, 0, 1, Some(LaneError::NoEnds)),
    (0, 1, 0, Some(LaneError::NoRoom)),
    (0, 0, 1, Some(LaneError::NoRoom)),
    (1025, 129, 33, Some(LaneError::NoRoom)),
    (1, 1, 0, Some(LaneError::NoEnds)),
    (1, 129, 1, Some(LaneError::NoEnds)),
    (1, 1, 33, Some(LaneError::NoEnds)),
    (1024, 128, 32, None),
    (1, 1, 1, None),
];

/// Why a lane isn't opened, if it isn't.
pub(crate) fn refusal_of(
    alloc: Global,
    capacity: usize,
    putters: usize,
    takers: usize,
) -> Option<LaneError> {
    Lane::open::<u64>(alloc, capacity, putters, takers).err()
}

/// The capacity is tested before the numbers of ends.
#[test]
fn refuses_what_is_beyond_the_limits(rt: HostRuntime) {
    for number in 0..LIMITS.len() {
        let (capacity, putters, takers, wanted) = LIMITS[number];
        let refusal = refusal_of(rt.alloc(), capacity, putters, takers);
        assert_holds(&rt, refusal == wanted, "limits: row", number);
    }
}

/// A value that lends what it counts its drops in.
struct CountsDrops<'a> {
    drops: &'a AtomicU64,
}

impl<'a> Drop for CountsDrops<'a> {
    fn drop(self) {
        let CountsDrops { drops } = self;
        drops.fetch_add(1, Ordering::SeqCst);
    }
}

/// Three values are put, of which two are taken, and the lane is settled: how many items were put before the end mark and with it, how
/// many were taken, and how many values were dropped before the settling; what it was settled with; how many values were dropped in all.
fn put_three_and_take_two<R: Abort + Wait>(
    rt: &R,
    alloc: Global,
    drops: &AtomicU64,
) -> ([u64; 4], (u64, u64), u64) {
    let (mut put, mut take) = pair(rt, alloc, 4);
    put.put(rt, CountsDrops { drops });
    put.put(rt, CountsDrops { drops });
    put.put(rt, CountsDrops { drops });
    let puts = put.puts();
    let ended = put.end(rt);
    drop(take.take(rt));
    drop(take.take(rt));
    let dropped = drops.load(Ordering::SeqCst);
    let counts = [puts, ended.count(), take.count(), dropped];
    let settled = settle_pair(rt, alloc, ended, take);
    (counts, settled, drops.load(Ordering::SeqCst))
}

/// What was not taken is dropped once the lane is settled, and settling counts it.
#[test]
fn drops_what_was_not_taken(rt: HostRuntime) {
    let drops = AtomicU64::new(0);
    let counted = put_three_and_take_two(&rt, rt.alloc(), &drops);
    let are = counted == ([3, 4, 2, 2], (4, 2), 3);
    assert_holds(&rt, are, "other counts of values:", 3);
}

/// Puts the numbers below 250, and then the end mark.
fn put_all<R: Wait>(rt: &R, mut end: PutEnd<u64>) -> EndedPut<u64>
    ensures { (result.lane ≡ end.lane) × (result.sender ≡ end.sender) }
{
    for number in 0..250u64 {
        // So many have room at any end: `put` asks for that, and a new end has put none.
        if end.puts() < 250 {
            end.put(rt, number);
        }
    }
    end.end(rt)
}

/// How many items each of four senders puts, its end mark counted.
const ITEMS: u64 = 251;

/// Counts an item of a taker, for whom these are the least numbers that each sender's next item may have. One that no sender puts, or that
/// comes after a later one of its sender, is none of those that are counted.
fn count(tally: &Tally, least: &mut [u64; 4], item: Shown) {
    let (sender, number, _) = item;
    let place = sender as usize;
    if place >= 4 || number >= ITEMS || number < least[place] {
        tally.refuse();
        return;
    }
    least[place] = number + 1;
    tally.count(place as u64 * ITEMS + number);
}

/// Takes 502 items.
fn take_all<R: Wait>(rt: &R, tally: &Tally, mut end: TakeEnd<u64>) -> TakeEnd<u64>
    ensures { result.lane ≡ end.lane }
{
    let mut least = [0u64; 4];
    for _ in 0..502u32 {
        count(tally, &mut least, shown(end.take(rt)));
    }
    end
}

/// Each sender in a thread of its own.
fn put_each<R: Abort + Threads + Wait + Sync>(rt: &R, ends: Vec<PutEnd<u64>>) -> Vec<EndedPut<u64>>
    ensures count { vec_len result ≡ vec_len ends }
    ensures each { (i : ℕ) (d : _) (e : _) → i < vec_len ends
        → ((slice_index_or result.items i d).lane ≡ (slice_index_or ends.items i e).lane)
        × ((slice_index_or result.items i d).sender ≡ (slice_index_or ends.items i e).sender) }
{
    map_vec(rt, ends, &|end| put_all(rt, end)).expect(rt, "threads")
}

/// Each taker in a thread of its own.
fn take_each<R: Abort + Threads + Wait + Sync>(
    rt: &R,
    tally: &Tally,
    ends: Vec<TakeEnd<u64>>,
) -> Vec<TakeEnd<u64>>
    ensures count { vec_len result ≡ vec_len ends }
    ensures each { (i : ℕ) (d : _) (e : _) → i < vec_len ends
        → (slice_index_or result.items i d).lane ≡ (slice_index_or ends.items i e).lane }
{
    map_vec(rt, ends, &|end| take_all(rt, tally, end)).expect(rt, "threads")
}

/// Four senders put 250 values and an end mark each, and two takers take 502 items each, each in a thread of its own, through a lane of
/// capacity 1: what it is settled with.
fn run_lane<R: Abort + Threads + Wait + Sync>(rt: &R, alloc: Global, tally: &Tally) -> (u64, u64) {
    let (puts, takes) = Lane::open::<u64>(alloc, 1, 4, 2).expect(rt, "a lane");
    let (ended, taken) = join(
        rt,
        move || -> Vec<EndedPut<u64>>
            ensures count { vec_len result ≡ vec_len puts }
            ensures each { (i : ℕ) (d : _) (e : _) → i < vec_len puts
                → ((slice_index_or result.items i d).lane ≡ (slice_index_or puts.items i e).lane)
                × ((slice_index_or result.items i d).sender ≡ (slice_index_or puts.items i e).sender) }
        { put_each(rt, puts) },
        move || -> Vec<TakeEnd<u64>>
            ensures count { vec_len result ≡ vec_len takes }
            ensures each { (i : ℕ) (d : _) (e : _) → i < vec_len takes
                → (slice_index_or result.items i d).lane ≡ (slice_index_or takes.items i e).lane }
        { take_each(rt, tally, takes) },
    );
    let settled = settle(ended, taken);
    (settled.put, settled.taken)
}

/// Through a lane of capacity 1 each item of four senders comes to one of two takers, once, and in rising numbers.
#[test]
fn takes_each_item_once(rt: HostRuntime) {
    let tally = Tally::new(&rt, rt.alloc(), 4 * ITEMS);
    let settled = run_lane(&rt, rt.alloc(), &tally);
    assert_holds(&rt, settled == (1004, 1004), "put and taken, not", 1004);
    tally.assert_once_below(&rt, 4 * ITEMS);
}
