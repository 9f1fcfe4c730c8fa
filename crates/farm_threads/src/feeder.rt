//! A feeder: what it puts for its list, how it is started and joined, and how its end is ended where it isn't started.
ghost use Rattle.std.specs.Prelude.{◌≡◌, ◌+◌, ◌≤◌, [], false, true, IfSome, vec_len, vec_capacity};
ghost use Rattle.farm_lanes.specs.LaneEnds.{IsUnusedPut};
ghost use Rattle.farm_threads.specs.Feed.{HasFed, LeftBy};
ghost use Rattle.farm_orders.specs.Limits.{order_limit};
ghost use Rattle.farm_threads.specs.Threads.{FeedersJoined, feeders_of};

use crate::given::Feeder;
use crate::jobs::Job;
use crate::pause::Pause;
use crate::shared::{Shared, start_thread};
use crate::slots::Slot;
use crate::worker::take_mark;
use farm_lanes::{EndedPut, Gate, PutEnd, Right, Seat, TakeEnd};
use farm_orders::{Order, RackList};
use std::snapshot::Snapshot;
use std::sync::Wait;
use std::sync::atomic::Ordering;
use std::thread::{Promise, PromisedHandle, Scope, Threads};

/// What a feeder gives back: its slot (`Job` says what that is), its feed and list, its seat, the right unless it was spent on closing,
/// what the close was answered if it made it, and its end.
#[derive(Drop)]
pub struct Fed<'a> {
    /// The slot that the feeder's jobs name, for its rack and feed.
    pub rack: usize,
    pub feed: usize,
    pub list: &'a RackList,
    pub seat: Seat,
    pub right: Option<Right>,
    pub close: Option<u64>,
    pub jobs: EndedPut<Job<'a>>,
}

/// Puts a job for each request before the list's close, with its slot and a number that it draws, closes the gate there, and
/// puts its end mark. It stops early only where a draw is refused since the gate is closed. The arguments are a promise to callers.
pub fn feed<'a, R: Wait, P: Pause>(
    rt: &R,
    gate: &Gate,
    mut seat: Seat,
    right: Right,
    slot: usize,
    feed: usize,
    list: &'a RackList,
    mut jobs: PutEnd<Job<'a>>,
    pause: &P,
) -> Fed<'a>
    requires own { (seat.gate ≡ gate.now.id) × (right ≡ gate.now.id) }
    requires fresh { (seat.has.numbers ≡ []) × (seat.has.knows ≡ false) }
    requires budget { seat.has.draws + order_limit ≤ seat.has.share }
    requires unused { IsUnusedPut jobs }
    ensures given { (result.rack ≡ slot) × (result.feed ≡ feed) × (result.list.now ≡ list.now) }
    ensures fed { HasFed gate.now seat slot list.now jobs.entry result.seat result.right result.close result.jobs }
{
    let mut position = 0;
    for order in list.orders() {
        pause.ahead(slot, feed, position);
        let Order::Rebuild(request) = order else {
            let close = gate.close(&mut seat, right).ok();
            pause.behind(slot, feed, position);
            return Fed {
                rack: slot,
                feed,
                list,
                seat,
                right: None,
                close,
                jobs: jobs.end(rt),
            };
        };
        let drawn = gate.draw(&mut seat);
        pause.behind(slot, feed, position);
        let Ok(number) = drawn else {
            break;
        };
        jobs.put(
            rt,
            Job::Solve {
                rack: slot,
                number,
                request,
            },
        );
        position += 1;
    }
    Fed {
        rack: slot,
        feed,
        list,
        seat,
        right: Some(right),
        close: None,
        jobs: jobs.end(rt),
    }
}

/// What a feeder was given.
#[derive(Drop)]
pub struct FeedOf<'a>(pub Snapshot<Feeder<'a>>);

impl<'a> Promise<Option<Fed<'a>>> for FeedOf<'a> {
    ghost use Rattle.std.specs.Prelude.{IfSome};
    ghost use Rattle.farm_threads.specs.Feed.{LeftBy};

    ghost kept_by = { λ p o. IfSome o (LeftBy p.0.value) };
}

/// A feeder's thread. It gives nothing where a feeder was refused before it began; its end is ended all the same.
pub type FeederHandle<'a> = PromisedHandle<Option<Fed<'a>>, FeedOf<'a>>;

/// What a feeder does: it feeds its list, unless a feeder was refused before it began.
fn feed_with<'a, R: Wait, P: Pause>(shared: &Shared<R, P>, feeder: Feeder<'a>) -> Option<Fed<'a>>
    ensures { IfSome result (LeftBy feeder.entry) }
{
    let Feeder {
        gate,
        seat,
        right,
        rack,
        feed: number,
        list,
        jobs,
    } = feeder;
    if shared.refused.feeder.load(Ordering::SeqCst) {
        let _ended = jobs.end(shared.rt);
        None
    } else {
        Some(feed(
            shared.rt,
            gate,
            seat,
            right,
            Slot::of(rack, number).number,
            number,
            list,
            jobs,
            shared.pause,
        ))
    }
}

/// Starts a feeder. Where no thread can be made, its end is ended here.
fn start_feeder<'s, 'a: 's, E, R: Threads + Wait + Sync, P: Pause>(
    shared: &'s Shared<'s, R, P>,
    scope: &Scope<'s, E>,
    feeder: Feeder<'a>,
) -> Option<FeederHandle<'a>>
    ensures { IfSome result (λ h. h.promise.0.value ≡ feeder.entry) }
{
    let promise = FeedOf(Snapshot::of(&feeder));
    let body = move || -> Option<Fed>
        ensures { IfSome result (LeftBy feeder.entry) }
    { feed_with(shared, feeder) };
    match start_thread(scope, promise, body) {
        Ok(handle) => Some(handle),
        Err(back) => {
            shared.refused.feeder.store(true, Ordering::SeqCst);
            let _none = (back.value)();
            None
        }
    }
}

/// Starts the feeders of a rack, in order. After a refusal no further one is started, and the ends of the others are ended here:
/// the workers take their marks. Says whether none was refused.
pub fn start_feeders<'s, 'a: 's, E, R: Threads + Wait + Sync, P: Pause>(
    shared: &'s Shared<'s, R, P>,
    scope: &Scope<'s, E>,
    feeders: Vec<Feeder<'a>>,
    handles: &mut Vec<FeederHandle<'a>>,
) -> bool
    requires empty { handles.old.items ≡ [] }
    requires room { vec_len feeders ≤ vec_capacity handles.old }
    ensures all { result ≡ true → feeders_of handles.new.items ≡ feeders.entry.items }
    ensures capacity { vec_capacity handles.new ≡ vec_capacity handles.old }
    ensures len { vec_len handles.new ≤ vec_len feeders.entry }
{
    let mut all = true;
    for feeder in feeders {
        if all {
            match start_feeder(shared, scope, feeder) {
                Some(handle) => handles.push_reserved(handle),
                None => all = false,
            }
        } else {
            let Feeder { jobs, .. } = feeder;
            let _ended = jobs.end(shared.rt);
        }
    }
    all
}

/// Joins the feeders of a rack, and puts what they left in order. Says whether each has fed.
pub fn join_feeders<'a, R: Threads>(
    rt: &R,
    handles: Vec<FeederHandle<'a>>,
    given_back: &mut Vec<Fed<'a>>,
) -> bool
    requires empty { given_back.old.items ≡ [] }
    requires room { vec_len handles ≤ vec_capacity given_back.old }
    ensures joined { result ≡ true → FeedersJoined handles.entry.items given_back.new.items }
    ensures count { result ≡ true → vec_len given_back.new ≡ vec_len handles.entry }
{
    let mut all = true;
    for handle in handles {
        match handle.join(rt) {
            Some(fed) => given_back.push_reserved(fed),
            None => all = false,
        }
    }
    all
}

/// Ends the put ends of feeders. Where an end is given, no worker takes from the lane, and each mark is taken by it, so that a
/// queue of one has room for the next.
pub fn end_feeders<'a, R: Wait>(
    rt: &R,
    feeders: Vec<Feeder<'a>>,
    taker: &mut Option<TakeEnd<Job<'a>>>,
) {
    for feeder in feeders {
        let Feeder { jobs, .. } = feeder;
        let _ended = jobs.end(rt);
        take_mark(rt, taker);
    }
}
