//! A feeder and two workers in one thread, over lanes that hold all that they put.
ghost use Rattle.farm_lanes.specs.LaneEnds.{IsUnusedPut, IsUnusedTake};

use crate::farm::asserting::assert_holds;
use crate::farm::requests::{Entry, GLOBAL, LOCAL, SEVERAL, STRIPES, list_of, shown};
use farm_core::{Fed, Job, NoPause, RackList, Reply, ReplyResult, Worked, feed, work};
use farm_lanes::{Gate, Item, Lane, PutEnd, TakeEnd};
use std::alloc::Global;
use std::process::Abort;
use std::sync::Wait;

/// A lane for eight items, with two ends of each kind.
#[derive(Drop)]
struct TwoToTwo<T: Drop> {
    first: PutEnd<T>,
    second: PutEnd<T>,
    taker: TakeEnd<T>,
    other: TakeEnd<T>,
}

fn two_to_two<T: Send + Drop>(rt: &impl Abort, alloc: Global) -> TwoToTwo<T>
    ensures { IsUnusedPut result.first × IsUnusedPut result.second × IsUnusedTake result.taker × IsUnusedTake result.other }
{
    let (mut puts, mut takes) = Lane::open(alloc, 8, 2, 2).expect(rt, "a lane");
    let second = puts.pop().expect(rt, "a put end");
    let first = puts.pop().expect(rt, "a put end");
    let other = takes.pop().expect(rt, "a take end");
    let taker = takes.pop().expect(rt, "a take end");
    TwoToTwo {
        first,
        second,
        taker,
        other,
    }
}

/// Works until a stop: how many items are taken, and how many put.
fn works<'a, R: Wait>(
    rt: &R,
    alloc: Global,
    jobs: TakeEnd<Job<'a>>,
    replies: PutEnd<Reply<'a>>,
) -> (u64, u64)
    requires { IsUnusedTake jobs × IsUnusedPut replies }
{
    let Worked { jobs, replies } = work(rt, alloc, jobs, replies, &NoPause);
    (jobs.count(), replies.count())
}

/// What a feeder leaves: its slot and its feed; what its close was answered; how many items it put; whether the right is left.
type Left = ((usize, usize), Option<u64>, u64, bool);

/// Feeds this list through a gate of its own.
fn feed_alone<'a, R: Abort + Wait>(
    rt: &R,
    alloc: Global,
    list: &'a RackList,
    jobs: PutEnd<Job<'a>>,
) -> Left
    requires { IsUnusedPut jobs }
{
    let (gate, mut seats, mut rights) = Gate::open(alloc, 1, 1).expect(rt, "a gate");
    let seat = seats.pop().expect(rt, "a seat");
    let right = rights.pop().expect(rt, "a right");
    let Fed {
        rack,
        feed,
        list: _,
        seat: _,
        right,
        close,
        jobs,
    } = feed(rt, &gate, seat, right, 0, 0, list, jobs, &NoPause);
    ((rack, feed), close, jobs.count(), right.is_some())
}

fn stops_both<'a>(rt: &impl Wait, mut jobs: PutEnd<Job<'a>>)
    requires { IsUnusedPut jobs }
{
    jobs.put(rt, Job::Stop);
    jobs.put(rt, Job::Stop);
}

/// How a reply is shown that says that memory was refused.
const STARVED: u16 = 304;

/// The number and the answer of the next reply, as `shown` gives it; nothing where the next item is an end mark.
fn next<'a, R: Wait>(rt: &R, replies: &mut TakeEnd<Reply<'a>>) -> Option<(u64, u16)> {
    let Item::Value { value, .. } = replies.take(rt) else {
        return None;
    };
    let Reply {
        rack: _,
        number,
        request: _,
        result,
    } = value;
    match result {
        ReplyResult::Done(outcome) => Some((number, shown(&outcome))),
        ReplyResult::Starved => Some((number, STARVED)),
    }
}

/// What the feeder leaves, how many items each worker takes and puts, and the first three items of the replies.
type Done = (Left, [(u64, u64); 2], [Option<(u64, u16)>; 3]);

fn work_by_two<'a, R: Abort + Wait>(
    rt: &R,
    alloc: Global,
    list: &'a RackList,
    jobs: TwoToTwo<Job<'a>>,
    replies: TwoToTwo<Reply<'a>>,
) -> Done
    requires jobs { IsUnusedPut jobs.first × IsUnusedPut jobs.second × IsUnusedTake jobs.taker × IsUnusedTake jobs.other }
    requires replies { IsUnusedPut replies.first × IsUnusedPut replies.second }
{
    let left = feed_alone(rt, alloc, list, jobs.first);
    stops_both(rt, jobs.second);
    let counts = [
        works(rt, alloc, jobs.taker, replies.first),
        works(rt, alloc, jobs.other, replies.second),
    ];
    let mut taker = replies.taker;
    let first = next(rt, &mut taker);
    let second = next(rt, &mut taker);
    (left, counts, [first, second, next(rt, &mut taker)])
}

/// What a feeder of these and two workers do: the feeder's jobs are followed by its end mark, and those by a stop for each worker.
fn works_on<R: Abort + Wait>(rt: &R, alloc: Global, entries: &[Entry]) -> Done {
    let list = list_of(rt, alloc, entries);
    let jobs = two_to_two(rt, alloc);
    let replies = two_to_two(rt, alloc);
    work_by_two(rt, alloc, &list, jobs, replies)
}

/// Entries of a list, and what comes of them: what `Done` has.
type Row = (
    &'static [Entry],
    Left,
    &'static [(u64, u64)],
    &'static [Option<(u64, u16)>],
);

/// Whether one of the replies says that memory was refused.
fn is_starved(replies: &[Option<(u64, u16)>; 3]) -> bool {
    for reply in replies {
        if matches!(reply, Some((_, STARVED))) {
            return true;
        }
    }
    false
}

/// The first list's gate is closed at 2, the first worker replies to both requests and the second to none. Without a close the feeder puts
/// its jobs and its end mark, and keeps its right. The first worker takes these and a stop, and puts its replies and its end mark; the
/// second takes a stop alone.
const ROWS: &[Row] = &[
    (
        &[SEVERAL, LOCAL, Entry::Close, GLOBAL],
        ((0, 0), Some(2), 3, false),
        &[(4, 3), (1, 1)],
        &[Some((0, STRIPES)), Some((1, 0x01)), None],
    ),
    (
        &[LOCAL],
        ((0, 0), None, 2, true),
        &[(3, 2), (1, 1)],
        &[Some((0, 0x01)), None, None],
    ),
    (
        &[LOCAL, LOCAL],
        ((0, 0), None, 3, true),
        &[(4, 3), (1, 1)],
        &[Some((0, 0x01)), Some((1, 0x01)), None],
    ),
];

/// Asserts that a feeder and two workers do what this row says, or says that a reply starved.
fn assert_done<R: Abort + Wait>(rt: &R, alloc: Global, row: usize) {
    let (entries, left, counts, replies) = ROWS.get(row).expect(rt, "a row");
    let done = works_on(rt, alloc, entries);
    assert_holds(rt, !is_starved(&done.2), "a worker", "starved");
    assert_holds(rt, done.0 == *left, "a feeder", "it leaves something else");
    assert_holds(
        rt,
        done.1.as_slice() == *counts,
        "two workers",
        "other counts",
    );
    assert_holds(
        rt,
        done.2.as_slice() == *replies,
        "two workers",
        "other replies",
    );
}

#[test]
fn a_feeder_and_two_workers_answer_up_to_the_close(rt: HostRuntime) {
    assert_done(&rt, rt.alloc(), 0);
}

/// Where a script refuses the memory of the plan's arena or that of the answer, the reply says so.
#[test]
fn a_worker_without_memory_says_so(rt: HostRuntime) {
    assert_done(&rt, rt.alloc(), 1);
}

/// Each job has an arena of its own, so twice as many refusals starve one of two jobs.
#[test]
fn each_job_has_an_arena_of_its_own(rt: HostRuntime) {
    assert_done(&rt, rt.alloc(), 2);
}
