//! What follows the joins: what is left in the lanes is taken, the lanes are settled, and the board is given.
ghost use Rattle.std.specs.Prelude.{◌≡◌, ◌≤◌, ◌<◌, [], length, vec_capacity};
ghost use Rattle.std.specs.List.{sum_by};
ghost use Rattle.farm_threads.specs.Boards.{AreMergedRows};
ghost use Rattle.farm_threads.specs.Settled.{TookLeft, TookReplies, HasOneEach, HasJoined};

use farm_lanes::{EndedPut, Item, TakeEnd, settle};
use farm_threads::{Board, HandedIn, Job, Pause, Reply, hand_in, reply_to};
use std::alloc::Global;
use std::sync::Wait;

/// Takes so many items of the request lane, and replies to the jobs among them. There are none: what is left is the end mark after the
/// stops, which are put after all jobs. But no contract says in which order the items of several put ends are taken.
fn take_left<'a, R: Wait, P: Pause>(
    rt: &R,
    alloc: Global,
    jobs: &mut TakeEnd<Job<'a>>,
    count: u64,
    all: HandedIn<'a>,
    pause: &P,
) -> HandedIn<'a>
    ensures { TookLeft jobs.old count all.entry.board all.entry.fault jobs.new result.board result.fault }
{
    let HandedIn {
        mut board,
        mut fault,
    } = all;
    for _ in 0..count {
        match jobs.take(rt) {
            Item::Value {
                value: Job::Solve {
                    rack: slot,
                    number,
                    request,
                },
                ..
            } => {
                let reply = reply_to(alloc, slot, number, request, pause);
                fault = hand_in(&mut board, fault, reply);
            }
            Item::Value {
                value: Job::Stop,
                ..
            } => {}
            Item::End { .. } => {}
        }
    }
    HandedIn { board, fault }
}

/// Takes so many items of the reply lane, and hands in the replies among them. There are none, since the collector has taken all up to each
/// worker's end, but no contract says so.
fn take_replies<'a, R: Wait>(
    rt: &R,
    replies: &mut TakeEnd<Reply<'a>>,
    count: u64,
    all: HandedIn<'a>,
) -> HandedIn<'a>
    ensures { TookReplies replies.old count all.entry.board all.entry.fault replies.new result.board result.fault }
{
    let HandedIn {
        mut board,
        mut fault,
    } = all;
    for _ in 0..count {
        match replies.take(rt) {
            Item::Value { value, .. } => fault = hand_in(&mut board, fault, value),
            Item::End { .. } => {}
        }
    }
    HandedIn { board, fault }
}

/// How many items were put in all.
fn put_total<T: Drop>(ended: &[EndedPut<T>]) -> u64
    requires { length ended.now ≤ 128 }
    ensures { result ≡ sum_by (λ e. length e.put) ended.now }
{
    let mut total = 0;
    for end in ended {
        total += end.count();
    }
    total
}

/// How many items were taken in all, as far as the counts say.
fn taken_total<T: Drop>(takers: &[TakeEnd<T>]) -> u64
    ensures { result ≤ sum_by (λ e. length e.taken) takers.now }
{
    let mut total = 0u64;
    for end in takers {
        total = total.saturating_add(end.count());
    }
    total
}

/// The board, where one reply to each number that was drawn was handed in.
fn conclude<'a>(all: HandedIn<'a>) -> Board<'a>
    requires { HasOneEach all.board.racks all.board all.fault }
    ensures { (result ≡ all.entry.board) × AreMergedRows result.racks result.table }
{
    let HandedIn { board, fault } = all;
    if fault.is_some() {
        unreachable!();
    }
    board.learn_rooms();
    board
}

/// What is there when all threads were joined.
#[derive(Drop)]
pub(crate) struct Joined<'a> {
    pub all: HandedIn<'a>,
    pub desk: TakeEnd<Reply<'a>>,
    pub desk_room: Vec<TakeEnd<Reply<'a>>>,
    pub put_ends: Vec<EndedPut<Job<'a>>>,
    pub job_ends: Vec<TakeEnd<Job<'a>>>,
    pub reply_ends: Vec<EndedPut<Reply<'a>>>,
}

/// Takes what is left in the lanes, settles them, and gives the board.
pub(crate) fn settle_all<'a, R: Wait, P: Pause>(
    rt: &R,
    alloc: Global,
    joined: Joined<'a>,
    pause: &P,
) -> Board<'a>
    requires joined { HasJoined joined.all.board.racks joined.put_ends.items joined.job_ends.items joined.reply_ends.items joined.desk
        joined.all.board joined.all.fault }
    requires workers { 0 < length joined.job_ends.items }
    requires room { (joined.desk_room.items ≡ []) × (0 < vec_capacity joined.desk_room) }
    ensures { (result.racks ≡ joined.entry.all.board.racks) × AreMergedRows result.racks result.table }
{
    let Joined {
        all,
        mut desk,
        mut desk_room,
        put_ends,
        mut job_ends,
        reply_ends,
    } = joined;
    let replied = put_total(reply_ends.as_slice());
    let missing = replied.saturating_sub(desk.count());
    let all = take_replies(rt, &mut desk, missing, all);
    desk_room.push_reserved(desk);
    let put = put_total(put_ends.as_slice());
    let taken = taken_total(job_ends.as_slice());
    let left = put.saturating_sub(taken);
    let Some(mut last) = job_ends.pop() else {
        unreachable!();
    };
    let all = take_left(rt, alloc, &mut last, left, all, pause);
    job_ends.push_reserved(last);
    settle(put_ends, job_ends);
    settle(reply_ends, desk_room);
    conclude(all)
}
