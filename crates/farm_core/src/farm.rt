//! The farm: feeders, workers and a collector over two lanes.
ghost use Rattle.std.specs.Prelude.{◌≡◌, IfOk, map};
ghost use Rattle.farm_threads.specs.Expected.{AreExpected};
ghost use Rattle.farm_threads.specs.Merge.{AreAllMergedAnswers};
ghost use Rattle.farm_threads.specs.Boards.{AreMergedRows};
ghost use Rattle.farm_orders.specs.FedLists.{one_each};
ghost use Rattle.farm_core.specs.Ready.{IsReady};

use crate::settling::settle_all;
use crate::taken::gates::gates_for;
use crate::taken::space::Space;
use crate::taken::{Room, room_for};
use crate::threads::all::{Started, Starts, end_all, join_all, start_all};
use crate::threads::collecting::{Cleared, start_collector};
use farm_orders::{FarmError, FeedAnswer, Feeds, Racks, Settings};
use farm_threads::{Board, Lists, Pause, Refusals, Shared, SlotPause};
use lrc_code::Outcome;
use std::alloc::Global;
use std::sync::Wait;
use std::thread::{self, Scope, Threads};

/// Starts the threads, stops and joins them, and gives the board.
fn run_in<'s, 'a: 's, E, R: Threads + Wait + Sync, P: Pause>(
    shared: &'s Shared<'s, R, P>,
    scope: &Scope<'s, E>,
    room: Room<'a>,
) -> Result<Board<'a>, FarmError>
    requires { IsReady room }
    ensures { IfOk result (λ b. (b.racks ≡ room.entry.desk.board.racks) × AreMergedRows b.racks b.table) }
{
    let Room {
        desk,
        workers,
        racks,
        stops,
        space,
    } = room;
    let Space {
        mut working,
        mut feeding,
        ends,
    } = space;
    let collecting = match start_collector(shared, scope, desk) {
        Ok(collecting) => collecting,
        Err(Cleared { replies, .. }) => {
            end_all(shared.rt, replies, workers, racks, stops);
            return Err(FarmError::NoThread);
        }
    };
    let Starts { all, left, taker } = start_all(
        shared,
        scope,
        workers,
        racks,
        &mut working,
        &mut feeding,
    );
    let started = Started {
        all,
        collecting,
        working,
        feeding,
        left,
        stops,
        taker,
    };
    match join_all(shared.rt, started, ends) {
        Some(joined) => Ok(settle_all(shared.rt, shared.alloc, joined, shared.pause)),
        None => Err(FarmError::NoThread),
    }
}

/// What `run` and `run_feeds` share: the board of all racks, with the replies to a lawful merge of each rack's feeds.
fn run_room<'a, R: Threads + Wait + Sync, P: Pause>(
    rt: &R,
    alloc: Global,
    room: Room<'a>,
    pause: &P,
) -> Result<Board<'a>, FarmError>
    requires { IsReady room }
    ensures { IfOk result (λ b. (b.racks ≡ room.entry.desk.board.racks) × AreMergedRows b.racks b.table) }
{
    let slots = SlotPause { pause };
    let lent = Shared {
        rt,
        alloc,
        pause: &slots,
        refused: Refusals::none(),
    };
    let shared = &lent;
    thread::scope(
        thread::scope_env(),
        rt,
        |scope| -> Result<Board, FarmError>
            requires { IsReady room }
            ensures { IfOk result (λ b. (b.racks ≡ room.entry.desk.board.racks) × AreMergedRows b.racks b.table) }
        { run_in(shared, scope, room) },
    )
}

/// Each rack's answers, in the order of its requests: for each request before the close of its rack's list, the
/// answer that the code's equations leave. Fails only if memory or a thread is refused.
///
/// ```
/// let answers = run(&rt, alloc, &racks, Settings::new(4, 16)?, &NoPause)?;
/// assert!(rt; matches!(&answers[0][0], Outcome::Rebuilt(_)));
/// ```
pub fn run<R: Threads + Wait + Sync, P: Pause>(
    rt: &R,
    alloc: Global,
    racks: &Racks,
    settings: Settings,
    pause: &P,
) -> Result<Vec<Vec<Outcome>>, FarmError>
    ensures { IfOk result (λ v. AreExpected racks.now (map (λ answers. answers.items) v.items)) }
{
    let lists = Lists::One(racks);
    let (gates, seats) = gates_for(alloc, lists)?;
    let room = room_for(alloc, lists, gates.as_slice(), seats, settings)?;
    let board = run_room(rt, alloc, room, pause)?;
    Ok(board.answers(alloc)?)
}

/// Each rack's answers, in the order of the numbers that its feeds drew, each with its feed's number: the answers to a lawful merge of
/// its feeds. Fails only if memory or a thread is refused.
pub fn run_feeds<R: Threads + Wait + Sync, P: Pause>(
    rt: &R,
    alloc: Global,
    feeds: &Feeds,
    settings: Settings,
    pause: &P,
) -> Result<Vec<Vec<FeedAnswer>>, FarmError>
    ensures { IfOk result (λ v. AreAllMergedAnswers feeds.now (map (λ answers. answers.items) v.items)) }
{
    let lists = Lists::Several(feeds);
    let (gates, seats) = gates_for(alloc, lists)?;
    let room = room_for(alloc, lists, gates.as_slice(), seats, settings)?;
    let board = run_room(rt, alloc, room, pause)?;
    Ok(board.by_feed(alloc)?)
}
