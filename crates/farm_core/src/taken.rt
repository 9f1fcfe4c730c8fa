//! What a run takes before its first thread starts.
ghost use Rattle.std.specs.Prelude.{◌≡◌, ◌+◌, ◌≤◌, ◌<◌, [], ◌++◌, IfOk, length, map, vec_len, vec_capacity};
ghost use Rattle.std.specs.Vec.Iter.{into_iter_items, into_iter_len};
ghost use Rattle.list_members.specs.Lists.{Each};
ghost use Rattle.farm_lanes.specs.LaneEnds.{IsUnusedPut};
ghost use Rattle.farm_threads.specs.declared.jobs.Job.{Job};
ghost use Rattle.farm_orders.specs.FedLists.{all_feeds_of};
ghost use Rattle.farm_threads.specs.RunFeeds.{lists_of};
ghost use Rattle.farm_core.specs.Ready.{IsNewGate, AreGates, AreAllGiven, ends_given, rooms_of, IsReady};
ghost use Rattle.farm_orders.specs.Limits.{all_feeds_limit, feed_limit, rack_limit};
ghost use Rattle.farm_threads.specs.Threads.{AreRackFeeders};

pub(crate) mod gates;
pub(crate) mod lanes;
pub(crate) mod space;

use crate::taken::gates::RackSeats;
use crate::taken::lanes::{reply_lane, request_lane, worker_ends};
use crate::taken::space::{Space, space_for};
use crate::threads::collecting::Desk;
use farm_lanes::{Gate, PutEnd};
use farm_orders::{RackList, Settings};
use farm_threads::{Board, Feeder, FeederSpace, Job, Lists, RackRoom, WorkerEnds};
use std::alloc::{AllocError, Global};
use std::vec::IntoIter;

/// What the threads are given, and room for what they give back.
#[derive(Drop)]
pub(crate) struct Room<'a> {
    pub desk: Desk<'a>,
    pub workers: Vec<WorkerEnds<'a>>,
    pub racks: Vec<RackRoom<'a>>,
    pub stops: PutEnd<Job<'a>>,
    pub space: Space<'a>,
}

/// The feeders of a rack, which share its gate.
fn rack_room<'a>(
    gate: &'a Gate,
    rack: usize,
    lists: &'a [RackList],
    own: RackSeats<'a>,
    puts: &mut IntoIter<PutEnd<Job<'a>>>,
) -> RackRoom<'a>
    requires rack { rack < rack_limit }
    requires few { (0 < length lists.now) × (length lists.now ≤ feed_limit) }
    requires new { IsNewGate (length lists.now) gate.now own }
    requires enough { length lists.now ≤ into_iter_len puts.old }
    requires unused { Each IsUnusedPut (into_iter_items puts.old) }
    ensures gate { result.gate.now ≡ gate.now }
    ensures feeders { AreRackFeeders gate.now rack lists.now result.feeders.items }
    ensures ends { into_iter_items puts.old ≡ map (λ f. f.jobs) result.feeders.items ++ into_iter_items puts.new }
    ensures left { into_iter_len puts.new + length lists.now ≡ into_iter_len puts.old }
{
    let RackSeats {
        mut seats,
        mut rights,
        space,
    } = own;
    let FeederSpace {
        mut feeders,
        handles,
        given_back,
        rights: rights_back,
        ..
    } = space;
    let count = lists.len();
    for feed in 0..count {
        let Some(seat) = seats.pop() else {
            unreachable!();
        };
        let Some(right) = rights.pop() else {
            unreachable!();
        };
        let Some(jobs) = puts.next() else {
            unreachable!();
        };
        feeders.push_reserved(Feeder {
            gate,
            seat,
            right,
            rack,
            feed,
            list: &lists[feed],
            jobs,
        });
    }
    RackRoom {
        gate,
        feeders,
        handles,
        given_back,
        rights: rights_back,
    }
}

/// The feeders of all racks, in a list that has room for them.
fn racks_for<'a>(
    lists: Lists<'a>,
    gates: &'a [Gate],
    seats: Vec<RackSeats<'a>>,
    puts: Vec<PutEnd<Job<'a>>>,
    mut racks: Vec<RackRoom<'a>>,
) -> Vec<RackRoom<'a>>
    requires gates { AreGates (lists_of lists) gates.now seats.items }
    requires few { length (lists_of lists) ≤ rack_limit }
    requires count { vec_len puts ≡ all_feeds_of (lists_of lists) }
    requires unused { Each IsUnusedPut puts.items }
    requires room { (racks.items ≡ []) × (length (lists_of lists) ≤ vec_capacity racks) }
    ensures racks { AreAllGiven (lists_of lists.entry) (rooms_of result.items) }
    ensures ends { ends_given (rooms_of result.items) ≡ puts.entry.items }
{
    let mut puts = puts.into_iter();
    for own in seats {
        let rack = racks.len();
        racks.push_reserved(rack_room(&gates[rack], rack, lists.feeds(rack), own, &mut puts));
    }
    racks
}

/// How many feeds all racks have.
fn all_feeds(lists: Lists) -> usize
    ensures all { result ≡ all_feeds_of (lists_of lists.entry) }
    ensures few { result ≤ all_feeds_limit }
{
    let mut count = 0;
    for rack in 0..lists.racks() {
        count += lists.feeds(rack).len();
    }
    count
}

/// All that a run needs but the threads: the board, both lanes, and the feeders. All lists have their room before a lane is opened.
pub(crate) fn room_for<'a>(
    alloc: Global,
    lists: Lists<'a>,
    gates: &'a [Gate],
    seats: Vec<RackSeats<'a>>,
    settings: Settings,
) -> Result<Room<'a>, AllocError>
    requires { AreGates (lists_of lists) gates.now seats.items }
    ensures racks { IfOk result (λ r. r.desk.board.racks ≡ lists_of lists.entry) }
    ensures ready { IfOk result IsReady }
    ensures workers { IfOk result (λ r. (r.desk.workers ≡ settings.workers) × (length r.workers.items ≡ settings.workers)) }
{
    let workers = settings.workers();
    let space = space_for(alloc, lists.racks(), workers)?;
    let ends = Vec::with_capacity(alloc, workers)?;
    let racks = Vec::with_capacity(alloc, lists.racks())?;
    let board = Board::new(alloc, lists)?;
    let (job_puts, stops, job_takes) = request_lane(
        alloc,
        settings.queue(),
        all_feeds(lists),
        workers,
    )?;
    let (reply_puts, replies) = reply_lane(alloc, settings.queue(), workers)?;
    let workers_given = worker_ends(job_takes, reply_puts, ends);
    let racks_given = racks_for(lists, gates, seats, job_puts, racks);
    Ok(Room {
        desk: Desk {
            board,
            replies,
            workers,
        },
        workers: workers_given,
        racks: racks_given,
        stops,
        space,
    })
}
