//! The lanes of a run, and the ends that its threads are given.
ghost use Rattle.std.specs.Prelude.{◌≡◌, ◌+◌, ◌≤◌, [], ◌∷◌, ◌++◌, IfOk, map, vec_len, vec_capacity};
ghost use Rattle.list_members.specs.Lists.{Each};
ghost use Rattle.farm_lanes.specs.LaneEnds.{LaneName, AreNewEnds, IsCapacity, IsPutterCount, IsTakerCount, IsUnusedPut, IsUnusedTake};
ghost use Rattle.farm_lanes.specs.LaneEnds.{new_take};
ghost use Rattle.farm_threads.specs.declared.jobs.Job.{Job};
ghost use Rattle.farm_orders.specs.Limits.{all_feeds_limit};

use farm_lanes::{Lane, LaneError, PutEnd, TakeEnd};
use farm_threads::{Job, Reply, WorkerEnds};
use std::alloc::{AllocError, Global};

/// The ends of a new lane. Within the limits of lanes only memory can be refused.
fn open_lane<T: Send + Drop>(
    alloc: Global,
    capacity: usize,
    putters: usize,
    takers: usize,
) -> Result<(Vec<PutEnd<T>>, Vec<TakeEnd<T>>), AllocError>
    requires room { IsCapacity capacity }
    requires count { IsPutterCount putters × IsTakerCount takers }
    ensures { IfOk result (λ r. AreNewEnds putters takers r.0.items r.1.items) }
{
    match Lane::open(alloc, capacity, putters, takers) {
        Ok(ends) => Ok(ends),
        Err(LaneError::OutOfMemory) => Err(AllocError),
        Err(LaneError::NoRoom | LaneError::NoEnds) => unreachable!(),
    }
}

/// The ends of a new request lane: the put ends of so many feeders, the one for the stops, and the workers' take ends.
pub(crate) fn request_lane<'a>(
    alloc: Global,
    capacity: usize,
    feeders: usize,
    workers: usize,
) -> Result<(Vec<PutEnd<Job<'a>>>, PutEnd<Job<'a>>, Vec<TakeEnd<Job<'a>>>), AllocError>
    requires room { IsCapacity capacity }
    requires count { (feeders ≤ all_feeds_limit) × IsTakerCount workers }
    ensures { IfOk result (λ r. AreNewEnds (feeders + 1) workers (r.0.items ++ r.1 ∷ []) r.2.items) }
{
    let (mut puts, takes) = open_lane(alloc, capacity, feeders + 1, workers)?;
    let Some(stops) = puts.pop() else {
        unreachable!();
    };
    Ok((puts, stops, takes))
}

/// The ends of a new reply lane: the workers' put ends, and the collector's take end.
pub(crate) fn reply_lane<'a>(
    alloc: Global,
    capacity: usize,
    workers: usize,
) -> Result<(Vec<PutEnd<Reply<'a>>>, TakeEnd<Reply<'a>>), AllocError>
    requires room { IsCapacity capacity }
    requires count { IsPutterCount workers }
    ensures { IfOk result (λ r. AreNewEnds workers 1 r.0.items (r.1 ∷ [])) }
{
    let (puts, mut takes) = open_lane(alloc, capacity, workers, 1)?;
    let Some(last) = takes.pop() else {
        unreachable!();
    };
    Ok((puts, last))
}

/// A pair of ends for each worker, in a list that has room for them.
pub(crate) fn worker_ends<'a>(
    mut takes: Vec<TakeEnd<Job<'a>>>,
    puts: Vec<PutEnd<Reply<'a>>>,
    mut ends: Vec<WorkerEnds<'a>>,
) -> Vec<WorkerEnds<'a>>
    requires count { vec_len takes ≡ vec_len puts }
    requires unused_takes { Each IsUnusedTake takes.items }
    requires unused_puts { Each IsUnusedPut puts.items }
    requires room { (ends.items ≡ []) × (vec_len puts ≤ vec_capacity ends) }
    ensures replies { map (λ e. e.replies) result.items ≡ puts.entry.items }
    ensures jobs { (lane : LaneName Job) → Each (λ t. t ≡ new_take lane) takes.entry.items
        → Each (λ e. e.jobs ≡ new_take lane) result.items }
{
    for replies in puts {
        let Some(jobs) = takes.pop() else {
            unreachable!();
        };
        ends.push_reserved(WorkerEnds { jobs, replies });
    }
    ends
}
