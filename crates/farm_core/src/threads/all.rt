//! The threads of a run: they are started in the order collector, workers, feeders, and all that were started are joined.
ghost use Rattle.std.specs.Prelude.{◌≡◌, ◌<◌, ◌≤◌, [], true, IfSome, length, vec_len, vec_capacity, ◌+◌, ◌*◌, false, IfNone};
ghost use Rattle.farm_lanes.specs.LaneEnds.{IsUnusedPut};
ghost use Rattle.farm_core.specs.declared.taken.Room.{Room};
ghost use Rattle.farm_threads.specs.Settled.{HasJoined};
ghost use Rattle.farm_orders.specs.Limits.{feed_limit, worker_limit};
ghost use Rattle.farm_core.specs.Ready.{rooms_of, started_of, IsReady, AreStarted, HavePutRacks, AreEndsOf, all_given};
ghost use Rattle.farm_threads.specs.Threads.{ends_of};
ghost use Rattle.farm_threads.specs.Jobs.{HasPutStops};

use crate::settling::Joined;
use crate::taken::space::EndSpace;
use crate::threads::closing::close_rack;
use crate::threads::collecting::{Cleared, CollectorHandle};
use farm_lanes::{EndedPut, PutEnd, TakeEnd};
use farm_threads::{
    FeederHandle, Job, Pause, RackFeeders, RackRoom, Reply, Shared, WorkerEnds, WorkerHandle,
    end_feeders, end_worker, join_feeders, join_workers, start_feeders, start_workers, take_mark,
};
use std::sync::Wait;
use std::thread::{Scope, Threads};

/// The threads that were started, the put end for the stops, and a take end if no worker was started.
#[derive(Drop)]
pub(crate) struct Started<'a> {
    pub all: bool,
    pub collecting: CollectorHandle<'a>,
    pub working: Vec<WorkerHandle<'a>>,
    pub feeding: Vec<RackFeeders<'a>>,
    /// The feeders of the rack in which a thread was refused.
    pub left: Option<Vec<FeederHandle<'a>>>,
    pub stops: PutEnd<Job<'a>>,
    pub taker: Option<TakeEnd<Job<'a>>>,
}

/// What became of starting the workers and the feeders.
#[derive(Drop)]
pub(crate) struct Starts<'a> {
    pub all: bool,
    pub left: Option<Vec<FeederHandle<'a>>>,
    pub taker: Option<TakeEnd<Job<'a>>>,
}

/// Starts the feeders rack by rack. After a refusal no further one is started, and the ends of the others are ended here: the workers
/// take their marks. Gives nothing if none was refused, else the threads of the rack in which one was.
fn start_racks<'s, 'a: 's, E, R: Threads + Wait + Sync, P: Pause>(
    shared: &'s Shared<'s, R, P>,
    scope: &Scope<'s, E>,
    racks: Vec<RackRoom<'a>>,
    started: &mut Vec<RackFeeders<'a>>,
) -> Option<Vec<FeederHandle<'a>>>
    requires empty { started.old.items ≡ [] }
    requires room { vec_len racks ≤ vec_capacity started.old }
    ensures all { IfNone result (started_of started.new.items ≡ rooms_of racks.entry.items) }
    ensures len { vec_len started.new ≤ vec_len racks.entry }
{
    let mut left = None;
    for rack in racks {
        let RackRoom {
            gate,
            feeders,
            mut handles,
            given_back,
            rights,
        } = rack;
        if left.is_some() {
            let mut none = None;
            end_feeders(shared.rt, feeders, &mut none);
        } else if start_feeders(shared, scope, feeders, &mut handles) {
            started.push_reserved(RackFeeders {
                gate,
                handles,
                given_back,
                rights,
            });
        } else {
            left = Some(handles);
        }
    }
    left
}

/// Ends the put ends of the feeders of racks, as `end_feeders` does.
fn end_racks<'a, R: Wait>(rt: &R, racks: Vec<RackRoom<'a>>, taker: &mut Option<TakeEnd<Job<'a>>>) {
    for rack in racks {
        let RackRoom { feeders, .. } = rack;
        end_feeders(rt, feeders, taker);
    }
}

/// Starts the workers, and where none is refused the feeders; the put ends of the threads that weren't started are ended.
pub(crate) fn start_all<'s, 'a: 's, E, R: Threads + Wait + Sync, P: Pause>(
    shared: &'s Shared<'s, R, P>,
    scope: &Scope<'s, E>,
    ends: Vec<WorkerEnds<'a>>,
    racks: Vec<RackRoom<'a>>,
    workers: &mut Vec<WorkerHandle<'a>>,
    feeding: &mut Vec<RackFeeders<'a>>,
) -> Starts<'a>
    requires empty { (workers.old.items ≡ []) × (feeding.old.items ≡ []) }
    requires room { (vec_len ends ≤ vec_capacity workers.old) × (vec_len racks ≤ vec_capacity feeding.old) }
    ensures workers { result.all ≡ true → ends_of workers.new.items ≡ ends.entry.items }
    ensures racks { result.all ≡ true → started_of feeding.new.items ≡ rooms_of racks.entry.items }
    ensures workers_len { vec_len workers.new ≤ vec_len ends.entry }
    ensures racks_len { vec_len feeding.new ≤ vec_len racks.entry }
{
    let Some(end) = start_workers(shared, scope, ends, workers) else {
        let left = start_racks(shared, scope, racks, feeding);
        return Starts {
            all: left.is_none(),
            left,
            taker: None,
        };
    };
    let mut taker = if workers.is_empty() { Some(end) } else { None };
    end_racks(shared.rt, racks, &mut taker);
    Starts {
        all: false,
        left: None,
        taker,
    }
}

/// Joins the feeders rack by rack, and puts their ends in order. Says whether each has fed.
fn join_racks<'a, R: Threads>(
    rt: &R,
    racks: Vec<RackFeeders<'a>>,
    put_ends: &mut Vec<EndedPut<Job<'a>>>,
) -> bool
    requires empty { put_ends.old.items ≡ [] }
    requires room { vec_len racks * feed_limit ≤ vec_capacity put_ends.old }
    ensures joined { result ≡ true → HavePutRacks racks.entry.items put_ends.new.items }
    ensures ends { result ≡ true → AreEndsOf (all_given (started_of racks.entry.items)) put_ends.new.items }
    ensures capacity { vec_capacity put_ends.new ≡ vec_capacity put_ends.old }
    ensures len { vec_len put_ends.new ≤ vec_len racks.entry * feed_limit }
{
    let mut all = true;
    for rack in racks {
        let RackFeeders {
            gate,
            handles,
            mut given_back,
            rights,
        } = rack;
        if join_feeders(rt, handles, &mut given_back) {
            close_rack(gate, given_back, rights, put_ends);
        } else {
            all = false;
        }
    }
    all
}

/// Joins the feeders of the rack in which a thread was refused.
fn join_left<'a, R: Threads>(rt: &R, left: Option<Vec<FeederHandle<'a>>>) {
    if let Some(handles) = left {
        for handle in handles {
            let _left = handle.join(rt);
        }
    }
}

/// Puts so many jobs that say to stop, and ends.
fn put_stops<'a, R: Wait>(rt: &R, mut stops: PutEnd<Job<'a>>, count: usize) -> EndedPut<Job<'a>>
    requires unused { IsUnusedPut stops }
    requires few { count ≤ worker_limit }
    ensures stops { HasPutStops stops.entry result }
    ensures count { length result.put ≡ count + 1 }
{
    for _ in 0..count {
        stops.put(rt, Job::Stop);
    }
    stops.end(rt)
}

/// Joins the feeders, lets the workers stop, and joins the collector and then them. Gives nothing where a thread was refused.
pub(crate) fn join_all<'a, R: Threads + Wait>(
    rt: &R,
    started: Started<'a>,
    space: EndSpace<'a>,
) -> Option<Joined<'a>>
    requires few { (vec_len started.working ≤ worker_limit) × (vec_len started.working ≤ space.workers)
        × (vec_len started.feeding ≤ space.racks) }
    requires unused { IsUnusedPut started.stops }
    ensures joined { IfSome result (λ j. (room : Room) → IsReady room → AreStarted room started.entry
        → HasJoined j.all.board.racks j.put_ends.items j.job_ends.items j.reply_ends.items j.desk j.all.board j.all.fault
        × (j.all.board.racks ≡ room.desk.board.racks) × (0 < length j.job_ends.items)) }
    ensures desk_room { IfSome result (λ j. (j.desk_room.items ≡ []) × (0 < vec_capacity j.desk_room)) }
{
    let Started {
        all: started_all,
        collecting,
        working,
        feeding,
        left,
        stops,
        mut taker,
    } = started;
    let EndSpace {
        mut put_ends,
        mut job_ends,
        mut reply_ends,
        desk: desk_room,
        ..
    } = space;
    let fed_all = join_racks(rt, feeding, &mut put_ends);
    join_left(rt, left);
    put_ends.push_reserved(put_stops(rt, stops, working.len()));
    take_mark(rt, &mut taker);
    // The collector ends when each worker has put its end mark, so the workers have ended by then, or are about to.
    let Cleared { all, replies: desk } = collecting.join(rt);
    join_workers(rt, working, &mut job_ends, &mut reply_ends);
    if !started_all || !fed_all {
        return None;
    }
    Some(Joined {
        all,
        desk,
        desk_room,
        put_ends,
        job_ends,
        reply_ends,
    })
}

/// Ends all put ends of both lanes, where no thread was started, and takes each mark.
pub(crate) fn end_all<'a, R: Wait>(
    rt: &R,
    mut desk: TakeEnd<Reply<'a>>,
    workers: Vec<WorkerEnds<'a>>,
    racks: Vec<RackRoom<'a>>,
    stops: PutEnd<Job<'a>>,
) {
    let mut taker = None;
    for ends in workers {
        taker = Some(end_worker(rt, ends, &mut desk));
    }
    end_racks(rt, racks, &mut taker);
    let _ended = stops.end(rt);
    take_mark(rt, &mut taker);
}
