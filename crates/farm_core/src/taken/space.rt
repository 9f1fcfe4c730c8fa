//! Room for what the threads give back.
ghost use Rattle.std.specs.Prelude.{◌≡◌, ◌+◌, ◌*◌, ◌≤◌, ◌<◌, [], IfOk, vec_capacity};
ghost use Rattle.farm_orders.specs.Limits.{feed_limit, rack_limit};

use farm_lanes::{EndedPut, TakeEnd};
use farm_orders::limits::MOST_FEEDS;
use farm_threads::{Job, RackFeeders, Reply, WorkerHandle};
use std::alloc::{AllocError, Global};

/// Empty lists with room for the ends that so many racks and workers give back.
#[derive(Drop)]
pub(crate) struct EndSpace<'a> {
    pub racks: usize,
    pub workers: usize,
    pub put_ends: Vec<EndedPut<Job<'a>>>,
    pub job_ends: Vec<TakeEnd<Job<'a>>>,
    pub reply_ends: Vec<EndedPut<Reply<'a>>>,
    pub desk: Vec<TakeEnd<Reply<'a>>>,
    pub ghost puts: { (put_ends.items ≡ []) × (racks * feed_limit + 1 ≤ vec_capacity put_ends) },
    pub ghost worked: { (job_ends.items ≡ []) × (workers ≤ vec_capacity job_ends) × (reply_ends.items ≡ [])
        × (workers ≤ vec_capacity reply_ends) },
    pub ghost last: { (desk.items ≡ []) × (0 < vec_capacity desk) },
}

/// Empty lists with room for the threads of so many racks and workers, and for their ends.
#[derive(Drop)]
pub(crate) struct Space<'a> {
    pub working: Vec<WorkerHandle<'a>>,
    pub feeding: Vec<RackFeeders<'a>>,
    pub ends: EndSpace<'a>,
    pub ghost threads: { (working.items ≡ []) × (ends.workers ≤ vec_capacity working) × (feeding.items ≡ [])
        × (ends.racks ≤ vec_capacity feeding) },
}

/// Empty lists with room for the ends of so many racks and workers.
fn end_space_for<'a>(
    alloc: Global,
    racks: usize,
    workers: usize,
) -> Result<EndSpace<'a>, AllocError>
    requires { racks ≤ rack_limit }
    ensures { IfOk result (λ s. (s.racks ≡ racks) × (s.workers ≡ workers)) }
{
    Ok(EndSpace {
        racks,
        workers,
        put_ends: Vec::with_capacity(alloc, racks * MOST_FEEDS + 1)?,
        job_ends: Vec::with_capacity(alloc, workers)?,
        reply_ends: Vec::with_capacity(alloc, workers)?,
        desk: Vec::with_capacity(alloc, 1)?,
    })
}

/// Empty lists with room for so many racks and workers.
pub(crate) fn space_for<'a>(
    alloc: Global,
    racks: usize,
    workers: usize,
) -> Result<Space<'a>, AllocError>
    requires { racks ≤ rack_limit }
    ensures { IfOk result (λ s. (s.ends.racks ≡ racks) × (s.ends.workers ≡ workers)) }
{
    Ok(Space {
        working: Vec::with_capacity(alloc, workers)?,
        feeding: Vec::with_capacity(alloc, racks)?,
        ends: end_space_for(alloc, racks, workers)?,
    })
}
