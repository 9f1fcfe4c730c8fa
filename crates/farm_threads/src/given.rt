//! What the threads are given.
ghost use Rattle.std.specs.Prelude.{◌≡◌, ◌+◌, ◌<◌, ◌≤◌, [], false};
ghost use Rattle.farm_lanes.specs.LaneEnds.{IsUnusedPut, IsUnusedTake};
ghost use Rattle.farm_orders.specs.Limits.{feed_limit, order_limit, rack_limit};

use crate::jobs::Job;
use crate::replies::Reply;
use farm_lanes::{Gate, PutEnd, Right, Seat, TakeEnd};
use farm_orders::RackList;

/// A worker's ends. Nothing was done with them yet.
#[derive(Drop)]
pub struct WorkerEnds<'a> {
    pub jobs: TakeEnd<Job<'a>>,
    pub replies: PutEnd<Reply<'a>>,
    pub ghost unused_jobs: { IsUnusedTake jobs },
    pub ghost unused_replies: { IsUnusedPut replies },
}

/// A feed's list, with its rack's gate, and the seat, the right and the end of its feeder. Nothing was done with them yet.
#[derive(Drop)]
pub struct Feeder<'a> {
    pub gate: &'a Gate,
    pub seat: Seat,
    pub right: Right,
    pub rack: usize,
    pub feed: usize,
    pub list: &'a RackList,
    pub jobs: PutEnd<Job<'a>>,
    pub ghost own: { (seat.gate ≡ gate.now.id) × (right ≡ gate.now.id) },
    pub ghost fresh: { (seat.has.numbers ≡ []) × (seat.has.knows ≡ false) },
    pub ghost budget: { seat.has.draws + order_limit ≤ seat.has.share },
    pub ghost unused: { IsUnusedPut jobs },
    pub ghost few: { (rack < rack_limit) × (feed < feed_limit) },
    pub ghost unclosed: { (seat.has.used ≡ 0) × (seat.has.made ≡ []) },
}
