//! The threads of a farm, each by itself: feeders, which put jobs, workers, which take these and put replies, and the collection of
//! replies. `farm_core` starts them all, and hands out what is here to callers.
#![tactic(auto)]

mod feeder;
mod given;
mod jobs;
mod lists;
mod pause;
mod rack_feeders;
mod replies;
mod shared;
mod slots;
mod worker;

pub use feeder::{Fed, FeedOf, FeederHandle, end_feeders, feed, join_feeders, start_feeders};
pub use given::{Feeder, WorkerEnds};
pub use jobs::Job;
pub use lists::Lists;
pub use pause::{NoPause, Pause};
pub use rack_feeders::{FeederSpace, RackFeeders, RackRoom, feeder_space_for};
pub use replies::board::{Board, HandedIn, hand_in};
pub use replies::collector::Collector;
pub use replies::{CollectFault, FinishFault, Reply, ReplyResult};
pub use shared::{Refusals, Shared, start_thread};
pub use slots::SlotPause;
pub use worker::{
    WorkOf, Worked, WorkerHandle, end_worker, join_workers, reply_to, start_workers, take_mark,
    work,
};
