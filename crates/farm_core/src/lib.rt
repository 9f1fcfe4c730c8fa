//! The farm: rack lists, the collector of replies, and `run`, which answers the requests of several racks.
//!
//! ```
//! use farm_core::{NoPause, Order, RackList, Racks, Settings, run};
//! use lrc_code::Outcome;
//!
//! let mut orders = Vec::new(alloc);
//! orders.push(Order::Rebuild(request))?;
//! let list = RackList::new(orders)?;
//! let mut lists = Vec::new(alloc);
//! lists.push(list)?;
//! let racks = Racks::new(lists)?;
//! let answers = run(&rt, alloc, &racks, Settings::new(4, 16)?, &NoPause)?;
//! assert!(rt; matches!(&answers[0][0], Outcome::Rebuilt(_)));
//! ```
#![tactic(auto)]

mod farm;
pub mod merge_laws;
mod settling;
mod taken;
mod threads;

pub use farm::{run, run_feeds};
pub use farm_orders::{
    FarmError, FeedAnswer, Feeds, FeedsFault, Order, RackList, Racks, Settings, SettingsFault,
    TooManyOrders, TooManyRacks, limits,
};
pub use farm_threads::{
    CollectFault, Collector, Fed, FinishFault, Job, NoPause, Pause, Reply, ReplyResult, Worked,
    feed, work,
};
