//! What a farm is handed: the lists of orders of racks, the feeds of racks, their limits, a farm's settings, and why it gives no answers.
//!
//! ```
//! use farm_orders::{Order, RackList, Racks};
//!
//! let mut orders = Vec::new(alloc);
//! orders.push(Order::Rebuild(request))?;
//! orders.push(Order::Close)?;
//! let list = RackList::new(orders)?;
//! assert!(rt; list.served() == 1);
//! let mut lists = Vec::new(alloc);
//! lists.push(list)?;
//! let racks = Racks::new(lists)?;
//! ```
#![tactic(auto)]

mod error;
mod feeds;
pub mod limits;
mod orders;
mod settings;

pub use error::FarmError;
pub use feeds::{FeedAnswer, Feeds, FeedsFault};
pub use orders::{Order, RackList, Racks, TooManyOrders, TooManyRacks};
pub use settings::{Settings, SettingsFault};
