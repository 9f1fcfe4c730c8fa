//! The feeds of all racks of a run, whether each rack has one list or several.
ghost use Rattle.std.specs.Prelude.{◌≡◌, ◌<◌, ◌≤◌, [], length, slice_index_or};
ghost use Rattle.farm_orders.specs.Limits.{feed_limit, rack_limit};
ghost use Rattle.farm_threads.specs.RunFeeds.{lists_of};

use farm_orders::{Feeds, RackList, Racks};

/// The lists of racks: one for each rack, or several.
#[derive(Clone, Copy)]
pub enum Lists<'a> {
    One(&'a Racks),
    Several(&'a Feeds),
}

impl<'a> Lists<'a> {
    /// The number of racks.
    pub fn racks(self) -> usize
        ensures count { result ≡ length (lists_of self.entry) }
        ensures limit { length (lists_of self.entry) ≤ rack_limit }
    {
        match self {
            Lists::One(racks) => racks.lists().len(),
            Lists::Several(feeds) => feeds.racks().len(),
        }
    }

    /// The feeds of a rack.
    pub fn feeds(self, rack: usize) -> &'a [RackList]
        requires { rack < length (lists_of self) }
        ensures all { result.now ≡ slice_index_or (lists_of self.entry) rack [] }
        ensures few { (0 < length result.now) × (length result.now ≤ feed_limit) }
    {
        match self {
            Lists::One(racks) => &racks.lists()[rack..rack + 1],
            Lists::Several(feeds) => feeds.racks()[rack].as_slice(),
        }
    }
}
