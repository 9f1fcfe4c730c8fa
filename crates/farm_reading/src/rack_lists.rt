//! The lists of a rack's feeds, as they were read.
ghost use Rattle.std.specs.Prelude.{◌≡◌, ◌<◌, ◌≤◌, length, map};
ghost use Rattle.std.specs.List.{All};
ghost use Rattle.farm_orders.specs.Limits.{feed_limit, order_limit};

use farm_lists::Record;
use std::marker::Model;

/// The lists of a rack's feeds: 1 to 4, each of at most 4,096 records. Contracts see the records of each.
#[derive(Drop)]
pub struct RackLists {
    feeds: Vec<Vec<Record>>,
}

impl Model for RackLists {
    ghost use Rattle.std.specs.Prelude.{List, map, length, ◌<◌, ◌≤◌};
    ghost use Rattle.std.specs.List.{All};
    ghost use Rattle.farm_orders.specs.Limits.{feed_limit, order_limit};
    ghost use Rattle.farm_lists.specs.declared.listing.Record.{Record};

    ghost Value = { List (List Record) };

    ghost view = { λ r. map (λ list. list.items) r.feeds.items };

    ghost invariant = { λ r. (0 < length r.feeds.items) × (length r.feeds.items ≤ feed_limit)
        × All (λ list. length list.items ≤ order_limit) r.feeds.items };
}

impl RackLists {
    /// The lists of feeds that are known to meet the limits: they are not counted again.
    pub fn from_checked(feeds: Vec<Vec<Record>>) -> RackLists
        requires count { (0 < length feeds.items) × (length feeds.items ≤ feed_limit) }
        requires records { All (λ list. length list.items ≤ order_limit) feeds.items }
        ensures { result ≡ map (λ list. list.items) feeds.items }
    {
        RackLists { feeds }
    }

    /// The list of each feed.
    pub fn feeds(&self) -> &[Vec<Record>]
        ensures value { map (λ list. list.items) result.now ≡ self.now }
        ensures count { (0 < length result.now) × (length result.now ≤ feed_limit) }
        ensures records { All (λ list. length list.items ≤ order_limit) result.now }
    {
        self.feeds.as_slice()
    }
}
