//! The feeds of racks.
ghost use Rattle.std.specs.Prelude.{◌≡◌, IfOk, IfErr, map};
ghost use Rattle.farm_orders.specs.FedLists.{AreFeeds, IsBadFeeds};

use crate::limits::{MOST_FEEDS, MOST_RACKS};
use crate::orders::RackList;
use lrc_code::Outcome;
use std::marker::Model;
use thiserror::Error;

/// An answer: the number of the feed that lists its request, and the outcome.
pub type FeedAnswer = (usize, Outcome);

/// The feeds of at most 16 racks, 1 to 4 lists for each. Racks, and the feeds of a rack, are numbered from 0. Contracts see the lists of
/// orders of each rack.
#[derive(Debug, Drop)]
pub struct Feeds {
    racks: Vec<Vec<RackList>>,
}

impl Model for Feeds {
    ghost use Rattle.std.specs.Prelude.{List, map};
    ghost use Rattle.farm_orders.specs.declared.orders.Order.{Order};
    ghost use Rattle.farm_orders.specs.FedLists.{AreFeeds};

    ghost Value = { List (List (List Order)) };

    ghost view = { λ f. map (λ rack. rack.items) f.racks.items };

    ghost invariant = { λ f. AreFeeds (map (λ rack. rack.items) f.racks.items) };
}

/// Why lists are no feeds of racks. They are handed back.
#[derive(Debug, Drop, Error)]
pub enum FeedsFault {
    /// E18: there are more than 16 racks.
    #[error("there are more than 16 racks")]
    TooManyRacks { racks: Vec<Vec<RackList>> },
    /// E28: a rack has no feed or more than 4.
    #[error("a rack has no feed or more than 4")]
    BadFeeds { racks: Vec<Vec<RackList>> },
}

impl Feeds {
    /// These feeds; the number of racks is tested first. Takes no memory.
    pub fn new(racks: Vec<Vec<RackList>>) -> Result<Feeds, FeedsFault>
        ensures ok { IfOk result (λ f. f ≡ map (λ rack. rack.items) racks.items) }
        ensures few { IfOk result AreFeeds }
        ensures refused { IfErr result (IsBadFeeds racks) }
    {
        if racks.len() > MOST_RACKS {
            return Err(FeedsFault::TooManyRacks { racks });
        }
        for rack in racks.as_slice() {
            if rack.is_empty() || rack.len() > MOST_FEEDS {
                return Err(FeedsFault::BadFeeds { racks });
            }
        }
        Ok(Feeds::from_checked(racks))
    }

    /// The feeds that are known to meet the limits: they are not counted again. Takes no memory.
    pub fn from_checked(racks: Vec<Vec<RackList>>) -> Feeds
        requires { AreFeeds (map (λ rack. rack.items) racks.items) }
        ensures { result ≡ map (λ rack. rack.items) racks.items }
    {
        Feeds { racks }
    }

    /// The feeds of each rack.
    pub fn racks(&self) -> &[Vec<RackList>]
        ensures all { map (λ rack. rack.items) result.now ≡ self.now }
        ensures few { AreFeeds self.now }
    {
        self.racks.as_slice()
    }

    /// The feeds of each rack, which are given up.
    pub fn into_racks(self) -> Vec<Vec<RackList>>
        ensures { map (λ rack. rack.items) result.items ≡ self }
    {
        let Feeds { racks } = self;
        racks
    }
}
