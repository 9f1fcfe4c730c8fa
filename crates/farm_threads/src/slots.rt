//! Slots: a run counts the feeds of all racks through, four to a rack. The field `rack` of its jobs and replies has a feed's slot.
ghost use Rattle.std.specs.Prelude.{◌≡◌, ◌<◌};
ghost use Rattle.farm_orders.specs.Limits.{feed_limit, rack_limit};
ghost use Rattle.farm_threads.specs.RunFeeds.{slot_of, slot_rack, slot_feed};

use crate::pause::Pause;
use farm_orders::limits::MOST_FEEDS;

/// A feed of a rack, by its number in a run.
#[derive(Clone, Copy, Debug, PartialEq, Eq)]
pub struct Slot {
    pub number: usize,
}

impl Slot {
    /// The slot of a feed of a rack.
    pub fn of(rack: usize, feed: usize) -> Slot
        requires few { (rack < rack_limit) × (feed < feed_limit) }
        ensures { result.number ≡ slot_of rack feed }
    {
        Slot {
            number: rack * MOST_FEEDS + feed,
        }
    }

    /// Its rack.
    pub fn rack(self) -> usize
        ensures { result ≡ slot_rack self.number }
    {
        self.number / MOST_FEEDS
    }

    /// Its feed, by its number in the rack.
    pub fn feed(self) -> usize
        ensures { result ≡ slot_feed self.number }
    {
        self.number % MOST_FEEDS
    }
}

/// The rack of the slot with a number.
fn rack_of(number: usize) -> usize
    ensures { result ≡ slot_rack number }
{
    Slot { number }.rack()
}

/// Gives a pause the racks of the slots that workers and feeders name.
#[derive(Drop)]
pub struct SlotPause<'p, P> {
    pub pause: &'p P,
}

impl<'p, P: Pause> Pause for SlotPause<'p, P> {
    fn before(&self, slot: usize, number: u64) {
        self.pause.before(rack_of(slot), number);
    }

    fn after(&self, slot: usize, number: u64) {
        self.pause.after(rack_of(slot), number);
    }

    fn ahead(&self, slot: usize, feed: usize, position: usize) {
        self.pause.ahead(rack_of(slot), feed, position);
    }

    fn behind(&self, slot: usize, feed: usize, position: usize) {
        self.pause.behind(rack_of(slot), feed, position);
    }
}
