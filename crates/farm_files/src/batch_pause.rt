//! What a `Pause` is given of a batch.
use farm_core::Pause;

/// Gives a pause the numbers that the racks and requests of a batch have among those of all lists: a request's number is drawn within its
/// rack, after those of the batches before, and its position is that in its feed's list.
#[derive(Drop)]
pub(crate) struct BatchPause<'p, P> {
    pub(crate) pause: &'p P,
    pub(crate) rack: usize,
    pub(crate) number: usize,
    pub(crate) position: usize,
}

impl<'p, P: Pause> Pause for BatchPause<'p, P> {
    fn before(&self, rack: usize, number: u64) {
        self.pause.before(
            self.rack.saturating_add(rack),
            (self.number as u64).saturating_add(number),
        );
    }

    fn after(&self, rack: usize, number: u64) {
        self.pause.after(
            self.rack.saturating_add(rack),
            (self.number as u64).saturating_add(number),
        );
    }

    fn ahead(&self, rack: usize, feed: usize, position: usize) {
        self.pause.ahead(
            self.rack.saturating_add(rack),
            feed,
            self.position.saturating_add(position),
        );
    }

    fn behind(&self, rack: usize, feed: usize, position: usize) {
        self.pause.behind(
            self.rack.saturating_add(rack),
            feed,
            self.position.saturating_add(position),
        );
    }
}
