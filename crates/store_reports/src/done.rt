//! What became of a stripe.
use store_faults::Descriptions;
use store_repair::StripeOutcome;

/// What became of the stripe of an index, and of its descriptions, if it has any.
pub struct Done {
    pub index: usize,
    pub outcome: StripeOutcome,
    pub descriptions: Option<Descriptions>,
}

impl Drop for Done {
    fn drop(self) {
        let Done {
            index: _,
            outcome: _,
            descriptions: _,
        } = self;
    }
}
