//! Seats, at which numbers are drawn, and rights, each of which is spent on a close.
ghost use Rattle.std.specs.Prelude.{◌≡◌, ◌-◌};
ghost use Rattle.farm_lanes.specs.GateView.{greatest, greater_of};

use crate::gate::steps::RawSeat;
use std::marker::Model;

/// A seat of a gate. Contracts see its gate and its record.
#[derive(Drop)]
pub struct Seat {
    pub(crate) raw: RawSeat,
    pub(crate) budget: u64,
    pub(crate) last: Option<u64>,
}

impl Model for Seat {
    ghost use Rattle.std.specs.Prelude.{◌≡◌, ◌+◌, ◌≤◌, []};
    ghost use Rattle.farm_lanes.specs.GateView.{SeatView, greatest};

    ghost Value = { SeatView };

    ghost view = { λ s. record { gate = s.raw.table_id; has = s.raw.me.0 } };

    ghost invariant = { λ s. (s.raw.me.1 ≡ []) × (s.budget + s.raw.me.0.draws ≡ s.raw.me.0.share) × (s.budget ≤ 4294967296)
        × (s.last ≡ greatest s.raw.me.0.numbers) };
}

/// The right to one close. Contracts see its gate.
#[derive(Drop)]
pub struct Right {
    pub(crate) raw: RawSeat,
}

impl Model for Right {
    ghost use Rattle.std.specs.Prelude.{◌≡◌, [], false};
    ghost use Rattle.atomic_table.specs.Seated.{TableId};
    ghost use Rattle.farm_lanes.specs.SeatChanges.{fresh};

    ghost Value = { TableId };

    ghost view = { λ r. r.raw.table_id };

    ghost invariant = { λ r. (r.raw.me.1 ≡ []) × (r.raw.me.0 ≡ fresh 0 1 false) };
}

impl Seat {
    /// How many draws are left to this seat.
    pub fn budget(&self) -> u64
        ensures { result ≡ self.now.has.share - self.now.has.draws }
    {
        self.budget
    }

    /// The greatest number that this seat was given.
    pub fn last(&self) -> Option<u64>
        ensures { result ≡ greatest self.now.has.numbers }
    {
        self.last
    }
}

/// The greater of two numbers that may be there.
pub(crate) fn greater(a: Option<u64>, b: Option<u64>) -> Option<u64>
    ensures { result ≡ greater_of a b }
{
    match (a, b) {
        (None, b) => b,
        (Some(x), None) => Some(x),
        (Some(x), Some(y)) => Some(x.max(y)),
    }
}
