//! The rule that a gate's word keeps, and its kinds of step (draw, close, cut, join, look), as types for proofs: what they do is in
//! `gate.rt`.
use crate::gate::record::{GateSize, SeatRecord};
use atomic_table::{Join, Play, Split, TableRule};
use std::marker::{Brand, PhantomData};

/// The rule between a gate's word and what its seats know of it.
pub(crate) struct GateRule;

impl TableRule<u8, SeatRecord, GateSize> for GateRule {
    ghost use Rattle.std.specs.Prelude.{false};
    ghost use Rattle.farm_lanes.specs.GateRule.{KeepsGate};
    ghost use Rattle.farm_lanes.specs.SeatChanges.{fresh};

    ghost holds = { KeepsGate };

    ghost first = { λ size. fresh size.total size.rights false };
}

/// What a step is made with: the gate's size, and the share and the rights that a cut moves over.
pub(crate) trait StepValues {
    ghost use Rattle.std.specs.Prelude.{ℕ};
    ghost use Rattle.farm_lanes.specs.declared.gate.record.GateSize.{GateSize};

    ghost size: { GateSize };

    ghost share: { ℕ };

    ghost held: { ℕ };
}

impl StepValues for Brand {
    ghost size = { record { total = 0; rights = 0 } };

    ghost share = { 0 };

    ghost held = { 0 };
}

/// A seat draws the next number, or learns that the gate is closed.
pub(crate) struct Draw<Z>(PhantomData<Z>);

impl<Z: StepValues> Play<u8, SeatRecord> for Draw<Z> {
    ghost use Rattle.farm_lanes.specs.GateRule.{Draws};

    ghost then = { Draws Z.size };
}

/// A closing right is spent.
pub(crate) struct Close<Z>(PhantomData<Z>);

impl<Z: StepValues> Play<u8, SeatRecord> for Close<Z> {
    ghost use Rattle.farm_lanes.specs.GateRule.{Closes};

    ghost then = { Closes Z.size };
}

/// A step that changes nothing, and says that the record is sound.
pub(crate) struct Look<Z>(PhantomData<Z>);

impl<Z: StepValues> Play<u8, SeatRecord> for Look<Z> {
    ghost use Rattle.farm_lanes.specs.GateRule.{Looks};

    ghost then = { Looks Z.size };
}

/// A share and rights move into a record of their own.
pub(crate) struct Cut<Z>(PhantomData<Z>);

impl<Z: StepValues> Split<SeatRecord> for Cut<Z> {
    ghost use Rattle.farm_lanes.specs.SeatChanges.{fresh, without};

    ghost left = { λ s. without s Z.share Z.held };

    ghost right = { λ s. fresh Z.share Z.held s.knows };
}

/// Two records become one.
pub(crate) struct Together;

impl Join<SeatRecord> for Together {
    ghost use Rattle.std.specs.Prelude.{false};
    ghost use Rattle.farm_lanes.specs.SeatChanges.{fresh, joined};

    ghost both = { joined };

    ghost spent = { fresh 0 0 false };
}
