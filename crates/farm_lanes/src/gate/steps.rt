//! The steps on a gate's word, each with what it leaves in the record of its seat.
//!
//! The word is the number of all draws, and its bit 63 is set once the gate is closed.
ghost use Rattle.std.specs.Prelude.{◌≡◌, ◌+◌, ◌<◌, ◌≤◌, []};
ghost use Rattle.farm_lanes.specs.GateRecord.{IsSound};
ghost use Rattle.farm_lanes.specs.GateRule.{IsDrawn, IsClosed};
ghost use Rattle.farm_lanes.specs.SeatChanges.{fresh, without, joined};

use crate::gate::record::{GateSize, SeatRecord};
use crate::gate::rule::{Close, Cut, Draw, GateRule, Look, StepValues, Together};
use atomic_table::{Seat, Shared};

/// A token of no bytes that holds a seat's record.
pub(crate) type RawSeat = Seat<u8, SeatRecord>;

/// The word of a gate.
pub(crate) type RawGate = Shared<u8, SeatRecord, GateSize, GateRule>;

/// The bit of the word that is set once the gate is closed.
pub(crate) const CLOSED: u64 = 1 << 63;

/// One draw: the word as it was before, which then counts one draw more.
pub(crate) fn raw_draw<Z: StepValues>(gate: &RawGate, seat: &mut RawSeat) -> u64
    requires own { (seat.old.table_id ≡ gate.now.table_id) × (gate.now.table_id.words ≡ 1) }
    requires size { gate.now.key ≡ Z.size }
    requires budget { seat.old.me.0.draws < seat.old.me.0.share }
    ensures own { (seat.new.table_id ≡ seat.old.table_id) × (seat.new.me.1 ≡ seat.old.me.1) }
    ensures drawn { IsDrawn Z.size seat.old.me.0 result seat.new.me.0 }
{
    gate.fetch_add::<Draw<Z>>(seat, 0, 1)
}

/// One close, for which the seat's right is used up: the word as it was before.
pub(crate) fn raw_close<Z: StepValues>(gate: &RawGate, seat: &mut RawSeat) -> u64
    requires own { (seat.old.table_id ≡ gate.now.table_id) × (gate.now.table_id.words ≡ 1) }
    requires size { gate.now.key ≡ Z.size }
    requires right { 0 < seat.old.me.0.held }
    ensures own { (seat.new.table_id ≡ seat.old.table_id) × (seat.new.me.1 ≡ seat.old.me.1) }
    ensures closed { IsClosed Z.size seat.old.me.0 result seat.new.me.0 }
{
    gate.fetch_or::<Close<Z>>(seat, 0, CLOSED)
}

/// Reads the word, so that the seat's record is known to be sound.
pub(crate) fn raw_look<Z: StepValues>(gate: &RawGate, seat: &mut RawSeat)
    requires own { (seat.old.table_id ≡ gate.now.table_id) × (gate.now.table_id.words ≡ 1) }
    requires size { gate.now.key ≡ Z.size }
    ensures own { (seat.new.table_id ≡ seat.old.table_id) × (seat.new.me ≡ seat.old.me) }
    ensures sound { IsSound Z.size seat.new.me.0 }
{
    gate.load::<Look<Z>>(seat, 0);
}

/// Cuts a share and rights off a seat.
pub(crate) fn raw_cut<Z: StepValues>(
    gate: &RawGate,
    seat: &mut RawSeat,
    share: u64,
    held: u64,
) -> RawSeat
    requires own { (seat.old.table_id ≡ gate.now.table_id) × (gate.now.table_id.words ≡ 1) }
    requires values { (share ≡ Z.share) × (held ≡ Z.held) }
    requires part { (share + seat.old.me.0.draws ≤ seat.old.me.0.share) × (held ≤ seat.old.me.0.held) }
    ensures own { (seat.new.table_id ≡ seat.old.table_id) × (seat.new.me ≡ (without seat.old.me.0 share held, seat.old.me.1)) }
    ensures cut { (result.table_id ≡ seat.old.table_id) × (result.me ≡ (fresh share held seat.old.me.0.knows, [])) }
{
    gate.split_seat::<Cut<Z>>(seat)
}

/// Joins another seat to this one.
pub(crate) fn raw_join(gate: &RawGate, seat: &mut RawSeat, other: RawSeat)
    requires own { (seat.old.table_id ≡ gate.now.table_id) × (other.table_id ≡ gate.now.table_id) × (gate.now.table_id.words ≡ 1)
        × (other.me.1 ≡ []) }
    ensures own { (seat.new.table_id ≡ seat.old.table_id) × (seat.new.me ≡ (joined seat.old.me.0 other.me.0, seat.old.me.1)) }
{
    gate.join_seat::<Together>(seat, other);
}
