//! The gates of racks, and room for their feeders.
ghost use Rattle.std.specs.Prelude.{IfOk};
ghost use Rattle.farm_lanes.specs.GateView.{IsRightCount, IsSeatCount};
ghost use Rattle.farm_threads.specs.RunFeeds.{lists_of};
ghost use Rattle.farm_core.specs.Ready.{IsNewGate, AreGates};

use farm_lanes::{Gate, GateError, Right, Seat};
use farm_threads::{FeederSpace, Lists, feeder_space_for};
use std::alloc::{AllocError, Global};

/// A new gate, with one seat and one right for each of so many feeds. Within the limits of gates only memory can be refused.
fn open_gate<'a>(alloc: Global, feeds: usize) -> Result<(Gate, RackSeats<'a>), AllocError>
    requires count { IsSeatCount feeds × IsRightCount feeds }
    ensures { IfOk result (λ r. IsNewGate feeds r.0 r.1) }
{
    let space = feeder_space_for(alloc, feeds)?;
    match Gate::open(alloc, feeds, feeds) {
        Ok((gate, seats, rights)) => Ok((
            gate,
            RackSeats {
                seats,
                rights,
                space,
            },
        )),
        Err(GateError::OutOfMemory) => Err(AllocError),
        Err(GateError::NoSeats) => unreachable!(),
    }
}

/// The seats and the rights of a rack's gate, and room for its feeders.
#[derive(Drop)]
pub(crate) struct RackSeats<'a> {
    pub seats: Vec<Seat>,
    pub rights: Vec<Right>,
    pub space: FeederSpace<'a>,
}

/// A gate for each rack, with one seat and one right for each of its feeds, and room for their feeders.
pub(crate) fn gates_for<'a>(
    alloc: Global,
    lists: Lists,
) -> Result<(Vec<Gate>, Vec<RackSeats<'a>>), AllocError>
    ensures { IfOk result (λ r. AreGates (lists_of lists.entry) r.0.items r.1.items) }
{
    let racks = lists.racks();
    let mut gates = Vec::with_capacity(alloc, racks)?;
    let mut all = Vec::with_capacity(alloc, racks)?;
    for rack in 0..racks {
        let feeds = lists.feeds(rack).len();
        let (gate, own) = open_gate(alloc, feeds)?;
        gates.push_reserved(gate);
        all.push_reserved(own);
    }
    Ok((gates, all))
}
