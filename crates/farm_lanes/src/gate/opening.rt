//! The opening of a gate.
ghost use Rattle.std.specs.Prelude.{◌≡◌, ◌*◌, ◌/◌, ◌≤◌, [], false, IfOk, IsOkUnless, Ok, Err, replicate, vec_capacity};
ghost use Rattle.farm_lanes.specs.GateView.{opened, IsSeatCount, IsRightCount};
ghost use Rattle.farm_lanes.specs.SeatChanges.{fresh};

use crate::gate::Gate;
use crate::gate::record::GateSize;
use crate::gate::seat::{Right, Seat};
use crate::gate::steps::{RawSeat, raw_cut};
use crate::limits::{MOST_DRAWS, MOST_RIGHTS, MOST_SEATS};
use crate::room::room_for;
use atomic_table::Table;
use std::alloc::{AllocError, Allocator, Global};
use std::marker::Brand;
use thiserror::Error;

/// Why a gate was not opened.
#[derive(Clone, Copy, Debug, PartialEq, Eq, Error)]
pub enum GateError {
    /// There are no seats or more than `MOST_SEATS`, or no rights or more than `MOST_RIGHTS`.
    #[error("the number of seats or of rights is 0 or too great")]
    NoSeats,

    /// The gate's room was refused.
    #[error("out of memory")]
    OutOfMemory,
}

impl Gate {
    /// Opens a gate with its seats and its rights. Each seat's budget is `MOST_DRAWS` divided by the number of seats, rounded down.
    ///
    /// It takes all the room that the gate ever needs.
    ///
    /// ```
    /// let (gate, mut seats, mut rights) = Gate::open(rt.alloc(), 1, 1)?;
    /// let (Some(mut seat), Some(right)) = (seats.pop(), rights.pop()) else {
    ///     unreachable!();
    /// };
    /// assert_eq!(rt; gate.draw(&mut seat), Ok(0));
    /// assert_eq!(rt; gate.close(&mut seat, right), Ok(1));
    /// ```
    pub fn open(
        alloc: Global,
        seats: usize,
        rights: usize,
    ) -> Result<(Gate, Vec<Seat>, Vec<Right>), GateError>
        ensures gate { IfOk result (λ r. r.0.size ≡ record { total = 4294967296 / seats * seats; rights = rights }) }
        ensures seats { IfOk result (λ r. r.1.items ≡ replicate seats (opened r.0.id (4294967296 / seats))) }
        ensures rights { IfOk result (λ r. r.2.items ≡ replicate rights r.0.id) }
        ensures refused { ¬ (IsSeatCount seats × IsRightCount rights) → result ≡ Err GateError.NoSeats }
        ensures memory { IsSeatCount seats × IsRightCount rights → IsOkUnless result GateError.OutOfMemory }
    {
        Gate::open_in(alloc, seats, rights)
    }
}

impl<A: Allocator> Gate<A> {
    /// Opens a gate whose word, and whose lists of seats and rights, are in the memory of `alloc`.
    pub fn open_in(
        alloc: A,
        seats: usize,
        rights: usize,
    ) -> Result<(Gate<A>, Vec<Seat, A>, Vec<Right, A>), GateError>
    where
        A: Clone,
        ensures gate { IfOk result (λ r. r.0.size ≡ record { total = 4294967296 / seats * seats; rights = rights }) }
        ensures seats { IfOk result (λ r. r.1.items ≡ replicate seats (opened r.0.id (4294967296 / seats))) }
        ensures rights { IfOk result (λ r. r.2.items ≡ replicate rights r.0.id) }
        ensures refused { ¬ (IsSeatCount seats × IsRightCount rights) → result ≡ Err GateError.NoSeats }
        ensures memory { IsSeatCount seats × IsRightCount rights → IsOkUnless result GateError.OutOfMemory }
    {
        if seats == 0 || seats > MOST_SEATS || rights == 0 || rights > MOST_RIGHTS {
            return Err(GateError::NoSeats);
        }
        let share = MOST_DRAWS / seats as u64;
        let size = GateSize {
            total: share * seats as u64,
            rights: rights as u64,
        };
        let Ok((seat_room, right_room)) = rooms(&alloc, seats, rights) else {
            return Err(GateError::OutOfMemory);
        };
        let Ok((table, mut first)) = Table::of_words(alloc, &[0], &size) else {
            return Err(GateError::OutOfMemory);
        };
        let gate = Gate { table };
        let seat_list = gate.deal_seats(&mut first, seat_room, seats, share);
        let right_list = gate.deal_rights(&mut first, right_room, rights);
        Ok((gate, seat_list, right_list))
    }

    /// So many seats, each with this share of the draws, all cut off the first one, which keeps the rights.
    fn deal_seats(
        &self,
        first: &mut RawSeat,
        mut list: Vec<Seat, A>,
        count: usize,
        share: u64,
    ) -> Vec<Seat, A>
        requires own { (first.old.table_id ≡ self.now.id) × (first.old.me.1 ≡ []) }
        requires room { (list.items ≡ []) × (count ≤ vec_capacity list) }
        requires shares { first.old.me.0 ≡ fresh (share * count) self.now.size.rights false }
        requires small { share ≤ 4294967296 }
        ensures rest { (first.new.table_id ≡ self.now.id) × (first.new.me ≡ (fresh 0 self.now.size.rights false, [])) }
        ensures seats { result.items ≡ replicate count (opened self.now.id share) }
    {
        let mut left = count;
        while left > 0 {
            left -= 1;
            let raw = raw_cut::<Brand>(&self.table.shared, first, share, 0);
            list.push_reserved(Seat {
                raw,
                budget: share,
                last: None,
            });
        }
        list
    }

    /// So many rights, each cut off the seat that has them all.
    fn deal_rights(
        &self,
        first: &mut RawSeat,
        mut list: Vec<Right, A>,
        count: usize,
    ) -> Vec<Right, A>
        requires own { (first.old.table_id ≡ self.now.id) × (first.old.me.1 ≡ []) }
        requires room { (list.items ≡ []) × (count ≤ vec_capacity list) }
        requires rights { first.old.me.0 ≡ fresh 0 count false }
        ensures rights { result.items ≡ replicate count self.now.id }
    {
        let mut left = count;
        while left > 0 {
            left -= 1;
            let raw = raw_cut::<Brand>(&self.table.shared, first, 0, 1);
            list.push_reserved(Right { raw });
        }
        list
    }
}

/// The room for the lists of seats and of rights.
fn rooms<A: Allocator + Clone>(
    alloc: &A,
    seats: usize,
    rights: usize,
) -> Result<(Vec<Seat, A>, Vec<Right, A>), AllocError>
    ensures { IfOk result (λ r. (r.0.items ≡ []) × (seats ≤ vec_capacity r.0) × (r.1.items ≡ []) × (rights ≤ vec_capacity r.1)) }
{
    let seat_room = room_for(alloc, seats)?;
    let right_room = room_for(alloc, rights)?;
    Ok((seat_room, right_room))
}
