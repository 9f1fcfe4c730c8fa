//! A gate gives numbers, each once, to whoever draws at one of its seats; it refuses draws once one of its rights was spent on closing it,
//! or the seat's budget is spent.
//!
//! Each draw is one `fetch_add` and each close one `fetch_or` on one word, so no call waits for another thread. The accepted numbers
//! of all seats are those below some number, each once; once the gate is closed, that number is the closer's answer, and stays.
//! A caller knows this of its own seats: what `IsSound` says of a seat's record holds at any time, and `join` puts records together.
ghost use Rattle.std.specs.Prelude.{◌≡◌, ◌≢◌, ℕ, ◌+◌, ◌<◌, ◌≤◌, length, false, All, IfOk, IfErr, MatchResult, Ok, Err};
ghost use Rattle.farm_lanes.specs.Counting.{times};
ghost use Rattle.farm_lanes.specs.GateRecord.{IsSound};
ghost use Rattle.farm_lanes.specs.SeatChanges.{accepted, refused, made_close, missed_close, given_away, given, joined};

mod opening;
mod record;
mod rule;
mod seat;
mod steps;

use crate::gate::record::{GateSize, SeatRecord};
use crate::gate::rule::GateRule;
use crate::gate::seat::greater;
use crate::gate::steps::{CLOSED, raw_close, raw_cut, raw_draw, raw_join, raw_look};
use atomic_table::Table;
pub use opening::GateError;
pub use seat::{Right, Seat};
use std::alloc::{Allocator, Global};
use std::marker::{Brand, Model};
use thiserror::Error;

/// A gate. Contracts see its name and its size.
pub struct Gate<A: Allocator = Global> {
    table: Table<u8, SeatRecord, GateSize, GateRule, A>,
}

impl<A: Allocator> Drop for Gate<A> {
    fn drop(self) {
        let Gate { table: _ } = self;
    }
}

impl<A: Allocator> Model for Gate<A> {
    ghost use Rattle.std.specs.Prelude.{◌≡◌, ◌≤◌};
    ghost use Rattle.farm_lanes.specs.GateView.{GateName};

    ghost Value = { GateName };

    ghost view = { λ g. record { id = g.table.shared.table_id; size = g.table.shared.key } };

    ghost invariant = { λ g. (g.table.shared.table_id.words ≡ 1) × (g.table.shared.key.total ≤ 4294967296) };
}

/// Why a draw gave no number.
#[derive(Clone, Copy, Debug, PartialEq, Eq, Error)]
pub enum GateRefusal {
    /// The gate was closed.
    #[error("the gate is closed")]
    Closed,

    /// The seat's own budget is 0.
    #[error("the seat has no draws left")]
    SeatSpent,
}

/// The gate was closed already when this close came.
#[derive(Clone, Copy, Debug, PartialEq, Eq, Error)]
#[error("the gate was closed already")]
pub struct AlreadyClosed;

impl<A: Allocator> Gate<A> {
    /// Draws the next number.
    ///
    /// A seat without budget is refused as `SeatSpent`, and nothing changes. Otherwise its budget falls by one, and it is given the
    /// number of draws that were accepted before, or refused as `Closed`; it then knows that the gate is closed.
    pub fn draw(&self, seat: &mut Seat) -> Result<u64, GateRefusal>
        requires own { seat.old.gate ≡ self.now.id }
        ensures gate { seat.new.gate ≡ seat.old.gate }
        ensures share { seat.new.has.share ≡ seat.old.has.share }
        ensures number { IfOk result (λ n. (seat.new.has ≡ accepted seat.old.has n) × (seat.old.has.knows ≡ false)) }
        ensures rises { IfOk result (λ n. All (λ x. x < n) seat.old.has.numbers) }
        ensures whole { IfOk result (λ n. seat.old.has.share ≡ self.now.size.total → n ≡ length seat.old.has.numbers) }
        ensures spent { seat.old.has.share ≡ seat.old.has.draws → (result ≡ Err GateRefusal.SeatSpent) × (seat.new.has ≡ seat.old.has) }
        ensures refused { seat.old.has.share ≢ seat.old.has.draws
            → IfErr result (λ e. (e ≡ GateRefusal.Closed) × (seat.new.has ≡ refused seat.old.has)) }
        ensures sound { seat.old.has.share ≢ seat.old.has.draws → IsSound self.now.size seat.new.has }
    {
        if seat.budget == 0 {
            return Err(GateRefusal::SeatSpent);
        }
        let found = raw_draw::<Brand>(&self.table.shared, &mut seat.raw);
        seat.budget -= 1;
        if found < CLOSED {
            seat.last = Some(found);
            Ok(found)
        } else {
            Err(GateRefusal::Closed)
        }
    }

    /// Closes the gate, and says how many draws were accepted in all. That number is final.
    ///
    /// The right is spent in both cases, and the seat then knows that the gate is closed. A close that finds the gate closed leaves
    /// it as it was.
    pub fn close(&self, seat: &mut Seat, right: Right) -> Result<u64, AlreadyClosed>
        requires own { (seat.old.gate ≡ self.now.id) × (right ≡ self.now.id) }
        ensures gate { seat.new.gate ≡ seat.old.gate }
        ensures closed { MatchResult result (λ n. (seat.new.has ≡ made_close seat.old.has n) × (seat.old.has.knows ≡ false))
            (λ _. seat.new.has ≡ missed_close seat.old.has) }
        ensures kept { (seat.new.has.share ≡ seat.old.has.share) × (seat.new.has.draws ≡ seat.old.has.draws)
            × (seat.new.has.numbers ≡ seat.old.has.numbers) }
        ensures sound { IsSound self.now.size seat.new.has }
    {
        let Right { raw } = right;
        raw_join(&self.table.shared, &mut seat.raw, raw);
        let answer = raw_close::<Brand>(&self.table.shared, &mut seat.raw);
        if answer < CLOSED {
            Ok(answer)
        } else {
            Err(AlreadyClosed)
        }
    }

    /// Cuts a seat in two. The second gets `give` of the budget, no numbers, and what the first knows of a closing; the first keeps
    /// the rest.
    pub fn split(&self, seat: Seat, give: u64) -> (Seat, Seat)
        requires own { seat.gate ≡ self.now.id }
        requires give { give + seat.has.draws ≤ seat.has.share }
        ensures first { result.0 ≡ record { gate = seat.gate; has = given_away seat.has give } }
        ensures second { result.1 ≡ record { gate = seat.gate; has = given seat.has give } }
    {
        let Seat {
            mut raw,
            budget,
            last,
        } = seat;
        let other = raw_cut::<Brand>(&self.table.shared, &mut raw, give, 0);
        (
            Seat {
                raw,
                budget: budget - give,
                last,
            },
            Seat {
                raw: other,
                budget: give,
                last: None,
            },
        )
    }

    /// Makes one seat of two, with the budgets and the numbers of both.
    pub fn join(&self, first: Seat, second: Seat) -> Seat
        requires own { (first.gate ≡ self.now.id) × (second.gate ≡ self.now.id) }
        ensures joined { result ≡ record { gate = first.gate; has = joined first.has second.has } }
        ensures disjoint { (x : ℕ) → times x first.has.numbers + times x second.has.numbers ≤ 1 }
        ensures one_close { length first.has.made + length second.has.made ≤ 1 }
        ensures sound { IsSound self.now.size result.has }
    {
        let Seat {
            mut raw,
            budget,
            last,
        } = first;
        let Seat {
            raw: other,
            budget: more,
            last: other_last,
        } = second;
        raw_join(&self.table.shared, &mut raw, other);
        raw_look::<Brand>(&self.table.shared, &mut raw);
        Seat {
            raw,
            budget: budget + more,
            last: greater(last, other_last),
        }
    }
}
