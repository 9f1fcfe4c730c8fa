//! The collection of replies that callers are given: those to the requests of racks of one list each, numbered as listed, in whatever order
//! they come. The farm itself puts replies on a `Board`.
ghost use Rattle.std.specs.Prelude.{◌≡◌, IfOk, IfErr, IfSome, IfNone, MatchResult, OnOk, OnErr, None, map};
ghost use Rattle.std.specs.List.{AllZip};
ghost use Rattle.farm_threads.specs.Replies.{Answers, HasNoGaps, IsLeastGap, IsNothingYet, IsAdded, reply_at, IsComplete, IsInPlace};
ghost use Rattle.farm_threads.specs.Replies.{NoneStarved, entry_of};
ghost use Rattle.farm_threads.specs.declared.replies.FinishFault.TheVariants.{OutOfMemory};
ghost use Rattle.farm_orders.specs.Orders.{IsServed};
ghost use Rattle.farm_threads.specs.Expected.{AreExpected};
ghost use Rattle.farm_threads.specs.Faults.{IsRefused, IsUnfinished};

use crate::replies::row::{Row, enter};
use crate::replies::{CollectFault, FinishFault, Reply};
use farm_orders::Racks;
use lrc_code::Outcome;
use std::alloc::{AllocError, Global};
use std::marker::Model;

/// Replies to the requests of some racks. Contracts see it as the racks and the replies that came, by rack and
/// number.
#[derive(Drop)]
pub struct Collector<'a> {
    racks: &'a Racks,
    rows: Vec<Row<'a>>,
    alloc: Global,
}

impl<'a> Model for Collector<'a> {
    ghost use Rattle.farm_threads.specs.Replies.{Collected, HasShape};

    ghost Value = { Collected };

    ghost view = { λ c. record { racks = c.racks.now; table = c.rows.items } };

    ghost invariant = { λ c. HasShape c.racks.now c.rows.items };
}

impl<'a> Collector<'a> {
    /// A collector without replies; it takes all the room that replies need.
    pub fn new(alloc: Global, racks: &'a Racks) -> Result<Collector<'a>, AllocError>
        ensures { IfOk result (IsNothingYet racks.now) }
    {
        let lists = racks.lists();
        let mut rows = Vec::with_capacity(alloc, lists.len())?;
        for list in lists {
            rows.push_reserved(Row::new(alloc, list.served())?);
        }
        Ok(Collector { racks, rows, alloc })
    }

    /// Takes in a reply to a request that is served and has none yet. A refusal hands the reply back and changes
    /// nothing. Takes no memory.
    pub fn accept(&mut self, reply: Reply<'a>) -> Result<(), CollectFault<'a>>
        ensures served { OnOk result (IsServed self.old.racks reply.entry.rack reply.entry.number) }
        ensures first { OnOk result (reply_at self.old reply.entry.rack reply.entry.number ≡ None) }
        ensures accepted { OnOk result (IsAdded self.old reply.entry.rack reply.entry.number (entry_of reply.entry) self.new) }
        ensures refused { IfErr result (λ e. IsRefused self.old reply.entry e) }
        ensures unchanged { OnErr result (self.new ≡ self.old) }
    {
        enter(self.rows.as_mut_slice(), reply.rack(), reply)
    }

    /// The answers, rack by rack in the order of the requests, if each expected reply has come and none of them says that memory was
    /// refused. Each accepted reply must be to the request at its rack and number.
    pub fn finish(self) -> Result<Vec<Vec<Outcome>>, FinishFault>
        requires { IsInPlace self }
        ensures all { IfOk result (λ v. AreExpected self.entry.racks (map (λ answers. answers.items) v.items)) }
        ensures fed { OnOk result (NoneStarved self.entry) }
        ensures complete { OnOk result (IsComplete self.entry) }
        ensures refused { IfErr result (λ e. IsUnfinished self.entry e) }
    {
        let Collector {
            racks: _,
            rows,
            alloc,
        } = self;
        if let Some((rack, number)) = least_missing(rows.as_slice()) {
            return Err(FinishFault::Missing { rack, number });
        }
        all_outcomes(alloc, rows)
    }
}

/// The first rack and number without a reply.
fn least_missing(rows: &[Row]) -> Option<(usize, u64)>
    ensures some { IfSome result (λ p. IsLeastGap rows.now p.0 p.1) }
    ensures none { IfNone result (HasNoGaps rows.now) }
{
    for rack in 0..rows.len() {
        if let Some(number) = rows[rack].first_missing() {
            return Some((rack, number as u64));
        }
    }
    None
}

/// The answers, row by row.
fn all_outcomes(alloc: Global, rows: Vec<Row>) -> Result<Vec<Vec<Outcome>>, FinishFault>
    requires { HasNoGaps rows.items }
    ensures { MatchResult result (λ v. AllZip (λ row answers. AllZip Answers row answers.items) rows.entry.items v.items)
        (λ e. e ≡ OutOfMemory) }
{
    let mut all = Vec::with_capacity(alloc, rows.len())?;
    for row in rows {
        all.push_reserved(row.outcomes(alloc)?);
    }
    Ok(all)
}
