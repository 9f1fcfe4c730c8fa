//! The replies to one rack's requests.
ghost use Rattle.std.specs.Prelude.{◌≡◌, ◌<◌, replicate, IfOk, IfErr, OnOk, OnErr, MatchResult, IfSome, IfNone, List, None, Some, length};
ghost use Rattle.std.specs.Prelude.{slice_index_or, slice_set, is_some};
ghost use Rattle.std.specs.List.{AllZip};
ghost use Rattle.farm_threads.specs.Replies.{Answers, IsFirstGap, HasNoGap, entry_of, HasCell, IsEntered, cell_at};
ghost use Rattle.farm_threads.specs.Boards.{filled, IsOutcomeOf};
ghost use Rattle.farm_threads.specs.Faults.{IsNotEntered};
ghost use Rattle.farm_threads.specs.RunFeeds.{slot_feed};
ghost use Rattle.farm_threads.specs.declared.replies.FinishFault.TheVariants.{OutOfMemory};

use crate::replies::{CollectFault, FinishFault, Reply};
use crate::slots::Slot;
use farm_orders::FeedAnswer;
use lrc_code::Outcome;
use std::alloc::{AllocError, Global};
use std::marker::Model;

/// The replies to one rack's requests. Contracts see it as a list of entries.
#[derive(Drop)]
pub struct Row<'a> {
    cells: Vec<Option<Reply<'a>>>,
}

impl<'a> Model for Row<'a> {
    ghost use Rattle.std.specs.Prelude.{List, Option};
    ghost use Rattle.farm_threads.specs.Replies.{Entry, entries};

    ghost Value = { List (Option Entry) };

    ghost view = { λ r. entries r.cells.items };
}

impl<'a> Row<'a> {
    /// A row with no reply, and room for this many.
    pub fn new(alloc: Global, count: usize) -> Result<Row<'a>, AllocError>
        ensures { IfOk result (λ r. r ≡ replicate count None) }
    {
        let mut cells = Vec::with_capacity(alloc, count)?;
        for _ in 0..count {
            cells.push_reserved(None);
        }
        Ok(Row { cells })
    }

    /// How many replies the row is for.
    pub fn len(&self) -> usize
        ensures { result ≡ length self.now }
    {
        self.cells.len()
    }

    /// Whether a reply is there.
    pub fn has(&self, number: usize) -> bool
        requires { number < length self.now }
        ensures { result ≡ is_some (slice_index_or self.now number None) }
    {
        self.cells[number].is_some()
    }

    /// Puts a reply into the cell of a number.
    pub fn put(&mut self, number: usize, reply: Reply<'a>)
        requires { number < length self.old }
        ensures { self.new ≡ slice_set self.old number (Some (entry_of reply.entry)) }
    {
        self.cells[number] = Some(reply);
    }

    /// The first request without a reply.
    pub fn first_missing(&self) -> Option<usize>
        ensures some { IfSome result (λ k. IsFirstGap self.now k) }
        ensures none { IfNone result (HasNoGap self.now) }
    {
        for k in 0..self.len() {
            if !self.has(k) {
                return Some(k);
            }
        }
        None
    }

    /// The answers, in order, if no reply says that memory was refused.
    pub fn outcomes(self, alloc: Global) -> Result<Vec<Outcome>, FinishFault>
        requires { HasNoGap self }
        ensures { MatchResult result (λ v. AllZip Answers self.entry v.items) (λ e. e ≡ OutOfMemory) }
    {
        let Row { cells } = self;
        let mut all = Vec::with_capacity(alloc, cells.len())?;
        for cell in cells {
            let Some(reply) = cell else {
                unreachable!();
            };
            let Some(outcome) = reply.into_outcome() else {
                return Err(FinishFault::OutOfMemory);
            };
            all.push_reserved(outcome);
        }
        Ok(all)
    }

    /// The answers before the first gap, each with the feed of its slot, if none of these replies says that memory was refused.
    pub fn filled_by_feed(self, alloc: Global) -> Result<Vec<FeedAnswer>, AllocError>
        ensures { IfOk result (λ v. AllZip IsOutcomeOf (filled self.entry) v.items) }
    {
        let Row { cells } = self;
        let mut all = Vec::with_capacity(alloc, cells.len())?;
        for cell in cells {
            let Some(reply) = cell else {
                return Ok(all);
            };
            let slot = Slot {
                number: reply.rack(),
            };
            let feed = slot.feed();
            let Some(outcome) = reply.into_outcome() else {
                return Err(AllocError);
            };
            all.push_reserved((feed, outcome));
        }
        Ok(all)
    }
}

/// Puts a reply in the cell of this rack and its number. Where there is no such cell, or it has a reply already, the reply is handed
/// back and nothing changes. Takes no memory.
pub fn enter<'a>(
    rows: &mut [Row<'a>],
    rack: usize,
    reply: Reply<'a>,
) -> Result<(), CollectFault<'a>>
    ensures room { OnOk result (HasCell rows.old rack reply.entry.number) }
    ensures first { OnOk result (cell_at rows.old rack reply.entry.number ≡ None) }
    ensures entered { OnOk result (IsEntered rows.old rack reply.entry.number (entry_of reply.entry) rows.new) }
    ensures refused { IfErr result (λ e. IsNotEntered rows.old rack reply.entry e) }
    ensures unchanged { OnErr result (rows.new ≡ rows.old) }
{
    if rack >= rows.len() {
        return Err(CollectFault::Stranger { reply });
    }
    let row = &mut rows[rack];
    if reply.number() >= row.len() as u64 {
        return Err(CollectFault::Stranger { reply });
    }
    let number = reply.number() as usize;
    if row.has(number) {
        return Err(CollectFault::Double { reply });
    }
    row.put(number, reply);
    Ok(())
}
