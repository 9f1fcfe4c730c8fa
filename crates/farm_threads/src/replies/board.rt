//! The farm's own collection of replies: those to the requests of racks' feeds, by the numbers that the feeds drew, in whatever order they
//! come. For racks of one list each, numbered as listed, callers have `Collector`.
ghost use Rattle.std.specs.Prelude.{◌≡◌, ◌≤◌, IfOk, IfErr, OnOk, OnErr, None, length, map, ◌++◌, ◌∷◌, [], List};
ghost use Rattle.std.specs.List.{AllZip};
ghost use Rattle.farm_threads.specs.Boards.{HoldsNothing, HasRooms, IsHeldToo, filled, most_served, IsOutcomeOf, IsNotHeld, HasHeld};
ghost use Rattle.farm_threads.specs.Replies.{entry_of, Replied};
ghost use Rattle.farm_orders.specs.Limits.{feed_limit};
ghost use Rattle.farm_threads.specs.RunFeeds.{lists_of, slot_feed, slot_rack};
ghost use Rattle.farm_orders.specs.declared.orders.Order.{Order};

use crate::lists::Lists;
use crate::replies::row::{Row, enter};
use crate::replies::{CollectFault, Reply};
use crate::slots::Slot;
use farm_orders::{FeedAnswer, RackList};
use lrc_code::Outcome;
use std::alloc::{AllocError, Global};
use std::marker::Model;

/// Replies to the requests of racks' feeds. Contracts see the lists of each rack's feeds, and the replies that came, by rack and number.
#[derive(Drop)]
pub struct Board<'a> {
    lists: Lists<'a>,
    rows: Vec<Row<'a>>,
}

impl<'a> Model for Board<'a> {
    ghost use Rattle.farm_threads.specs.Boards.{Held, HasRooms};
    ghost use Rattle.farm_threads.specs.RunFeeds.{lists_of};

    ghost Value = { Held };

    ghost view = { λ b. record { racks = lists_of b.lists; table = b.rows.items } };

    ghost invariant = { λ b. HasRooms (lists_of b.lists) b.rows.items };
}

/// How many requests of these feeds may be answered.
fn most_of(feeds: &[RackList]) -> usize
    requires { length feeds.now ≤ feed_limit }
    ensures { result ≡ most_served feeds.now }
{
    let mut most = 0;
    for list in feeds {
        most += list.served();
    }
    most
}

impl<'a> Board<'a> {
    /// A board without replies; it takes all the room that replies need.
    pub fn new(alloc: Global, lists: Lists<'a>) -> Result<Board<'a>, AllocError>
        ensures { IfOk result (HoldsNothing (lists_of lists.entry)) }
    {
        let racks = lists.racks();
        let mut rows = Vec::with_capacity(alloc, racks)?;
        for rack in 0..racks {
            rows.push_reserved(Row::new(alloc, most_of(lists.feeds(rack)))?);
        }
        Ok(Board { lists, rows })
    }

    /// There is a row for each rack, with a cell for each number that its feeds may draw. Does nothing: it is called for its contract.
    pub fn learn_rooms(&self)
        ensures { HasRooms self.now.racks self.now.table }
    {
        let _lists = &self.lists;
    }

    /// Takes in a reply, which names a slot, by a number that the feeds of the slot's rack may draw and that has none yet. A refusal hands
    /// the reply back and changes nothing. Takes no memory.
    pub fn accept(&mut self, reply: Reply<'a>) -> Result<(), CollectFault<'a>>
        ensures accepted { OnOk result (IsHeldToo self.old (slot_rack reply.entry.rack) reply.entry.number
            (entry_of reply.entry) self.new) }
        ensures refused { IfErr result (λ e. IsNotHeld self.old reply.entry e) }
        ensures unchanged { OnErr result (self.new ≡ self.old) }
    {
        let slot = Slot {
            number: reply.rack(),
        };
        enter(self.rows.as_mut_slice(), slot.rack(), reply)
    }

    /// Of each rack the answers to the requests of a lawful merge of its feeds, in order, each with the feed of its slot.
    pub fn by_feed(self, alloc: Global) -> Result<Vec<Vec<FeedAnswer>>, AllocError>
        ensures { IfOk result (λ v. AllZip (λ row answers. AllZip IsOutcomeOf (filled row) answers.items) self.entry.table v.items) }
    {
        let Board { lists: _, rows } = self;
        all_by_feed(alloc, rows)
    }

    /// Of each rack the answers to the requests of a lawful merge of its feeds, in order.
    pub fn answers(self, alloc: Global) -> Result<Vec<Vec<Outcome>>, AllocError>
        ensures { IfOk result (λ v. AllZip (λ row answers. AllZip (λ e o. IsOutcomeOf e (slot_feed e.rack, o))
            (filled row) answers.items) self.entry.table v.items) }
    {
        let answers = self.by_feed(alloc)?;
        without_feeds(alloc, answers)
    }
}

/// The answers, row by row, each with its feed's number.
fn all_by_feed(alloc: Global, rows: Vec<Row>) -> Result<Vec<Vec<FeedAnswer>>, AllocError>
    ensures { IfOk result (λ v. AllZip (λ row answers. AllZip IsOutcomeOf (filled row) answers.items) rows.entry.items v.items) }
{
    let mut all = Vec::with_capacity(alloc, rows.len())?;
    for row in rows {
        all.push_reserved(row.filled_by_feed(alloc)?);
    }
    Ok(all)
}

/// The answers without their feeds' numbers, row by row.
fn without_feeds(alloc: Global, rows: Vec<Vec<FeedAnswer>>) -> Result<Vec<Vec<Outcome>>, AllocError>
    ensures { IfOk result (λ v. AllZip (λ row answers. answers.items ≡ map (λ answer. answer.1) row.items) rows.items v.items) }
{
    let mut all = Vec::with_capacity(alloc, rows.len())?;
    for row in rows {
        all.push_reserved(outcomes_of(alloc, row)?);
    }
    Ok(all)
}

/// The answers of one row.
fn outcomes_of(alloc: Global, row: Vec<FeedAnswer>) -> Result<Vec<Outcome>, AllocError>
    ensures { IfOk result (λ v. v.items ≡ map (λ answer. answer.1) row.items) }
{
    row.into_iter().map(|(_, outcome)| outcome).collect(alloc)
}

/// What the collector's thread gives back.
#[derive(Drop)]
pub struct HandedIn<'a> {
    pub board: Board<'a>,
    pub fault: Option<CollectFault<'a>>,
}

/// Hands in a reply, unless one was refused before.
pub fn hand_in<'a>(
    board: &mut Board<'a>,
    fault: Option<CollectFault<'a>>,
    reply: Reply<'a>,
) -> Option<CollectFault<'a>>
    ensures { (racks : List (List (List Order))) (xs : List Replied) → HasHeld racks board.old fault.entry xs
        → HasHeld racks board.new result (xs ++ reply.entry ∷ []) }
{
    match fault {
        Some(first) => Some(first),
        None => match board.accept(reply) {
            Ok(()) => None,
            Err(refused) => Some(refused),
        },
    }
}
