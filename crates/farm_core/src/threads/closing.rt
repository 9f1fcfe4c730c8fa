//! What is done with a rack's gate once all its feeders were joined: their seats become one, and the rights that came back are spent.
ghost use Rattle.std.specs.Prelude.{◌≡◌, ◌+◌, ◌<◌, ◌≤◌, ◌++◌, ◌∷◌, ℕ, List, [], length, map, false, vec_len, vec_capacity};
ghost use Rattle.farm_lanes.specs.GateRecord.{IsSound};
ghost use Rattle.list_members.specs.Lists.{Each};
ghost use Rattle.farm_orders.specs.declared.orders.Order.{Order};
ghost use Rattle.farm_threads.specs.declared.feeder.Fed.{Fed as TheFed};
ghost use Rattle.farm_threads.specs.Feed.{right_back, IsJoint, IsOfGate, AreFed, HasDrawn};

use farm_lanes::{EndedPut, Gate, Right, Seat};
use farm_threads::{Fed, Job};

/// Splits nothing off a seat and joins it again, which changes nothing: the gate's contract then says that the seat's record is sound.
fn learn_sound(gate: &Gate, seat: Seat) -> Seat
    requires own { seat.gate ≡ gate.now.id }
    requires within { seat.has.draws ≤ seat.has.share }
    ensures gate { result.gate ≡ gate.now.id }
    ensures same { IsJoint result.has (seat.has ∷ []) }
    ensures sound { IsSound gate.now.size result.has }
{
    let (seat, none) = gate.split(seat, 0);
    gate.join(seat, none)
}

/// Spends rights. Where they are all rights of the gate, the seat knows of no closing. Nobody draws from the gate afterwards, so that this
/// has no effect: it is done for the contract of a close, by which a gate whose rights are all left wasn't closed.
fn spend_all(gate: &Gate, mut seat: Seat, rights: Vec<Right>)
    requires own { (seat.gate ≡ gate.now.id) × Each (λ r. r ≡ gate.now.id) rights.items }
    requires sound { IsSound gate.now.size seat.has }
    ensures { seat.has.used ≡ 0 → length seat.has.made ≡ 0 → length rights.items ≡ gate.now.size.rights → seat.has.knows ≡ false }
{
    for right in rights {
        let _closed = gate.close(&mut seat, right);
    }
}

/// Puts a right that came back to the others.
fn keep(rights: &mut Vec<Right>, right: Option<Right>)
    requires { vec_len rights.old < vec_capacity rights.old }
    ensures rights { rights.new.items ≡ rights.old.items ++ right_back right }
    ensures capacity { vec_capacity rights.new ≡ vec_capacity rights.old }
    ensures one { vec_len rights.new ≤ vec_len rights.old + 1 }
{
    if let Some(right) = right {
        rights.push_reserved(right);
    }
}

/// Joins what a rack's feeders gave back: the put ends in order. What they drew is a lawful merge of their lists.
pub(crate) fn close_rack<'a>(
    gate: &Gate,
    mut given_back: Vec<Fed<'a>>,
    mut rights: Vec<Right>,
    put_ends: &mut Vec<EndedPut<Job<'a>>>,
)
    requires some { 0 < length given_back.items }
    requires own { Each (IsOfGate gate.now.id) given_back.items }
    requires rights { (rights.items ≡ []) × (vec_len given_back ≤ vec_capacity rights) }
    requires room { vec_len put_ends.old + vec_len given_back ≤ vec_capacity put_ends.old }
    ensures capacity { vec_capacity put_ends.new ≡ vec_capacity put_ends.old }
    ensures len { vec_len put_ends.new ≡ vec_len put_ends.old + vec_len given_back.entry }
    ensures ends { put_ends.new.items ≡ put_ends.old.items ++ map (λ (f : TheFed). f.jobs) given_back.entry.items }
    ensures drawn { (rack : ℕ) (lists : List (List Order)) → AreFed gate.now rack lists given_back.entry.items
        → HasDrawn rack lists (map (λ (f : TheFed). f.jobs) given_back.entry.items) }
{
    let Some(last) = given_back.pop() else {
        unreachable!();
    };
    let Fed {
        seat,
        right: last_right,
        jobs: last_jobs,
        ..
    } = last;
    let mut joined = learn_sound(gate, seat);
    for fed in given_back {
        let Fed {
            seat,
            right,
            jobs,
            ..
        } = fed;
        joined = gate.join(joined, seat);
        keep(&mut rights, right);
        put_ends.push_reserved(jobs);
    }
    keep(&mut rights, last_right);
    put_ends.push_reserved(last_jobs);
    spend_all(gate, joined, rights);
}
