//! Rebuilding up to four lost fragments of a stripe in one pass.
ghost use Rattle.std.specs.Prelude.{◌≡◌, ◌<◌, ◌∷◌, [], not, length, max, MatchOption, slice_index, slice_index_or};
ghost use Rattle.lrc_code.specs.declared.codes.Code.{Code};
ghost use Rattle.lrc_code.specs.Codes.{tables_of};
ghost use Rattle.lrc_code.specs.Reduction.{IsReduction};
ghost use Rattle.lrc_code.specs.Sets.{is_in};
ghost use Rattle.lrc_plan.specs.Stripes.{AreWhole};
ghost use Rattle.lrc_c.specs.Arguments.{is_set};
ghost use Rattle.lrc_c.specs.Lent.{lent};
ghost use Rattle.lrc_c.specs.RebuiltMany.{AreAllAsked, AreAnswered, AreFourAsked, AreFourAnswered, AreFourReady, AreFourTargets, IsAimed};
ghost use Rattle.lrc_c.specs.RebuiltMany.{ArePairsOfBoth, IsAsked, IsLostOf, IsTargetOf, IsUsedRow, IsWantedOf, status_at};

use crate::arguments::{are_whole, code_numbered, set_of};
use crate::checking::{CheckRows, learn_sixteen, write_if_zero};
use crate::lent::Lent;
use crate::pairing::are_worth_pairing;
use crate::statuses::{BAD_ARGUMENT, CONTRADICTION, DONE, SEVERAL};
use crate::windows::{Couple, Wants};
use lrc_code::{Code, Place, PlaceSet, Reduced};
use lrc_field::{Gf, Pair, Term, no_pairs, no_terms, pairs_in, terms_in};
use lrc_plan::{checks_from, reduce_by_lost, value_from};

/// The number that is given where no target is asked for.
pub const NO_PLACE: u8 = 255;

/// A target, or none.
#[derive(Clone, Copy)]
pub enum Target {
    Nothing,
    Lost(Place),
}

/// What a target's plan asks for.
#[derive(Clone, Copy)]
pub enum Aim {
    Nothing,
    /// The survivors don't determine the target.
    Several,
    /// A combination of the survivors, by its coefficients.
    Sums([Gf; 16]),
}

/// The survivors of a stripe, whose bytes are lent and have a length.
#[derive(Clone, Copy)]
struct Survivors<'s, 'a> {
    code: Code,
    set: PlaceSet,
    at: &'s [Lent<'a>; 16],
    len: usize,
}

/// The target of a number, where that is none, or a lost place of the code whose room has the length.
fn target_of(code: Code, set: PlaceSet, number: u8, room: usize, len: usize) -> Option<Target>
    ensures { MatchOption result (¬ IsAsked code (is_in set) len number room) (IsTargetOf code (is_in set) len number room) }
{
    if number == NO_PLACE {
        return Some(Target::Nothing);
    }
    let Some(place) = Place::from_index(number as usize) else {
        return None;
    };
    if !code.has(place) {
        return None;
    }
    if set.has(place) {
        return None;
    }
    if room != len {
        return None;
    }
    Some(Target::Lost(place))
}

/// The targets of four numbers, each with its room.
fn targets_of(
    code: Code,
    set: PlaceSet,
    numbers: &[u8; 4],
    rooms: [usize; 4],
    len: usize,
) -> Option<[Target; 4]>
    ensures { MatchOption result (¬ AreFourAsked code (is_in set) len numbers.now rooms)
        (AreFourTargets code (is_in set) len numbers.now rooms) }
{
    let first = target_of(code, set, numbers[0], rooms[0], len)?;
    let second = target_of(code, set, numbers[1], rooms[1], len)?;
    let third = target_of(code, set, numbers[2], rooms[2], len)?;
    let fourth = target_of(code, set, numbers[3], rooms[3], len)?;
    Some([first, second, third, fourth])
}

/// What the plan of a target asks for, and the terms of its combination, which are written at the start of the room.
fn aim_of<'s, 'a>(
    survivors: &Survivors<'_, 'a>,
    reduced: &Reduced,
    target: Target,
    room: &'s mut [Term<'a>; 16],
) -> (Aim, &'s [Term<'a>])
    requires whole { AreWhole survivors.now.code (is_in survivors.now.set) (lent survivors.now.at.now) survivors.now.len }
    requires target { IsLostOf survivors.now.code (is_in survivors.now.set) target }
    requires reduced { IsReduction (tables_of survivors.now.code) (λ p. not (is_in survivors.now.set p)) reduced.now }
    requires many { length room.old ≡ 16 }
    ensures aim { IsAimed survivors.now.code (is_in survivors.now.set) (lent survivors.now.at.now) survivors.now.len target
        result.0 result.1.now }
    ensures used { IsUsedRow result.0 (lent survivors.now.at.now) survivors.now.len }
{
    let at = survivors.at;
    learn_sixteen(at);
    let Target::Lost(place) = target else {
        return (Aim::Nothing, &[]);
    };
    let Some(row) = value_from(survivors.code, reduced, survivors.set, place) else {
        return (Aim::Several, &[]);
    };
    (Aim::Sums(row), terms_in(room, &row, at))
}

/// The terms, if they are those of a combination.
fn wanted_of<'s, 'a>(aim: Aim, terms: &'s [Term<'a>]) -> Option<&'s [Term<'a>]>
    ensures { IsWantedOf aim terms.entry.now result }
{
    match aim {
        Aim::Sums(_) => Some(terms),
        Aim::Nothing | Aim::Several => None,
    }
}

/// The pairs of two targets' combinations, which are written at the start of the room: none where a target has no combination, or where
/// the two have so little in common that each is faster alone.
fn pairs_of<'s, 'a>(
    survivors: &Survivors<'_, 'a>,
    one: &Aim,
    other: &Aim,
    room: &'s mut [Pair<'a>; 16],
) -> &'s [Pair<'a>]
    requires many { length room.old ≡ 16 }
    requires first { IsUsedRow one.now (lent survivors.now.at.now) survivors.now.len }
    requires second { IsUsedRow other.now (lent survivors.now.at.now) survivors.now.len }
    ensures { ArePairsOfBoth one.now other.now (lent survivors.now.at.now) survivors.now.len result.now }
{
    let Aim::Sums(first) = one else {
        return &[];
    };
    let Aim::Sums(second) = other else {
        return &[];
    };
    if !are_worth_pairing(first, second) {
        return &[];
    }
    let at = survivors.at;
    pairs_in(room, first, second, at)
}

/// The number that C gets for a target, by whether the checks are 00.
fn status_at(aim: &Aim, possible: bool) -> u32
    ensures { result ≡ status_at aim.now possible }
{
    match aim {
        Aim::Nothing => DONE,
        Aim::Several => { if possible { SEVERAL } else { CONTRADICTION } }
        Aim::Sums(_) => { if possible { DONE } else { CONTRADICTION } }
    }
}

/// The statuses of four targets; the bytes of those that are rebuilt are written.
fn rebuild_four(
    survivors: &Survivors,
    targets: [Target; 4],
    a: &mut [u8],
    b: &mut [u8],
    c: &mut [u8],
    d: &mut [u8],
) -> [u32; 4]
    requires some { 0 < survivors.now.len }
    requires whole { AreWhole survivors.now.code (is_in survivors.now.set) (lent survivors.now.at.now) survivors.now.len }
    requires ready { AreFourReady survivors.now.code (is_in survivors.now.set) survivors.now.len targets (length a.old) (length b.old)
        (length c.old) (length d.old) }
    ensures { AreFourAnswered survivors.now.code (is_in survivors.now.set) (lent survivors.now.at.now) survivors.now.len targets result
        a.new b.new c.new d.new }
{
    let at = survivors.at;
    learn_sixteen(at);
    let reduced = reduce_by_lost(survivors.code, survivors.set);
    let rows = checks_from(survivors.code, &reduced, survivors.set);
    let mut first_room = no_terms();
    let mut second_room = no_terms();
    let mut third_room = no_terms();
    let mut fourth_room = no_terms();
    let (first, first_terms) = aim_of(survivors, &reduced, targets[0], &mut first_room);
    let (second, second_terms) = aim_of(survivors, &reduced, targets[1], &mut second_room);
    let (third, third_terms) = aim_of(survivors, &reduced, targets[2], &mut third_room);
    let (fourth, fourth_terms) = aim_of(survivors, &reduced, targets[3], &mut fourth_room);
    let mut front_room = no_pairs();
    let mut back_room = no_pairs();
    let front = Couple {
        first: wanted_of(first, first_terms),
        second: wanted_of(second, second_terms),
        pairs: pairs_of(survivors, &first, &second, &mut front_room),
    };
    let back = Couple {
        first: wanted_of(third, third_terms),
        second: wanted_of(fourth, fourth_terms),
        pairs: pairs_of(survivors, &third, &fourth, &mut back_room),
    };
    let wants = Wants { front, back };
    let len = survivors.len;
    let checks = CheckRows { rows, at, len };
    let possible = write_if_zero(&checks, &wants, a, b, c, d);
    [
        status_at(&first, possible),
        status_at(&second, possible),
        status_at(&third, possible),
        status_at(&fourth, possible),
    ]
}

/// Rebuilds the fragments at up to four lost places from the survivors, in one pass over these; the checks are tested
/// once. A target of 255 is none, and gets the status 0. The others get the statuses of `lrc_rebuild_into`, and their rooms,
/// in the targets' order, have the length. The answer is the greatest status; 3: the arguments are not of that kind, and
/// nothing is written. The arguments are as many as `library/lrc.h` declares.
#[unsafe(no_mangle)]
pub extern "C" fn lrc_rebuild_many_into(
    code: u8,
    survivors: u32,
    at: &[Lent; 16],
    len: usize,
    targets: &[u8; 4],
    a: &mut [u8],
    b: &mut [u8],
    c: &mut [u8],
    d: &mut [u8],
    statuses: &mut [u32; 4],
) -> u32
    ensures answer { (o : Code) → AreAllAsked code survivors (lent at.now) len targets.now (length a.old) (length b.old) (length c.old)
        (length d.old) o
        → AreAnswered o (is_set survivors) (lent at.now) len targets.now statuses.new a.new b.new c.new d.new }
    ensures greatest { (o : Code) → AreAllAsked code survivors (lent at.now) len targets.now (length a.old) (length b.old) (length c.old)
        (length d.old) o
        → result ≡ max (max (slice_index statuses.new 0) (slice_index statuses.new 1))
        (max (slice_index statuses.new 2) (slice_index statuses.new 3)) }
    ensures refused { ((o : Code) → ¬ AreAllAsked code survivors (lent at.now) len targets.now (length a.old) (length b.old) (length c.old)
        (length d.old) o)
        → (result ≡ 3) × (statuses.new ≡ statuses.old) × (a.new ≡ a.old) × (b.new ≡ b.old) × (c.new ≡ c.old) × (d.new ≡ d.old) }
{
    let Some(own) = code_numbered(code) else {
        return BAD_ARGUMENT;
    };
    if len == 0 {
        return BAD_ARGUMENT;
    }
    let set = set_of(survivors);
    if !are_whole(own, set, at, len) {
        return BAD_ARGUMENT;
    }
    let rooms = [a.len(), b.len(), c.len(), d.len()];
    let Some(asked) = targets_of(own, set, targets, rooms, len) else {
        return BAD_ARGUMENT;
    };
    let stripe = Survivors {
        code: own,
        set,
        at,
        len,
    };
    let found = rebuild_four(&stripe, asked, a, b, c, d);
    *statuses = found;
    found[0].max(found[1]).max(found[2].max(found[3]))
}
