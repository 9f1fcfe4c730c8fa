//! Runs of gates, in one thread and in several. What is done with a seat is a table of steps, each with what has to come of it.
ghost use Rattle.std.specs.Prelude.{◌≡◌, ◌/◌, ◌≤◌, All, replicate};
ghost use Rattle.farm_lanes.specs.GateView.{opened};

use crate::between_threads::asserting::assert_holds;
use crate::between_threads::tally::Tally;
use farm_lanes::{AlreadyClosed, Gate, GateError, GateRefusal, Right, Seat};
use std::alloc::Global;
use std::process::Abort;
use std::thread::{Threads, for_each_mut, join};

/// What is done with a seat, and what has to come of it.
enum Step {
    /// Its budget, and the greatest number that it was given.
    Shows(u64, Option<u64>),
    /// A draw.
    Draws(Result<u64, GateRefusal>),
    /// A close, on which a right is spent.
    Closes(Result<u64, AlreadyClosed>),
}

/// Whether a step gives what it has to.
fn goes(gate: &Gate, seat: &mut Seat, rights: &mut Vec<Right>, step: &Step) -> bool
    requires seat { seat.old.gate ≡ gate.now.id }
    requires rights { All (λ r. r ≡ gate.now.id) rights.old.items }
    ensures seat { seat.new.gate ≡ gate.now.id }
    ensures rights { All (λ r. r ≡ gate.now.id) rights.new.items }
{
    match step {
        Step::Shows(budget, last) => seat.budget() == *budget && seat.last() == *last,
        Step::Draws(answer) => gate.draw(seat) == *answer,
        Step::Closes(answer) => match rights.pop() {
            Some(right) => gate.close(seat, right) == *answer,
            None => false,
        },
    }
}

/// Asserts that each step gives what it has to.
fn assert_steps(
    rt: &impl Abort,
    gate: &Gate,
    seat: &mut Seat,
    rights: &mut Vec<Right>,
    steps: &[Step],
)
    requires seat { seat.old.gate ≡ gate.now.id }
    requires rights { All (λ r. r ≡ gate.now.id) rights.old.items }
    ensures seat { seat.new.gate ≡ gate.now.id }
    ensures rights { All (λ r. r ≡ gate.now.id) rights.new.items }
{
    for number in 0..steps.len() {
        let goes = goes(gate, seat, rights, &steps[number]);
        assert_holds(rt, goes, "step", number);
    }
}

/// Asserts the same of a seat that is let go then: its parts are dropped one after the other, so that it is done in one place.
fn assert_last_steps(
    rt: &impl Abort,
    gate: &Gate,
    mut seat: Seat,
    rights: &mut Vec<Right>,
    steps: &[Step],
)
    requires seat { seat.gate ≡ gate.now.id }
    requires rights { All (λ r. r ≡ gate.now.id) rights.old.items }
{
    assert_steps(rt, gate, &mut seat, rights, steps);
}

/// A gate with its seats, and the rights that are left.
struct Opened {
    gate: Gate,
    seats: Vec<Seat>,
    rights: Vec<Right>,
}

impl Drop for Opened {
    fn drop(self) {
        let Opened {
            gate: _,
            seats: _,
            rights: _,
        } = self;
    }
}

impl Opened {
    /// A gate with so many seats and rights.
    fn new(rt: &impl Abort, alloc: Global, seats: usize, rights: usize) -> Opened
        ensures seats { result.seats.items ≡ replicate seats (opened result.gate.id (4294967296 / seats)) }
        ensures rights { result.rights.items ≡ replicate rights result.gate.id }
    {
        let (gate, seats, rights) = Gate::open(alloc, seats, rights).expect(rt, "a gate");
        Opened {
            gate,
            seats,
            rights,
        }
    }
}

/// Two draws, a close and a draw after it; a second close and a draw after that.
const ONE_SEAT: &[Step] = &[
    Step::Shows(4294967296, None),
    Step::Draws(Ok(0)),
    Step::Draws(Ok(1)),
    Step::Closes(Ok(2)),
    Step::Draws(Err(GateRefusal::Closed)),
    Step::Shows(4294967293, Some(1)),
    Step::Closes(Err(AlreadyClosed)),
    Step::Draws(Err(GateRefusal::Closed)),
];

/// Only the first of two closes says how many numbers were given, and a draw that found the gate closed is counted in the budget.
#[test]
fn closes_once_and_counts_the_refused_draw(rt: HostRuntime) {
    let mut open = Opened::new(&rt, rt.alloc(), 1, 2);
    let seat = open.seats.pop().expect(&rt, "a seat");
    assert_last_steps(&rt, &open.gate, seat, &mut open.rights, ONE_SEAT);
}

/// What a seat does that was given nothing, and what the whole does that it is joined to again.
const WITHOUT: &[Step] = &[
    Step::Draws(Err(GateRefusal::SeatSpent)),
    Step::Shows(0, None),
];

const WHOLE: &[Step] = &[Step::Shows(4294967296, None), Step::Draws(Ok(0))];

/// A seat that is cut in two keeps what the other isn't given. One that was given nothing is refused, and nothing changes.
#[test]
fn splits_the_budget_and_refuses_a_seat_without(rt: HostRuntime) {
    let mut open = Opened::new(&rt, rt.alloc(), 1, 1);
    let seat = open.seats.pop().expect(&rt, "a seat");
    let seat = cut_and_join(&rt, &open.gate, seat);
    assert_nothing_given(&rt, &open.gate, seat, &mut open.rights);
}

/// Cuts a whole seat in two, of which the second is given 10, and joins it again.
fn cut_and_join(rt: &impl Abort, gate: &Gate, seat: Seat) -> Seat
    requires { seat ≡ opened gate.now.id 4294967296 }
    ensures gate { result.gate ≡ gate.now.id }
    ensures draws { result.has.draws ≤ result.has.share }
{
    let (first, second) = gate.split(seat, 10);
    assert_holds(rt, first.budget() == 4294967286, "budget less", 10);
    assert_holds(rt, second.budget() == 10, "budget of", 10);
    let seat = gate.join(first, second);
    assert_holds(rt, seat.budget() == 4294967296, "budget joined to", 10);
    seat
}

/// Cuts it in two, of which the second is given nothing, and joins it again.
fn assert_nothing_given(rt: &impl Abort, gate: &Gate, seat: Seat, rights: &mut Vec<Right>)
    requires gate { seat.gate ≡ gate.now.id }
    requires draws { seat.has.draws ≤ seat.has.share }
    requires rights { All (λ r. r ≡ gate.now.id) rights.old.items }
{
    let (first, mut second) = gate.split(seat, 0);
    assert_steps(rt, gate, &mut second, rights, WITHOUT);
    assert_last_steps(rt, gate, gate.join(first, second), rights, WHOLE);
}

/// Numbers of seats and of rights of which one is out of its limits.
const BEYOND: &[(usize, usize)] = &[(0, 1), (17, 1), (1, 0), (1, 17), (0, 17)];

/// The draws are shared out evenly over the seats.
#[test]
fn opens_within_the_limits(rt: HostRuntime) {
    assert_thirds(&rt, &Opened::new(&rt, rt.alloc(), 3, 16));
    for number in 0..BEYOND.len() {
        let (seats, rights) = BEYOND[number];
        let refused = refusal_of(rt.alloc(), seats, rights) == Some(GateError::NoSeats);
        assert_holds(&rt, refused, "beyond the limits: row", number);
    }
}

/// Asserts that there are three seats with a third of the draws each, rounded down, and sixteen rights.
fn assert_thirds(rt: &impl Abort, open: &Opened) {
    assert_holds(rt, open.seats.len() == 3, "seats, not", 3);
    assert_holds(rt, open.rights.len() == 16, "rights, not", 16);
    for number in 0..open.seats.len() {
        let third = open.seats[number].budget() == 1_431_655_765;
        assert_holds(rt, third, "a third at seat", number);
    }
}

/// Why a gate isn't opened, if it isn't.
pub(crate) fn refusal_of(alloc: Global, seats: usize, rights: usize) -> Option<GateError> {
    Gate::open(alloc, seats, rights).err()
}

/// Draws so often, or until the gate is closed, and counts the numbers.
fn draw(gate: &Gate, seat: &mut Seat, times: u32, drawn: &Tally)
    requires { seat.old.gate ≡ gate.now.id }
    ensures { seat.new.gate ≡ seat.old.gate }
{
    for _ in 0..times {
        let Ok(number) = gate.draw(seat) else {
            break;
        };
        drawn.count(number);
    }
}

/// Draws so often at each of four seats or fewer, in a thread of its own.
fn draw_at_each<R: Threads + Sync>(
    rt: &R,
    gate: &Gate,
    seats: &mut [Seat],
    times: u32,
    drawn: &Tally,
)
    requires { All (λ s. s.gate ≡ gate.now.id) seats.old }
    ensures { All (λ s. s.gate ≡ gate.now.id) seats.new }
{
    for_each_mut(rt, seats, 4, &|_, seat| draw(gate, seat, times, drawn));
}

/// All seats as one.
fn together(rt: &impl Abort, gate: &Gate, seats: &mut Vec<Seat>) -> Seat
    requires { All (λ s. s.gate ≡ gate.now.id) seats.old.items }
    ensures { result.gate ≡ gate.now.id }
{
    let mut all = seats.pop().expect(rt, "a seat");
    while let Some(seat) = seats.pop() {
        all = gate.join(all, seat);
    }
    all
}

/// What the seats of four threads are once they are one, with 1,000 draws each: the close that comes then, and a draw after it.
const FOUR_SEATS: &[Step] = &[
    Step::Shows(4_294_963_296, Some(3999)),
    Step::Closes(Ok(4000)),
    Step::Draws(Err(GateRefusal::Closed)),
];

/// Four threads draw each number below 4,000 once.
#[test]
fn draws_each_number_once(rt: HostRuntime) {
    let mut open = Opened::new(&rt, rt.alloc(), 4, 1);
    let drawn = Tally::new(&rt, rt.alloc(), 4000);
    draw_at_each(&rt, &open.gate, open.seats.as_mut_slice(), 1000, &drawn);
    drawn.assert_once_below(&rt, 4000);
    let seat = together(&rt, &open.gate, &mut open.seats);
    assert_last_steps(&rt, &open.gate, seat, &mut open.rights, FOUR_SEATS);
}

/// Draws ten times, and then closes the gate: how many numbers were given, or nothing where it was closed.
fn draw_ten_and_close(
    gate: &Gate,
    seat: &mut Seat,
    rights: &mut Vec<Right>,
    drawn: &Tally,
) -> Option<u64>
    requires seat { seat.old.gate ≡ gate.now.id }
    requires rights { All (λ r. r ≡ gate.now.id) rights.old.items }
{
    draw(gate, seat, 10, drawn);
    gate.close(seat, rights.pop()?).ok()
}

/// Threads that draw at three seats until the gate is closed, and one that draws ten times at a fourth seat and closes it: how many numbers
/// were given.
fn draw_until_closed<R: Threads + Sync>(
    rt: &R,
    gate: &Gate,
    seats: &mut [Seat],
    mut seat: Seat,
    rights: &mut Vec<Right>,
    drawn: &Tally,
) -> Option<u64>
    requires seats { All (λ s. s.gate ≡ gate.now.id) seats.old }
    requires seat { seat.gate ≡ gate.now.id }
    requires rights { All (λ r. r ≡ gate.now.id) rights.old.items }
{
    let (_, count) = join(
        rt,
        ||
            requires { All (λ s. s.gate ≡ gate.now.id) seats.now }
        { draw_at_each(rt, gate, seats, 100_000, drawn) },
        || draw_ten_and_close(gate, &mut seat, rights, drawn),
    );
    count
}

/// The numbers that were given are those below the close's answer.
#[test]
fn gives_the_numbers_below_the_closes_answer(rt: HostRuntime) {
    let mut open = Opened::new(&rt, rt.alloc(), 4, 1);
    let drawn = Tally::new(&rt, rt.alloc(), 300_010);
    let seat = open.seats.pop().expect(&rt, "a seat");
    let seats = open.seats.as_mut_slice();
    let count = draw_until_closed(&rt, &open.gate, seats, seat, &mut open.rights, &drawn);
    let count = count.expect(&rt, "the gate was closed already");
    drawn.assert_once_below(&rt, count);
    assert_holds(&rt, count >= 10, "ten numbers, not", count as usize);
}
