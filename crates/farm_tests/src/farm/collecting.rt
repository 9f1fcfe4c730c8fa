//! Replies in whatever order they come.
ghost use Rattle.std.specs.Prelude.{◌≡◌, ◌≢◌, map, slice_index_or};
ghost use Rattle.lrc_code.specs.Requests.{Asked};
ghost use Rattle.farm_orders.specs.Orders.{before_close, served};
ghost use Rattle.farm_core.specs.Replies.{IsInPlace};

use crate::farm::asserting::assert_holds;
use crate::farm::requests::{ANSWERS_OF_ONE, GLOBAL, LOCAL, ONE, are_answers, racks_of, shown};
use farm_core::{CollectFault, Collector, FinishFault, Order, RackList, Racks, Reply, ReplyResult};
use lrc_code::Request;
use lrc_plan::solve;
use std::alloc::Global;
use std::process::Abort;

/// The requests of a list before its close.
fn requests_of<'a>(rt: &impl Abort, alloc: Global, list: &'a RackList) -> Vec<&'a Request>
    ensures { map (λ r. r.now) result.items ≡ before_close list.now }
{
    let mut requests = Vec::new(alloc);
    for order in list.orders() {
        match order {
            Order::Rebuild(request) => requests.push(request).expect(rt, "requests"),
            Order::Close => return requests,
        }
    }
    requests
}

/// The reply to rack 0's request of this number: its answer, or that memory was refused.
fn reply_of<'a>(
    rt: &impl Abort,
    alloc: Global,
    number: usize,
    request: &'a Request,
    starved: bool,
) -> Reply<'a>
    ensures { (result.rack ≡ 0) × (result.number ≡ number) × (result.request ≡ request.now) }
{
    if starved {
        return Reply::starved(0, number as u64, request);
    }
    let outcome = solve(alloc, alloc, request).expect(rt, "an answer");
    Reply::done(0, number as u64, request, outcome)
}

/// Whether a collector accepts the reply to the request of its place.
fn accepts<'a>(collector: &mut Collector<'a>, reply: Reply<'a>) -> bool
    requires place { (d : Asked) → reply.request ≡ slice_index_or (served collector.old.racks reply.rack) reply.number d }
    requires before { IsInPlace collector.old }
    ensures after { IsInPlace collector.new }
    ensures racks { collector.new.racks ≡ collector.old.racks }
{
    match collector.accept(reply) {
        Ok(()) => true,
        Err(_) => false,
    }
}

/// What a collector ends with: whether its answers are those of `ONE`; the rack and the number of a reply that is missing; or neither,
/// where memory was refused.
type Ended = Result<bool, Option<(usize, u64)>>;

fn ended(collector: Collector<'_>) -> Ended
    requires { IsInPlace collector }
{
    match collector.finish() {
        Ok(answers) => Ok(are_answers(answers.as_slice(), ANSWERS_OF_ONE)),
        Err(FinishFault::Missing { rack, number }) => Err(Some((rack, number))),
        Err(FinishFault::OutOfMemory) => Err(None),
    }
}

/// Replies to requests of the rack `ONE`, in the order in which they come, those that are starved, and what the collector ends with.
pub(crate) struct Replies {
    name: &'static str,
    numbers: &'static [usize],
    starved: &'static [usize],
    ended: Ended,
}

/// What a collector ends with that gets these replies.
fn gathered(rt: &impl Abort, alloc: Global, racks: &Racks, replies: &Replies) -> Ended {
    let list = racks.lists().first().expect(rt, "a list");
    let requests = requests_of(rt, alloc, list);
    let mut collector = Collector::new(alloc, racks).expect(rt, "a collector");
    for number in replies.numbers {
        let request = requests.get(*number).expect(rt, "a request");
        let starved = replies.starved.contains(number);
        let reply = reply_of(rt, alloc, *number, request, starved);
        let _ = accepts(&mut collector, reply);
    }
    ended(collector)
}

/// Asserts that the collector ends so.
pub(crate) fn assert_ended(rt: &impl Abort, alloc: Global, replies: &Replies) {
    let ended = gathered(rt, alloc, &racks_of(rt, alloc, ONE), replies);
    let refused = ended == Err(None) && replies.ended != Err(None);
    assert_holds(rt, !refused, replies.name, "OutOfMemory");
    assert_holds(rt, ended == replies.ended, replies.name, "another end");
}

/// All replies, none of them starved.
pub(crate) const ALL: Replies = Replies {
    name: "the replies 2, 0, 1",
    numbers: &[2, 0, 1],
    starved: &[],
    ended: Ok(true),
};

/// The answers in whatever order they come, and none where one is starved or missing, of which it names the first that is missing.
const REPLIES: &[Replies] = &[
    Replies {
        name: "the replies 0, 1, 2",
        numbers: &[0, 1, 2],
        ..ALL
    },
    Replies {
        name: "the replies 0, 2, 1",
        numbers: &[0, 2, 1],
        ..ALL
    },
    Replies {
        name: "the replies 1, 0, 2",
        numbers: &[1, 0, 2],
        ..ALL
    },
    Replies {
        name: "the replies 1, 2, 0",
        numbers: &[1, 2, 0],
        ..ALL
    },
    ALL,
    Replies {
        name: "the replies 2, 1, 0",
        numbers: &[2, 1, 0],
        ..ALL
    },
    Replies {
        name: "the replies 2, 0, 1, of which 1 is starved",
        starved: &[1],
        ended: Err(None),
        ..ALL
    },
    Replies {
        name: "the replies 2, 1, of which 1 is starved",
        numbers: &[2, 1],
        starved: &[1],
        ended: Err(Some((0, 0))),
    },
    Replies {
        name: "no reply",
        numbers: &[],
        ended: Err(Some((0, 0))),
        ..ALL
    },
    Replies {
        name: "the replies 0, 1",
        numbers: &[0, 1],
        ended: Err(Some((0, 2))),
        ..ALL
    },
];

#[test]
fn answers_are_in_order_or_a_reply_is_missing(rt: HostRuntime) {
    for replies in REPLIES {
        assert_ended(&rt, rt.alloc(), replies);
    }
}

/// How `taken` gives a reply that is accepted, and one that is refused as a stranger and handed back.
const ACCEPTED: u16 = 300;

const STRANGER: u16 = 301;

/// How a collector takes a reply. Of one that is refused as a second one it is the outcome that is handed back, as `shown` gives it.
fn taken<'a>(collector: &mut Collector<'a>, reply: Reply<'a>) -> u16
    ensures { result ≢ 300 → collector.new ≡ collector.old }
{
    let (rack, number) = (reply.rack, reply.number);
    match collector.accept(reply) {
        Ok(()) => ACCEPTED,
        Err(CollectFault::Stranger { reply }) => {
            if reply.rack == rack && reply.number == number {
                STRANGER
            } else {
                302
            }
        }
        Err(CollectFault::Double { reply }) => match reply.into_outcome() {
            Some(outcome) => shown(&outcome),
            None => 303,
        },
    }
}

/// Asserts that a collector refuses a reply so, and stays as it was.
fn assert_refused<'a>(
    rt: &impl Abort,
    collector: &mut Collector<'a>,
    reply: Reply<'a>,
    wanted: u16,
    name: &str,
)
    ensures { collector.new ≡ collector.old }
{
    let taken = taken(collector, reply);
    assert_holds(rt, taken != ACCEPTED, name, "it is accepted");
    assert_holds(rt, taken == wanted, name, "it is refused otherwise");
}

/// Asserts how a collector takes replies to a rack of three requests: one to request 1 and a starved one to request 2; one of another rack,
/// one of a number that is too great, and second ones to requests 1 and 2; and what it ends with.
fn assert_taken(rt: &impl Abort, alloc: Global, racks: &Racks) {
    let list = racks.lists().first().expect(rt, "a list");
    let requests = requests_of(rt, alloc, list);
    let request = requests.get(1).expect(rt, "request 1");
    let last = requests.get(2).expect(rt, "request 2");
    let mut collector = Collector::new(alloc, racks).expect(rt, "a collector");
    let first = accepts(&mut collector, reply_of(rt, alloc, 1, request, false));
    assert_holds(rt, first, "a reply", "it is refused");
    let starved = accepts(&mut collector, Reply::starved(0, 2, last));
    assert_holds(rt, starved, "a starved reply", "it is refused");
    let elsewhere = Reply {
        rack: 1,
        number: 0,
        request,
        result: ReplyResult::Starved,
    };
    assert_refused(rt, &mut collector, elsewhere, STRANGER, "another rack");
    let beyond = Reply::starved(0, 3, request);
    assert_refused(rt, &mut collector, beyond, STRANGER, "a number too great");
    let second = reply_of(rt, alloc, 1, request, false);
    assert_refused(rt, &mut collector, second, 0x6e, "a second reply");
    let other = reply_of(rt, alloc, 2, last, false);
    assert_refused(rt, &mut collector, other, 0x01, "one after a starved one");
    let ended = ended(collector) == Err(Some((0, 0)));
    assert_holds(rt, ended, "the end", "another reply is missing, or none");
}

/// Refused replies leave a collector as it was: it still names the reply that is missing.
#[test]
fn strangers_and_second_replies_are_handed_back(rt: HostRuntime) {
    let racks = racks_of(&rt, rt.alloc(), &[&[LOCAL, GLOBAL, LOCAL]]);
    assert_taken(&rt, rt.alloc(), &racks);
}
