//! Replies to requests, and why a collector refuses.
ghost use Rattle.std.specs.Prelude.{◌≡◌, IfSome, IfNone};
ghost use Rattle.lrc_code.specs.Answers.{IsAnswer};
ghost use Rattle.farm_threads.specs.declared.replies.ReplyResult.TheVariants.{Done, Starved};
ghost use Rattle.farm_threads.specs.declared.replies.FinishFault.TheVariants.{OutOfMemory};

pub mod board;
pub mod collector;
pub mod row;

use lrc_code::{Outcome, Request};
use std::alloc::AllocError;
use std::marker::Model;
use thiserror::Error;

/// What became of a request.
#[derive(Debug, Drop)]
pub enum ReplyResult {
    /// Its answer.
    Done(Outcome),
    /// Memory for its answer was refused.
    Starved,
}

/// What became of the request of a rack and a number. Its type keeps that a `Done` outcome is the request's answer.
#[derive(Debug, Drop)]
pub struct Reply<'a> {
    /// The number in the field `rack` of the job: in a run a slot, as `Job` says.
    pub rack: usize,
    pub number: u64,
    pub request: &'a Request,
    pub result: ReplyResult,
}

impl<'a> Model for Reply<'a> {
    ghost use Rattle.farm_threads.specs.Replies.{Replied, IsRight};

    ghost Value = { Replied };

    ghost view = { λ r. record { rack = r.rack; number = r.number; request = r.request.now; result = r.result } };

    ghost invariant = { λ r. IsRight r.request.now r.result };
}

impl<'a> Reply<'a> {
    /// The answer to a request.
    pub fn done(rack: usize, number: u64, request: &'a Request, outcome: Outcome) -> Reply<'a>
        requires { IsAnswer request.now outcome }
        ensures { result ≡ record { rack = rack; number = number; request = request.now; result = Done outcome } }
    {
        Reply {
            rack,
            number,
            request,
            result: ReplyResult::Done(outcome),
        }
    }

    /// The reply that memory for the answer was refused. Takes none itself.
    pub fn starved(rack: usize, number: u64, request: &'a Request) -> Reply<'a>
        ensures { result ≡ record { rack = rack; number = number; request = request.now; result = Starved } }
    {
        Reply {
            rack,
            number,
            request,
            result: ReplyResult::Starved,
        }
    }

    /// The rack of the request, or its slot in a run.
    pub fn rack(&self) -> usize
        ensures { result ≡ self.now.rack }
    {
        self.rack
    }

    /// The number of the request in its rack.
    pub fn number(&self) -> u64
        ensures { result ≡ self.now.number }
    {
        self.number
    }

    /// The answer, if there was memory for it.
    pub fn into_outcome(self) -> Option<Outcome>
        ensures done { IfSome result (λ o. (self.entry.result ≡ Done o) × IsAnswer self.entry.request o) }
        ensures starved { IfNone result (self.entry.result ≡ Starved) }
    {
        let Reply {
            rack: _,
            number: _,
            request: _,
            result,
        } = self;
        match result {
            ReplyResult::Done(outcome) => Some(outcome),
            ReplyResult::Starved => None,
        }
    }
}

/// Why a reply was refused. It is handed back.
#[derive(Debug, Drop, Error)]
pub enum CollectFault<'a> {
    /// E13: the reply is to a rack or a number that isn't expected.
    #[error("a reply to a request that is not expected")]
    Stranger { reply: Reply<'a> },
    /// E14: the request has a reply already.
    #[error("a second reply to one request")]
    Double { reply: Reply<'a> },
}

/// Why there are no answers.
#[derive(Debug, Drop, Error)]
pub enum FinishFault {
    /// E15: a reply that is expected hasn't come: the one of the least rack, and in it of the least number.
    #[error("the reply to request {number} of rack {rack} has not come")]
    Missing { rack: usize, number: u64 },
    /// E16: memory was refused, for a reply or for the lists of answers.
    #[error("out of memory")]
    OutOfMemory,
}

impl From<AllocError> for FinishFault {
    ghost from_gives = { λ _ f. f ≡ OutOfMemory };

    fn from(_error: AllocError) -> FinishFault {
        FinishFault::OutOfMemory
    }
}
