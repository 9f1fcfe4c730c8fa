//! Plans that are remembered, for callers that ask for the same places again and again.
ghost use Rattle.std.specs.Prelude.{◌≡◌, true, IfOk, IfSome};
ghost use Rattle.lrc_code.specs.Answers.{IsAnswer};
ghost use Rattle.lrc_code.specs.Codes.{tables_of};
ghost use Rattle.lrc_code.specs.Sets.{is_in};
ghost use Rattle.lrc_plan.specs.Planned.{IsPlan, check_forms, value_form};

use crate::invariant::learn_invariant;
use crate::plans::Plan;
use crate::plans::planning::plan_in;
use crate::solving::answer_by;
use lrc_code::{Code, Outcome, Place, PlaceSet, Request};
use std::alloc::{AllocError, Global};
use std::collections::HashMap;
use std::marker::Model;

/// How many plans are remembered at most: as many as there are questions where one to four of the sixteen fragments of the (12,2,2) code
/// are lost; of the (6,2,2) code there are 5,120 in all. Those take 11 MB.
const MOST_PLANS: usize = 9_216;

/// A plan, and what it is the plan for.
#[derive(Drop)]
struct Known {
    code: Code,
    survivors: PlaceSet,
    target: Place,
    plan: Plan<Global>,
}

impl Model for Known {
    ghost use Rattle.lrc_code.specs.Codes.{tables_of};
    ghost use Rattle.lrc_code.specs.Sets.{is_in};
    ghost use Rattle.lrc_plan.specs.Planned.{IsPlan, check_forms, value_form};
    ghost use Rattle.lrc_plan.specs.Remembered.{Known as KnownPlan};

    ghost Value = { KnownPlan };

    ghost view = { λ k. record {
      code = k.code;
      survivors = k.survivors;
      target = k.target;
    } };

    ghost invariant = { λ k. IsPlan (tables_of k.code) (is_in k.survivors) k.target (value_form k.plan) (check_forms k.plan) };
}

impl Known {
    /// The plan, where it is the plan for these.
    fn plan_for(&self, code: Code, survivors: PlaceSet, target: Place) -> Option<&Plan<Global>>
        ensures { IfSome result (λ plan.
            IsPlan (tables_of code) (is_in survivors) target (value_form plan.now) (check_forms plan.now)) }
    {
        if self.code == code && self.target == target && self.survivors == survivors {
            return Some(&self.plan);
        }
        None
    }
}

/// The plans of the questions so far: of a code, survivors and a target. One question more than 9,216 different ones has all of them
/// forgotten. Contracts see nothing of them, since they change no answer.
#[derive(Drop)]
pub struct RememberedPlans {
    known: HashMap<u32, Known>,
}

impl Model for RememberedPlans {
    ghost Value = { Unit };

    ghost view = { λ _. tt };
}

impl RememberedPlans {
    /// No plans. Takes no memory yet.
    pub fn new(alloc: Global) -> RememberedPlans {
        RememberedPlans {
            known: HashMap::new(alloc),
        }
    }

    /// Puts a plan beside the others, or in place of all of them where there are as many as there may be.
    fn remember(
        &mut self,
        code: Code,
        survivors: PlaceSet,
        target: Place,
        plan: Plan<Global>,
    ) -> Result<(), AllocError>
        requires { IsPlan (tables_of code) (is_in survivors) target (value_form plan) (check_forms plan) }
    {
        if self.known.len() >= MOST_PLANS {
            self.known.clear();
        }
        let known = Known {
            code,
            survivors,
            target,
            plan,
        };
        self.known.insert(key_of(code, survivors, target), known)?;
        Ok(())
    }

    /// The plan for these, where it is remembered.
    fn find(&self, code: Code, survivors: PlaceSet, target: Place) -> Option<&Plan<Global>>
        ensures { IfSome result (λ plan.
            IsPlan (tables_of code) (is_in survivors) target (value_form plan.now) (check_forms plan.now)) }
    {
        self.known
            .get(&key_of(code, survivors, target))?
            .plan_for(code, survivors, target)
    }

    /// The answer to a request, as `solve`, whose two calls it makes, the first once for equal questions. The plans are in `alloc`.
    pub fn solve(&mut self, alloc: Global, request: &Request) -> Result<Outcome, AllocError>
        ensures { IfOk result (IsAnswer request.now) }
    {
        learn_invariant(request);
        let code = request.code();
        let survivors = request.survivors();
        let target = request.target();
        if let Some(plan) = self.find(code, survivors, target) {
            return answer_by(alloc, plan, request);
        }
        let plan = plan_in(alloc, code, survivors, target)?;
        let outcome = answer_by(alloc, &plan, request)?;
        self.remember(code, survivors, target, plan)?;
        Ok(outcome)
    }
}

/// A number for each question: its code, its survivors and its target.
fn key_of(code: Code, survivors: PlaceSet, target: Place) -> u32 {
    let start = match code {
        Code::Narrow => target.index() as u32,
        Code::Wide => target.index() as u32 + 16,
    };
    Place::ALL.iter().fold(
        start,
        |key, place| (key << 1) | u32::from(survivors.has(*place)),
    )
}
