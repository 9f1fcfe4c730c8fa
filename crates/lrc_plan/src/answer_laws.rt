//! A law of answers.
ghost use Rattle.lrc_plan.specs.AnswerLaws.{HasOneAnswer};

use crate::invariant::learn_invariant;
use crate::plans::row_plans::plan_rows;
use crate::solving::terms::are_zero;
use lrc_code::Request;

/// Each request has exactly one answer. The call plans and tests the checks, so that its proof knows which it is, and gives nothing
/// back; it takes no memory.
pub fn request_has_one_answer(request: &Request)
    ensures { HasOneAnswer request.now }
{
    let survivors = request.survivors();
    let target = request.target();
    learn_invariant(request);
    let plan = plan_rows(request.code(), survivors, target);
    let sources = request.sources();
    let _possible = are_zero(&plan.checks, request, &sources);
}
