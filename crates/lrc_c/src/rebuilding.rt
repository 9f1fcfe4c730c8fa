//! Rebuilding a lost fragment.
ghost use Rattle.std.specs.Prelude.{◌≡◌, ◌<◌, true, false, length, All};
ghost use Rattle.lrc_code.specs.declared.places.Place.{Place};
ghost use Rattle.lrc_code.specs.declared.codes.Code.{Code};
ghost use Rattle.lrc_code.specs.Code.{has_place};
ghost use Rattle.lrc_code.specs.Codes.{tables_of};
ghost use Rattle.lrc_code.specs.Encoding.{IsParity};
ghost use Rattle.lrc_code.specs.Sets.{is_in};
ghost use Rattle.lrc_c.specs.declared.rebuilding.Answer.{Answer};
ghost use Rattle.lrc_plan.specs.Stripes.{at_place, AreUsed, AreWhole, AreZeroRows};
ghost use Rattle.lrc_c.specs.Lent.{lent};
ghost use Rattle.lrc_c.specs.Arguments.{is_set, IsAsked};
ghost use Rattle.lrc_c.specs.Rebuilt.{status_of, IsAnswerAt};

use crate::arguments::{are_whole, lost_place, set_of};
use crate::checking::{CheckRows, are_zero, learn_sixteen, write_if_zero};
use crate::lent::Lent;
use crate::statuses::{BAD_ARGUMENT, CONTRADICTION, DONE, SEVERAL};
use crate::windows::{Couple, Wants};
use lrc_code::{Code, Place, PlaceSet};
use lrc_field::{Gf, no_terms, terms_in};
use lrc_plan::plan_rows;

/// What is said of a lost fragment.
#[derive(Clone, Copy, PartialEq, Eq)]
pub enum Answer {
    Rebuilt,
    Contradiction,
    Several,
}

/// The answer for a lost target; its bytes are written if they are rebuilt.
fn rebuild(code: Code, set: PlaceSet, at: &[Lent; 16], target: Place, out: &mut [u8]) -> Answer
    requires some { 0 < length out.old }
    requires whole { AreWhole code (is_in set) (lent at.now) (length out.old) }
    requires place { has_place (tables_of code) target ≡ true }
    requires lost { is_in set target ≡ false }
    ensures { IsAnswerAt (tables_of code) (is_in set) (at_place (lent at.now)) (length out.old) target result out.new }
{
    learn_sixteen(at);
    let len = out.len();
    let plan = plan_rows(code, set, target);
    let rows = plan.checks;
    let checks = CheckRows { rows, at, len };
    let Some(row) = plan.value else {
        if !are_zero(&checks) {
            return Answer::Contradiction;
        }
        return Answer::Several;
    };
    if !write_value(&checks, &row, out) {
        return Answer::Contradiction;
    }
    Answer::Rebuilt
}

/// Tests the checks, and writes a row's combination in the same pass.
fn write_value(checks: &CheckRows, row: &[Gf; 16], out: &mut [u8]) -> bool
    requires len { length out.old ≡ checks.now.len }
    requires checks { All (λ row. AreUsed row (lent checks.now.at.now) checks.now.len) checks.now.rows }
    requires row { AreUsed row.now (lent checks.now.at.now) checks.now.len }
    ensures zero { result ≡ true → AreZeroRows checks.now.rows (lent checks.now.at.now) checks.now.len }
    ensures value { result ≡ true → IsParity row.now (lent checks.now.at.now) checks.now.len out.new }
    ensures no { result ≡ false → ¬ AreZeroRows checks.now.rows (lent checks.now.at.now) checks.now.len }
{
    let at = checks.at;
    let mut room = no_terms();
    let wants = Wants {
        front: Couple {
            first: Some(terms_in(&mut room, row, at)),
            second: None,
            pairs: &[],
        },
        back: Couple::nothing(),
    };
    write_if_zero(checks, &wants, out, &mut [], &mut [], &mut [])
}

/// The number that C gets for an answer.
fn status_of(answer: Answer) -> u32
    ensures { result ≡ status_of answer }
{
    match answer {
        Answer::Rebuilt => DONE,
        Answer::Contradiction => CONTRADICTION,
        Answer::Several => SEVERAL,
    }
}

/// Rebuilds the fragment at a lost place from the survivors, whose bits are set; their bytes are in `at` by the
/// places' indexes. 0: `out` has the bytes that every stripe with these survivors has there. 1: no stripe has them.
/// 2: two stripes with these survivors differ there. 3: the arguments are not of that kind, and nothing is written.
#[unsafe(no_mangle)]
pub extern "C" fn lrc_rebuild_into(
    code: u8,
    survivors: u32,
    at: &[Lent; 16],
    target: u8,
    out: &mut [u8],
) -> u32
    ensures answer { (c : Code) (p : Place) → IsAsked code survivors target (lent at.now) (length out.old) c p
        → (a : Answer) × (result ≡ status_of a)
        × IsAnswerAt (tables_of c) (is_set survivors) (at_place (lent at.now)) (length out.old) p a out.new }
    ensures refused { ((c : Code) (p : Place) → ¬ IsAsked code survivors target (lent at.now) (length out.old) c p)
        → (result ≡ 3) × (out.new ≡ out.old) }
{
    let Some(lost) = lost_place(code, survivors, target) else {
        return BAD_ARGUMENT;
    };
    let len = out.len();
    if len == 0 {
        return BAD_ARGUMENT;
    }
    let set = set_of(survivors);
    if !are_whole(lost.code, set, at, len) {
        return BAD_ARGUMENT;
    }
    let answer = rebuild(lost.code, set, at, lost.place, out);
    status_of(answer)
}
