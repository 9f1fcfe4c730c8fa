//! Plans for C.
ghost use Rattle.std.specs.Prelude.{◌≡◌, ◌⊎◌, ℕ, Bool, true, List, Some, None, length};
ghost use Rattle.lrc_code.specs.declared.places.Place.{Place};
ghost use Rattle.lrc_code.specs.declared.codes.Code.{Code};
ghost use Rattle.lrc_code.specs.Codes.{tables_of};
ghost use Rattle.lrc_plan.specs.RowPlans.{IsRowPlan, IsValueRow};
ghost use Rattle.lrc_code.specs.Code.{has_place};
ghost use Rattle.lrc_code.specs.Encoding.{IsParity};
ghost use Rattle.lrc_plan.specs.Stripes.{AreWhole, at_place, AreUsed, Keeps};
ghost use Rattle.lrc_c.specs.Arguments.{is_set, IsLost};
ghost use Rattle.lrc_c.specs.Lent.{lent};

use crate::arguments::{lost_place, set_of};
use crate::checking::learn_sixteen;
use crate::combining::{are_used, combine};
use crate::lent::Lent;
use crate::statuses::{BAD_ARGUMENT, DONE, SEVERAL};
use lrc_field::Gf;
use lrc_plan::plan_rows;

/// Coefficients by the places' indexes: what gives the target, and four rows that all give 00 exactly where the
/// survivors are those of a stripe. A row of 00 asks nothing.
#[repr(C)]
#[derive(Drop)]
pub struct Plan {
    pub value: [Gf; 16],
    pub checks: [[Gf; 16]; 4],
}

/// The plan for a lost place from the survivors, whose bits are set. 0: the target is determined. 2: it is not; the
/// checks are written, and the coefficients stay as they are. 3: the arguments are no lost place of a code, and nothing
/// is written.
#[unsafe(no_mangle)]
pub extern "C" fn lrc_plan_into(code: u8, survivors: u32, target: u8, plan: &mut Plan) -> u32
    ensures answer { (c : Code) (p : Place) → IsLost code survivors target c p
        → ((result ≡ 0) × IsRowPlan (tables_of c) (is_set survivors) p (Some plan.new.value) plan.new.checks)
        ⊎ ((result ≡ 2) × IsRowPlan (tables_of c) (is_set survivors) p None plan.new.checks) }
    ensures kept { result ≡ 2 → plan.new.value ≡ plan.old.value }
    ensures refused { ((c : Code) (p : Place) → ¬ IsLost code survivors target c p) → (result ≡ 3) × (plan.new ≡ plan.old) }
{
    let Some(lost) = lost_place(code, survivors, target) else {
        return BAD_ARGUMENT;
    };
    let rows = plan_rows(lost.code, set_of(survivors), lost.place);
    // The checker follows an array from one field to another by a variable alone.
    let checks = rows.checks;
    plan.checks = checks;
    match rows.value {
        Some(value) => {
            plan.value = value;
            DONE
        }
        None => SEVERAL,
    }
}

/// Writes over `out` what a row of a plan gives: the sum of the bytes in `at`, each times its coefficient. Bytes whose
/// coefficient is 00 are not read. 0: done; with the row of a target it has the bytes that each stripe with these survivors has
/// there. 3: bytes whose coefficient is not 00 have another length than `out`, and nothing is written.
#[unsafe(no_mangle)]
pub extern "C" fn lrc_apply(row: &[Gf; 16], at: &[Lent; 16], out: &mut [u8]) -> u32
    ensures done { AreUsed row.now (lent at.now) (length out.old)
        → (result ≡ 0) × IsParity row.now (lent at.now) (length out.old) out.new }
    ensures planned { (c : Code) (survives : Place → Bool) (p : Place) → has_place (tables_of c) p ≡ true
        → IsValueRow (tables_of c) survives p row.now → AreWhole c survives (lent at.now) (length out.old)
        → (s : Place → List ℕ) → Keeps (tables_of c) survives (at_place (lent at.now)) (length out.old) s → s p ≡ out.new }
    ensures refused { ¬ AreUsed row.now (lent at.now) (length out.old) → (result ≡ 3) × (out.new ≡ out.old) }
{
    learn_sixteen(at);
    if !are_used(row, at, out.len()) {
        return BAD_ARGUMENT;
    }
    combine(row, at, out);
    DONE
}
