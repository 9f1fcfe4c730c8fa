//! Which exit status a repair or a scrub has.
ghost use Rattle.std.specs.Prelude.{◌≡◌, ◌≢◌, ◌+◌, false, true};

use crate::totals::Totals;
use store_faults::{DEVICE, DONE, LEFT};

/// The status of a repair or a scrub, by what it left and by whether its report could be written.
pub fn status_of(totals: &Totals, is_reported: bool) -> u8
    ensures device { totals.now.device ≡ true → result ≡ 3 }
    ensures unreported { is_reported ≡ false → result ≡ 3 }
    ensures whole { totals.now.device ≡ false → is_reported ≡ true → totals.now.left ≡ 0 → result ≡ 0 }
    ensures left { totals.now.device ≡ false → is_reported ≡ true → totals.now.left ≢ 0 → result ≡ 1 }
{
    if totals.device || !is_reported {
        DEVICE
    } else if totals.left > 0 {
        LEFT
    } else {
        DONE
    }
}

/// The status of a dry run, by what a repair would do and leave, and by whether its report could be written.
pub fn status_of_plan(totals: &Totals, is_reported: bool) -> u8
    ensures device { totals.now.device ≡ true → result ≡ 3 }
    ensures unreported { is_reported ≡ false → result ≡ 3 }
    ensures whole { result ≡ 0 → (totals.now.left ≡ 0) × (totals.now.rebuilt ≡ 0) × (totals.now.described ≡ 0) }
{
    let status = status_of(totals, is_reported);
    if status == DONE && (totals.rebuilt > 0 || totals.described > 0) {
        return LEFT;
    }
    status
}
