//! What a repair of a stripe would do.
ghost use Rattle.std.specs.Prelude.{◌≡◌, All, IfOk, IfSome, false, true};
ghost use Rattle.lrc_code.specs.declared.places.Place.{Place};
ghost use Rattle.lrc_code.specs.Sets.{is_in};
ghost use Rattle.store_repair.specs.Damage.{IsDetermined};
ghost use Rattle.store_repair.specs.Findings.{NamesStay};
ghost use Rattle.store_repair.specs.Losses.{AreChecked};
ghost use Rattle.store_repair.specs.Mended.{AreLost};
ghost use Rattle.store_repair.specs.Opened.{AreApart, AreFound, IsThereWith};
ghost use Rattle.store_repair.specs.Repaired.{AreAccountedFor, AreLostAccountedFor, AreOpenedOrNamed, IsAccountedFor};
ghost use Rattle.store_repair.specs.declared.settings.Reads.TheVariants.{All as ReadsAll};
ghost use Rattle.stores.specs.Stripes.{has_file};

use crate::fewest::open_fewest;
use crate::lengths::length_or_note;
use crate::losses::{are_checked, lost_places};
use crate::making::{note_all, to_be_rebuilt};
use crate::opening::{Opened, open_survivors};
use crate::outcomes::{Finding, StripeOutcome};
use crate::settings::{Reads, Repair};
use std::alloc::{AllocError, Global};
use stores::{Store, Stripe};

/// What a repair of a stripe would do: the places whose fragments it would rebuild, if the survivors that can be opened don't contradict
/// each other, and what it couldn't: the survivors are those that it would open, which determine each of these places, and each other place
/// of the code is named by a finding, unless one says that the stripe's length isn't known; if few survivors are read, each other place
/// without a file of this length. No fragment is read, but where the files' lengths differ, and where the store holds opened survivors to
/// digests that it knows. Whether what is under a name stays, as `repair_stripe` would find, isn't looked at.
pub fn plan_stripe<S: Store>(
    alloc: Global,
    store: &S,
    repair: &Repair,
    stripe: &Stripe<'_>,
) -> Result<StripeOutcome, AllocError>
    ensures lost { IfOk result (λ o. AreLost repair.now.code (is_in o.survivors) o.rebuilt.items) }
    ensures apart { IfOk result (λ o. AreApart o.rebuilt.items) }
    ensures determined { IfOk result (λ o. All (IsDetermined repair.now.code (is_in o.survivors)) o.rebuilt.items) }
    ensures all { repair.now.reads ≡ ReadsAll → IfOk result (λ o.
        AreAccountedFor repair.now.code (is_in o.survivors) stripe.now.files.found o.rebuilt.items o.findings.items) }
    ensures absent { IfOk result (λ o. AreLostAccountedFor repair.now.code (is_in o.survivors) stripe.now.files.found o.length
        o.rebuilt.items o.findings.items) }
    ensures unopened { repair.now.reads ≡ ReadsAll → IfOk result (λ o. AreOpenedOrNamed repair.now.code stripe.now.files.found o.length
        (is_in o.survivors) o.findings.items) }
    ensures opened { IfOk result (λ o. IfSome (S.files store.now) (λ files. (p : Place) → is_in o.survivors p ≡ true
        → IsThereWith stripe.now.name.now o.length files p)) }
    ensures found { IfOk result (λ o. AreFound repair.now.code stripe.now.files.found o.length (is_in o.survivors)) }
    ensures checked { IfOk result (λ o. o.is_checked ≡ true → AreChecked repair.now.code (is_in o.survivors) o.length) }
{
    let code = repair.code;
    let mut findings = Vec::new(alloc);
    let known = length_or_note(alloc, store, code, stripe, &mut findings)?;
    let Some(length) = known else {
        return Ok(StripeOutcome::of(alloc, findings));
    };
    if !matches!(repair.reads, Reads::All) {
        // Dropped: if one of the few is noted all are opened, which notes it again.
        let mut noted = Vec::new(alloc);
        if let Some(few) = open_fewest(alloc, store, repair, stripe, length, &mut noted)? {
            let plan = planned(alloc, repair, stripe, &few.opened, findings)?;
            return Ok(plan);
        }
    }
    let all = Repair {
        reads: Reads::All,
        ..*repair
    };
    let opened = open_survivors(alloc, store, code, stripe, length, &mut findings)?;
    let plan = planned(alloc, &all, stripe, &opened, findings)?;
    Ok(plan)
}

/// What a repair of a stripe from these survivors would do.
fn planned<F>(
    alloc: Global,
    repair: &Repair,
    stripe: &Stripe<'_>,
    opened: &Opened<F>,
    findings: Vec<Finding>,
) -> Result<StripeOutcome, AllocError>
    ensures length { IfOk result (λ o. o.length ≡ opened.now.length) }
    ensures survivors { IfOk result (λ o. o.survivors ≡ opened.now.set) }
    ensures lost { IfOk result (λ o. AreLost repair.now.code (is_in o.survivors) o.rebuilt.items) }
    ensures apart { IfOk result (λ o. AreApart o.rebuilt.items) }
    ensures determined { IfOk result (λ o. All (IsDetermined repair.now.code (is_in o.survivors)) o.rebuilt.items) }
    ensures all { repair.now.reads ≡ ReadsAll → IfOk result (λ o. (p : Place)
        → IsAccountedFor repair.now.code (is_in o.survivors) o.rebuilt.items o.findings.items p) }
    ensures absent { IfOk result (λ o. (p : Place) → has_file stripe.now.files.found o.length p ≡ false
        → IsAccountedFor repair.now.code (is_in o.survivors) o.rebuilt.items o.findings.items p) }
    ensures stay { IfOk result (λ o. NamesStay findings.items o.findings.items) }
    ensures checked { IfOk result (λ o. o.is_checked ≡ true → AreChecked repair.now.code (is_in o.survivors) o.length) }
{
    let code = repair.code;
    let among = to_be_rebuilt(repair, stripe, opened);
    let lost = lost_places(alloc, code, opened.set, among)?;
    let mut findings = findings;
    note_all(stripe, lost.several.as_slice(), &mut findings)?;
    Ok(StripeOutcome {
        length: opened.length,
        survivors: opened.set,
        is_checked: are_checked(code, opened.set, opened.length),
        rebuilt: lost.determined,
        findings,
    })
}
