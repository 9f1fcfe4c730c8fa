//! Repairing a stripe of a store: each lost fragment is rebuilt, with all checks that the survivors allow, and gets its name.
ghost use Rattle.std.specs.Prelude.{◌≡◌, ◌≢◌, ◌⊎◌, [], IfNone, IfOk, IfSome, false, true};
ghost use Rattle.lrc_code.specs.declared.places.Place.{Place};
ghost use Rattle.store_repair.specs.declared.settings.Reads.TheVariants.{All as ReadsAll, Checked as ReadsChecked};
ghost use Rattle.store_repair.specs.Findings.{AreAllMended, is_unsettled};
ghost use Rattle.store_repair.specs.Repaired.{IsAccountedFor, IsShownOrAll, IsWhole, MayReplace, OnlyReplaces};
ghost use Rattle.store_repair.specs.Changed.{IsMended};
ghost use Rattle.stores.specs.Kept.{Given};
ghost use Rattle.store_repair.specs.Kept.{AreDone, IsRepaired};
ghost use Rattle.store_repair.specs.Losses.{AreChecked};
ghost use Rattle.lrc_code.specs.Sets.{is_in};
ghost use Rattle.store_repair.specs.Opened.{AreMade, AreRebuilt};
ghost use Rattle.stores.specs.Store.{AreUntouched};

use crate::attempting::make_from_fewest;
use crate::lengths::length_or_note;
use crate::making::{Made, discard_all, make};
use crate::opening::open_survivors;
use crate::outcomes::{Finding, Reason, StripeOutcome, note_unknown};
use crate::putting::{Known, put_all, settle};
use crate::settings::{Reads, Repair};
use std::alloc::{AllocError, Global};
use stores::{Store, Stripe};

/// Repairs a stripe. A survivor that is known to be damaged or can't be read is left out, and the others are tried again. Where survivors
/// contradict each other and it isn't known which are damaged, nothing is rebuilt. If no finding says that something is unsettled, what is
/// said to be rebuilt is on the disk under its name, where nothing is to be replaced, or no two of the stripe's names lead to one file.
pub fn repair_stripe<S: Store>(
    alloc: Global,
    store: &mut S,
    repair: &Repair,
    stripe: &Stripe<'_>,
) -> Result<StripeOutcome, AllocError>
    ensures untouched { AreUntouched repair.now.replace_damaged stripe.now.name.now (S.files store.old) (S.files store.new) }
    ensures unchecked { IfOk result (λ o. o.is_checked ≡ false → AreUntouched false stripe.now.name.now (S.files store.old)
        (S.files store.new)) }
    ensures checked { IfOk result (λ o. o.is_checked ≡ true → AreChecked repair.now.code (is_in o.survivors) o.length) }
    ensures kept { repair.now.replace_damaged ≡ false
        → IsRepaired S.kept S.settled repair.now.code stripe.now.name.now (S.files store.old) store.old store.new }
    ensures changed { IsMended S.changed repair.now.code stripe.now.name.now (S.files store.old) store.old store.new }
    ensures replaced { IfOk result (λ o. OnlyReplaces (MayReplace repair.now.replace_damaged repair.now.code (is_in o.survivors)
        o.is_checked o.length stripe.now.files.found o.findings.items) stripe.now.name.now (S.files store.old) (S.files store.new)) }
    ensures whole { repair.now.reads ≡ ReadsAll → IfOk result (λ o. AreAllMended o.findings.items o.rebuilt.items
        → IsWhole repair.now.code o.length stripe.now.name.now (S.files store.new)) }
    ensures shown { repair.now.reads ≡ ReadsChecked → IfOk result (λ o. IsShownOrAll (S.listed store.old stripe.now.name.now)
        repair.now.code (is_in o.survivors) o.rebuilt.items o.findings.items) }
    ensures rebuilt { IfOk result (λ o. AreRebuilt repair.now.code (is_in o.survivors) o.length stripe.now.name.now (S.files store.old)
        (S.files store.new) o.rebuilt.items) }
    ensures done { (repair.now.replace_damaged ≡ false) ⊎ S.apart store.old → IfOk result (λ o. is_unsettled o.findings.items ≡ false
        → AreDone S.settled repair.now.code stripe.now.name.now (S.files store.old) store.new o.rebuilt.items) }
{
    let mut findings = Vec::new(alloc);
    let known = length_or_note(alloc, &*store, repair.code, stripe, &mut findings)?;
    let Some(length) = known else {
        return Ok(StripeOutcome::of(alloc, findings));
    };
    let made = make_lost(alloc, store, repair, stripe, length, &mut findings)?;
    let Some(made) = made else {
        note_unknown(repair.code, stripe, &mut findings)?;
        settle(store, &mut findings)?;
        return Ok(StripeOutcome::of(alloc, findings));
    };
    if has_changed(findings.as_slice()) {
        discard_all(store, made.files, &mut findings)?;
        settle(store, &mut findings)?;
        return Ok(StripeOutcome::of(alloc, findings));
    }
    let survivors = made.set;
    let is_checked = made.is_checked;
    let known = Known {
        length,
        survivors,
        is_checked,
        findings: findings.as_slice(),
    };
    let mut later = Vec::new(alloc);
    let rebuilt = put_all(alloc, store, repair, stripe, &known, made, &mut later)?;
    findings.append(&mut later)?;
    Ok(StripeOutcome {
        length,
        survivors,
        is_checked,
        rebuilt,
        findings,
    })
}

/// Whether a survivor was changed while it was read.
fn has_changed(findings: &[Finding]) -> bool
    ensures { result ≡ true → findings.now ≢ [] }
{
    findings
        .iter()
        .any(|finding| matches!(finding.reason, Reason::Changed))
}

/// Makes files for the lost fragments, from the survivors that are to be read. None, and a finding that says why, where none could be made:
/// they couldn't be created or written, or the survivors contradict each other and it isn't known which to leave out.
fn make_lost<S: Store>(
    alloc: Global,
    store: &mut S,
    repair: &Repair,
    stripe: &Stripe<'_>,
    length: usize,
    findings: &mut Vec<Finding>,
) -> Result<Option<Made<S::New>>, AllocError>
    ensures same { S.files store.new ≡ S.files store.old }
    ensures kept { (given : Given) (from : S) → S.kept stripe.now.name.now given from store.old
        → S.kept stripe.now.name.now given from store.new }
    ensures made { IfOk result (λ o. IfSome o (λ made. AreMade S.New.shown repair.now.code (is_in made.set) length stripe.now.name.now
        (S.files store.old) made.places.items made.files.items)) }
    ensures checked { IfOk result (λ o. IfSome o (λ made. made.is_checked ≡ true → AreChecked repair.now.code (is_in made.set) length)) }
    ensures all { repair.now.reads ≡ ReadsAll → IfOk result (λ o. IfSome o (λ made. (p : Place)
        → IsAccountedFor repair.now.code (is_in made.set) made.places.items findings.new.items p)) }
    ensures shown { repair.now.reads ≡ ReadsChecked → IfOk result (λ o. IfSome o (λ made.
        IsShownOrAll (S.listed store.old stripe.now.name.now) repair.now.code (is_in made.set) made.places.items findings.new.items)) }
    ensures said { IfOk result (λ o. IfNone o (findings.new.items ≢ [])) }
{
    if !matches!(repair.reads, Reads::All) {
        if let Some(made) = make_from_fewest(alloc, store, repair, stripe, length, findings)? {
            return Ok(Some(made));
        }
    }
    let all = Repair {
        reads: Reads::All,
        ..*repair
    };
    let opened = open_survivors(alloc, &*store, repair.code, stripe, length, findings)?;
    make(alloc, store, &all, stripe, opened, findings)
}
