//! Scrubbing a stripe of a store: whether its fragments belong together, and which one is damaged where that can be told.
ghost use Rattle.std.specs.Prelude.{◌≡◌, ◌≢◌, ◌++◌, ℕ, List, [], length, All, Contains, IfOk, IfSome, OnOk, false, true};
ghost use Rattle.lrc_code.specs.declared.places.Place.{Place};
ghost use Rattle.lrc_code.specs.Code.{has_place};
ghost use Rattle.lrc_code.specs.Codes.{tables_of};
ghost use Rattle.lrc_code.specs.Sets.{is_in};
ghost use Rattle.lrc_plan.specs.Stripes.{AreWhole, IsPossible, at_place};
ghost use Rattle.store_repair.specs.declared.damage.Damage.TheVariants.{Nowhere};
ghost use Rattle.store_repair.specs.Damage.{IsLocated};
ghost use Rattle.store_repair.specs.Findings.{NamesStay, named};
ghost use Rattle.store_repair.specs.Losses.{CanContradict, CannotContradict};
ghost use Rattle.store_repair.specs.Opened.{AreFound, IsThereWith};
ghost use Rattle.store_repair.specs.Repaired.{AreAccountedFor, IsWhole};
ghost use Rattle.store_repair.specs.Scrubbed.{AreOfOneStripe, IsDamagedFragment, damaged_at, said_damaged};
ghost use Rattle.stores.specs.Shown.{AreShown};
ghost use Rattle.stores.specs.Stripes.{has_file};

use crate::damage::{Damage, find_damaged};
use crate::device_faults::note_unread;
use crate::lengths::length_or_note;
use crate::losses::have_checks;
use crate::mending::{MendFault, Survivors};
use crate::opening::open_survivors;
use crate::outcomes::{Finding, Reason, StripeOutcome, is_named, note};
use lrc_code::{Code, Place};
use std::alloc::{AllocError, Global};
use stores::{Fragment, Store, Stripe};

/// Tests a stripe. Each place of the code is named by a finding that has no file of the stripe's length, or whose fragment can't be opened,
/// unless a finding says that this length isn't known. A fragment is said to be damaged only where it is so whatever at most two of those
/// that were opened hold; and where nothing is said, the fragments at all places of the code are of one stripe.
pub fn scrub_stripe<S: Store>(
    alloc: Global,
    store: &S,
    code: Code,
    stripe: &Stripe<'_>,
) -> Result<StripeOutcome, AllocError>
    ensures damaged { IfOk result (λ o. IfSome (S.files store.now) (λ files.
        All (IsDamagedFragment code (is_in o.survivors) o.length stripe.now.name.now files) (said_damaged o.findings.items))) }
    ensures silent { IfOk result (λ o. o.findings.items ≡ [] → o.is_checked ≡ true → IfSome (S.files store.now)
        (AreOfOneStripe code (is_in o.survivors) o.length stripe.now.name.now)) }
    ensures checked { IfOk result (λ o. o.is_checked ≡ true → CanContradict code (is_in o.survivors)) }
    ensures unchecked { IfOk result (λ o. o.is_checked ≡ false → CannotContradict code (is_in o.survivors)) }
    ensures opened { IfOk result (λ o. IfSome (S.files store.now) (λ files. (p : Place) → is_in o.survivors p ≡ true
        → IsThereWith stripe.now.name.now o.length files p)) }
    ensures found { IfOk result (λ o. AreFound code stripe.now.files.found o.length (is_in o.survivors)) }
    ensures all { IfOk result (λ o. AreAccountedFor code (is_in o.survivors) stripe.now.files.found [] o.findings.items) }
    ensures rebuilt { IfOk result (λ o. o.rebuilt.items ≡ []) }
    ensures whole { IfOk result (λ o. o.findings.items ≡ [] → IsWhole code o.length stripe.now.name.now (S.files store.now)) }
{
    let mut findings = Vec::new(alloc);
    let known = length_or_note(alloc, store, code, stripe, &mut findings)?;
    let Some(length) = known else {
        return Ok(StripeOutcome::of(alloc, findings));
    };
    note_lost(alloc, code, stripe, length, &mut findings)?;
    let opened = open_survivors(alloc, store, code, stripe, length, &mut findings)?;
    let survivors = Survivors {
        code,
        length,
        set: opened.set,
        fragments: opened.fragments.as_slice(),
    };
    let is_checked = have_checks(code, opened.set);
    test(alloc, &survivors, is_checked, &mut findings)?;
    Ok(StripeOutcome {
        length,
        survivors: opened.set,
        is_checked,
        rebuilt: Vec::new(alloc),
        findings,
    })
}

/// Notes the places at which there is no fragment of the stripe's length, unless it is known that what is there can't be read.
fn note_lost(
    alloc: Global,
    code: Code,
    stripe: &Stripe<'_>,
    length: usize,
    findings: &mut Vec<Finding>,
) -> Result<(), AllocError>
    ensures said { OnOk result (said_damaged findings.new.items ≡ said_damaged findings.old.items) }
    ensures lost { OnOk result ((p : Place) → has_place (tables_of code) p ≡ true → has_file stripe.now.files.found length p ≡ false
        → Contains (named findings.new.items) p) }
{
    let lost = stripe.files.lost(alloc, code, length as u64)?;
    for place in &lost {
        note_unnamed(stripe, *place, findings)?;
    }
    Ok(())
}

/// Notes what is at a place, unless a finding names it already.
fn note_unnamed(
    stripe: &Stripe<'_>,
    place: Place,
    findings: &mut Vec<Finding>,
) -> Result<(), AllocError>
    ensures said { OnOk result (said_damaged findings.new.items ≡ said_damaged findings.old.items) }
    ensures named { OnOk result (Contains (named findings.new.items) place) }
    ensures kept { OnOk result (NamesStay findings.old.items findings.new.items) }
{
    if is_named(findings.as_slice(), place) {
        return Ok(());
    }
    note(findings, Some(place), Reason::of(stripe.files.at(place)))
}

/// Tests whether the survivors belong together, if there are checks.
fn test<F: Fragment>(
    alloc: Global,
    survivors: &Survivors<'_, F>,
    is_checked: bool,
    findings: &mut Vec<Finding>,
) -> Result<(), AllocError>
    requires { length survivors.now.fragments.now ≡ 16 }
    ensures damaged { (at : List (List ℕ)) → AreShown F.shown survivors.now.fragments.now at
        → AreWhole survivors.now.code (is_in survivors.now.set) at survivors.now.length → said_damaged findings.old.items ≡ []
        → OnOk result (All (IsLocated survivors.now.code (is_in survivors.now.set) at survivors.now.length)
        (said_damaged findings.new.items)) }
    ensures silent { (at : List (List ℕ)) → AreShown F.shown survivors.now.fragments.now at
        → AreWhole survivors.now.code (is_in survivors.now.set) at survivors.now.length → is_checked ≡ true
        → OnOk result (findings.new.items ≡ [] → IsPossible (tables_of survivors.now.code) (is_in survivors.now.set) (at_place at)
        survivors.now.length) }
    ensures stay { OnOk result (NamesStay findings.old.items findings.new.items) }
{
    if !is_checked {
        return Ok(());
    }
    match find_damaged(alloc, survivors) {
        Ok(damage) => note_damage(damage, findings),
        Err(fault) => note_fault(fault, findings),
    }
}

/// Notes where survivors are damaged.
fn note_damage(damage: Damage, findings: &mut Vec<Finding>) -> Result<(), AllocError>
    ensures said { OnOk result (said_damaged findings.new.items ≡ said_damaged findings.old.items ++ damaged_at damage) }
    ensures silent { OnOk result (findings.new.items ≡ [] → damage ≡ Nowhere) }
    ensures stay { OnOk result (NamesStay findings.old.items findings.new.items) }
{
    match damage {
        Damage::Nowhere => Ok(()),
        Damage::At(place) => note(findings, Some(place), Reason::Damaged),
        Damage::Among(suspects) => note(findings, None, Reason::Suspected(suspects)),
        Damage::Unknown => note(findings, None, Reason::Contradiction),
    }
}

/// Notes why survivors couldn't be tested.
fn note_fault(fault: MendFault, findings: &mut Vec<Finding>) -> Result<(), AllocError>
    ensures said { OnOk result (said_damaged findings.new.items ≡ said_damaged findings.old.items) }
    ensures some { OnOk result (findings.new.items ≢ []) }
    ensures stay { OnOk result (NamesStay findings.old.items findings.new.items) }
{
    match fault {
        MendFault::OutOfMemory => Err(AllocError),
        MendFault::Unread { index, error } => {
            note_unread(findings, Place::from_index(index), error)
        }
        MendFault::Several { .. } => note(findings, None, Reason::Several),
        MendFault::Unwritten { error, .. } => note_unread(findings, None, error),
    }
}
