//! Making files for the lost fragments of a stripe from few of its survivors, if damage of these would show.
ghost use Rattle.std.specs.Prelude.{◌≡◌, IfOk, IfSome, true};
ghost use Rattle.store_repair.specs.declared.settings.Reads.TheVariants.{Checked as ReadsChecked};
ghost use Rattle.store_repair.specs.Losses.{AreChecked, AreHeld};
ghost use Rattle.lrc_code.specs.Sets.{is_in};
ghost use Rattle.stores.specs.Kept.{Given};
ghost use Rattle.store_repair.specs.Opened.{AreMade};
ghost use Rattle.store_repair.specs.Repaired.{IsShown};

use crate::fewest::{OpenedFew, is_shown, open_fewest};
use crate::making::{Attempt, Made, discard_all, make_from};
use crate::outcomes::{Finding, Reason};
use crate::settings::{Reads, Repair};
use lrc_code::{Place, PlaceSet};
use std::alloc::{AllocError, Global};
use stores::{Store, Stripe};

/// Makes files for the lost fragments from as few survivors as a repair reads; none where all have to be read: one of the few can't be
/// opened or read, they contradict each other, or damage of them wouldn't show.
pub(crate) fn make_from_fewest<S: Store>(
    alloc: Global,
    store: &mut S,
    repair: &Repair,
    stripe: &Stripe<'_>,
    length: usize,
    findings: &mut Vec<Finding>,
) -> Result<Option<Made<S::New>>, AllocError>
    ensures same { S.files store.new ≡ S.files store.old }
    ensures kept { (given : Given) (from : S) → S.kept stripe.now.name.now given from store.old
        → S.kept stripe.now.name.now given from store.new }
    ensures made { IfOk result (λ o. IfSome o (λ made. AreMade S.New.shown repair.now.code (is_in made.set) length stripe.now.name.now
        (S.files store.old) made.places.items made.files.items)) }
    ensures checked { IfOk result (λ o. IfSome o (λ made. made.is_checked ≡ true → AreChecked repair.now.code (is_in made.set) length)) }
    ensures shown { repair.now.reads ≡ ReadsChecked → IfOk result (λ o. IfSome o (λ made.
        IsShown (S.listed store.old stripe.now.name.now) repair.now.code (is_in made.set) made.places.items)) }
{
    let mut noted = Vec::new(alloc);
    let few = open_fewest(alloc, &*store, repair, stripe, length, &mut noted)?;
    let Some(OpenedFew { opened, listed }) = few else {
        keep_changes(repair, noted, findings)?;
        return Ok(None);
    };
    match make_from(alloc, store, repair, stripe, &opened, &mut noted)? {
        Attempt::Made(made) => {
            if !is_as_asked(store, repair, stripe, listed, &made)? {
                discard_all(store, made.files, findings)?;
                return Ok(None);
            }
            findings.append(&mut noted)?;
            Ok(Some(made))
        }
        Attempt::LeaveOut { .. } | Attempt::GivenUp => {
            keep_changes(repair, noted, findings)?;
            Ok(None)
        }
    }
}

/// Whether what was made may get its names: where damage is looked for, damage of what was read shows, and what was made has its digests.
fn is_as_asked<S: Store>(
    store: &S,
    repair: &Repair,
    stripe: &Stripe<'_>,
    listed: PlaceSet,
    made: &Made<S::New>,
) -> Result<bool, AllocError>
    ensures { repair.now.reads ≡ ReadsChecked → IfOk result (λ is. is ≡ true
        → AreHeld repair.now.code (is_in made.now.set) (is_in listed) made.now.places.items) }
{
    if !matches!(repair.reads, Reads::Checked) {
        return Ok(true);
    }
    let places = made.places.as_slice();
    let are = are_as_listed(store, stripe, places, made.files.as_slice())?;
    Ok(are && is_shown(repair.code, made.set, listed, places))
}

/// Whether new files at places of a stripe have the digests that the store knows of them.
fn are_as_listed<S: Store>(
    store: &S,
    stripe: &Stripe<'_>,
    places: &[Place],
    files: &[S::New],
) -> Result<bool, AllocError> {
    for (place, file) in places.iter().zip(files.iter()) {
        if !store.is_as_listed(file, stripe.name, *place)? {
            return Ok(false);
        }
    }
    Ok(true)
}

/// Keeps what is said of survivors that were changed while they were read, where damage is looked for.
fn keep_changes(
    repair: &Repair,
    noted: Vec<Finding>,
    findings: &mut Vec<Finding>,
) -> Result<(), AllocError> {
    for finding in noted {
        let is_change = matches!(&finding.reason, Reason::Changed);
        if is_change && matches!(repair.reads, Reads::Checked) {
            findings.push(finding)?;
        }
    }
    Ok(())
}
