//! Giving rebuilt fragments of a stripe their names.
ghost use Rattle.std.specs.Prelude.{◌≡◌, ◌≢◌, ◌&&◌, ◌++◌, ◌⊎◌, ℕ, List, [], IfOk, None, OnOk, All, Contains, true, false, length};
ghost use Rattle.lrc_code.specs.declared.places.Place.{Place};
ghost use Rattle.lrc_code.specs.Sets.{is_in};
ghost use Rattle.store_repair.specs.Findings.{is_unsettled, named};
ghost use Rattle.stores.specs.Changed.{GivesOneMore};
ghost use Rattle.store_repair.specs.Changed.{ChangesAmong};
ghost use Rattle.stores.specs.Kept.{Given, StaysBeside, StaysOver, nothing};
ghost use Rattle.store_repair.specs.Kept.{given_by};
ghost use Rattle.store_repair.specs.Opened.{AreApart, IsPutOf};
ghost use Rattle.store_repair.specs.Repaired.{HasCause, IsPlaced, MayReplace, OnlyReplaces, SameBeside, is_silent, replaces};
ghost use Rattle.stores.specs.Store.{AreUntouched, HasName, SameElsewhere};
ghost use Rattle.stores.specs.declared.store.Placed.TheVariants as placed;

use crate::coverage::is_covered;
use crate::device_faults::note_unwritten;
use crate::making::{Made, discard};
use crate::outcomes::{Finding, Reason, is_named, is_said_damaged, is_said_to_differ, note};
use crate::settings::Repair;
use lrc_code::{Place, PlaceSet};
use std::alloc::{AllocError, Global};
use std::io;
use stores::{Found, Placed, Store, Stripe};

/// How often a store is asked at most what else is left over of a stripe: for the folder of each other fragment, for a file, and once more.
const MOST_FAULTS: usize = 17;

/// What is done with a rebuilt fragment.
#[derive(Drop)]
enum Way {
    Place,
    Replace,
    // Something is under its name, and stays there; why, if that isn't known yet.
    Leave(Option<Reason>),
}

/// What is known of a stripe before its rebuilt fragments get their names.
#[derive(Clone, Copy)]
pub(crate) struct Known<'k> {
    /// How many bytes each fragment has.
    pub(crate) length: usize,
    /// The survivors that the fragments are rebuilt from, and whether these are checked.
    pub(crate) survivors: PlaceSet,
    pub(crate) is_checked: bool,
    pub(crate) findings: &'k [Finding],
}

/// Gives rebuilt fragments their names, and says which of them have them. What is found then is noted apart from what was known before.
/// If none of that says that something is unsettled, those that have their names are on the disk under them, where nothing is replaced, or
/// no two of the stripe's names lead to one file.
pub(crate) fn put_all<S: Store>(
    alloc: Global,
    store: &mut S,
    repair: &Repair,
    stripe: &Stripe<'_>,
    known: &Known<'_>,
    made: Made<S::New>,
    later: &mut Vec<Finding>,
) -> Result<Vec<Place>, AllocError>
    requires lengths { length made.files.items ≡ length made.places.items }
    requires apart { AreApart made.places.items }
    ensures untouched { AreUntouched (repair.now.replace_damaged && known.now.is_checked) stripe.now.name.now (S.files store.old)
        (S.files store.new) }
    ensures replaced { OnlyReplaces (MayReplace repair.now.replace_damaged repair.now.code (is_in known.now.survivors) known.now.is_checked
        known.now.length stripe.now.files.found known.now.findings.now) stripe.now.name.now (S.files store.old) (S.files store.new) }
    ensures beside { SameBeside made.places.items stripe.now.name.now (S.files store.old) (S.files store.new) }
    ensures kept { (repair.now.replace_damaged && known.now.is_checked) ≡ false → (from : S)
        → S.kept stripe.now.name.now (given_by S.New.shown made.places.items made.files.items) from store.old
        → S.kept stripe.now.name.now (given_by S.New.shown made.places.items made.files.items) from store.new }
    ensures changed { (from : S) → S.changed stripe.now.name.now nothing from store.old → ChangesAmong S.changed stripe.now.name.now
        (given_by S.New.shown made.places.items made.files.items) from store.new }
    ensures put { IfOk result (λ v. All (IsPutOf S.New.shown made.places.items made.files.items stripe.now.name.now (S.files store.new))
        v.items) }
    ensures all { IfOk result (λ v. All (λ p. Contains v.items p ⊎ Contains (named known.now.findings.now ++ named later.new.items) p)
        made.places.items) }
    ensures done { ((repair.now.replace_damaged && known.now.is_checked) ≡ false) ⊎ S.apart store.old
        → IfOk result (λ v. is_unsettled later.new.items ≡ false → All (λ p. S.settled store.new stripe.now.name.now p
        (given_by S.New.shown made.places.items made.files.items p)) v.items) }
{
    let places = made.places;
    let mut left = made.files;
    let mut put = Vec::new(alloc);
    'files: while let Some(file) = left.pop() {
        let place = places[left.len()];
        let way = way_of(repair, stripe, known, place);
        if put_one(store, stripe, place, way, file, later)? {
            put.push(place)?;
        }
    }
    settle(store, later)?;
    Ok(put)
}

/// Writes names to the disk, and notes what is left over.
pub(crate) fn settle<S: Store>(store: &mut S, findings: &mut Vec<Finding>) -> Result<(), AllocError>
    ensures same { S.files store.new ≡ S.files store.old }
    ensures named { OnOk result (named findings.new.items ≡ named findings.old.items) }
    ensures some { OnOk result (findings.old.items ≢ [] → findings.new.items ≢ []) }
    ensures kept { (stripe : List ℕ) (given : Given) (from : S) → S.kept stripe given from store.old → S.kept stripe given from store.new }
    ensures done { OnOk result (is_unsettled findings.new.items ≡ false → StaysOver (S.got_name store.old) (S.settled store.new)) }
{
    match store.settle() {
        Ok(()) => Ok(()),
        Err(fault) => {
            note(findings, None, Reason::Unsettled(fault))?;
            settle_rest(store, findings)
        }
    }
}

/// Notes what else is left over, which each further call says, once a fault was noted.
fn settle_rest<S: Store>(store: &mut S, findings: &mut Vec<Finding>) -> Result<(), AllocError>
    ensures same { S.files store.new ≡ S.files store.old }
    ensures named { OnOk result (named findings.new.items ≡ named findings.old.items) }
    ensures some { OnOk result (findings.old.items ≢ [] → findings.new.items ≢ []) }
    ensures kept { (stripe : List ℕ) (given : Given) (from : S) → S.kept stripe given from store.old → S.kept stripe given from store.new }
    ensures unsettled { OnOk result (is_unsettled findings.old.items ≡ true → is_unsettled findings.new.items ≡ true) }
{
    'faults: for _more in 0..MOST_FAULTS {
        match store.settle() {
            Ok(()) => return Ok(()),
            Err(fault) => note(findings, None, Reason::Unsettled(fault))?,
        }
    }
    Ok(())
}

/// What is done with a rebuilt fragment under whose name something was found. Only a fragment that no fault kept from being read is
/// replaced.
fn way_of(repair: &Repair, stripe: &Stripe<'_>, known: &Known<'_>, place: Place) -> Way
    ensures replaced { replaces result ≡ true → MayReplace repair.now.replace_damaged repair.now.code (is_in known.now.survivors)
        known.now.is_checked known.now.length stripe.now.files.found known.now.findings.now place }
    ensures silent { is_silent result ≡ true → Contains (named known.now.findings.now) place }
{
    let found = stripe.files.at(place);
    if repair.elsewhere || found == Found::Absent || found == Found::Dangling {
        return Way::Place;
    }
    if may_replace(repair, stripe, known, place) {
        return Way::Replace;
    }
    let is_file = matches!(found, Found::File { .. });
    if repair.replace_damaged && is_file && !is_of_device(known.findings, place) {
        return Way::Leave(Some(Reason::NoCheck));
    }
    if is_named(known.findings, place) {
        return Way::Leave(None);
    }
    Way::Leave(Some(Reason::of(found)))
}

/// Whether the fragment at a place is to be replaced by the one that was rebuilt: it differs from the checksums, to which the store holds
/// what replaces it, or it is known to be damaged or to have another length, and the survivors cover it.
fn may_replace(repair: &Repair, stripe: &Stripe<'_>, known: &Known<'_>, place: Place) -> bool
    ensures { result ≡ true → MayReplace repair.now.replace_damaged repair.now.code (is_in known.now.survivors) known.now.is_checked
        known.now.length stripe.now.files.found known.now.findings.now place }
{
    if !repair.replace_damaged || !known.is_checked {
        return false;
    }
    if is_said_to_differ(known.findings, place) {
        return true;
    }
    has_cause(stripe, known, place) && is_covered(repair.code, known.survivors, place)
}

/// Whether the fragment at a place is known to be damaged or to have another length.
fn has_cause(stripe: &Stripe<'_>, known: &Known<'_>, place: Place) -> bool
    ensures { result ≡ true → HasCause known.now.findings.now stripe.now.files.found known.now.length place }
{
    stripe.files.has_other(place, known.length as u64) || is_said_damaged(known.findings, place)
}

/// Whether the first finding that names a place says that the system refused something.
fn is_of_device(findings: &[Finding], place: Place) -> bool {
    let noted = findings.iter().find(|finding| finding.place == Some(place));
    noted.is_some_and(|finding| finding.reason.is_of_device())
}

/// Gives a rebuilt fragment its name in this way, and says whether it has it. Names that others got before stay theirs, where nothing is
/// replaced, or no two of the stripe's names lead to one file.
fn put_one<S: Store>(
    store: &mut S,
    stripe: &Stripe<'_>,
    place: Place,
    way: Way,
    file: S::New,
    findings: &mut Vec<Finding>,
) -> Result<bool, AllocError>
    ensures untouched { AreUntouched (replaces way) stripe.now.name.now (S.files store.old) (S.files store.new) }
    ensures elsewhere { SameElsewhere stripe.now.name.now place (S.files store.old) (S.files store.new) }
    ensures kept { replaces way ≡ false → (given : Given) (from : S) → given place ≡ S.New.shown file
        → S.kept stripe.now.name.now given from store.old → S.kept stripe.now.name.now given from store.new }
    ensures changed { (given : Given) (from : S) → given place ≡ None → S.changed stripe.now.name.now given from store.old
        → GivesOneMore S.changed stripe.now.name.now given place (S.New.shown file) from store.new }
    ensures put { IfOk result (λ b. b ≡ true → HasName stripe.now.name.now place (S.New.shown file) (S.files store.new) placed.Placed) }
    ensures grows { OnOk result ((p : Place) → Contains (named findings.old.items) p → Contains (named findings.new.items) p) }
    ensures said { IfOk result (λ b. b ≡ false → is_silent way ≡ false → Contains (named findings.new.items) place) }
    ensures others { replaces way ≡ false → StaysOver (S.got_name store.old) (S.got_name store.new) }
    ensures beside { S.apart store.old → StaysBeside stripe.now.name.now place (S.got_name store.old) (S.got_name store.new) }
    ensures named { IfOk result (λ b. b ≡ true → S.got_name store.new stripe.now.name.now place (S.New.shown file)) }
{
    match way {
        Way::Place => {
            let outcome = store.place(file, stripe.name, place);
            note_placed(outcome, place, Reason::CameMeanwhile, findings)
        }
        Way::Replace => {
            let outcome = store.replace(file, stripe.name, place);
            note_placed(outcome, place, Reason::KeptThere, findings)
        }
        Way::Leave(reason) => {
            discard(store, file, findings)?;
            if let Some(reason) = reason {
                note(findings, Some(place), reason)?;
            }
            Ok(false)
        }
    }
}

/// Notes why a fragment didn't get its name, and says whether it did.
fn note_placed(
    outcome: io::Result<Placed>,
    place: Place,
    there: Reason,
    findings: &mut Vec<Finding>,
) -> Result<bool, AllocError>
    ensures placed { IfOk result (λ b. b ≡ true → IsPlaced outcome) }
    ensures grows { OnOk result ((p : Place) → Contains (named findings.old.items) p → Contains (named findings.new.items) p) }
    ensures said { IfOk result (λ b. b ≡ false → Contains (named findings.new.items) place) }
{
    match outcome {
        Ok(Placed::Placed) => Ok(true),
        Ok(Placed::IsThere) => {
            note(findings, Some(place), there)?;
            Ok(false)
        }
        Err(error) => {
            note_unwritten(findings, Some(place), error)?;
            Ok(false)
        }
    }
}
