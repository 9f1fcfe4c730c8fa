//! Making files for the lost fragments of a stripe, from all survivors that belong together: one that can't be read, or is damaged, is left
//! out, and the others are tried again.
ghost use Rattle.std.specs.Prelude.{◌≡◌, ◌≢◌, ◌&&◌, ℕ, List, [], not, All, Contains, IfNone, IfOk, IfSome, OnOk, false, length, true};
ghost use Rattle.lrc_code.specs.declared.places.Place.{Place};
ghost use Rattle.lrc_code.specs.Code.{has_place};
ghost use Rattle.lrc_code.specs.Codes.{tables_of};
ghost use Rattle.store_repair.specs.Findings.{NamesStay, named};
ghost use Rattle.store_repair.specs.declared.settings.Reads.TheVariants.{All as ReadsAll, Few as ReadsFew};
ghost use Rattle.stores.specs.Stripes.{has_file};
ghost use Rattle.store_repair.specs.Losses.{AreChecked};
ghost use Rattle.lrc_code.specs.Sets.{is_in};
ghost use Rattle.stores.specs.Kept.{Given, StaysOver};
ghost use Rattle.store_repair.specs.Mended.{AreEmpty};
ghost use Rattle.store_repair.specs.Opened.{AreMade, AreOpened};
ghost use Rattle.store_repair.specs.Repaired.{IfMade, IfNotMade, IsAccountedFor, IsNotMade};

use crate::damage::{Damage, Suspects, find_damaged};
use crate::device_faults::{note_unread, note_unwritten};
use crate::losses::{are_checked, lost_places};
use crate::mending::{MendFault, Survivors, mend};
use crate::opening::{Opened, leave_out};
use crate::outcomes::{Finding, Reason, note};
use crate::settings::{Reads, Repair};
use lrc_code::{Place, PlaceSet};
use std::alloc::{AllocError, Global};
use stores::{Found, Fragment, Store, Stripe};

/// Rebuilt fragments that have no names yet: the survivors that they are made from, whether these are checked, and a file for each place.
#[derive(Drop)]
pub(crate) struct Made<N> {
    pub(crate) set: PlaceSet,
    pub(crate) is_checked: bool,
    pub(crate) places: Vec<Place>,
    pub(crate) files: Vec<N>,
}

/// What an attempt came to.
#[derive(Drop)]
pub(crate) enum Attempt<N> {
    Made(Made<N>),
    // A survivor is to be left out, by a guess or not.
    LeaveOut { place: Place, is_guess: bool },
    GivenUp,
}

/// Makes files for the lost fragments, from all survivors that belong together; none, and a finding that says why, as `make_lost` does.
pub(crate) fn make<S: Store>(
    alloc: Global,
    store: &mut S,
    repair: &Repair,
    stripe: &Stripe<'_>,
    opened: Opened<S::Survivor>,
    findings: &mut Vec<Finding>,
) -> Result<Option<Made<S::New>>, AllocError>
    requires sixteen { length opened.fragments.items ≡ 16 }
    requires opened { AreOpened S.Survivor.shown repair.now.code stripe.now.name.now opened.length (S.files store.old) opened.set
        opened.fragments.items }
    ensures same { S.files store.new ≡ S.files store.old }
    ensures kept { (given : Given) (from : S) → S.kept stripe.now.name.now given from store.old
        → S.kept stripe.now.name.now given from store.new }
    ensures made { IfOk result (λ o. IfSome o (λ made. AreMade S.New.shown repair.now.code (is_in made.set) opened.length
        stripe.now.name.now (S.files store.old) made.places.items made.files.items)) }
    ensures checked { IfOk result (λ o. IfSome o (λ made. made.is_checked ≡ true
        → AreChecked repair.now.code (is_in made.set) opened.length)) }
    ensures all { repair.now.reads ≡ ReadsAll → IfOk result (λ o. IfSome o (λ made. (p : Place)
        → IsAccountedFor repair.now.code (is_in made.set) made.places.items findings.new.items p)) }
    ensures said { IfOk result (λ o. IfNone o (findings.new.items ≢ [])) }
{
    let mut left = opened;
    let mut has_guessed = false;
    'attempts: for _attempt in 0..16u8 {
        match make_from(alloc, store, repair, stripe, &left, findings)? {
            Attempt::Made(made) => return Ok(Some(held(made, has_guessed))),
            Attempt::LeaveOut { place, is_guess } => {
                has_guessed = has_guessed || is_guess;
                leave_out(repair.code, &mut left, place);
            }
            Attempt::GivenUp => return Ok(None),
        }
    }
    Ok(None)
}

/// What was made, which isn't checked where a survivor was left out by a guess.
fn held<N>(made: Made<N>, has_guessed: bool) -> Made<N>
    ensures set { result.set ≡ made.set }
    ensures places { result.places ≡ made.places }
    ensures files { result.files ≡ made.files }
    ensures checked { result.is_checked ≡ (made.is_checked && not has_guessed) }
{
    Made {
        set: made.set,
        is_checked: made.is_checked && !has_guessed,
        places: made.places,
        files: made.files,
    }
}

/// Makes files for the lost fragments from these survivors.
pub(crate) fn make_from<S: Store>(
    alloc: Global,
    store: &mut S,
    repair: &Repair,
    stripe: &Stripe<'_>,
    opened: &Opened<S::Survivor>,
    findings: &mut Vec<Finding>,
) -> Result<Attempt<S::New>, AllocError>
    requires sixteen { length opened.now.fragments.items ≡ 16 }
    requires opened { AreOpened S.Survivor.shown repair.now.code stripe.now.name.now opened.now.length (S.files store.old) opened.now.set
        opened.now.fragments.items }
    ensures same { S.files store.new ≡ S.files store.old }
    ensures kept { (given : Given) (from : S) → S.kept stripe.now.name.now given from store.old
        → S.kept stripe.now.name.now given from store.new }
    ensures made { IfOk result (IfMade (λ made. AreMade S.New.shown repair.now.code (is_in made.set) opened.now.length stripe.now.name.now
        (S.files store.old) made.places.items made.files.items)) }
    ensures checked { IfOk result (IfMade (λ made. made.is_checked ≡ true → AreChecked repair.now.code (is_in made.set)
        opened.now.length)) }
    ensures all { repair.now.reads ≡ ReadsAll → IfOk result (IfMade (λ made. (p : Place)
        → IsAccountedFor repair.now.code (is_in made.set) made.places.items findings.new.items p)) }
    ensures said { IfOk result (IfNotMade (findings.new.items ≢ [])) }
{
    let code = repair.code;
    let survivors = Survivors {
        code,
        length: opened.length,
        set: opened.set,
        fragments: opened.fragments.as_slice(),
    };
    let among = to_be_rebuilt(repair, stripe, opened);
    let lost = lost_places(alloc, code, opened.set, among)?;
    let files = new_files(alloc, store, stripe, lost.determined.as_slice(), findings)?;
    let Some(files) = files else {
        return Ok(Attempt::GivenUp);
    };
    let mut files = files;
    match mend(
        alloc,
        &survivors,
        lost.determined.as_slice(),
        files.as_mut_slice(),
    ) {
        Ok(true) => {
            note_all(stripe, lost.several.as_slice(), findings)?;
            let set = opened.set;
            let is_checked = are_checked(code, set, opened.length);
            Ok(Attempt::Made(Made {
                set,
                is_checked,
                places: lost.determined,
                files,
            }))
        }
        Ok(false) => {
            discard_all(store, files, findings)?;
            after_contradiction(alloc, repair, &survivors, findings)
        }
        Err(fault) => {
            discard_all(store, files, findings)?;
            after_fault(fault, lost.determined.as_slice(), findings)
        }
    }
}

/// The places whose fragments are to be rebuilt: where few survivors are read, the others are there all the same.
pub(crate) fn to_be_rebuilt<F>(repair: &Repair, stripe: &Stripe<'_>, opened: &Opened<F>) -> PlaceSet
    ensures all { repair.now.reads ≡ ReadsAll → (p : Place)
        → is_in result p ≡ (has_place (tables_of repair.now.code) p && not (is_in opened.now.set p)) }
    ensures few { repair.now.reads ≡ ReadsFew → (p : Place)
        → is_in result p ≡ (has_place (tables_of repair.now.code) p && not (has_file stripe.now.files.found opened.now.length p)) }
    ensures absent { (p : Place) → has_place (tables_of repair.now.code) p ≡ true → is_in opened.now.set p ≡ false
        → has_file stripe.now.files.found opened.now.length p ≡ false → is_in result p ≡ true }
{
    let code = repair.code;
    match repair.reads {
        Reads::All => code.others(opened.set),
        Reads::Checked | Reads::Few => code.others(
            stripe.files.survivors(code, opened.length as u64),
        ),
    }
}

/// Notes the places of a stripe whose fragments the survivors don't determine.
pub(crate) fn note_all(
    stripe: &Stripe<'_>,
    places: &[Place],
    findings: &mut Vec<Finding>,
) -> Result<(), AllocError>
    ensures named { OnOk result (All (Contains (named findings.new.items)) places.now) }
    ensures stay { OnOk result (NamesStay findings.old.items findings.new.items) }
{
    for place in places {
        note(
            findings,
            Some(*place),
            reason_of_several(stripe.files.at(*place)),
        )?;
    }
    Ok(())
}

/// Why a fragment that the survivors don't determine isn't there: the system's error where it can't be looked at, which may be all that
/// keeps it from being read.
fn reason_of_several(found: Found) -> Reason {
    match found {
        Found::Unknown { .. } => Reason::of(found),
        _ => Reason::Several,
    }
}

/// New files for fragments at these places, if they can be made.
fn new_files<S: Store>(
    alloc: Global,
    store: &mut S,
    stripe: &Stripe<'_>,
    places: &[Place],
    findings: &mut Vec<Finding>,
) -> Result<Option<Vec<S::New>>, AllocError>
    ensures same { S.files store.new ≡ S.files store.old }
    ensures kept { (given : Given) (from : S) → S.kept stripe.now.name.now given from store.old
        → S.kept stripe.now.name.now given from store.new }
    ensures many { IfOk result (λ o. IfSome o (λ files. length files.items ≡ length places.now)) }
    ensures empty { IfOk result (λ o. IfSome o (λ files. AreEmpty S.New.shown files.items)) }
    ensures said { IfOk result (λ o. IfNone o (findings.new.items ≢ [])) }
{
    let mut files = Vec::with_capacity(alloc, places.len())?;
    'files: while files.len() < places.len() {
        let place = places[files.len()];
        match store.create(stripe.name, place) {
            Ok(file) => files.push(file)?,
            Err(error) => {
                note_unwritten(findings, Some(place), error)?;
                discard_all(store, files, findings)?;
                return Ok(None);
            }
        }
    }
    Ok(Some(files))
}

/// Discards files. One that can't be discarded is left over.
pub(crate) fn discard_all<S: Store>(
    store: &mut S,
    files: Vec<S::New>,
    findings: &mut Vec<Finding>,
) -> Result<(), AllocError>
    ensures same { S.files store.new ≡ S.files store.old }
    ensures some { OnOk result (findings.old.items ≢ [] → findings.new.items ≢ []) }
    ensures kept { (stripe : List ℕ) (given : Given) (from : S) → S.kept stripe given from store.old → S.kept stripe given from store.new }
{
    let mut left = files;
    'files: while let Some(file) = left.pop() {
        discard(store, file, findings)?;
    }
    Ok(())
}

/// Discards a file, or notes that it is left over.
pub(crate) fn discard<S: Store>(
    store: &mut S,
    file: S::New,
    findings: &mut Vec<Finding>,
) -> Result<(), AllocError>
    ensures same { S.files store.new ≡ S.files store.old }
    ensures named { OnOk result (named findings.new.items ≡ named findings.old.items) }
    ensures some { OnOk result (findings.old.items ≢ [] → findings.new.items ≢ []) }
    ensures kept { (stripe : List ℕ) (given : Given) (from : S) → S.kept stripe given from store.old → S.kept stripe given from store.new }
    ensures others { StaysOver (S.got_name store.old) (S.got_name store.new) }
{
    match store.discard(file) {
        Ok(()) => Ok(()),
        Err(error) => note_unwritten(findings, None, error),
    }
}

/// Notes which survivor of a contradiction is damaged, which then is left out, or that it can't be told.
fn after_contradiction<F: Fragment, N>(
    alloc: Global,
    repair: &Repair,
    survivors: &Survivors<'_, F>,
    findings: &mut Vec<Finding>,
) -> Result<Attempt<N>, AllocError>
    requires { length survivors.now.fragments.now ≡ 16 }
    ensures not_made { IfOk result IsNotMade }
    ensures said { OnOk result (findings.new.items ≢ []) }
{
    match find_damaged(alloc, survivors) {
        Ok(Damage::At(place)) => {
            note(findings, Some(place), Reason::Damaged)?;
            Ok(Attempt::LeaveOut {
                place,
                is_guess: false,
            })
        }
        Ok(Damage::Among(suspects)) => after_suspicion(repair, suspects, findings),
        Ok(Damage::Nowhere | Damage::Unknown) => {
            note(findings, None, Reason::Contradiction)?;
            Ok(Attempt::GivenUp)
        }
        Err(fault) => after_fault(fault, &[], findings),
    }
}

/// Notes the suspects of a contradiction, or the one that is taken for the damaged one, which then is left out.
fn after_suspicion<N>(
    repair: &Repair,
    suspects: Suspects,
    findings: &mut Vec<Finding>,
) -> Result<Attempt<N>, AllocError>
    ensures not_made { IfOk result IsNotMade }
    ensures said { OnOk result (findings.new.items ≢ []) }
{
    if repair.assume_one_damaged {
        if let Some(place) = suspects.single {
            note(findings, Some(place), Reason::TakenForDamaged)?;
            return Ok(Attempt::LeaveOut {
                place,
                is_guess: true,
            });
        }
    }
    note(findings, None, Reason::Suspected(suspects))?;
    Ok(Attempt::GivenUp)
}

/// Notes why fragments at these places couldn't be rebuilt. A survivor that can't be read is left out.
fn after_fault<N>(
    fault: MendFault,
    places: &[Place],
    findings: &mut Vec<Finding>,
) -> Result<Attempt<N>, AllocError>
    ensures not_made { IfOk result IsNotMade }
    ensures said { OnOk result (findings.new.items ≢ []) }
{
    match fault {
        MendFault::OutOfMemory => Err(AllocError),
        MendFault::Several { index } => {
            note(findings, places.get(index).copied(), Reason::Several)?;
            Ok(Attempt::GivenUp)
        }
        MendFault::Unread { index, error } => {
            let place = Place::from_index(index);
            note_unread(findings, place, error)?;
            match place {
                Some(place) => Ok(Attempt::LeaveOut {
                    place,
                    is_guess: false,
                }),
                None => Ok(Attempt::GivenUp),
            }
        }
        MendFault::Unwritten { index, error } => {
            note_unwritten(findings, places.get(index).copied(), error)?;
            Ok(Attempt::GivenUp)
        }
    }
}
