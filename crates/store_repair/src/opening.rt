//! The surviving fragments of a stripe, open for reading: one that can't be opened, or that the store refuses, is noted and left out.
ghost use Rattle.std.specs.Prelude.{◌≡◌, ◌&&◌, Contains, IfNone, IfOk, IfSome, OnOk, None, length, set, true, vec_len};
ghost use Rattle.lrc_code.specs.declared.places.Place.{Place};
ghost use Rattle.lrc_code.specs.Code.{has_place};
ghost use Rattle.lrc_code.specs.Codes.{tables_of};
ghost use Rattle.lrc_code.specs.Places.{index_of};
ghost use Rattle.lrc_code.specs.Sets.{is_in};
ghost use Rattle.store_repair.specs.Damage.{all_but};
ghost use Rattle.store_repair.specs.Findings.{NamesStay, named};
ghost use Rattle.store_repair.specs.Opened.{AreFound, AreOpened, IsOpenedAt};
ghost use Rattle.store_repair.specs.Repaired.{IsOpenedOrNamed};
ghost use Rattle.store_repair.specs.Scrubbed.{said_damaged};
ghost use Rattle.stores.specs.Stripes.{has_file};

use crate::damage::without;
use crate::device_faults::note_unread;
use crate::outcomes::Finding;
use lrc_code::{Code, Place, PlaceSet};
use std::alloc::{AllocError, Global};
use stores::{Refused, Store, Stripe, nth_place};

/// The fragments of a stripe that could be opened.
#[derive(Drop)]
pub struct Opened<F> {
    /// How many bytes each has.
    pub length: usize,
    /// The places of those that could be opened.
    pub set: PlaceSet,
    /// Sixteen, by the places' indexes.
    pub fragments: Vec<Option<F>>,
}

/// Opens the fragments of a stripe's length at the places of a code, and notes those that can't be opened, or that the store refuses.
pub fn open_survivors<S: Store>(
    alloc: Global,
    store: &S,
    code: Code,
    stripe: &Stripe<'_>,
    length: usize,
    findings: &mut Vec<Finding>,
) -> Result<Opened<S::Survivor>, AllocError>
    ensures sixteen { IfOk result (λ opened. vec_len opened.fragments ≡ 16) }
    ensures length { IfOk result (λ opened. opened.length ≡ length) }
    ensures opened { IfOk result (λ opened. AreOpened S.Survivor.shown code stripe.now.name.now length (S.files store.now) opened.set
        opened.fragments.items) }
    ensures said { OnOk result (said_damaged findings.new.items ≡ said_damaged findings.old.items) }
    ensures stay { OnOk result (NamesStay findings.old.items findings.new.items) }
    ensures named { IfOk result (λ opened. (p : Place) → IsOpenedOrNamed code stripe.now.files.found length (is_in opened.set)
        findings.new.items p) }
    ensures found { IfOk result (λ opened. AreFound code stripe.now.files.found length (is_in opened.set)) }
{
    let mut opened = open_all(alloc, store, code, stripe, length, findings)?;
    let mut refused = store.refused(alloc, stripe.name, length, opened.fragments.as_slice())?;
    refused.reverse();
    'refused: while let Some(Refused { place, error }) = refused.pop() {
        note_unread(findings, Some(place), error)?;
        leave_out(code, &mut opened, place);
    }
    Ok(opened)
}

/// Leaves a fragment out.
pub(crate) fn leave_out<F: Drop>(code: Code, opened: &mut Opened<F>, place: Place)
    requires { length opened.old.fragments.items ≡ 16 }
    ensures length { opened.new.length ≡ opened.old.length }
    ensures set { (p : _) → is_in opened.new.set p ≡ (has_place (tables_of code) p && all_but (is_in opened.old.set) place p) }
    ensures fragments { opened.new.fragments.items ≡ set opened.old.fragments.items (index_of place) None }
{
    opened.set = without(code, opened.set, place);
    opened.fragments[place.index()] = None;
}

/// The same without asking the store which of them it refuses.
pub(crate) fn open_all<S: Store>(
    alloc: Global,
    store: &S,
    code: Code,
    stripe: &Stripe<'_>,
    length: usize,
    findings: &mut Vec<Finding>,
) -> Result<Opened<S::Survivor>, AllocError>
    ensures sixteen { IfOk result (λ opened. vec_len opened.fragments ≡ 16) }
    ensures length { IfOk result (λ opened. opened.length ≡ length) }
    ensures opened { IfOk result (λ opened. AreOpened S.Survivor.shown code stripe.now.name.now length (S.files store.now) opened.set
        opened.fragments.items) }
    ensures said { OnOk result (said_damaged findings.new.items ≡ said_damaged findings.old.items) }
    ensures stay { OnOk result (NamesStay findings.old.items findings.new.items) }
    ensures named { IfOk result (λ opened. (p : Place) → IsOpenedOrNamed code stripe.now.files.found length (is_in opened.set)
        findings.new.items p) }
    ensures found { IfOk result (λ opened. AreFound code stripe.now.files.found length (is_in opened.set)) }
{
    let mut set = PlaceSet::empty();
    let mut fragments = Vec::with_capacity(alloc, 16)?;
    'places: while fragments.len() < 16 {
        let place = nth_place(fragments.len());
        let fragment = open_at(store, code, stripe, place, length, findings)?;
        if fragment.is_some() {
            set = set.with(place);
        }
        fragments.push(fragment)?;
    }
    Ok(Opened {
        length,
        set,
        fragments,
    })
}

/// Opens the fragment at a place, if it is the code's and has the stripe's length.
fn open_at<S: Store>(
    store: &S,
    code: Code,
    stripe: &Stripe<'_>,
    place: Place,
    length: usize,
    findings: &mut Vec<Finding>,
) -> Result<Option<S::Survivor>, AllocError>
    ensures opened { IfOk result (IsOpenedAt S.Survivor.shown code stripe.now.name.now length (S.files store.now) place) }
    ensures said { OnOk result (said_damaged findings.new.items ≡ said_damaged findings.old.items) }
    ensures stay { OnOk result (NamesStay findings.old.items findings.new.items) }
    ensures named { IfOk result (λ o. IfNone o (has_place (tables_of code) place ≡ true
        → has_file stripe.now.files.found length place ≡ true → Contains (named findings.new.items) place)) }
    ensures found { IfOk result (λ o. IfSome o (λ _. (has_place (tables_of code) place
        && has_file stripe.now.files.found length place) ≡ true)) }
{
    if !code.has(place) {
        return Ok(None);
    }
    if !stripe.files.has(place, length as u64) {
        return Ok(None);
    }
    match store.open(stripe.name, place, length) {
        Ok(fragment) => Ok(Some(fragment)),
        Err(error) => {
            note_unread(findings, Some(place), error)?;
            Ok(None)
        }
    }
}
