//! How many bytes the fragments of a stripe have. Where its files don't agree their checks decide, and never their number.
ghost use Rattle.std.specs.Prelude.{◌≡◌, ◌≢◌, ◌&&◌, ℕ, [], true, IfNone, IfOk, IfSome, MatchOption, OnOk};
ghost use Rattle.lrc_code.specs.declared.places.Place.{Place};
ghost use Rattle.lrc_code.specs.Code.{has_place};
ghost use Rattle.lrc_code.specs.Codes.{tables_of};
ghost use Rattle.lrc_code.specs.Sets.{is_in};
ghost use Rattle.store_repair.specs.Findings.{is_without_length};
ghost use Rattle.store_repair.specs.Lengths.{HasLengthAt, HaveNoCommonLength, HaveOneLength, IfKnown, IfNotKnown};
ghost use Rattle.store_repair.specs.Lengths.{IsConfirmed, IsDigested, IsShownLength, IsStripeLength};
ghost use Rattle.store_repair.specs.declared.lengths.Evidence.TheVariants.{Checks as ByChecks, Digest as ByDigest};
ghost use Rattle.store_repair.specs.Scrubbed.{said_damaged};
ghost use Rattle.stores.specs.Stripes.{has_file};

use crate::consistency::are_consistent;
use crate::device_faults::note_unread;
use crate::length_groups::{LengthGroup, Lengths};
use crate::losses::are_checked;
use crate::mending::{MendFault, Survivors};
use crate::opening::open_survivors;
use crate::outcomes::{Finding, Reason, note, note_no_survivor, note_unknown};
use lrc_code::{Code, Place, PlaceSet};
use std::alloc::{AllocError, Global};
use stores::{Found, Refused, Store, Stripe, StripeFiles, is_in_common, nth_place};

/// How many bytes each fragment of a stripe has.
#[derive(Drop)]
pub enum StripeLength {
    /// There is no file at the code's places, or memory can't be as long as those that are there.
    NoFiles,
    /// So many.
    Known(usize),
    /// The files have several lengths, and digests show more than one of these, or none while checks show none, or more than one, or one
    /// that isn't the greatest.
    Undecided(Lengths),
}

/// What shows how many bytes a stripe's fragments have.
#[derive(Clone, Copy)]
enum Evidence {
    Nothing,
    /// Fragments of the length have bytes and checks, and belong together.
    Checks,
    /// One of them has the digest that the store knows of it, which is that of all its bytes.
    Digest,
}

/// How many bytes each fragment of a stripe has: as many as each of its files, if these have one length; else as many as a file that has
/// the digest that the store knows of it, if all such files have one length; and if there are none, the length whose fragments have checks
/// and belong together, if there is only one and no file is longer: the beginnings of a stripe's fragments are those of a stripe too.
/// Without a digest fragments without bytes prove nothing. Fragments are read only where the lengths differ, and those that can't be read
/// are noted. No clause says that a length is known where they do, that a file has its digest (see [`Store::refused`]), or that checks
/// confirm no other.
pub fn stripe_length<S: Store>(
    alloc: Global,
    store: &S,
    code: Code,
    stripe: &Stripe<'_>,
    unread: &mut Vec<Refused>,
) -> Result<StripeLength, AllocError>
    ensures is { IfOk result (IsStripeLength code stripe.now.files.found stripe.now.name.now (S.files store.now)
        (S.listed store.now)) }
    ensures several { IfOk result (IfNotKnown (HaveNoCommonLength code stripe.now.files.found)) }
{
    if let Some(length) = common_length(code, &stripe.files) {
        return Ok(as_known(length));
    }
    let lengths = lengths_of(alloc, code, &stripe.files)?;
    if lengths.groups.is_empty() {
        return Ok(StripeLength::NoFiles);
    }
    match shown_length(alloc, store, code, stripe, &lengths, unread)? {
        Some(length) => Ok(StripeLength::Known(length)),
        None => Ok(StripeLength::Undecided(lengths)),
    }
}

/// So many bytes, if memory can be as long.
fn as_known(length: u64) -> StripeLength
    ensures is { IfKnown (λ len. len ≡ length) result }
    ensures known { IfNotKnown ⊥ result }
{
    match usize::try_from(length) {
        Ok(length) => StripeLength::Known(length),
        Err(_) => StripeLength::NoFiles,
    }
}

/// How many bytes each file at a code's places has; none where there are no files, or where these differ in length.
fn common_length(code: Code, files: &StripeFiles) -> Option<u64>
    ensures each { IfSome result (HaveOneLength code files.now.found) }
    ensures several { IfNone result (HaveNoCommonLength code files.now.found) }
{
    let mut common = None;
    for index in 0..16 {
        if let Some(length) = length_at(code, files, nth_place(index)) {
            if !is_in_common(common, length) {
                return None;
            }
            common = Some(length);
        }
    }
    common
}

/// How many bytes the file at a place has, if there is one and the place is the code's.
fn length_at(code: Code, files: &StripeFiles, place: Place) -> Option<u64>
    ensures each { MatchOption result ((len : ℕ) → HasLengthAt code files.now.found len place)
        (λ len. HasLengthAt code files.now.found len place) }
    ensures some { IfSome result (λ len. (has_place (tables_of code) place && has_file files.now.found len place) ≡ true) }
{
    if !code.has(place) {
        return None;
    }
    match files.found[place.index()] {
        Found::File { length } => Some(length),
        _ => None,
    }
}

/// How many bytes each fragment of a stripe has; where that isn't known, why is noted, and which fragments can't be looked at.
pub(crate) fn length_or_note<S: Store>(
    alloc: Global,
    store: &S,
    code: Code,
    stripe: &Stripe<'_>,
    findings: &mut Vec<Finding>,
) -> Result<Option<usize>, AllocError>
    ensures said { OnOk result (said_damaged findings.new.items ≡ said_damaged findings.old.items) }
    ensures some { IfOk result (λ o. IfNone o (findings.new.items ≢ [])) }
    ensures none { IfOk result (λ o. IfNone o (is_without_length findings.new.items ≡ true)) }
    ensures several { IfOk result (λ o. IfNone o (HaveNoCommonLength code stripe.now.files.found)) }
{
    let mut unread = Vec::new(alloc);
    match stripe_length(alloc, store, code, stripe, &mut unread)? {
        StripeLength::Known(length) => {
            note_others(stripe, Some(length), unread, findings)?;
            return Ok(Some(length));
        }
        StripeLength::NoFiles => note_no_survivor(code, stripe, findings)?,
        StripeLength::Undecided(lengths) => {
            note_others(stripe, None, unread, findings)?;
            note(findings, None, Reason::LengthsDiffer(lengths))?;
            note_unknown(code, stripe, findings)?;
        }
    }
    Ok(None)
}

/// Notes fragments that can't be read, but for those of a length: these are read again.
fn note_others(
    stripe: &Stripe<'_>,
    length: Option<usize>,
    unread: Vec<Refused>,
    findings: &mut Vec<Finding>,
) -> Result<(), AllocError>
    ensures { OnOk result (said_damaged findings.new.items ≡ said_damaged findings.old.items) }
{
    'unread: for Refused { place, error } in &unread {
        let is_read_again = match length {
            Some(length) => stripe.files.has(*place, length as u64),
            None => false,
        };
        if !is_read_again {
            note_unread(findings, Some(*place), *error)?;
        }
    }
    Ok(())
}

/// The lengths of the files at a code's places, in the order of the first file of each.
fn lengths_of(alloc: Global, code: Code, files: &StripeFiles) -> Result<Lengths, AllocError> {
    let mut groups: Vec<LengthGroup> = Vec::new(alloc);
    for index in 0..16 {
        let place = nth_place(index);
        if let Found::File { length } = files.at(place) {
            let is_new = !groups.iter().any(|group| group.length == length);
            if code.has(place) && is_new {
                let places = files.survivors(code, length);
                groups.push(LengthGroup { length, places })?;
            }
        }
    }
    Ok(Lengths { groups })
}

/// The length that digests show, if they show one; if they show none, the only one that checks show, if no file is longer.
fn shown_length<S: Store>(
    alloc: Global,
    store: &S,
    code: Code,
    stripe: &Stripe<'_>,
    lengths: &Lengths,
    unread: &mut Vec<Refused>,
) -> Result<Option<usize>, AllocError>
    ensures { IfOk result (λ o. IfSome o (IsShownLength code stripe.now.files.found stripe.now.name.now (S.files store.now)
        (S.listed store.now))) }
{
    let mut by_digest = None;
    let mut by_checks = None;
    let mut are_several = false;
    for group in &lengths.groups {
        let Ok(length) = usize::try_from(group.length) else {
            return Ok(None);
        };
        match evidence_of(alloc, store, code, stripe, length, unread)? {
            Evidence::Digest => {
                if by_digest.is_some() {
                    return Ok(None);
                }
                by_digest = Some(length);
            }
            Evidence::Checks => {
                are_several = are_several || by_checks.is_some();
                by_checks = Some(length);
            }
            Evidence::Nothing => {}
        }
    }
    if by_digest.is_some() {
        return Ok(by_digest);
    }
    match by_checks {
        Some(length) if !are_several && lengths.are_at_most(length) => Ok(by_checks),
        _ => Ok(None),
    }
}

/// What shows that a stripe's fragments have a length. Where a digest does, they aren't held to each other. Those that can't be read are
/// noted.
fn evidence_of<S: Store>(
    alloc: Global,
    store: &S,
    code: Code,
    stripe: &Stripe<'_>,
    length: usize,
    unread: &mut Vec<Refused>,
) -> Result<Evidence, AllocError>
    ensures checks { IfOk result (λ it. it ≡ ByChecks → IfSome (S.files store.now) (IsConfirmed code length stripe.now.name.now)) }
    ensures digest { IfOk result (λ it. it ≡ ByDigest → IsDigested code stripe.now.files.found stripe.now.name.now (S.listed store.now)
        length) }
{
    let mut noted = Vec::new(alloc);
    let opened = open_survivors(alloc, store, code, stripe, length, &mut noted)?;
    keep_unread(noted.as_slice(), unread)?;
    if has_digest(store, stripe, opened.set)? {
        return Ok(Evidence::Digest);
    }
    if !are_checked(code, opened.set, length) {
        return Ok(Evidence::Nothing);
    }
    let survivors = Survivors {
        code,
        length,
        set: opened.set,
        fragments: opened.fragments.as_slice(),
    };
    match are_consistent(alloc, &survivors) {
        Ok(true) => Ok(Evidence::Checks),
        Ok(false) => Ok(Evidence::Nothing),
        Err(fault) => {
            keep_fault(fault, unread)?;
            Ok(Evidence::Nothing)
        }
    }
}

/// Keeps which fragments can't be read, and why.
fn keep_unread(noted: &[Finding], unread: &mut Vec<Refused>) -> Result<(), AllocError> {
    for Finding { place, reason } in noted {
        if let Reason::Unread(error) = reason {
            if let Some(place) = place {
                unread.push(Refused {
                    place: *place,
                    error: *error,
                })?;
            }
        }
    }
    Ok(())
}

/// Keeps which fragment can't be read on, if that is a fault. Refused memory is none of a fragment.
fn keep_fault(fault: MendFault, unread: &mut Vec<Refused>) -> Result<(), AllocError> {
    match fault {
        MendFault::OutOfMemory => Err(AllocError),
        MendFault::Unread { index, error } => {
            if let Some(place) = Place::from_index(index) {
                unread.push(Refused { place, error })?;
            }
            Ok(())
        }
        MendFault::Several { .. } | MendFault::Unwritten { .. } => Ok(()),
    }
}

/// Whether the store knows a digest of a stripe's fragment at one of these places.
fn has_digest<S: Store>(
    store: &S,
    stripe: &Stripe<'_>,
    places: PlaceSet,
) -> Result<bool, AllocError>
    ensures { IfOk result (λ has. has ≡ true → (p : Place) × (is_in places p ≡ true) × S.listed store.now stripe.now.name.now p) }
{
    for index in 0..16 {
        let place = nth_place(index);
        if places.has(place) && store.is_listed(stripe.name, place)? {
            return Ok(true);
        }
    }
    Ok(false)
}
