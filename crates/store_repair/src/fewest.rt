//! Reading few of a stripe's survivors: as few as determine what is lost, or as few as cover it.
ghost use Rattle.std.specs.Prelude.{◌≡◌, ◌&&◌, ℕ, All, IfOk, IfSome, true, vec_len};
ghost use Rattle.lrc_code.specs.Code.{has_place};
ghost use Rattle.lrc_code.specs.Codes.{tables_of};
ghost use Rattle.store_repair.specs.declared.settings.Reads.TheVariants.{All as ReadsAll};
ghost use Rattle.lrc_code.specs.declared.places.Place.{Place};
ghost use Rattle.store_repair.specs.Damage.{IsDetermined};
ghost use Rattle.stores.specs.Stripes.{has_file};
ghost use Rattle.store_repair.specs.Losses.{AreCovered, AreHeld};
ghost use Rattle.lrc_code.specs.Sets.{is_in};
ghost use Rattle.store_repair.specs.Opened.{AreFound, AreOpened};

use crate::coverage::is_covered;
use crate::damage::without;
use crate::losses::{have_checks, is_determined, lost_places};
use crate::opening::{Opened, open_all, open_survivors};
use crate::outcomes::Finding;
use crate::settings::{Reads, Repair};
use lrc_code::{Code, Group, Place, PlaceSet};
use lrc_plan::reduce_by_lost;
use std::alloc::{AllocError, Global};
use stores::{Found, Store, Stripe, StripeFiles, nth_place};

/// The few survivors of a stripe that are read, open.
#[derive(Drop)]
pub(crate) struct OpenedFew<F> {
    pub(crate) opened: Opened<F>,
    /// The places of whose fragments the store knows digests.
    pub(crate) listed: PlaceSet,
}

/// Which survivors are read.
#[derive(Clone, Copy)]
struct Few {
    set: PlaceSet,
    /// Whether they are held to the digests that the store knows of them.
    are_digested: bool,
}

/// Opens as few survivors as a repair reads; none where it reads all, or where one of the few can't be opened or isn't as the store knows
/// it, which then is noted.
pub(crate) fn open_fewest<S: Store>(
    alloc: Global,
    store: &S,
    repair: &Repair,
    stripe: &Stripe<'_>,
    length: usize,
    noted: &mut Vec<Finding>,
) -> Result<Option<OpenedFew<S::Survivor>>, AllocError>
    ensures sixteen { IfOk result (λ o. IfSome o (λ few. vec_len few.opened.fragments ≡ 16)) }
    ensures length { IfOk result (λ o. IfSome o (λ few. few.opened.length ≡ length)) }
    ensures opened { IfOk result (λ o. IfSome o (λ few. AreOpened S.Survivor.shown repair.now.code stripe.now.name.now length
        (S.files store.now) few.opened.set few.opened.fragments.items)) }
    ensures found { IfOk result (λ o. IfSome o (λ few. AreFound repair.now.code stripe.now.files.found length
        (is_in few.opened.set))) }
    ensures listed { IfOk result (λ o. IfSome o (λ few. (p : Place) → is_in few.listed p ≡ true
        → S.listed store.now stripe.now.name.now p)) }
{
    let listed = listed_places(store, stripe)?;
    let Some(few) = few_of(alloc, repair, stripe, length, listed)? else {
        return Ok(None);
    };
    let read = Stripe {
        name: stripe.name,
        files: only(&stripe.files, few.set),
    };
    let opened = if few.are_digested {
        open_survivors(alloc, store, repair.code, &read, length, noted)?
    } else {
        open_all(alloc, store, repair.code, &read, length, noted)?
    };
    if !noted.is_empty() {
        return Ok(None);
    }
    Ok(Some(OpenedFew { opened, listed }))
}

/// A stripe's files, with nothing under the names of the places that aren't in a set.
fn only(files: &StripeFiles, set: PlaceSet) -> StripeFiles
    ensures { (len : ℕ) (p : Place) → has_file result.found len p ≡ true → has_file files.now.found len p ≡ true }
{
    let mut own = *files;
    for place in &Place::ALL {
        if !set.has(*place) {
            own.found[place.index()] = Found::Absent;
        }
    }
    own
}

/// The places at which the store knows digests of a stripe's fragments.
fn listed_places<S: Store>(store: &S, stripe: &Stripe<'_>) -> Result<PlaceSet, AllocError>
    ensures { IfOk result (λ set. (p : Place) → is_in set p ≡ true → S.listed store.now stripe.now.name.now p) }
{
    let mut set = PlaceSet::empty();
    for index in 0..16 {
        let place = nth_place(index);
        if store.is_listed(stripe.name, place)? {
            set = set.with(place);
        }
    }
    Ok(set)
}

/// As few survivors as a repair reads; none where it reads all.
fn few_of(
    alloc: Global,
    repair: &Repair,
    stripe: &Stripe<'_>,
    length: usize,
    listed: PlaceSet,
) -> Result<Option<Few>, AllocError>
    ensures { IfOk result (λ o. IfSome o (λ few. (p : Place) → is_in few.set p ≡ true
        → (has_place (tables_of repair.now.code) p && has_file stripe.now.files.found length p) ≡ true)) }
{
    let code = repair.code;
    let survivors = stripe.files.survivors(code, length as u64);
    let lost = lost_places(alloc, code, survivors, code.others(survivors))?;
    let places = lost.determined.as_slice();
    if matches!(repair.reads, Reads::Few) {
        return Ok(Some(Few {
            set: fewest(code, survivors, places, false),
            are_digested: true,
        }));
    }
    if has_any_other(stripe, code, length) {
        return Ok(None);
    }
    if are_among(listed, places) {
        return Ok(Some(Few {
            set: fewest(code, survivors, places, false),
            are_digested: false,
        }));
    }
    if !cover_all(code, survivors, places) {
        return Ok(None);
    }
    Ok(Some(Few {
        set: fewest(code, survivors, places, true),
        are_digested: true,
    }))
}

/// The survivors of a stripe that a repair reads if none of them is damaged; the store may know a digest of each fragment.
pub fn survivors_read(
    alloc: Global,
    repair: &Repair,
    stripe: &Stripe<'_>,
    length: usize,
    are_listed: bool,
) -> Result<PlaceSet, AllocError>
    ensures own { IfOk result (λ set. (p : Place) → is_in set p ≡ true
        → (has_place (tables_of repair.now.code) p && has_file stripe.now.files.found length p) ≡ true) }
    ensures all { repair.now.reads ≡ ReadsAll → IfOk result (λ set. (p : Place)
        → is_in set p ≡ (has_place (tables_of repair.now.code) p && has_file stripe.now.files.found length p)) }
{
    let code = repair.code;
    let survivors = stripe.files.survivors(code, length as u64);
    if matches!(repair.reads, Reads::All) {
        return Ok(survivors);
    }
    let listed = if are_listed {
        code.others(PlaceSet::empty())
    } else {
        PlaceSet::empty()
    };
    match few_of(alloc, repair, stripe, length, listed)? {
        Some(few) => Ok(few.set),
        None => Ok(survivors),
    }
}

/// Whether a file of a stripe has another length than the others.
fn has_any_other(stripe: &Stripe<'_>, code: Code, length: usize) -> bool {
    for place in code.places() {
        if stripe.files.has_other(*place, length as u64) {
            return true;
        }
    }
    false
}

/// Whether damage of what was read shows, or of what was made of it: the store knows a digest of each fragment that was made, or the
/// survivors cover each, and are more than the stripe is determined by.
pub(crate) fn is_shown(code: Code, survivors: PlaceSet, listed: PlaceSet, places: &[Place]) -> bool
    ensures { result ≡ true → AreHeld code (is_in survivors) (is_in listed) places.now }
{
    are_among(listed, places) || cover_all(code, survivors, places)
}

/// Whether all of some places are in a set.
fn are_among(set: PlaceSet, places: &[Place]) -> bool
    ensures { result ≡ true → All (λ p. is_in set p ≡ true) places.now }
{
    for place in places {
        if !set.has(*place) {
            return false;
        }
    }
    true
}

/// Whether survivors cover the fragments at all of some places, and have checks.
fn cover_all(code: Code, survivors: PlaceSet, places: &[Place]) -> bool
    ensures { result ≡ true → AreCovered code (is_in survivors) places.now }
{
    for place in places {
        if !is_covered(code, survivors, *place) {
            return false;
        }
    }
    have_checks(code, survivors)
}

/// As few of the survivors as determine the fragments at these places, or cover them. Four columns of a code's equations are dependent only
/// within a group with the globals, and three never are, so that one of two orders of leaving places out gives the fewest that determine
/// them, and each order the fewest that cover them.
fn fewest(code: Code, survivors: PlaceSet, places: &[Place], covered: bool) -> PlaceSet
    ensures own { (p : Place) → is_in result p ≡ true → is_in survivors p ≡ true }
    ensures enough { All (IsDetermined code (is_in survivors)) places.now → All (IsDetermined code (is_in result)) places.now }
{
    let x_first = thinned(code, survivors, places, covered, Group::X);
    if covered {
        return x_first;
    }
    let y_first = thinned(code, survivors, places, false, Group::Y);
    if y_first.len() < x_first.len() {
        y_first
    } else {
        x_first
    }
}

/// The survivors without those that can be left out: of the globals first, then of a group, then of the other.
fn thinned(
    code: Code,
    survivors: PlaceSet,
    places: &[Place],
    covered: bool,
    first: Group,
) -> PlaceSet
    ensures own { (p : Place) → is_in result p ≡ true → is_in survivors p ≡ true }
    ensures enough { All (IsDetermined code (is_in survivors)) places.now → All (IsDetermined code (is_in result)) places.now }
{
    let other = match first {
        Group::X => Group::Y,
        Group::Y => Group::X,
    };
    let locals = without_group(code, survivors, places, covered, None);
    let of_other = without_group(code, locals, places, covered, Some(first));
    without_group(code, of_other, places, covered, Some(other))
}

/// The set without those of the places of a group, or of the globals, that can be left out.
fn without_group(
    code: Code,
    set: PlaceSet,
    places: &[Place],
    covered: bool,
    group: Option<Group>,
) -> PlaceSet
    ensures own { (p : Place) → is_in result p ≡ true → is_in set p ≡ true }
    ensures enough { All (IsDetermined code (is_in set)) places.now → All (IsDetermined code (is_in result)) places.now }
{
    let mut left = set;
    for place in &Place::ALL {
        if left.has(*place) && place.group() == group {
            let fewer = without(code, left, *place);
            if are_enough(code, fewer, places, covered) {
                left = fewer;
            }
        }
    }
    left
}

/// Whether the fragments at the places of a set determine those at all of some places, and cover them if that is asked for.
fn are_enough(code: Code, set: PlaceSet, places: &[Place], covered: bool) -> bool
    ensures { result ≡ true → All (IsDetermined code (is_in set)) places.now }
{
    determine_all(code, set, places) && (!covered || cover_all(code, set, places))
}

/// Whether the fragments at the places of a set determine those at all of some places.
fn determine_all(code: Code, set: PlaceSet, places: &[Place]) -> bool
    ensures { result ≡ true → All (IsDetermined code (is_in set)) places.now }
{
    let reduced = reduce_by_lost(code, set);
    for place in places {
        if !is_determined(code, &reduced, set, *place) {
            return false;
        }
    }
    true
}
