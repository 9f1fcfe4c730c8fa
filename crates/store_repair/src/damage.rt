//! Where survivors of a stripe are damaged, as far as that can be told.
ghost use Rattle.std.specs.Prelude.{◌≡◌, ◌≤◌, ◌&&◌, ℕ, List, length, not, All, IfOk, true, false};
ghost use Rattle.lrc_code.specs.declared.places.Place.{Place};
ghost use Rattle.lrc_code.specs.Code.{AreBytes, has_place};
ghost use Rattle.lrc_code.specs.Codes.{tables_of};
ghost use Rattle.lrc_code.specs.Sets.{is_in};
ghost use Rattle.lrc_plan.specs.Stripes.{AreWhole, IsContradiction, at_place};
ghost use Rattle.store_repair.specs.Damage.{AreFits, AreSuspects, FitWithout, IsCleared, IsDamage, IsDamaged, IsFit};
ghost use Rattle.store_repair.specs.Damage.{IsOneDetermined, all_but, without};
ghost use Rattle.stores.specs.Shown.{AreShown};

use crate::consistency::are_consistent;
use crate::losses::determine;
use crate::mending::{MendFault, Survivors};
use lrc_code::{Code, Place, PlaceSet};
use std::alloc::Global;
use std::fmt::{self, Display, Formatter, Write};
use stores::{Fragment, nth_place};

/// Where survivors of a stripe are damaged, as far as that can be told.
#[derive(Clone, Copy)]
pub enum Damage {
    /// The survivors belong together.
    Nowhere,
    /// The fragment at this place is damaged: each stripe of the code that differs from the survivors in at most two places differs at it.
    At(Place),
    /// Some of these fragments are damaged, and which ones can't be told.
    Among(Suspects),
    /// The survivors contradict each other, and no stripe of the code differs from them in one place alone.
    Unknown,
}

/// Survivors of a stripe that contradict each other, where damage of one of them would explain it.
#[derive(Clone, Copy)]
pub struct Suspects {
    /// The places at which stripes of the code differ from the survivors that differ from them in at most two places. No clause says that
    /// at each of these places one does.
    pub places: PlaceSet,
    /// The only survivor without which the others belong together, if there is only one. Two that are damaged may make it look so.
    pub single: Option<Place>,
}

impl Display for Suspects {
    fn fmt<W: Write>(&self, f: &mut Formatter<W>) -> fmt::Result {
        write_places(f, self.places)
    }
}

/// Writes the names of places with a space between them.
pub(crate) fn write_places<W: Write>(f: &mut Formatter<W>, places: PlaceSet) -> fmt::Result {
    let mut is_first = true;
    for place in &Place::ALL {
        if places.has(*place) {
            if !is_first {
                f.write_str(" ")?;
            }
            f.write_str(place.name())?;
            is_first = false;
        }
    }
    Ok(())
}

/// Without which survivors the others belong together.
#[derive(Clone, Copy)]
enum Fits {
    Nowhere,
    Only(Place),
    // This one and others.
    Several(Place),
}

/// Where survivors are damaged. A fragment is named only where it is damaged whatever at most two of the survivors hold; no clause says
/// that each such fragment is named. Where nothing is lost any two stripes differ in four places, so that a single damaged fragment is
/// named then. Each survivor in turn is left out, and the others are read.
pub fn find_damaged<F: Fragment>(
    alloc: Global,
    survivors: &Survivors<'_, F>,
) -> Result<Damage, MendFault>
    requires { length survivors.now.fragments.now ≡ 16 }
    ensures { (at : List (List ℕ)) → AreShown F.shown survivors.now.fragments.now at
        → AreWhole survivors.now.code (is_in survivors.now.set) at survivors.now.length
        → IfOk result (IsDamage survivors.now.code (is_in survivors.now.set) at survivors.now.length) }
{
    if are_consistent(alloc, survivors)? {
        return Ok(Damage::Nowhere);
    }
    let code = survivors.code;
    match fits_without_one(alloc, survivors)? {
        Fits::Nowhere => Ok(Damage::Unknown),
        Fits::Only(place) => Ok(damage_beside(code, survivors.set, place)),
        Fits::Several(place) => Ok(Damage::Among(Suspects {
            places: other_suspects(code, survivors.set, place).with(place),
            single: None,
        })),
    }
}

/// Without which survivors the others belong together.
fn fits_without_one<F: Fragment>(
    alloc: Global,
    survivors: &Survivors<'_, F>,
) -> Result<Fits, MendFault>
    requires { length survivors.now.fragments.now ≡ 16 }
    ensures { (at : List (List ℕ)) → AreShown F.shown survivors.now.fragments.now at
        → AreWhole survivors.now.code (is_in survivors.now.set) at survivors.now.length
        → IfOk result (AreFits survivors.now.code (is_in survivors.now.set) at survivors.now.length) }
{
    let mut damaged = None;
    for index in 0..16 {
        let place = nth_place(index);
        if survivors.set.has(place) {
            if fit_without(alloc, survivors, place)? {
                if damaged.is_some() {
                    return Ok(Fits::Several(place));
                }
                damaged = Some(place);
            }
        }
    }
    match damaged {
        Some(place) => Ok(Fits::Only(place)),
        None => Ok(Fits::Nowhere),
    }
}

/// Whether the survivors without one of them belong together.
fn fit_without<F: Fragment>(
    alloc: Global,
    survivors: &Survivors<'_, F>,
    place: Place,
) -> Result<bool, MendFault>
    requires { length survivors.now.fragments.now ≡ 16 }
    ensures { (at : List (List ℕ)) → AreShown F.shown survivors.now.fragments.now at
        → AreWhole survivors.now.code (is_in survivors.now.set) at survivors.now.length
        → IfOk result (IsFit survivors.now.code (is_in survivors.now.set) at survivors.now.length place) }
{
    let others = Survivors {
        code: survivors.code,
        length: survivors.length,
        set: without(survivors.code, survivors.set, place),
        fragments: survivors.fragments,
    };
    are_consistent(alloc, &others)
}

/// Where damage is, if survivors contradict each other and the others belong together without the one at this place alone.
fn damage_beside(code: Code, survivors: PlaceSet, place: Place) -> Damage
    ensures { (at : List (List ℕ)) (len : ℕ) → AreWhole code (is_in survivors) at len → All AreBytes at → length at ≡ 16
        → IsContradiction (tables_of code) (is_in survivors) (at_place at) len → IsDamaged code (is_in survivors) at len place
        → IsDamage code (is_in survivors) at len result }
{
    let others = other_suspects(code, survivors, place);
    if others.len() == 0 {
        return Damage::At(place);
    }
    Damage::Among(Suspects {
        places: others.with(place),
        single: Some(place),
    })
}

/// If a stripe differs from the survivors at this place alone: the others that may be damaged instead, since another stripe may differ from
/// the survivors there, and in at most two places.
fn other_suspects(code: Code, survivors: PlaceSet, place: Place) -> PlaceSet
    ensures { (q : Place) → without code (is_in survivors) place q ≡ true → is_in result q ≡ false
        → IsCleared code (without code (is_in survivors) place) place q }
{
    let others = without(code, survivors, place);
    let mut suspects = PlaceSet::empty();
    for index in 0..16 {
        let other = nth_place(index);
        if others.has(other) {
            if is_suspect(code, others, place, other) {
                suspects = suspects.with(other);
            }
        }
    }
    suspects
}

/// If a stripe differs from survivors at `place` alone: whether another stripe may differ from them at `other`, and in at most two places.
fn is_suspect(code: Code, others: PlaceSet, place: Place, other: Place) -> bool
    ensures { result ≡ false → IsCleared code (is_in others) place other }
{
    let left = without(code, others, other);
    if !determine(code, left, other) {
        return true;
    }
    for index in 0..16 {
        let fewer = without(code, left, nth_place(index));
        if !determine_one(code, fewer, other, place) {
            return true;
        }
    }
    false
}

/// Whether the fragments at the places of a set determine one of two others.
fn determine_one(code: Code, set: PlaceSet, one: Place, other: Place) -> bool
    ensures { result ≡ true → IsOneDetermined code (is_in set) one other }
{
    determine(code, set, one) || determine(code, set, other)
}

/// The places of a code that are in a set, but one.
pub fn without(code: Code, set: PlaceSet, place: Place) -> PlaceSet
    ensures { (p : Place) → is_in result p ≡ (has_place (tables_of code) p && all_but (is_in set) place p) }
{
    code.others(code.others(set).with(place))
}
