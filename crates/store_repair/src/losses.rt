//! The lost places of a stripe: which of them the survivors determine, and whether the survivors can be checked.
ghost use Rattle.std.specs.Prelude.{◌≡◌, ◌<◌, ◌⊎◌, ℕ, All, Contains, IfOk, length, slice_index, true, false, not};
ghost use Rattle.lrc_code.specs.declared.places.Place.{Place};
ghost use Rattle.lrc_code.specs.Code.{has_place};
ghost use Rattle.lrc_code.specs.Codes.{tables_of};
ghost use Rattle.lrc_code.specs.Reduction.{IsReduction};
ghost use Rattle.lrc_code.specs.Sets.{is_in};
ghost use Rattle.lrc_plan.specs.Planned.{ExtensionsDiffer};
ghost use Rattle.store_repair.specs.Damage.{IsDetermined};
ghost use Rattle.store_repair.specs.Losses.{AreChecked, CanContradict, CannotContradict, HasAny, HasTerm, IsLostAmong};
ghost use Rattle.store_repair.specs.Mended.{AreLost};
ghost use Rattle.store_repair.specs.Opened.{AreApart};

use lrc_code::{Code, Place, PlaceSet, Reduced};
use lrc_field::Gf;
use lrc_plan::{check_rows, reduce_by_lost, value_from};
use std::alloc::{AllocError, Global};
use stores::nth_place;

/// The places of a code that don't survive, in the order of their indexes.
#[derive(Drop)]
pub struct LostPlaces {
    /// Those whose fragments the survivors determine, unless the survivors contradict each other.
    pub determined: Vec<Place>,
    /// Those at which stripes with the same survivors may differ.
    pub several: Vec<Place>,
}

/// The places among some at which a stripe's fragments are lost, where those at other places survive.
pub fn lost_places(
    alloc: Global,
    code: Code,
    survivors: PlaceSet,
    among: PlaceSet,
) -> Result<LostPlaces, AllocError>
    ensures determined { IfOk result (λ lost. AreLost code (is_in survivors) lost.determined.items) }
    ensures apart { IfOk result (λ lost. AreApart lost.determined.items) }
    ensures used { IfOk result (λ lost. 0 < length lost.determined.items → HasAny (is_in survivors)) }
    ensures several { IfOk result (λ lost. AreLost code (is_in survivors) lost.several.items) }
    ensures given { IfOk result (λ lost. All (IsDetermined code (is_in survivors)) lost.determined.items) }
    ensures differ { IfOk result (λ lost. HasAny (is_in survivors)
        → All (ExtensionsDiffer (tables_of code) (is_in survivors)) lost.several.items) }
    ensures all { IfOk result (λ lost. (p : Place) → IsLostAmong code (is_in survivors) (is_in among) p
        → Contains lost.determined.items p ⊎ Contains lost.several.items p) }
{
    let reduced = reduce_by_lost(code, survivors);
    let mut determined = Vec::new(alloc);
    let mut several = Vec::new(alloc);
    for index in 0..16 {
        let place = nth_place(index);
        if is_lost(code, survivors, among, place) {
            if is_given(code, &reduced, survivors, place) {
                determined.push(place)?;
            } else {
                several.push(place)?;
            }
        }
    }
    Ok(LostPlaces {
        determined,
        several,
    })
}

/// Whether any fragment survives. None determine nothing.
fn has_any(survivors: PlaceSet) -> bool
    ensures some { result ≡ true → HasAny (is_in survivors) }
    ensures none { result ≡ false → (q : Place) → is_in survivors q ≡ false }
{
    for index in 0..16 {
        if survivors.has(nth_place(index)) {
            return true;
        }
    }
    false
}

/// Whether a place among some is the code's and lost.
fn is_lost(code: Code, survivors: PlaceSet, among: PlaceSet, place: Place) -> bool
    ensures lost { result ≡ true → (has_place (tables_of code) place ≡ true) × (is_in survivors place ≡ false) }
    ensures other { result ≡ false → ¬ IsLostAmong code (is_in survivors) (is_in among) place }
{
    code.has(place) && !survivors.has(place) && among.has(place)
}

/// Whether the survivors, of which there has to be one, determine the fragment at a lost place.
fn is_given(code: Code, reduced: &Reduced, survivors: PlaceSet, place: Place) -> bool
    requires { IsReduction (tables_of code) (λ p. not (is_in survivors p)) reduced.now }
    ensures some { result ≡ true → HasAny (is_in survivors) }
    ensures yes { result ≡ true → IsDetermined code (is_in survivors) place }
    ensures no { result ≡ false → HasAny (is_in survivors) → has_place (tables_of code) place ≡ true → is_in survivors place ≡ false
        → ExtensionsDiffer (tables_of code) (is_in survivors) place }
{
    has_any(survivors) && is_determined(code, reduced, survivors, place)
}

/// Whether a place of the code is lost, and the survivors determine its fragment.
pub(crate) fn is_determined(
    code: Code,
    reduced: &Reduced,
    survivors: PlaceSet,
    place: Place,
) -> bool
    requires { IsReduction (tables_of code) (λ p. not (is_in survivors p)) reduced.now }
    ensures yes { result ≡ true → IsDetermined code (is_in survivors) place }
    ensures no { result ≡ false → has_place (tables_of code) place ≡ true → is_in survivors place ≡ false
        → ExtensionsDiffer (tables_of code) (is_in survivors) place }
{
    if !code.has(place) || survivors.has(place) {
        return false;
    }
    value_from(code, reduced, survivors, place).is_some()
}

/// The same, from the survivors' places alone.
pub(crate) fn determine(code: Code, survivors: PlaceSet, place: Place) -> bool
    ensures yes { result ≡ true → IsDetermined code (is_in survivors) place }
    ensures no { result ≡ false → has_place (tables_of code) place ≡ true → is_in survivors place ≡ false
        → ExtensionsDiffer (tables_of code) (is_in survivors) place }
{
    let reduced = reduce_by_lost(code, survivors);
    is_determined(code, &reduced, survivors, place)
}

/// Whether survivors are more than a stripe is determined by, so that some contradict each other if one is damaged. If they aren't, any
/// bytes at their places are those of a stripe.
pub fn have_checks(code: Code, survivors: PlaceSet) -> bool
    ensures yes { result ≡ true → CanContradict code (is_in survivors) }
    ensures no { result ≡ false → CannotContradict code (is_in survivors) }
{
    let rows = check_rows(code, survivors);
    for index in 0..4 {
        if has_term(&rows[index]) {
            return true;
        }
    }
    false
}

/// Whether survivors of so many bytes have checks; those without bytes show nothing.
pub(crate) fn are_checked(code: Code, survivors: PlaceSet, length: usize) -> bool
    ensures { result ≡ true → AreChecked code (is_in survivors) length }
{
    length > 0 && have_checks(code, survivors)
}

/// Whether a row has a coefficient that isn't 00.
fn has_term(row: &[Gf; 16]) -> bool
    ensures yes { result ≡ true → HasTerm row.now }
    ensures no { result ≡ false → (k : ℕ) → k < 16 → slice_index row.now k ≡ 0 }
{
    for index in 0..16 {
        if row[index].byte() != 0 {
            return true;
        }
    }
    false
}
