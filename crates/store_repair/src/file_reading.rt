//! Reading a file from the fragments of its stripe that survive: its parts one after the other, of which the lost ones are rebuilt.
ghost use Rattle.std.specs.Prelude.{◌≡◌, ◌++◌, ◌==◌, ℕ, List, [], length, option_map, if◌then◌else◌, IfErr, IfOk, OnOk, MatchOption};
ghost use Rattle.std.specs.Prelude.{Some, true, not};
ghost use Rattle.std.specs.Mem.{FitsInMemory};
ghost use Rattle.lrc_code.specs.Code.{has_place};
ghost use Rattle.lrc_code.specs.Codes.{tables_of};
ghost use Rattle.lrc_code.specs.Reduction.{IsReduction};
ghost use Rattle.lrc_code.specs.Sets.{is_in};
ghost use Rattle.lrc_plan.specs.Planned.{ExtensionsDiffer};
ghost use Rattle.lrc_plan.specs.RowPlans.{IsValueRow};
ghost use Rattle.lrc_plan.specs.Stripes.{AreWhole};
ghost use Rattle.store_repair.specs.Files.{AreOfFile, fragment_length};
ghost use Rattle.store_repair.specs.Mended.{IsOfSystem, IsRefused};
ghost use Rattle.stores.specs.Shown.{AreShown, shown_of};
ghost use Rattle.store_repair.specs.Windows.{IsAppended, used_in};

use crate::combining::append_combined;
use crate::encoding::unit_row;
use crate::mending::{MendFault, Survivors};
use lrc_code::{Code, Place, PlaceSet, Reduced};
use lrc_field::Gf;
use lrc_plan::{reduce_by_lost, value_from};
use std::alloc::{AllocError, Global};
use std::slice;
use stores::{Fragment, NewFragment};

/// Appends a file of so many bytes to `output`, from the survivors of its stripe. Of those that aren't its parts only what the lost parts
/// need is read, so damage shows nowhere: what was written is to be held to a digest. `Several` has the index of a lost part.
pub fn read_file<F: Fragment, N: NewFragment>(
    alloc: Global,
    survivors: &Survivors<'_, F>,
    file_bytes: usize,
    output: &mut N,
) -> Result<(), MendFault>
    requires sixteen { length survivors.now.fragments.now ≡ 16 }
    requires len { survivors.now.length ≡ fragment_length survivors.now.code file_bytes }
    requires fits { FitsInMemory N.row }
    ensures read { (at : List (List ℕ)) (file : List ℕ) → AreShown F.shown survivors.now.fragments.now at
        → AreWhole survivors.now.code (is_in survivors.now.set) at survivors.now.length → length file ≡ file_bytes
        → AreOfFile survivors.now.code (is_in survivors.now.set) at file
        → OnOk result (N.shown output.new ≡ option_map (λ written. written ++ file) (N.shown output.old)) }
    ensures refused { IfErr result (IsRefused survivors.now.code (is_in survivors.now.set) (tables_of survivors.now.code).places) }
{
    let code = survivors.code;
    let reduced = reduce_by_lost(code, survivors.set);
    let places = code.places();
    let mut done = 0;
    for index in 0..code.data_count() {
        let many = (file_bytes - done).min(survivors.length);
        if many == 0 {
            return Ok(());
        }
        let Some(row) = row_of(code, &reduced, survivors.set, places[index]) else {
            return Err(MendFault::Several { index });
        };
        append_part(alloc, survivors.fragments, &row, many, output)?;
        done += many;
    }
    Ok(())
}

/// The row that gives the bytes at a place; a survivor gives its own.
fn row_of(code: Code, reduced: &Reduced, survivors: PlaceSet, place: Place) -> Option<[Gf; 16]>
    requires place { has_place (tables_of code) place ≡ true }
    requires reduced { IsReduction (tables_of code) (λ p. not (is_in survivors p)) reduced.now }
    ensures { MatchOption result
        (ExtensionsDiffer (tables_of code) (is_in survivors) place)
        (IsValueRow (tables_of code) (is_in survivors) place) }
{
    if survivors.has(place) {
        return Some(unit_row(place.index()));
    }
    value_from(code, reduced, survivors, place)
}

/// Appends to `output` so many bytes of the combination of the survivors by a row.
fn append_part<F: Fragment, N: NewFragment>(
    alloc: Global,
    fragments: &[Option<F>],
    row: &[Gf; 16],
    many: usize,
    output: &mut N,
) -> Result<(), MendFault>
    requires sixteen { length fragments.now ≡ 16 }
    requires fits { FitsInMemory N.row }
    ensures appended { (at : List (List ℕ)) → AreShown F.shown fragments.now at
        → OnOk result (IsAppended at many row.now (N.shown output.old) (N.shown output.new)) }
    ensures refused { IfErr result IsOfSystem }
{
    let used = fragments_of(alloc, row, fragments)?;
    let rows = [*row];
    append_combined(alloc, used.as_slice(), many, &rows, slice::from_mut(output))
}

/// The fragments whose coefficients in a row aren't 00.
fn fragments_of<'f, F: Fragment>(
    alloc: Global,
    row: &[Gf; 16],
    fragments: &'f [Option<F>],
) -> Result<Vec<Option<&'f F>>, AllocError>
    requires { length fragments.now ≡ 16 }
    ensures { (at : List (List ℕ)) → AreShown F.shown fragments.now at
        → IfOk result (λ v. AreShown (λ f. F.shown f.now) v.items (used_in row.now at)) }
{
    let mut used = Vec::with_capacity(alloc, 16)?;
    for index in 0..16 {
        used.push(fragment_of(row[index], &fragments[index]))?;
    }
    Ok(used)
}

/// A fragment, if its coefficient isn't 00.
fn fragment_of<'f, F: Fragment>(coefficient: Gf, fragment: &'f Option<F>) -> Option<&'f F>
    ensures { (bytes : List ℕ) → shown_of F.shown fragment.now ≡ Some bytes
        → shown_of (λ f. F.shown f.now) result ≡ Some (if coefficient == 0 then [] else bytes) }
{
    if coefficient.byte() == 0 {
        return None;
    }
    fragment.as_ref()
}
