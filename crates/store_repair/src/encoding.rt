//! Encoding a file: the fragments of its stripe are made in one pass over it.
ghost use Rattle.std.specs.Prelude.{◌≡◌, ◌++◌, ◌∷◌, [], ◌<◌, ℕ, List, length, IfErr, IfOk, OnOk, Some};
ghost use Rattle.lrc_code.specs.Code.{AreBytes};
ghost use Rattle.lrc_code.specs.Codes.{tables_of};
ghost use Rattle.store_repair.specs.Files.{AreFragmentsOf, encoding_rows, unit_row};
ghost use Rattle.store_repair.specs.Mended.{AreEmpty, IsOfSystem};

use crate::combining::append_combined;
use crate::mending::MendFault;
use crate::parts::{FilePart, fragment_length, parts_of};
use lrc_code::Code;
use lrc_field::Gf;
use std::alloc::{AllocError, Global};
use stores::{Fragment, NewFragment};

/// Writes the fragments of a file's stripe in one pass over the file, each into the new file at the index of its place among the code's.
/// The data fragments are the file's parts, in their order, with 00 after its end. A file that can't be read is said to be `Unread`, with
/// the index of the part.
pub fn encode<S: Fragment, N: NewFragment>(
    alloc: Global,
    code: Code,
    source: &S,
    file_bytes: usize,
    files: &mut [N],
) -> Result<(), MendFault>
    requires files { length files.old ≡ length (tables_of code).places }
    requires empty { AreEmpty N.shown files.old }
    ensures encoded { (file : List ℕ) → S.shown source.now ≡ Some file → AreBytes file → length file ≡ file_bytes
        → OnOk result (AreFragmentsOf N.shown code file (tables_of code).places files.new) }
    ensures refused { IfErr result IsOfSystem }
{
    let parts: Vec<Option<FilePart<'_, S>>> = parts_of(alloc, code, source, file_bytes)?;
    let rows = rows_of(alloc, code)?;
    let many = fragment_length(code, file_bytes);
    append_combined(alloc, parts.as_slice(), many, rows.as_slice(), files)
}

/// What makes each fragment of the data fragments, in the order of the code's places.
fn rows_of(alloc: Global, code: Code) -> Result<Vec<[Gf; 16]>, AllocError>
    ensures { IfOk result (λ v. v.items ≡ encoding_rows code) }
{
    let mut rows = Vec::with_capacity(alloc, 16)?;
    for index in 0..code.data_count() {
        rows.push(unit_row(index))?;
    }
    let parities = code.parities();
    rows.push(widened(&parities.px))?;
    rows.push(widened(&parities.py))?;
    rows.push(widened(&parities.p0))?;
    rows.push(widened(&parities.p1))?;
    Ok(rows)
}

/// Sixteen coefficients, of which the one at an index is 01 and the others are 00.
pub(crate) fn unit_row(index: usize) -> [Gf; 16]
    requires { index < 16 }
    ensures { result ≡ unit_row index }
{
    let mut row = [Gf::new(0); 16];
    row[index] = Gf::new(1);
    row
}

/// Twelve coefficients with four more of 00.
fn widened(row: &[Gf; 12]) -> [Gf; 16]
    ensures { result ≡ row.now ++ (0 ∷ 0 ∷ 0 ∷ 0 ∷ []) }
{
    let mut wide = [Gf::new(0); 16];
    wide[..12].copy_from_slice(row);
    wide
}
