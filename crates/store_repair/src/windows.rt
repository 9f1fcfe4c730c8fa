//! Windows: the bytes of a stripe's surviving fragments from a position on, and what is made of them.
ghost use Rattle.std.specs.Prelude.{◌↔◌, ◌≡◌, ◌≢◌, ◌<◌, ℕ, List, length, map, take, drop, OnOk, IfOk, Some};
ghost use Rattle.std.specs.Bool.{IsTrue};
ghost use Rattle.lrc_plan.specs.Stripes.{AreZeroRows, IsZeroRow};
ghost use Rattle.stores.specs.Shown.{AreShown, shown_of};
ghost use Rattle.store_repair.specs.Windows.{AreAppended, HaveOrNone, IsAppended, window};

use lrc_field::{Gf, combine_into, no_terms, sums_are_zero, terms_in};
use std::alloc::{AllocError, Global};
use std::io;
use stores::{Fragment, NewFragment};

/// How many bytes of each fragment a window has.
pub(crate) const WINDOW: usize = 65_536;

/// Some positions of a stripe, at most `WINDOW`.
#[derive(Clone, Copy)]
pub(crate) struct Window {
    pub(crate) from: usize,
    pub(crate) size: usize,
}

/// The room for a window of each fragment, and for one of a combination.
pub(crate) struct Buffers {
    pub(crate) rooms: Vec<Vec<u8>>,
    pub(crate) sums: Vec<u8>,
}

impl Drop for Buffers {
    fn drop(self) {
        let Buffers { rooms: _, sums: _ } = self;
    }
}

/// What the system refused of the file at an index.
#[derive(Drop)]
pub(crate) struct FileError {
    pub(crate) index: usize,
    pub(crate) error: io::Error,
}

/// So many rooms without bytes.
pub(crate) fn rooms_for(alloc: Global, many: usize) -> Result<Vec<Vec<u8>>, AllocError>
    ensures { IfOk result (λ v. length v.items ≡ many) }
{
    let mut rooms = Vec::with_capacity(alloc, many)?;
    'rooms: while rooms.len() < many {
        rooms.push(Vec::new(alloc))?;
    }
    Ok(rooms)
}

/// Reads a window of all fragments, each into the room at its index; of a lost one nothing.
pub(crate) fn read_window<F: Fragment>(
    fragments: &[Option<F>],
    from: usize,
    size: usize,
    rooms: &mut [Vec<u8>],
) -> Result<(), FileError>
    requires { length rooms.old ≡ length fragments.now }
    ensures sizes { OnOk result (HaveOrNone size (map (λ room. room.items) rooms.new)) }
    ensures window { (at : List (List ℕ)) → AreShown F.shown fragments.now at
        → OnOk result (map (λ room. room.items) rooms.new ≡ window from size at) }
{
    for index in 0..fragments.len() {
        let room = &mut rooms[index];
        if let Err(error) = read_into(&fragments[index], from, size, room) {
            return Err(FileError { index, error });
        }
    }
    Ok(())
}

/// Reads a window of one fragment into its room; of a lost one nothing.
fn read_into<F: Fragment>(
    fragment: &Option<F>,
    from: usize,
    size: usize,
    room: &mut Vec<u8>,
) -> io::Result<()>
    ensures size { OnOk result (length room.new.items ≢ 0 → length room.new.items ≡ size) }
    ensures bytes { (bytes : List ℕ) → shown_of F.shown fragment.now ≡ Some bytes
        → OnOk result (room.new.items ≡ take size (drop from bytes)) }
{
    match fragment {
        Some(fragment) => {
            room.resize(size, 0)?;
            fragment.read_at(from, room.as_mut_slice())
        }
        None => {
            room.clear();
            Ok(())
        }
    }
}

/// The bytes of each room.
pub(crate) fn slices_of<'r>(
    alloc: Global,
    rooms: &'r [Vec<u8>],
) -> Result<Vec<&'r [u8]>, AllocError>
    ensures { IfOk result (λ v. map (λ s. s.now) v.items ≡ map (λ room. room.items) rooms.now) }
{
    let mut slices = Vec::with_capacity(alloc, rooms.len())?;
    for room in rooms {
        slices.push(room.as_slice())?;
    }
    Ok(slices)
}

/// Whether each row's combination of the slices is 00 at every position.
pub(crate) fn are_zero(rows: &[[Gf; 16]; 4], size: usize, slices: &[&[u8]]) -> bool
    requires { HaveOrNone size (map (λ s. s.now) slices.now) }
    ensures { IsTrue result ↔ AreZeroRows rows.now (map (λ s. s.now) slices.now) size }
{
    for row in rows {
        if !is_zero(row, size, slices) {
            return false;
        }
    }
    true
}

/// Whether a row's combination of the slices is 00 at every position.
fn is_zero(row: &[Gf; 16], size: usize, slices: &[&[u8]]) -> bool
    requires { HaveOrNone size (map (λ s. s.now) slices.now) }
    ensures { IsTrue result ↔ IsZeroRow row.now (map (λ s. s.now) slices.now) size }
{
    let mut room = no_terms();
    let terms = terms_in(&mut room, row, slices);
    sums_are_zero(size, terms)
}

/// Appends to each file the combination of the slices by the row at its index. `sums` has room for a window.
pub(crate) fn append_sums<N: NewFragment>(
    rows: &[[Gf; 16]],
    slices: &[&[u8]],
    sums: &mut [u8],
    files: &mut [N],
) -> Result<(), FileError>
    requires rows { length rows.now ≡ length files.old }
    requires sizes { HaveOrNone (length sums.old) (map (λ s. s.now) slices.now) }
    ensures { OnOk result (AreAppended N.shown (map (λ s. s.now) slices.now) (length sums.old) rows.now files.old files.new) }
{
    for index in 0..rows.len() {
        let file = &mut files[index];
        if let Err(error) = append_sum(&rows[index], slices, sums, file) {
            return Err(FileError { index, error });
        }
    }
    Ok(())
}

/// Appends to a file a row's combination of the slices.
fn append_sum<N: NewFragment>(
    row: &[Gf; 16],
    slices: &[&[u8]],
    sums: &mut [u8],
    file: &mut N,
) -> io::Result<()>
    requires { HaveOrNone (length sums.old) (map (λ s. s.now) slices.now) }
    ensures { OnOk result (IsAppended (map (λ s. s.now) slices.now) (length sums.old) row.now (N.shown file.old) (N.shown file.new)) }
{
    let mut room = no_terms();
    let terms = terms_in(&mut room, row, slices);
    combine_into(sums, 0, terms);
    file.append(sums)
}
