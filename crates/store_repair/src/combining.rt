//! Combinations of fragments: sums of products of their bytes, written to files in one pass over the fragments.
ghost use Rattle.std.specs.Prelude.{◌≡◌, ◌≤◌, ℕ, List, length, IfErr, IfOk, OnOk};
ghost use Rattle.store_repair.specs.Mended.{IsOfSystem};
ghost use Rattle.stores.specs.Shown.{AreShown};
ghost use Rattle.store_repair.specs.Windows.{AreAppended, window as window_of};

use crate::mending::MendFault;
use crate::windows::{
    Buffers, FileError, WINDOW, Window, append_sums, read_window, rooms_for, slices_of,
};
use lrc_field::Gf;
use std::alloc::{AllocError, Global};
use stores::{Fragment, NewFragment};

/// Appends to each file the combination by the row at its index of the first bytes of the fragments, `many` of them.
pub(crate) fn append_combined<F: Fragment, N: NewFragment>(
    alloc: Global,
    fragments: &[Option<F>],
    many: usize,
    rows: &[[Gf; 16]],
    files: &mut [N],
) -> Result<(), MendFault>
    requires { length rows.now ≡ length files.old }
    ensures appended { (at : List (List ℕ)) → AreShown F.shown fragments.now at
        → OnOk result (AreAppended N.shown at many rows.now files.old files.new) }
    ensures refused { IfErr result IsOfSystem }
{
    let mut buffers = Buffers {
        rooms: rooms_for(alloc, fragments.len())?,
        sums: Vec::from_elem(alloc, 0u8, many.min(WINDOW))?,
    };
    let mut from = 0;
    'windows: while from < many {
        let size = (many - from).min(WINDOW);
        append_window(fragments, Window { from, size }, rows, &mut buffers, files)?;
        from += size;
    }
    Ok(())
}

/// Appends to each file its combination of a window.
fn append_window<F: Fragment, N: NewFragment>(
    fragments: &[Option<F>],
    window: Window,
    rows: &[[Gf; 16]],
    buffers: &mut Buffers,
    files: &mut [N],
) -> Result<(), MendFault>
    requires rooms { length buffers.old.rooms.items ≡ length fragments.now }
    requires sums { window.size ≤ length buffers.old.sums.items }
    requires rows { length rows.now ≡ length files.old }
    ensures rooms { length buffers.new.rooms.items ≡ length buffers.old.rooms.items }
    ensures sums { length buffers.new.sums.items ≡ length buffers.old.sums.items }
    ensures window { (at : List (List ℕ)) → AreShown F.shown fragments.now at
        → OnOk result (AreAppended N.shown (window_of window.from window.size at) window.size rows.now files.old files.new) }
    ensures refused { IfErr result IsOfSystem }
{
    let size = window.size;
    let rooms = buffers.rooms.as_mut_slice();
    if let Err(FileError { index, error }) = read_window(fragments, window.from, size, rooms) {
        return Err(MendFault::Unread { index, error });
    }
    let slices = slices_of(*buffers.rooms.allocator(), buffers.rooms.as_slice())?;
    let sums = buffers.sums.slice_mut(..size);
    if let Err(FileError { index, error }) = append_sums(rows, slices.as_slice(), sums, files) {
        return Err(MendFault::Unwritten { index, error });
    }
    Ok(())
}
