//! Mending a stripe: its lost fragments are rebuilt in one pass over those that survive.
ghost use Rattle.std.specs.Prelude.{◌≡◌, ◌≤◌, ℕ, List, length, IfErr, IfOk};
ghost use Rattle.lrc_code.specs.Codes.{tables_of};
ghost use Rattle.lrc_code.specs.Sets.{is_in};
ghost use Rattle.lrc_plan.specs.RowPlans.{AreCheckRows};
ghost use Rattle.lrc_plan.specs.Stripes.{AreWhole};
ghost use Rattle.store_repair.specs.declared.mending.MendFault.TheVariants.{OutOfMemory};
ghost use Rattle.store_repair.specs.Mended.{AreEmpty, AreLost, AreValueRows, IsMendedStripe, IsOfSystem, IsRefused};
ghost use Rattle.stores.specs.Shown.{AreShown};
ghost use Rattle.store_repair.specs.Windows.{IsMendedWindow, window as window_of};

use crate::windows::{
    Buffers, FileError, WINDOW, Window, append_sums, are_zero, read_window, rooms_for, slices_of,
};
use lrc_code::{Code, Place, PlaceSet};
use lrc_field::Gf;
use lrc_plan::{checks_from, reduce_by_lost, value_from};
use std::alloc::{AllocError, AllocFailed, Global};
use std::io::{self, ErrorKind};
use stores::{Fragment, NewFragment};
use thiserror::Error;

/// Why a stripe isn't mended.
#[derive(Debug, Drop, Error)]
pub enum MendFault {
    /// Memory was refused.
    #[error("out of memory")]
    OutOfMemory,
    /// The survivors don't determine the fragment at the place that was listed at this index.
    #[error("the survivors don't determine the fragment")]
    Several { index: usize },
    /// The survivor at the place of this index can't be read.
    #[error("a survivor can't be read: {error}")]
    Unread { index: usize, error: io::Error },
    /// The file at this index can't be written.
    #[error("a rebuilt fragment can't be written: {error}")]
    Unwritten { index: usize, error: io::Error },
}

impl From<AllocError> for MendFault {
    ghost from_gives = { λ _ fault. fault ≡ OutOfMemory };

    fn from(_error: AllocError) -> MendFault {
        MendFault::OutOfMemory
    }
}

impl<T: Drop> From<AllocFailed<T>> for MendFault {
    ghost from_gives = { λ _ fault. fault ≡ OutOfMemory };

    fn from(_failed: AllocFailed<T>) -> MendFault {
        MendFault::OutOfMemory
    }
}

impl MendFault {
    /// Whether memory was refused, also while a fragment was read or written.
    pub fn is_for_memory(&self) -> bool {
        match self {
            MendFault::OutOfMemory => true,
            MendFault::Several { .. } => false,
            MendFault::Unread { error, .. } => error.kind() == ErrorKind::OutOfMemory,
            MendFault::Unwritten { error, .. } => error.kind() == ErrorKind::OutOfMemory,
        }
    }
}

/// The fragments of a stripe that survive: sixteen, listed by the places' indexes, of which those at the places of the set are there.
#[derive(Drop)]
pub struct Survivors<'f, F> {
    pub code: Code,
    /// How many bytes each fragment of the stripe has.
    pub length: usize,
    pub set: PlaceSet,
    pub fragments: &'f [Option<F>],
}

/// How the lost fragments of a stripe are made: the survivors' combinations that have to be 00, and those that are the lost fragments.
#[derive(Drop)]
struct Plan {
    checks: [[Gf; 16]; 4],
    rows: Vec<[Gf; 16]>,
}

/// Rebuilds the fragments at lost places of a stripe, each into the file at its index, in one pass over the survivors, with all checks that
/// they allow. `true`: each file holds the fragment, the only one that fits the survivors. `false`: no stripe of the code has the
/// survivors' bytes. The files then hold nothing of use, and so they do after a fault.
pub fn mend<F: Fragment, N: NewFragment>(
    alloc: Global,
    survivors: &Survivors<'_, F>,
    places: &[Place],
    files: &mut [N],
) -> Result<bool, MendFault>
    requires sixteen { length survivors.now.fragments.now ≡ 16 }
    requires lost { AreLost survivors.now.code (is_in survivors.now.set) places.now }
    requires files { length files.old ≡ length places.now }
    requires empty { AreEmpty N.shown files.old }
    ensures mended { (at : List (List ℕ)) → AreShown F.shown survivors.now.fragments.now at
        → AreWhole survivors.now.code (is_in survivors.now.set) at survivors.now.length
        → IfOk result (IsMendedStripe N.shown survivors.now.code (is_in survivors.now.set) at survivors.now.length places.now files.new) }
    ensures refused { IfErr result (IsRefused survivors.now.code (is_in survivors.now.set) places.now) }
{
    let length = survivors.length;
    let plan = plan_of(alloc, survivors.code, survivors.set, places)?;
    let mut buffers = Buffers {
        rooms: rooms_for(alloc, 16)?,
        sums: Vec::from_elem(alloc, 0u8, length.min(WINDOW))?,
    };
    let mut from = 0;
    'windows: while from < length {
        let size = (length - from).min(WINDOW);
        let window = Window { from, size };
        if !mend_window(survivors, &plan, window, &mut buffers, files)? {
            return Ok(false);
        }
        from += size;
    }
    Ok(true)
}

/// The plan for lost places.
fn plan_of(
    alloc: Global,
    code: Code,
    survivors: PlaceSet,
    places: &[Place],
) -> Result<Plan, MendFault>
    requires { AreLost code (is_in survivors) places.now }
    ensures checks { IfOk result (λ plan. AreCheckRows (tables_of code) (is_in survivors) plan.checks) }
    ensures rows { IfOk result (λ plan. AreValueRows code (is_in survivors) places.now plan.rows.items) }
    ensures many { IfOk result (λ plan. length plan.rows.items ≡ length places.now) }
    ensures refused { IfErr result (IsRefused code (is_in survivors) places.now) }
{
    let reduced = reduce_by_lost(code, survivors);
    let mut rows = Vec::with_capacity(alloc, places.len())?;
    for index in 0..places.len() {
        let Some(row) = value_from(code, &reduced, survivors, places[index]) else {
            return Err(MendFault::Several { index });
        };
        rows.push(row)?;
    }
    let checks = checks_from(code, &reduced, survivors);
    Ok(Plan { checks, rows })
}

/// Reads a window, tests the checks in it, and appends to each file its combination of it.
fn mend_window<F: Fragment, N: NewFragment>(
    survivors: &Survivors<'_, F>,
    plan: &Plan,
    window: Window,
    buffers: &mut Buffers,
    files: &mut [N],
) -> Result<bool, MendFault>
    requires rooms { length buffers.old.rooms.items ≡ length survivors.now.fragments.now }
    requires sums { window.size ≤ length buffers.old.sums.items }
    requires rows { length plan.now.rows.items ≡ length files.old }
    ensures rooms { length buffers.new.rooms.items ≡ length buffers.old.rooms.items }
    ensures sums { length buffers.new.sums.items ≡ length buffers.old.sums.items }
    ensures window { (at : List (List ℕ)) → AreShown F.shown survivors.now.fragments.now at
        → IfOk result (IsMendedWindow N.shown plan.now.checks plan.now.rows.items (window_of window.from window.size at) window.size
        files.old files.new) }
    ensures refused { IfErr result IsOfSystem }
{
    let size = window.size;
    let rooms = buffers.rooms.as_mut_slice();
    if let Err(FileError { index, error }) = read_window(
        survivors.fragments,
        window.from,
        size,
        rooms,
    ) {
        return Err(MendFault::Unread { index, error });
    }
    let slices = slices_of(*buffers.rooms.allocator(), buffers.rooms.as_slice())?;
    if !are_zero(&plan.checks, size, slices.as_slice()) {
        return Ok(false);
    }
    let sums = buffers.sums.slice_mut(..size);
    if let Err(FileError { index, error }) = append_sums(
        plan.rows.as_slice(),
        slices.as_slice(),
        sums,
        files,
    ) {
        return Err(MendFault::Unwritten { index, error });
    }
    Ok(true)
}
