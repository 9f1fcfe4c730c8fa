//! Whether a folder is a store of the code that it is taken for.
ghost use Rattle.std.specs.Prelude.{◌≡◌, length, vec_len, IfOk};

use crate::open_stores::OpenStore;
use lrc_code::Code;
use std::alloc::{AllocError, Global};
use store_faults::StoreFault;
use store_folder::{FileFragment, FolderStore, SystemFolder, SystemOpen};
use store_repair::{
    Damage, MendFault, Opened, Stripe, Survivors, find_damaged, have_checks, open_survivors,
};

/// As many bytes of each fragment are looked at.
const LOOKED_AT: usize = 65_536;

/// What the fragments of a stripe say of the code.
#[derive(Clone, Copy)]
enum Fit {
    /// They belong together, or all but one do.
    Fits,
    /// They don't.
    Clashes,
    /// They are too few to say, or can't be read.
    Unknown,
}

/// Refuses a store of which stripes can be checked and none fits the code: it is another folder, or of another code. The beginnings of
/// stripes are looked at, up to the first that fits.
pub fn refuse_other_stores(
    alloc: Global,
    store: &OpenStore,
    files: &FolderStore<'_, SystemFolder<'_>>,
    stripes: &[Stripe<'_>],
) -> Result<Option<StoreFault>, AllocError> {
    let mut clashing = None;
    for stripe in stripes {
        match fit_of(alloc, store.code, files, stripe)? {
            Fit::Fits => return Ok(None),
            Fit::Clashes => clashing = clashing.or(Some(stripe.name)),
            Fit::Unknown => {}
        }
    }
    let Some(stripe) = clashing else {
        return Ok(None);
    };
    Ok(Some(StoreFault::FitsNot {
        folder: String::from_str(alloc, store.folder.as_str())?,
        code: store.code.text(),
        stripe: String::from_str(alloc, stripe)?,
    }))
}

/// What the fragments of a stripe say of the store's code.
fn fit_of(
    alloc: Global,
    code: Code,
    files: &FolderStore<'_, SystemFolder<'_>>,
    stripe: &Stripe<'_>,
) -> Result<Fit, AllocError> {
    let Some(length) = stripe.length() else {
        return Ok(Fit::Unknown);
    };
    if length == 0 {
        return Ok(Fit::Unknown);
    }
    let mut findings = Vec::new(alloc);
    let opened = open_survivors(alloc, files, code, stripe, length, &mut findings)?;
    fit_of_opened(alloc, code, &opened)
}

/// What the beginnings of fragments say of their code.
fn fit_of_opened(
    alloc: Global,
    code: Code,
    opened: &Opened<FileFragment<SystemOpen>>,
) -> Result<Fit, AllocError>
    requires { vec_len opened.now.fragments ≡ 16 }
{
    let survivors = Survivors {
        code,
        length: opened.length.min(LOOKED_AT),
        set: opened.set,
        fragments: opened.fragments.as_slice(),
    };
    if !have_checks(code, opened.set) {
        return Ok(Fit::Unknown);
    }
    match find_damaged(alloc, &survivors) {
        Ok(Damage::Nowhere | Damage::At(_)) => Ok(Fit::Fits),
        Ok(Damage::Among(suspects)) if suspects.single.is_some() => Ok(Fit::Fits),
        Ok(Damage::Among(_) | Damage::Unknown) => Ok(Fit::Clashes),
        Err(fault) => unknown(fault),
    }
}

/// A stripe that can't be read says nothing of the code.
fn unknown(fault: MendFault) -> Result<Fit, AllocError> {
    if fault.is_for_memory() {
        return Err(AllocError);
    }
    Ok(Fit::Unknown)
}
