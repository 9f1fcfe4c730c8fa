//! Why a store that was listed is refused.
use crate::locks::Locks;
use crate::opening::{Access, Opening};
use lrc_code::Code;
use std::fs;
use std::os::unix::fs::MetadataExt;
use store_faults::StoreFault;
use store_listing::{Listing, Others, other_than};

/// Refuses to write where others may write, or where a run works that divides the store into other parts, if anything is to be written.
pub(crate) fn refuse_writing(
    rt: &HostRuntime,
    opening: &Opening<'_>,
    locks: &Locks,
    listing: &Listing,
) -> Result<(), StoreFault> {
    let Access::Writes { trusts_writers } = opening.access else {
        return Ok(());
    };
    if !trusts_writers {
        refuse_untrusted(rt, listing)?;
    }
    locks.refuse_other_parts(rt, listing.leftovers.as_slice())
}

/// Refuses a store all of whose stripes are of another code than the one that was given.
pub(crate) fn refuse_other_code(
    rt: &HostRuntime,
    opening: &Opening<'_>,
    listing: &Listing,
    code: Code,
) -> Result<(), StoreFault> {
    if opening.code.is_none() || listing.names.of_another_code(code) != Others::All {
        return Ok(());
    }
    Err(StoreFault::OtherCode {
        folder: String::from_str(rt.alloc(), opening.folder)?,
        other: other_than(code).text(),
    })
}

/// Refuses a listed folder of which a file would be written over by a report or by counters.
pub(crate) fn refuse_watched(rt: &HostRuntime, listing: &Listing) -> Result<(), StoreFault> {
    match &listing.watched {
        Some(path) => Err(StoreFault::ReportInStore {
            path: String::from_str(rt.alloc(), path.as_str())?,
        }),
        None => Ok(()),
    }
}

/// Refuses a folder that others than root may write into, where root runs this.
pub fn refuse_untrusted(rt: &HostRuntime, listing: &Listing) -> Result<(), StoreFault> {
    let Some(foreign) = &listing.foreign else {
        return Ok(());
    };
    // Who runs this owns what the system says of the process. Where that can't be seen it may be root.
    let is_root = fs::metadata(rt, "/proc/self").map_or(true, |process| process.uid() == 0);
    if !is_root {
        return Ok(());
    }
    Err(StoreFault::Untrusted {
        folder: String::from_str(rt.alloc(), foreign.folder.as_str())?,
        user: foreign.user,
    })
}
