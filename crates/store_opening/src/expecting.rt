//! What has to be in a store: what a list of stripes names, and the digests.
use crate::opening::Opening;
use lrc_code::Code;
use std::fs;
use std::io::{self, BufRead, BufReader, ErrorKind};
use store_faults::{StoreFault, device_fault, say};
use store_folder::{Links, SUMS_NAME, Sums, SumsFault, look_at, path_in, read_sums};
use store_listing::{Listing, expect_listed};

/// Notes what has to be there by digests, if there are some.
pub(crate) fn expect_sums(
    rt: &HostRuntime,
    opening: &Opening<'_>,
    code: Code,
    sums: Option<&Sums>,
    listing: &mut Listing,
) -> Result<(), StoreFault> {
    if let Some(sums) = sums {
        let names = &mut listing.names;
        let count = expect_listed(rt.alloc(), sums, &opening.pattern, code, names)?;
        say_strange_sums(rt, opening, count);
    }
    Ok(())
}

/// Says that digests which were given are of no file of the store.
fn say_strange_sums(rt: &HostRuntime, opening: &Opening<'_>, expected: u64) {
    if let (Some(path), 0) = (opening.sums, expected) {
        let _ = say(
            rt,
            format!(in rt.alloc(); "rebuild-store: {path}: names no file of the store"),
        );
    }
}

/// Adds the stripes that a file names, one on each line, if one is given.
pub(crate) fn expect_stripes(
    rt: &HostRuntime,
    opening: &Opening<'_>,
    listing: &mut Listing,
) -> Result<(), StoreFault> {
    let Some(path) = opening.stripes else {
        return Ok(());
    };
    match read_names(rt, listing, path) {
        Ok(()) => Ok(()),
        Err(error) => Err(device_fault(String::from_str(rt.alloc(), path)?, error)),
    }
}

/// Reads the names of stripes that have to be there, one on each line.
fn read_names(rt: &HostRuntime, listing: &mut Listing, path: &str) -> io::Result<()> {
    let alloc = rt.alloc();
    for line in BufReader::new(alloc, fs::open(rt, path)?)?.lines(alloc) {
        let line = line?;
        let name = line.as_str().trim_end_matches('\r');
        if !name.is_empty() {
            listing.names.expect(alloc, name)?;
        }
    }
    Ok(())
}

/// The checksums that the opening name, or those in the store.
pub(crate) fn sums_of(rt: &HostRuntime, opening: &Opening<'_>) -> Result<Option<Sums>, StoreFault> {
    let alloc = rt.alloc();
    let (path, links) = match opening.sums {
        Some(path) => (String::from_str(alloc, path)?, Links::Followed),
        None => {
            let path = path_in(alloc, opening.folder, SUMS_NAME)?;
            match look_at(rt, path.as_str(), opening.links) {
                Ok(metadata) if metadata.is_file() || metadata.is_symlink() => (
                    path,
                    opening.links,
                ),
                Ok(_) => return Ok(None),
                Err(error) if error.kind() == ErrorKind::NotFound => return Ok(None),
                Err(error) => return Err(device_fault(path, error)),
            }
        }
    };
    match read_sums(rt, path.as_str(), links) {
        Ok(sums) => Ok(Some(sums)),
        Err(SumsFault::OutOfMemory) => Err(StoreFault::OutOfMemory),
        Err(SumsFault::Unread { error }) => Err(device_fault(path, error)),
        Err(fault) => Err(StoreFault::BadSums { path, fault }),
    }
}
