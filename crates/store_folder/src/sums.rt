//! The file of a store's sums: its name, SHA256SUMS, and how it is read.
use crate::links::Links;
use crate::regular::open_regular;
use std::io::{BufRead, BufReader};
use store_records::{Sums, SumsFault};

/// The name of a store's sums.
pub const SUMS_NAME: &str = "SHA256SUMS";

/// Reads the sums in the regular file at a path.
pub fn read_sums(rt: &HostRuntime, path: &str, links: Links) -> Result<Sums, SumsFault> {
    let alloc = rt.alloc();
    let opened = open_regular(rt, path, links)?;
    let mut sums = Sums::new(alloc);
    let mut number = 0u64;
    for line in BufReader::new(alloc, opened.file)?.split(alloc, b'\n') {
        number = number.saturating_add(1);
        sums.read_line(alloc, line?.as_slice(), number)?;
    }
    Ok(sums)
}
