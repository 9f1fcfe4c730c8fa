//! The descriptions of files, as they are read.
use crate::links::Links;
use crate::regular::open_regular;
use sha2::{Digest as _, Sha256};
use std::alloc::{AllocError, Global};
use std::io;
use std::os::unix::fs::FileExt;
use store_records::{Described, Digest, MOST_BYTES};

/// Reads the description in the regular file at a path; none where it has another form.
pub fn read_description(
    rt: &HostRuntime,
    path: &str,
    links: Links,
) -> io::Result<Option<Described>> {
    let opened = open_regular(rt, path, links)?;
    if opened.metadata.len() > MOST_BYTES {
        return Ok(None);
    }
    let mut text = Vec::from_elem(rt.alloc(), 0u8, opened.metadata.len() as usize)?;
    opened.file.read_exact_at(text.as_mut_slice(), 0)?;
    Ok(Described::parse(rt.alloc(), text.as_slice())?)
}

/// The digest of a description's line.
pub fn digest_of_description(alloc: Global, described: &Described) -> Result<Digest, AllocError> {
    let line = described.text(alloc)?;
    Ok(Sha256::digest(line.as_bytes()))
}
