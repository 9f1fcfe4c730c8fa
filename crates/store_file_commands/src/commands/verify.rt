//! The command `verify`.
use crate::tally::{Tally, write_line};
use std::alloc::{AllocError, Global};
use store_arguments::VerifyOptions;
use store_faults::FileFault;
use store_files::{StoredFile, first_described};
use store_opening::{OpenStore, Opening, open_store};
use store_progress::{Operation, Progress, Task};
use store_reading::verify_file;
use store_reports::verified;

/// Holds files to their digests, says which of them don't have these, and gives the exit status.
pub fn verify(rt: &HostRuntime, options: &VerifyOptions<'_>) -> Result<u8, FileFault> {
    let Named { names, are_all } = names_of(rt, options)?;
    let done = verify_each(rt, options, names.as_slice(), are_all)?;
    if !options.quiet {
        let left = done.left_of(names.len());
        write_line(rt, verified(rt.alloc(), done.done, left))?;
    }
    Ok(done.status)
}

/// The names of the files that are held to their digests.
#[derive(Drop)]
struct Named {
    names: Vec<String>,
    /// Whether no folder that may have more of them is there and can't be listed.
    are_all: bool,
}

/// Holds the files of these names to their digests, one after the other. Whether these are all that were asked for is given.
fn verify_each(
    rt: &HostRuntime,
    options: &VerifyOptions<'_>,
    names: &[String],
    are_all: bool,
) -> Result<Tally, FileFault> {
    let is_seen = Progress::is_seen(rt, options.quiet);
    let bytes = if is_seen {
        bytes_of(rt, options, names)?
    } else {
        0
    };
    let task = Task {
        operation: Operation::Verify,
        units: names.len() as u64,
        bytes,
        passes: 1,
    };
    let progress = Progress::new(rt, task, !is_seen);
    let mut done = Tally::new(are_all);
    for name in names {
        let file = StoredFile {
            folder: options.folder,
            pattern: options.naming.pattern,
            name: name.as_str(),
            links: options.links,
            progress: Some(&progress),
        };
        done.note(rt, Some(&progress), verify_file(rt, &file))?;
        if is_seen {
            progress.count_file(rt, length_of(rt, &file)?);
        }
    }
    progress.clear(rt);
    Ok(done)
}

/// How long files of these names are together.
fn bytes_of(
    rt: &HostRuntime,
    options: &VerifyOptions<'_>,
    names: &[String],
) -> Result<u64, FileFault> {
    let mut bytes = 0u64;
    for name in names {
        let file = StoredFile {
            folder: options.folder,
            pattern: options.naming.pattern,
            name: name.as_str(),
            links: options.links,
            progress: None,
        };
        bytes = bytes.saturating_add(length_of(rt, &file)?);
    }
    Ok(bytes)
}

/// How long a file is, as far as a description says it.
fn length_of(rt: &HostRuntime, file: &StoredFile<'_, '_>) -> Result<u64, FileFault> {
    Ok(match first_described(rt, file)? {
        Some(described) => described.length,
        None => 0,
    })
}

/// The names that are given, or those of all files of the store.
fn names_of(rt: &HostRuntime, options: &VerifyOptions<'_>) -> Result<Named, FileFault> {
    if !options.names.is_empty() {
        let names = given_names(rt.alloc(), options.names.as_slice())?;
        return Ok(Named {
            names,
            are_all: true,
        });
    }
    let opening = Opening::to_read(
        options.folder,
        None,
        options.naming.text,
        options.naming.pattern,
        options.links,
    );
    let store = open_store(rt, &opening)?;
    let names = described_names(rt.alloc(), &store);
    let are_all = !store.has_unlisted;
    drop(store);
    Ok(Named {
        names: names?,
        are_all,
    })
}

/// A copy of names.
fn given_names(alloc: Global, given: &[&str]) -> Result<Vec<String>, AllocError> {
    let mut names = Vec::new(alloc);
    for name in given {
        names.push(String::from_str(alloc, *name)?)?;
    }
    Ok(names)
}

/// The names of all files of a store.
fn described_names(alloc: Global, store: &OpenStore) -> Result<Vec<String>, AllocError> {
    let mut names = Vec::new(alloc);
    for name in store.found.described.iter() {
        names.push(String::from_str(alloc, name.as_str())?)?;
    }
    Ok(names)
}
