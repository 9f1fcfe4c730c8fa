//! The command `remove`.
use crate::tally::{Tally, released, write_line};
use lrc_code::Code;
use std::alloc::AllocError;
use store_arguments::RemoveOptions;
use store_encoding::{has_left, remove_stored, stored_sums};
use store_faults::{FileFault, StoreFault, device};
use store_files::Target;
use store_opening::{Access, OpenStore, Opening, open_store, remove_leftovers};
use store_reports::removed;

/// Takes files out of a store, says which of them weren't, and gives the exit status.
pub fn remove(rt: &HostRuntime, options: &RemoveOptions<'_>) -> Result<u8, FileFault> {
    let opening = Opening {
        access: Access::Writes {
            trusts_writers: options.trusts_writers,
        },
        // A run that was killed may have left a single fragment, or folders.
        needs_stripes: false,
        ..Opening::to_read(
            options.folder,
            options.code,
            options.naming.text,
            options.naming.pattern,
            options.links,
        )
    };
    let store = open_store(rt, &opening)?;
    let status = remove_all(rt, options, &store);
    let done = released(
        rt,
        store.locks.named(options.folder),
        status,
        store.locks.release(rt),
    );
    drop(store);
    done
}

/// Takes files out of an open store.
fn remove_all(
    rt: &HostRuntime,
    options: &RemoveOptions<'_>,
    store: &OpenStore,
) -> Result<u8, FileFault> {
    let mut target = target_of(rt, options, store.code)?;
    let is_clean = match cleaned(rt, options, store, &target) {
        Ok(is_clean) => is_clean,
        Err(fault) => return Err(fault),
    };
    let done = remove_each(rt, options, &mut target, is_clean);
    drop(target);
    let done = done?;
    if !options.quiet {
        let left = done.left_of(options.names.len());
        write_line(rt, removed(rt.alloc(), done.done, left))?;
    }
    Ok(done.status)
}

/// Removes what killed runs have left in a store. Gives whether all of it could be removed, and each folder that is there be listed. A
/// folder without stripes that has nothing of the files either is none of a store.
fn cleaned(
    rt: &HostRuntime,
    options: &RemoveOptions<'_>,
    store: &OpenStore,
    target: &Target<'_>,
) -> Result<bool, FileFault> {
    if store.found.files.is_empty() && !store.has_unlisted {
        refuse_without(rt, options, target)?;
    }
    match remove_leftovers(rt, &store.locks, &store.listing, "") {
        Ok(is_clean) => Ok(is_clean && !store.has_unlisted),
        Err(error) => Err(device(rt.alloc(), options.folder, error)),
    }
}

/// Refuses a folder that has nothing of the files that are to be taken out.
fn refuse_without(
    rt: &HostRuntime,
    options: &RemoveOptions<'_>,
    target: &Target<'_>,
) -> Result<(), FileFault> {
    for name in &options.names {
        if has_left(rt, target, name)? {
            return Ok(());
        }
    }
    Err(FileFault::Store {
        fault: StoreFault::NoFragments {
            folder: String::from_str(rt.alloc(), options.folder)?,
            names: String::from_str(rt.alloc(), options.naming.text)?,
        },
    })
}

/// Takes the files out of a store one after the other.
fn remove_each(
    rt: &HostRuntime,
    options: &RemoveOptions<'_>,
    target: &mut Target<'_>,
    is_clean: bool,
) -> Result<Tally, AllocError> {
    let mut done = Tally::new(is_clean);
    for name in &options.names {
        let removed = remove_stored(rt, target, name);
        done.note(rt, None, removed)?;
    }
    Ok(done)
}

/// The store that files are taken out of.
fn target_of<'o>(
    rt: &HostRuntime,
    options: &RemoveOptions<'o>,
    code: Code,
) -> Result<Target<'o>, FileFault> {
    Ok(Target {
        folder: options.folder,
        pattern: options.naming.pattern,
        code,
        sums: stored_sums(rt, options.folder)?,
        is_changed: false,
        has_failed: false,
        links: options.links,
        makes_folders: false,
        replaces: false,
    })
}
