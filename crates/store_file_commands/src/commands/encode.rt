//! The command `encode`.
use crate::tally::{Tally, released, write_line};
use lrc_code::Code;
use std::alloc::AllocError;
use std::fs;
use std::io::ErrorKind;
use std::thread::Threads;
use store_arguments::EncodeOptions;
use store_encoding::{SourceFile, Spool, encode_file, make_folder, stored_sums, write_new_sums};
use store_faults::{FileFault, StoreFault, device, say, words_of};
use store_files::Target;
use store_folder::{SystemFolder, folder_of, sync_folder};
use store_listing::{Listing, Others, Unlisted, Wanted, list, other_than};
use store_opening::{Locks, refuse_unmounted, refuse_untrusted, remove_leftovers, say_links};
use store_progress::{Operation, Progress, Task};
use store_reports::encoded;

/// Encodes files, says what was done and what wasn't, and gives the exit status.
pub fn encode<R: Threads + Sync>(
    threads: &R,
    rt: &HostRuntime,
    options: &EncodeOptions<'_>,
) -> Result<u8, FileFault> {
    make_store(rt, options.folder)?;
    let locks = Locks::take(rt, options.folder, None)?;
    let status = encode_locked(threads, rt, options, &locks);
    released(rt, locks.named(options.folder), status, locks.release(rt))
}

/// Encodes files into a folder out of which other runs are kept.
fn encode_locked<R: Threads + Sync>(
    threads: &R,
    rt: &HostRuntime,
    options: &EncodeOptions<'_>,
    locks: &Locks,
) -> Result<u8, FileFault> {
    let listing = listed(rt, options)?;
    let ready = readied(rt, options, locks, &listing);
    drop(listing);
    let Ready {
        mut target,
        is_clean,
    } = ready?;
    let done = encode_all(threads, rt, options, &mut target, is_clean);
    drop(target);
    let done = done?;
    if !options.quiet {
        let left = done.left_of(options.files.len());
        write_line(rt, encoded(rt.alloc(), done.done, left))?;
    }
    Ok(done.status)
}

/// A store that can be encoded into, and whether all that killed runs had left there could be removed.
#[derive(Drop)]
struct Ready<'o> {
    target: Target<'o>,
    is_clean: bool,
}

/// The store that is encoded into, without what killed runs had left there.
fn readied<'o>(
    rt: &HostRuntime,
    options: &EncodeOptions<'o>,
    locks: &Locks,
    listing: &Listing,
) -> Result<Ready<'o>, FileFault> {
    locks.refuse_other_parts(rt, listing.leftovers.as_slice())?;
    match remove_leftovers(rt, locks, listing, "") {
        Ok(is_clean) => Ok(Ready {
            target: target_of(rt, options, listing)?,
            is_clean: !say_unlisted(rt, listing)? && is_clean,
        }),
        Err(error) => Err(device(rt.alloc(), options.folder, error)),
    }
}

/// Says which folders that are there couldn't be listed, and whether there is one.
fn say_unlisted(rt: &HostRuntime, listing: &Listing) -> Result<bool, AllocError> {
    let mut has_some = false;
    for Unlisted { path, error, .. } in &listing.unlisted {
        let kind = error.kind();
        if kind == ErrorKind::NotFound || kind == ErrorKind::NotADirectory {
            continue;
        }
        has_some = true;
        let why = words_of(rt.alloc(), error)?;
        let _ = say(
            rt,
            format!(in rt.alloc();
                "rebuild-store: {path}: {why}: what runs that were killed have left there stays"
            ),
        );
    }
    Ok(has_some)
}

/// The work on the files, each of which is digested and then encoded.
fn task_of(rt: &HostRuntime, options: &EncodeOptions<'_>) -> Task {
    let mut bytes = 0u64;
    for path in &options.files {
        bytes = bytes.saturating_add(length_of(rt, path));
    }
    Task {
        operation: Operation::Encode,
        units: options.files.len() as u64,
        bytes,
        passes: 2,
    }
}

/// How long a file is, as far as the system says it.
fn length_of(rt: &HostRuntime, path: &str) -> u64 {
    fs::metadata(rt, path).map_or(0, |metadata| metadata.len())
}

/// Encodes the files one after the other, says why one isn't, and then writes the store's list of digests anew.
fn encode_all<R: Threads + Sync>(
    threads: &R,
    rt: &HostRuntime,
    options: &EncodeOptions<'_>,
    target: &mut Target<'_>,
    is_clean: bool,
) -> Result<Tally, FileFault> {
    let progress = Progress::new(rt, task_of(rt, options), options.quiet);
    let mut done = Tally::new(is_clean);
    for path in &options.files {
        let encoded = encode_one(threads, rt, options, target, path, &progress);
        done.note(rt, Some(&progress), encoded)?;
        progress.count_file(rt, length_of(rt, path));
    }
    progress.clear(rt);
    if target.has_failed {
        done.fail();
    }
    write_new_sums(rt, &mut SystemFolder::new(rt), target)?;
    Ok(done)
}

/// Encodes a file, or what standard input has.
fn encode_one<R: Threads + Sync>(
    threads: &R,
    rt: &HostRuntime,
    options: &EncodeOptions<'_>,
    target: &mut Target<'_>,
    path: &str,
    progress: &Progress,
) -> Result<(), FileFault> {
    let name = options.name;
    if path != "-" {
        let source = SourceFile {
            path,
            name,
            progress,
        };
        return encode_file(threads, rt, target, &source);
    }
    let spool = Spool::fill(rt, target.folder, progress)?;
    let source = SourceFile {
        path: spool.path(),
        name,
        progress,
    };
    let encoded = encode_file(threads, rt, target, &source);
    spool.remove(rt, target, progress, encoded)
}

/// Makes the store's folder, unless it is there, and writes its name to the disk.
fn make_store(rt: &HostRuntime, folder: &str) -> Result<(), FileFault> {
    match make_folder(rt, folder) {
        Ok(true) => {}
        Ok(false) => return Ok(()),
        Err(error) => return Err(device(rt.alloc(), folder, error)),
    }
    let above = folder_of(folder.trim_end_matches('/'));
    match sync_folder(rt, above) {
        Ok(()) => Ok(()),
        Err(error) => Err(device(rt.alloc(), above, error)),
    }
}

/// What is in the store that is encoded into. As root, it is refused where others may write, unless they are trusted.
fn listed(rt: &HostRuntime, options: &EncodeOptions<'_>) -> Result<Listing, FileFault> {
    let pattern = options.naming.pattern;
    let code = if pattern.has_shards() {
        options.code
    } else {
        Code::Wide
    };
    let wanted = Wanted {
        pattern,
        code,
        knows_code: false,
        has_stripes: true,
        part: None,
        links: options.links,
        asks_copies: false,
        sums: None,
        watched: &[],
    };
    let listing = list(rt, options.folder, &wanted).map_err(|error| device(
        rt.alloc(),
        options.folder,
        error,
    ))?;
    say_links(rt, &listing);
    if !options.trusts_writers {
        refuse_untrusted(rt, &listing)?;
    }
    if !options.allows_unmounted {
        refuse_unmounted(rt, options.folder, &pattern, code, options.links)?;
    }
    Ok(listing)
}

/// The store that is encoded into, refused where it has fragments of the other code.
fn target_of<'o>(
    rt: &HostRuntime,
    options: &EncodeOptions<'o>,
    listing: &Listing,
) -> Result<Target<'o>, FileFault> {
    if listing.names.of_another_code(options.code) != Others::None {
        return Err(FileFault::Store {
            fault: StoreFault::OtherCode {
                folder: String::from_str(rt.alloc(), options.folder)?,
                other: other_than(options.code).text(),
            },
        });
    }
    Ok(Target {
        folder: options.folder,
        pattern: options.naming.pattern,
        code: options.code,
        sums: stored_sums(rt, options.folder)?,
        is_changed: false,
        has_failed: false,
        links: options.links,
        makes_folders: options.makes_folders,
        replaces: options.replaces,
    })
}
