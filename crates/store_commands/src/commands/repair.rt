//! The command `repair`.
use crate::commands::{counters_of, open_counted, say_worked, test_opening_of};
use crate::output::counters_file::CountersFile;
use crate::output::row_stream::RowStream;
use crate::output::{refuse_outputs, say_all, say_alone, say_summary};
use crate::work::tasks::repair_task;
use crate::work::{Opened, Stripes, Work, Worked, work_on};
use lrc_code::Code;
use std::alloc::{AllocError, Global};
use std::io;
use std::thread::Threads;
use store_arguments::RepairOptions;
use store_faults::{DEVICE, FileFault, LEFT, device, say};
use store_folder::{FolderStore, Part, Site, tag_of_part};
use store_opening::{Access, OpenStore, Opening, Unmounted, refuse_other_stores, remove_leftovers};
use store_progress::{Operation, most_file_bytes, refuse_over_limit};
use store_repair::{Reads, Repair, Stripe};
use store_reports::{
    Results, RowSource, finding_lines, planned, repaired, status_of, status_of_plan,
    unchecked_lines,
};

/// Repairs the stripes of a store, says what was done and what is left, and gives the exit status.
pub fn repair<R: Threads + Sync>(
    rt: &R,
    system: &HostRuntime,
    options: &RepairOptions<'_>,
) -> Result<u8, FileFault> {
    refuse_outputs(system, &options.test)?;
    let opening = opening_of(options);
    let store = open_counted(system, Operation::Repair, &options.test, &opening)?;
    repair_opened(rt, system, options, &opening, &store)
}

/// Repairs the stripes of an open store, and gives its locks back.
fn repair_opened<R: Threads + Sync>(
    rt: &R,
    system: &HostRuntime,
    options: &RepairOptions<'_>,
    opening: &Opening<'_>,
    store: &OpenStore,
) -> Result<u8, FileFault> {
    let Ok(stripes) = store.stripes(system) else {
        return Err(refused(system, store, FileFault::OutOfMemory));
    };
    let counters = match counters_for(system, options, opening, store, stripes.as_slice()) {
        Ok(counters) => counters,
        Err(fault) => return Err(refused(system, store, fault)),
    };
    if let Err(fault) = refuse_long(system, store.code, stripes.as_slice(), options.dry_run) {
        return counters.end(system, Err(refused(system, store, fault)));
    }
    let opened = Opened {
        store: &*store,
        opening: &*opening,
        stripes: stripes.as_slice(),
        counters: &counters,
    };
    let status = repair_all(rt, system, opened, options);
    let ended = match ended(status, store.locks.release(system)) {
        Ok(status) => Ok(status),
        Err(error) => Err(device(system.alloc(), opening.folder, error)),
    };
    counters.end(system, ended)
}

/// The counters of a repair of these stripes.
fn counters_for<'a>(
    system: &HostRuntime,
    options: &RepairOptions<'a>,
    opening: &Opening<'a>,
    store: &OpenStore,
    stripes: &[Stripe<'_>],
) -> Result<CountersFile<'a>, FileFault> {
    let repair = repair_of(store.code, options);
    let task = repair_task(system.alloc(), store, &repair, stripes)?;
    let is_quiet = options.test.quiet || options.dry_run;
    Ok(counters_of(system, task, is_quiet, &options.test, opening.folder)?)
}

/// Gives the locks of a repair back that is refused before it begins, and says why it is.
fn refused(rt: &HostRuntime, store: &OpenStore, fault: FileFault) -> FileFault {
    let _ = store.locks.release(rt);
    fault
}

/// Refuses stripes of which fragments are lost that are longer than files may get here: the system would end the run at the first of them.
/// A dry run makes none.
fn refuse_long(
    rt: &HostRuntime,
    code: Code,
    stripes: &[Stripe<'_>],
    is_dry: bool,
) -> Result<(), FileFault> {
    if is_dry || most_file_bytes(rt).is_none() {
        return Ok(());
    }
    for stripe in stripes {
        if let Some(length) = stripe.files.length() {
            if !stripe.files.lost(rt.alloc(), code, length)?.is_empty() {
                refuse_over_limit(rt, stripe.name, length)?;
            }
        }
    }
    Ok(())
}

/// A store that is opened to be repaired, or to plan that.
fn opening_of<'a>(options: &RepairOptions<'a>) -> Opening<'a> {
    let access = if options.dry_run {
        Access::Reads
    } else {
        Access::Writes {
            trusts_writers: options.trusts_writers,
        }
    };
    Opening {
        to: options.to,
        access,
        unmounted: if options.to.is_some() {
            Unmounted::Named
        } else if options.allows_unmounted {
            Unmounted::Allowed
        } else {
            Unmounted::LeftAlone
        },
        ..test_opening_of(&options.store, &options.test)
    }
}

/// How a repair ended whose locks were then given back.
fn ended(status: io::Result<u8>, released: io::Result<()>) -> io::Result<u8> {
    let status = status?;
    released?;
    Ok(status)
}

/// The begin of the names of unfinished files, by the part of the store that a run works on.
fn tag_of(alloc: Global, part: Option<Part>) -> Result<String, AllocError> {
    match part {
        Some(part) => tag_of_part(alloc, part.index, part.of),
        None => Ok(String::new(alloc)),
    }
}

/// Repairs the stripes of an open store.
fn repair_all<R: Threads + Sync>(
    rt: &R,
    system: &HostRuntime,
    opened: Opened<'_>,
    options: &RepairOptions<'_>,
) -> io::Result<u8> {
    let Opened { store, opening, .. } = opened;
    let tag = tag_of(system.alloc(), opening.part)?;
    let tag_of_run = store.locks.tag_of_run(system.alloc(), tag.as_str())?;
    let site = Site {
        target: opening.to.unwrap_or(store.folder.as_str()),
        tag: tag_of_run.as_str(),
        ..store.site_of(opening)
    };
    if is_refused(system, store, opening, &site, opened.stripes)? {
        return Ok(LEFT);
    }
    say_alone(system, store, opening, options.dry_run);
    let target = store.target.as_ref().unwrap_or(&store.listing);
    let are_removed = options.dry_run
        || remove_leftovers(system, &store.locks, target, tag.as_str())?;
    let status = repair_at(rt, system, opened, options, &site)?;
    if !are_removed {
        return Ok(DEVICE);
    }
    Ok(status)
}

/// Repairs the stripes of a store at a site.
fn repair_at<'a, R: Threads + Sync>(
    rt: &R,
    system: &HostRuntime,
    opened: Opened<'a>,
    options: &RepairOptions<'_>,
    site: &'a Site<'a>,
) -> io::Result<u8> {
    let repair = repair_of(opened.store.code, options);
    let (work, word) = if options.dry_run {
        (Work::Plan(repair), "would be rebuilt")
    } else {
        (Work::Repair(repair), "rebuilt")
    };
    let rows = RowStream::new(RowSource { site, word });
    let stripes = Stripes {
        opened,
        site,
        rows: if options.test.json { Some(&rows) } else { None },
    };
    let Worked { all, held } = work_on(rt, system, &stripes, work, options.test.workers)?;
    opened.counters.progress.clear(system);
    let alloc = system.alloc();
    let results = Results::new(alloc, site, opened.contents(), all.as_slice(), word)?;
    say_repaired(system, &results, &rows, held, options)
}

/// Whether no stripe fits the code that the places say, which then is said. A code that was given is believed, and a part may have others.
fn is_refused(
    rt: &HostRuntime,
    store: &OpenStore,
    opening: &Opening<'_>,
    site: &Site<'_>,
    stripes: &[Stripe<'_>],
) -> io::Result<bool> {
    if opening.code.is_some() || opening.part.is_some() {
        return Ok(false);
    }
    // All of a fragment is held to its digest: that is done only if the beginnings fit no stripe.
    let files = FolderStore::new(
        rt,
        Site {
            sums: None,
            ..*site
        },
    );
    if refuse_other_stores(rt.alloc(), store, &files, stripes)?.is_none() {
        return Ok(false);
    }
    let files = FolderStore::new(rt, *site);
    match refuse_other_stores(rt.alloc(), store, &files, stripes)? {
        Some(fault) => {
            say(rt, format!(in rt.alloc(); "rebuild-store: {fault}"))?;
            Ok(true)
        }
        None => Ok(false),
    }
}

/// How stripes are repaired, by the options.
fn repair_of(code: Code, options: &RepairOptions<'_>) -> Repair {
    Repair {
        code,
        reads: options.reads,
        replace_damaged: options.replace_damaged,
        assume_one_damaged: options.assume_one_damaged,
        elsewhere: options.to.is_some(),
    }
}

/// Says what became of the stripes and, unless as few survivors were read as it takes, what no check covered; gives the exit status.
fn say_repaired(
    rt: &HostRuntime,
    results: &Results<'_>,
    rows: &RowStream<'_>,
    held: String,
    options: &RepairOptions<'_>,
) -> io::Result<u8> {
    let alloc = rt.alloc();
    for done in results.all {
        say_all(rt, finding_lines(alloc, results, done)?)?;
        if options.reads != Reads::Few {
            say_all(rt, unchecked_lines(alloc, results, done)?)?;
        }
    }
    let is_reported = say_worked(rt, results, rows, held, &options.test)?;
    let summary = if options.dry_run {
        planned(alloc, results)?
    } else {
        repaired(alloc, results)?
    };
    let are_said = say_summary(rt, summary, &options.test)? && is_reported;
    Ok(if options.dry_run {
        status_of_plan(&results.totals, are_said)
    } else {
        status_of(&results.totals, are_said)
    })
}
