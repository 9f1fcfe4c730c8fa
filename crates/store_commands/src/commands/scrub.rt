//! The command `scrub`.
use crate::commands::{counters_of, open_counted, say_worked, test_opening_of};
use crate::output::row_stream::RowStream;
use crate::output::{print_line, refuse_outputs, say_alone, say_summary};
use crate::work::tasks::scrub_task;
use crate::work::{Opened, Stripes, Work, Worked, work_on};
use std::alloc::AllocError;
use std::io;
use std::thread::Threads;
use store_arguments::{ScrubOptions, TestOptions};
use store_faults::{FileFault, device};
use store_folder::Site;
use store_opening::{OpenStore, Opening};
use store_progress::Operation;
use store_reports::{Results, RowSource, finding_lines, scrubbed, status_of};

/// Tests the stripes of a store, says what isn't as it should be, and gives the exit status.
pub fn scrub<R: Threads + Sync>(
    rt: &R,
    system: &HostRuntime,
    options: &ScrubOptions<'_>,
) -> Result<u8, FileFault> {
    let test = &options.test;
    refuse_outputs(system, test)?;
    let opening = test_opening_of(&options.store, test);
    let store = open_counted(system, Operation::Scrub, test, &opening)?;
    scrub_opened(rt, system, test, &opening, &store)
}

/// Tests the stripes of an open store, and writes the counters at its end.
fn scrub_opened<R: Threads + Sync>(
    rt: &R,
    system: &HostRuntime,
    test: &TestOptions<'_>,
    opening: &Opening<'_>,
    store: &OpenStore,
) -> Result<u8, FileFault> {
    let stripes = store.stripes(system)?;
    let task = scrub_task(store, stripes.as_slice());
    let counters = counters_of(system, task, test.quiet, test, opening.folder)?;
    let opened = Opened {
        store: &*store,
        opening: &*opening,
        stripes: stripes.as_slice(),
        counters: &counters,
    };
    let ended = match scrub_all(rt, system, opened, test) {
        Ok(status) => Ok(status),
        Err(error) => Err(device(system.alloc(), opening.folder, error)),
    };
    counters.end(system, ended)
}

/// Tests the stripes of an open store, as the options ask.
fn scrub_all<R: Threads + Sync>(
    rt: &R,
    system: &HostRuntime,
    opened: Opened<'_>,
    test: &TestOptions<'_>,
) -> io::Result<u8> {
    let Opened { store, opening, .. } = opened;
    let site = store.site_of(opening);
    say_alone(system, store, opening, false);
    scrub_at(rt, system, opened, test, &site)
}

/// Tests the stripes of a store at a site.
fn scrub_at<'a, R: Threads + Sync>(
    rt: &R,
    system: &HostRuntime,
    opened: Opened<'a>,
    test: &TestOptions<'_>,
    site: &'a Site<'a>,
) -> io::Result<u8> {
    // A scrub rebuilds nothing, so no row says this.
    let word = "rebuilt";
    let rows = RowStream::new(RowSource { site, word });
    let stripes = Stripes {
        opened,
        site,
        rows: if test.json { Some(&rows) } else { None },
    };
    let work = Work::Scrub(opened.store.code);
    let Worked { all, held } = work_on(rt, system, &stripes, work, test.workers)?;
    opened.counters.progress.clear(system);
    let alloc = system.alloc();
    let results = Results::new(alloc, site, opened.contents(), all.as_slice(), word)?;
    say_scrubbed(system, &results, &rows, held, test)
}

/// Says what isn't as it should be, and gives the exit status.
fn say_scrubbed(
    rt: &HostRuntime,
    results: &Results<'_>,
    rows: &RowStream<'_>,
    held: String,
    test: &TestOptions<'_>,
) -> io::Result<u8> {
    let are_said = test.json || say_findings(rt, results)?;
    let is_reported = say_worked(rt, results, rows, held, test)? && are_said;
    let is_said = !are_said || say_summary(rt, scrubbed(rt.alloc(), results)?, test)?;
    Ok(status_of(&results.totals, is_reported && is_said))
}

/// Writes what was found to standard output. Says whether it could be written.
fn say_findings(rt: &HostRuntime, results: &Results<'_>) -> Result<bool, AllocError> {
    for done in results.all {
        for line in finding_lines(rt.alloc(), results, done)? {
            if !print_line(rt, line)? {
                return Ok(false);
            }
        }
    }
    Ok(true)
}
