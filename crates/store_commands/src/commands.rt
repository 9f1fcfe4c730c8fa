//! The commands, and how a store is opened by their options.
pub(crate) mod list;
pub(crate) mod lost;
pub(crate) mod repair;
pub(crate) mod scrub;

use crate::output::counters_file::CountersFile;
use crate::output::row_stream::RowStream;
use crate::output::say_rows;
use std::alloc::AllocError;
use std::io;
use std::sync::Arc;
use store_arguments::{StoreOptions, TestOptions};
use store_faults::FileFault;
use store_opening::{OpenStore, Opening, open_store};
use store_progress::{Operation, Progress, Task};
use store_reports::Results;

/// A store that is opened to be read, or some of its stripes.
pub(crate) fn opening_of<'a>(store: &StoreOptions<'a>) -> Opening<'a> {
    let naming = &store.naming;
    Opening {
        stripes: store.stripes,
        part: store.part,
        ..Opening::to_read(
            store.folder,
            store.code,
            naming.text,
            naming.pattern,
            store.links,
        )
    }
}

/// A store that is opened to test its fragments.
pub(crate) fn test_opening_of<'a>(store: &StoreOptions<'a>, test: &TestOptions<'a>) -> Opening<'a> {
    Opening {
        sums: test.sums,
        report: test.report,
        progress: test.progress,
        ..opening_of(store)
    }
}

/// Where the counters of a task over a store go, of which nothing is done; it keeps to the rate that is given.
pub(crate) fn counters_of<'a>(
    rt: &HostRuntime,
    task: Task,
    is_quiet: bool,
    test: &TestOptions<'a>,
    store: &'a str,
) -> Result<CountersFile<'a>, AllocError> {
    let mut progress = Progress::new(rt, task, is_quiet);
    if test.progress.is_some() {
        progress = progress.counted(rt);
    }
    if let Some(rate) = test.rate {
        progress = progress.paced(rt, rate);
    }
    let progress = Arc::new(rt.alloc(), progress)?;
    Ok(CountersFile::new(test.progress, store, progress))
}

/// Opens a store for a command. If it is refused, the counters of an earlier run say no longer that all was well.
pub(crate) fn open_counted(
    rt: &HostRuntime,
    operation: Operation,
    test: &TestOptions<'_>,
    opening: &Opening<'_>,
) -> Result<OpenStore, FileFault> {
    match open_store(rt, opening) {
        Ok(store) => Ok(store),
        Err(fault) => {
            let task = Task {
                operation,
                units: 0,
                bytes: 0,
                passes: 1,
            };
            let counters = counters_of(rt, task, true, test, opening.folder)?;
            Err(counters.end_refused(rt, FileFault::from(fault)))
        }
    }
}

/// Prints the rows that were held back, and writes those of a report. Says whether all could be written.
pub(crate) fn say_worked(
    rt: &HostRuntime,
    results: &Results<'_>,
    rows: &RowStream<'_>,
    held: String,
    test: &TestOptions<'_>,
) -> io::Result<bool> {
    let mut held = held;
    let are_printed = !test.json || rows.end(rt, &mut held, results.alone)?;
    Ok(say_rows(rt, results, test)? && are_printed)
}
