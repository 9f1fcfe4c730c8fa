//! What commands say: lines, rows and a summary.
pub(crate) mod counters_file;
mod report_file;
pub(crate) mod row_stream;

use report_file::write_report;
use std::alloc::AllocError;
use std::fs;
use std::io::{self, ErrorKind};
use store_arguments::TestOptions;
use store_faults::{FileFault, device, say, words_of, write};
use store_folder::folder_of;
use store_opening::{OpenStore, Opening};
use store_reports::{Results, Rows, alone_lines, rows_of};

/// Says lines on standard error.
pub(crate) fn say_all(rt: &HostRuntime, lines: Vec<String>) -> Result<(), AllocError> {
    for line in lines {
        say(rt, Ok(line))?;
    }
    Ok(())
}

/// Says how many files are named as fragments and are of no stripe, with the first one's name or with all names. Where memory is refused
/// the work goes on.
pub(crate) fn say_alone(rt: &HostRuntime, store: &OpenStore, opening: &Opening<'_>, all: bool) {
    let files = store.found.alone.as_slice();
    let lines = alone_lines(rt.alloc(), &opening.pattern, store.code, files, all);
    let _ = match lines {
        Ok(lines) => say_all(rt, lines),
        Err(error) => Err(error),
    };
}

/// Says a summary, unless none is wanted. It is on standard output, but where rows are there. Says whether it could be written.
pub(crate) fn say_summary(
    rt: &HostRuntime,
    summary: String,
    test: &TestOptions<'_>,
) -> Result<bool, AllocError> {
    if test.quiet {
        return Ok(true);
    }
    if test.json {
        say(rt, Ok(summary))?;
        return Ok(true);
    }
    print_line(rt, summary)
}

/// Writes a line to standard output, or says why it can't be written there. Says whether it could.
pub(crate) fn print_line(rt: &HostRuntime, line: String) -> Result<bool, AllocError> {
    match write(rt, Ok(line)) {
        Ok(()) => Ok(true),
        Err(error) => {
            say_unprinted(rt, error)?;
            Ok(false)
        }
    }
}

/// Says why standard output can't be written.
pub(crate) fn say_unprinted(rt: &HostRuntime, error: io::Error) -> Result<(), AllocError> {
    if error.kind() == ErrorKind::OutOfMemory {
        return Err(AllocError);
    }
    let why = words_of(rt.alloc(), &error)?;
    say(
        rt,
        format!(in rt.alloc(); "rebuild-store: standard output: {why}"),
    )
}

/// Refuses a report or counters whose folder isn't there, before anything is done.
pub(crate) fn refuse_outputs(rt: &HostRuntime, test: &TestOptions<'_>) -> Result<(), FileFault> {
    for path in [test.report, test.progress] {
        if let Some(path) = path {
            if let Err(error) = fs::metadata(rt, folder_of(path)) {
                return Err(device(rt.alloc(), path, error));
            }
        }
    }
    Ok(())
}

/// Writes the rows of a report, if one is asked for. Says whether they could be written.
pub(crate) fn say_rows(
    rt: &HostRuntime,
    results: &Results<'_>,
    test: &TestOptions<'_>,
) -> io::Result<bool> {
    let Some(path) = test.report else {
        return Ok(true);
    };
    let rows = rows_of(rt.alloc(), results, Rows::Csv)?;
    match write_report(rt, path, rows.as_str()) {
        Ok(()) => Ok(true),
        Err(error) if error.kind() == ErrorKind::OutOfMemory => Err(error),
        Err(error) => {
            let why = words_of(rt.alloc(), &error)?;
            say(
                rt,
                format!(in rt.alloc(); "rebuild-store: {path}: the report can't be written: {why}"),
            )?;
            Ok(false)
        }
    }
}
