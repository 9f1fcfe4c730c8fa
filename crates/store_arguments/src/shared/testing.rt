//! The options of the commands that test fragments.
ghost use Rattle.std.specs.Prelude.{◌≤◌, IfOk, IfSome};

use crate::faults::UsageFault;
use crate::shared::definitions::{Argument, FLAG, QUIET, TEXT};
use clap::ArgMatches;

/// The option that says how many threads there are.
pub(crate) const WORKERS: Argument = Argument {
    id: "workers",
    short: Some('j'),
    value: "N",
    default: Some("4"),
    help: "Threads that work on stripes, 1 to 16",
    ..TEXT
};

const RATE: Argument = Argument {
    id: "rate",
    value: "BYTES",
    help: "Read at most so many bytes a second, as 500K, 50M or 1G [default: no limit]",
    ..TEXT
};

const SUMS: Argument = Argument {
    id: "sums",
    value: "FILE",
    help: "Checksums that the fragments have to have, as sha256sum writes them [default: SHA256SUMS there]",
    ..TEXT
};

const REPORT: Argument = Argument {
    id: "report",
    value: "FILE",
    help: "Write a row for each fragment that was rebuilt, or is left, to this file",
    ..TEXT
};

const JSON: Argument = Argument {
    id: "json",
    help: "Write those rows to standard output as they are known, as a JSON object on each line",
    ..FLAG
};

const PROGRESS: Argument = Argument {
    id: "progress",
    value: "FILE",
    help: "Write counters for Prometheus to this file while the run goes on, and its status at the end",
    ..TEXT
};

/// How fragments are tested, and where the rows go that say what became of them.
#[derive(Clone, Copy)]
pub struct TestOptions<'a> {
    /// The path of a file of checksums.
    pub sums: Option<&'a str>,
    /// The path of the file that rows are written to.
    pub report: Option<&'a str>,
    /// Whether rows are written to standard output.
    pub json: bool,
    /// The path of the file that counters are written to.
    pub progress: Option<&'a str>,
    /// 1 to 16.
    pub workers: usize,
    /// The most bytes that are read in a second, at least 1; none for no limit.
    pub rate: Option<u64>,
    /// Whether neither progress nor a summary is shown.
    pub quiet: bool,
}

/// The arguments of a command that tests fragments, but for the number of threads.
pub(crate) static TEST_ARGUMENTS: &[Argument] = &[RATE, SUMS, REPORT, JSON, PROGRESS, QUIET];

impl<'a> TestOptions<'a> {
    /// What matches say of the tests.
    pub(crate) fn of(matches: &ArgMatches<'a>) -> Result<TestOptions<'a>, UsageFault>
        ensures { IfOk result (λ t. (1 ≤ t.workers) × (t.workers ≤ 16)) }
    {
        let report = matches.get_str("report");
        let progress = matches.get_str("progress");
        if report.is_some() && report == progress {
            return Err(UsageFault::TwoFiles);
        }
        Ok(TestOptions {
            sums: matches.get_str("sums"),
            report,
            json: matches.get_flag("json"),
            progress,
            workers: workers_of(matches.get_str("workers").unwrap_or(""))?,
            rate: rate_of(matches.get_str("rate"))?,
            quiet: matches.get_flag("quiet"),
        })
    }
}

/// The number of threads that a text says.
fn workers_of(text: &str) -> Result<usize, UsageFault>
    ensures { IfOk result (λ workers. (1 ≤ workers) × (workers ≤ 16)) }
{
    let workers = match text.parse::<usize>() {
        Ok(workers) => workers,
        Err(_) => 0,
    };
    if workers == 0 || workers > 16 {
        return Err(UsageFault::BadWorkers);
    }
    Ok(workers)
}

/// The number of bytes that a text says: digits, and behind them K, M or G for as many times 2 to the 10th, 20th or 30th power.
fn rate_of(text: Option<&str>) -> Result<Option<u64>, UsageFault>
    ensures { IfOk result (λ rate. IfSome rate (λ bytes. 1 ≤ bytes)) }
{
    let Some(text) = text else {
        return Ok(None);
    };
    let (digits, unit) = with_unit(text);
    match digits.parse::<u64>() {
        Ok(many) => match many.checked_mul(unit) {
            Some(bytes) if 0 < bytes => Ok(Some(bytes)),
            _ => Err(UsageFault::BadRate),
        },
        Err(_) => Err(UsageFault::BadRate),
    }
}

/// A number's digits, and how many bytes each of it is.
fn with_unit(text: &str) -> (&str, u64) {
    if let Some(digits) = text.strip_suffix('K') {
        return (digits, 1_024);
    }
    if let Some(digits) = text.strip_suffix('M') {
        return (digits, 1_048_576);
    }
    match text.strip_suffix('G') {
        Some(digits) => (digits, 1_073_741_824),
        None => (text, 1),
    }
}
