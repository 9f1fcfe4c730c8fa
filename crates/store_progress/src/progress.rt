//! How far a command is, counted also within a long file or stripe, and the line on a terminal that says so.
use crate::pace::Pace;
use crate::turns::Turns;
use std::alloc::{AllocError, Global};
use std::io::{self, IsTerminal};
use std::sync::atomic::{AtomicU64, Ordering};
use std::time::Instant;
use store_repair::StripeOutcome;

/// The least time between two lines, in milliseconds.
const BETWEEN: u64 = 200;

const MIB: u64 = 1_048_576;

/// The line is written anew in its place, isn't folded where the terminal is narrower, and ends, so that what is written after a run that
/// was killed begins below it.
const BEGIN: &str = "\r\x1b[K\x1b[?7l";

const END: &str = "\x1b[?7h\n";

const BACK: &str = "\x1b[A";

/// A command that shows how far it is. A task has no text of its own, since no lifetime may be in what a file system opens.
#[derive(Clone, Copy, PartialEq, Eq)]
pub enum Operation {
    Repair,
    Scrub,
    Encode,
    Verify,
    Read,
}

impl Operation {
    /// The name of its command.
    fn name(self) -> &'static str {
        match self {
            Operation::Repair => "repair",
            Operation::Scrub => "scrub",
            Operation::Encode => "encode",
            Operation::Verify => "verify",
            Operation::Read => "read",
        }
    }

    /// What it counts.
    fn unit(self) -> &'static str {
        match self {
            Operation::Repair => "fragments",
            Operation::Scrub => "stripes",
            Operation::Encode | Operation::Verify | Operation::Read => "files",
        }
    }

    /// What findings of no damage are; none if it finds nothing.
    fn others(self) -> Option<&'static str> {
        match self {
            Operation::Repair => Some("given up"),
            Operation::Scrub => Some("lost"),
            Operation::Encode | Operation::Verify | Operation::Read => None,
        }
    }
}

/// What a line counts.
#[derive(Clone, Copy)]
pub struct Task {
    pub operation: Operation,
    pub units: u64,
    /// The bytes of all units together.
    pub bytes: u64,
    /// How often each byte is gone over.
    pub passes: u64,
}

/// What is to be done, what of it is done, and since when. Nothing is shown where standard error is no terminal.
#[derive(Drop)]
pub struct Progress {
    /// Since when it is counted; none if nobody sees it.
    start: Option<Instant>,
    is_seen: bool,
    pace: Option<Pace>,
    task: Task,
    done: AtomicU64,
    done_bytes: AtomicU64,
    /// How many bytes were gone over of units that aren't done.
    passed: AtomicU64,
    damaged: AtomicU64,
    others: AtomicU64,
    /// When the line is shown.
    turns: Turns,
    /// 1 while the line is there.
    lines: AtomicU64,
}

impl Progress {
    /// The progress of a task, of which nothing is done.
    pub fn new(rt: &HostRuntime, task: Task, is_quiet: bool) -> Progress {
        let is_seen = Progress::is_seen(rt, is_quiet);
        let start = if is_seen { Instant::now(rt).ok() } else { None };
        Progress {
            start,
            is_seen,
            pace: None,
            task,
            done: AtomicU64::new(0),
            done_bytes: AtomicU64::new(0),
            passed: AtomicU64::new(0),
            damaged: AtomicU64::new(0),
            others: AtomicU64::new(0),
            turns: Turns::new(BETWEEN),
            lines: AtomicU64::new(0),
        }
    }

    /// Whether a line is shown.
    pub fn is_seen(rt: &HostRuntime, is_quiet: bool) -> bool {
        !is_quiet && rt.stderr().is_terminal()
    }

    /// The same, counted also if no line is shown.
    pub fn counted(self, rt: &HostRuntime) -> Progress {
        match self.start {
            Some(_) => self,
            None => Progress {
                start: Instant::now(rt).ok(),
                ..self
            },
        }
    }

    /// The same, in which all threads together read at most so many bytes a second.
    pub fn paced(self, rt: &HostRuntime, rate: u64) -> Progress {
        Progress {
            pace: Pace::new(rt, rate),
            ..self
        }
    }

    /// Whether what is done is counted.
    pub fn is_counted(&self) -> bool {
        self.start.is_some()
    }

    /// The name of the command.
    pub fn command(&self) -> &'static str {
        self.task.operation.name()
    }

    /// How many milliseconds have passed since it began; none if it isn't counted.
    pub fn milliseconds(&self, rt: &HostRuntime) -> Option<u64> {
        let elapsed = self.start?.elapsed(rt).ok()?;
        Some(u64::try_from(elapsed.as_millis()).unwrap_or(u64::MAX))
    }

    /// Sleeps after so many bytes were read for as long as the limit on that says.
    pub(crate) fn keep_pace(&self, rt: &HostRuntime, bytes: u64) {
        if let Some(pace) = &self.pace {
            pace.keep(rt, bytes);
        }
    }

    /// What is counted, each with its name: what is to be done, what is done, and what was found.
    pub(crate) fn counts(&self) -> [(&'static str, u64); 6] {
        [
            ("units", self.task.units),
            ("units_done", self.done.load(Ordering::SeqCst)),
            ("bytes", self.task.bytes),
            ("bytes_done", self.bytes_done()),
            ("damaged", self.damaged.load(Ordering::SeqCst)),
            ("left", self.others.load(Ordering::SeqCst)),
        ]
    }

    /// How often each byte is gone over.
    pub fn passes(&self) -> u64 {
        self.task.passes
    }

    /// Notes what became of a stripe.
    pub fn note(&self, outcome: &StripeOutcome) {
        for finding in &outcome.findings {
            if finding.reason.is_damage() {
                self.damaged.fetch_add(1, Ordering::SeqCst);
            } else if !outcome.is_mended(finding) {
                self.others.fetch_add(1, Ordering::SeqCst);
            }
        }
    }

    /// Notes findings of no damage that aren't mended, as of the descriptions of a stripe.
    pub fn note_left(&self, count: u64) {
        self.others.fetch_add(count, Ordering::SeqCst);
    }

    /// Counts units that are done, of which so many bytes were gone over, and shows the line if it was shown long enough ago.
    pub fn count(&self, rt: &HostRuntime, units: u64, bytes: u64, passed: u64) {
        if self.start.is_none() {
            return;
        }
        self.passed.fetch_sub(passed, Ordering::SeqCst);
        self.done.fetch_add(units, Ordering::SeqCst);
        self.done_bytes.fetch_add(bytes, Ordering::SeqCst);
        self.show_in_time(rt);
    }

    /// Counts a file of so many bytes that is done, where no other is worked on beside it.
    pub fn count_file(&self, rt: &HostRuntime, bytes: u64) {
        self.count(rt, 1, bytes, self.passed.load(Ordering::SeqCst));
    }

    /// Counts bytes that were gone over of a unit that isn't done, and shows the line if it was shown long enough ago.
    pub fn advance(&self, rt: &HostRuntime, bytes: u64) {
        if self.start.is_none() {
            return;
        }
        self.passed.fetch_add(bytes, Ordering::SeqCst);
        self.show_in_time(rt);
    }

    /// Shows the line if somebody sees it and it was shown long enough ago.
    fn show_in_time(&self, rt: &HostRuntime) {
        if !self.is_seen {
            return;
        }
        if let Some(now) = self.milliseconds(rt) {
            if self.turns.take(now) {
                let _ = self.show(rt, now);
            }
        }
    }

    /// How many bytes are done, also of units that aren't.
    fn bytes_done(&self) -> u64 {
        let passed = self.passed.load(Ordering::SeqCst) / self.task.passes.max(1);
        let done = self.done_bytes.load(Ordering::SeqCst);
        done.saturating_add(passed).min(self.task.bytes)
    }

    /// Shows the line, so many milliseconds after the start, in place of an earlier one.
    fn show(&self, rt: &HostRuntime, now: u64) -> io::Result<()> {
        let Task {
            operation,
            units,
            bytes,
            ..
        } = self.task;
        let name = operation.name();
        let unit = operation.unit();
        let done = self.done.load(Ordering::SeqCst);
        let done_bytes = self.bytes_done();
        let speed = done_bytes.saturating_mul(1_000) / now.max(1);
        let left = bytes.saturating_sub(done_bytes) / speed.max(1);
        let minutes = left / 60;
        let seconds = left % 60;
        let (done_whole, done_tenth) = tenths_of(done_bytes);
        let (all_whole, all_tenth) = tenths_of(bytes);
        let speed = speed / MIB;
        let alloc = rt.alloc();
        let amount = format!(in alloc;
            "{done_whole}.{done_tenth}/{all_whole}.{all_tenth} MiB  {speed} MiB/s"
        )?;
        let found = self.found(alloc)?;
        let rest = format!(in alloc; "{minutes}:{seconds:02} left{found}")?;
        let line = format!(in alloc; "{name}: {done}/{units} {unit}  {amount}  {rest}")?;
        let back = if self.lines.swap(1, Ordering::SeqCst) == 1 {
            BACK
        } else {
            ""
        };
        let line = format!(in alloc; "{back}{BEGIN}{line}{END}")?;
        eprint!(rt; "{line}")
    }

    /// What is said of findings.
    fn found(&self, alloc: Global) -> Result<String, AllocError> {
        let Some(others) = self.task.operation.others() else {
            return Ok(String::new(alloc));
        };
        let damaged = self.damaged.load(Ordering::SeqCst);
        let other = self.others.load(Ordering::SeqCst);
        format!(in alloc; "  {damaged} damaged, {other} {others}")
    }

    /// Takes the line away, as before another line is written.
    pub fn clear(&self, rt: &HostRuntime) {
        if self.lines.swap(0, Ordering::SeqCst) == 1 {
            let _ = eprint!(rt; "{BACK}\r\x1b[K");
        }
    }
}

/// Bytes as MiB and tenths of one.
fn tenths_of(bytes: u64) -> (u64, u64) {
    let tenths = bytes.saturating_mul(10) / MIB;
    (tenths / 10, tenths % 10)
}
