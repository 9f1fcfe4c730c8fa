//! How far a command is, as the text of counters that Prometheus reads.
use crate::progress::Progress;
use std::alloc::{AllocError, Global};
use std::time::{SystemTime, UNIX_EPOCH};
use store_faults::COUNTER_PREFIX;

impl Progress {
    /// The counters of a task over a store, one on each line: how much there is to do and how much is done, in units and in bytes, what was
    /// found, and for how many seconds the command runs; and of one that has ended its status, and when that was, in seconds since 1970.
    pub fn counters(
        &self,
        rt: &HostRuntime,
        store: &str,
        status: Option<u8>,
    ) -> Result<String, AllocError> {
        let alloc = rt.alloc();
        let labels = labels_of(alloc, self.command(), store)?;
        let labels = labels.as_str();
        let seconds = self.milliseconds(rt).unwrap_or(0) / 1_000;
        let mut text = String::new(alloc);
        for (name, value) in self.counts() {
            add(alloc, &mut text, name, labels, value)?;
        }
        add(alloc, &mut text, "seconds", labels, seconds)?;
        if let Some(status) = status {
            add(alloc, &mut text, "status", labels, u64::from(status))?;
            add(alloc, &mut text, "end_seconds", labels, time_of(rt))?;
        }
        Ok(text)
    }
}

/// The seconds since 1970; 0 if the clock can't be read.
fn time_of(rt: &HostRuntime) -> u64 {
    match SystemTime::now(rt) {
        Ok(now) => now
            .duration_since(UNIX_EPOCH)
            .map_or(0, |since| since.as_secs()),
        Err(_) => 0,
    }
}

/// Adds the line of a counter.
fn add(
    alloc: Global,
    text: &mut String,
    name: &str,
    labels: &str,
    value: u64,
) -> Result<(), AllocError> {
    let line = format!(in alloc; "{COUNTER_PREFIX}{name}{labels} {value}\n")?;
    text.push_str(line.as_str())
}

/// The labels that say which command over which store is counted.
fn labels_of(alloc: Global, command: &str, store: &str) -> Result<String, AllocError> {
    let store = escaped_label(alloc, store)?;
    format!(in alloc; "{{command=\"{command}\",store=\"{store}\"}}")
}

/// A text as it stands between the quotes of a label: a backslash before a quote and a backslash, and n for a line feed.
fn escaped_label(alloc: Global, text: &str) -> Result<String, AllocError> {
    let mut escaped = String::new(alloc);
    for letter in text.chars() {
        match letter {
            '\n' => escaped.push_str("\\n")?,
            '"' | '\\' => {
                escaped.push('\\')?;
                escaped.push(letter)?;
            }
            _ => escaped.push(letter)?,
        }
    }
    Ok(escaped)
}
