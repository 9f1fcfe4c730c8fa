//! The limit on the length of files that a process may write. A write beyond it would end the run without a word, by a signal.
use std::fs;
use std::io::{self, ErrorKind};

/// What the system says of the limits of a process.
const LIMITS: &str = "/proc/self/limits";

/// The most bytes that a file may get which this process writes; none if there is no limit, or the system doesn't say one.
pub fn most_file_bytes(rt: &HostRuntime) -> Option<u64> {
    let text = fs::read_to_string(rt, LIMITS).ok()?;
    let line = text
        .as_str()
        .lines()
        .find(|line| line.starts_with("Max file size"))?;
    line.split_whitespace().nth(3)?.parse::<u64>().ok()
}

/// That a file would be longer than this process may write.
pub fn too_long() -> io::Error {
    io::Error::new(
        ErrorKind::FileTooLarge,
        "would be longer than files may get here: ulimit -f",
    )
}
