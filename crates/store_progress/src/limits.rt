//! What is refused by the limit on the length of files that a process may write, before any of it is written.
use folders::{most_file_bytes, too_long};
use std::alloc::AllocError;
use std::{fs, io};
use store_faults::FileFault;

/// Where the system shows what standard output is.
const OUTPUT: &str = "/proc/self/fd/1";

/// Refuses to write a file of so many bytes at a path if that is more than the process may write.
pub fn refuse_over_limit(rt: &HostRuntime, path: &str, bytes: u64) -> Result<(), FileFault> {
    match most_file_bytes(rt) {
        Some(most) if bytes > most => Err(over_limit(rt, path, bytes, most)?),
        _ => Ok(()),
    }
}

/// An error if this process may not write a file of so many bytes.
pub fn allow_file(rt: &HostRuntime, bytes: u64) -> io::Result<()> {
    match most_file_bytes(rt) {
        Some(most) if bytes > most => Err(too_long()),
        _ => Ok(()),
    }
}

/// An error if standard output is a regular file and may not get so many bytes more.
pub fn allow_output(rt: &HostRuntime, bytes: u64) -> io::Result<()> {
    match fs::metadata(rt, OUTPUT) {
        Ok(output) if output.is_file() => allow_file(rt, output.len().saturating_add(bytes)),
        _ => Ok(()),
    }
}

/// That a file would be longer than this process may write, in numbers.
fn over_limit(
    rt: &HostRuntime,
    path: &str,
    bytes: u64,
    most: u64,
) -> Result<FileFault, AllocError> {
    let what = format!(in rt.alloc();
        "{path}: would have {bytes} bytes, and no file may get more than {most} here: ulimit -f"
    )?;
    Ok(FileFault::Refused { what })
}
