//! The command `read`.
use store_arguments::ReadOptions;
use store_faults::{DONE, FileFault};
use store_files::{StoredFile, first_described};
use store_progress::{Operation, Progress, Task};
use store_reading::{passes_to, read_file};

/// Writes a file to a file or to standard output, says what was left out, and gives the exit status.
pub fn read(rt: &HostRuntime, options: &ReadOptions<'_>) -> Result<u8, FileFault> {
    let file = StoredFile {
        folder: options.folder,
        pattern: options.naming.pattern,
        name: options.name,
        links: options.links,
        progress: None,
    };
    match options.output {
        // Standard output may be the terminal on which the line would be.
        None => read_file(rt, &file, None)?,
        Some(path) => read_shown(rt, &file, path, options.quiet)?,
    }
    Ok(DONE)
}

/// Writes a file to a path, and shows how far that is.
fn read_shown(
    rt: &HostRuntime,
    file: &StoredFile<'_, '_>,
    path: &str,
    is_quiet: bool,
) -> Result<(), FileFault> {
    // How long it is, as far as a description says it.
    let bytes = first_described(rt, file)?.map_or(0, |described| described.length);
    let task = Task {
        operation: Operation::Read,
        units: 1,
        bytes,
        passes: passes_to(rt, path),
    };
    let progress = Progress::new(rt, task, is_quiet);
    let shown = StoredFile {
        progress: Some(&progress),
        ..*file
    };
    let done = read_file(rt, &shown, Some(path));
    progress.clear(rt);
    done
}
