//! The lines that say which files are in a store.
ghost use Rattle.std.specs.Prelude.{◌≡◌, ◌≢◌, false, true};
ghost use Rattle.store_reports.specs.declared.files.FileState.TheVariants.{Degraded, Lost, Whole};

use crate::rows::{Rows, quoted};
use lrc_code::Code;
use std::alloc::{AllocError, Global};

/// Whether a file can be read, as far as names and lengths show it.
#[derive(Clone, Copy, PartialEq, Eq)]
pub enum FileState {
    /// All of its fragments and descriptions are there.
    Whole,
    /// Something of it is lost, and what survives determines it.
    Degraded,
    /// What survives doesn't determine it.
    Lost,
}

/// A file of a store.
#[derive(Clone, Copy)]
pub struct ListedFile<'a> {
    pub name: &'a str,
    /// How many bytes it has, if a description says that.
    pub bytes: Option<u64>,
    pub code: Code,
    /// How many of its fragments are there.
    pub there: usize,
    pub state: FileState,
}

impl FileState {
    /// The state of a file, by how many of its fragments are lost, whether the others determine them, and whether its descriptions are as
    /// they should be.
    pub fn of(lost: usize, are_determined: bool, is_described: bool) -> FileState
        ensures lost { are_determined ≡ false → result ≡ Lost }
        ensures whole { are_determined ≡ true → lost ≡ 0 → is_described ≡ true → result ≡ Whole }
        ensures fragments { are_determined ≡ true → lost ≢ 0 → result ≡ Degraded }
        ensures descriptions { are_determined ≡ true → is_described ≡ false → result ≡ Degraded }
    {
        if !are_determined {
            FileState::Lost
        } else if lost == 0 && is_described {
            FileState::Whole
        } else {
            FileState::Degraded
        }
    }

    /// Its name.
    pub fn text(self) -> &'static str {
        match self {
            FileState::Whole => "whole",
            FileState::Degraded => "degraded",
            FileState::Lost => "lost",
        }
    }
}

/// The line of a file: its state, its bytes, its code, how many of its fragments are there, and its name; or these as a JSON object.
pub fn file_line(alloc: Global, file: &ListedFile<'_>, form: Rows) -> Result<String, AllocError> {
    let state = file.state.text();
    let code = file.code.text();
    let there = file.there;
    let all = file.code.places().len();
    match form {
        Rows::Csv => {
            let name = file.name;
            let bytes = bytes_text(alloc, file.bytes, "-")?;
            format!(in alloc; "{state} {bytes} {code} {there}/{all} {name}")
        }
        Rows::Json => {
            let name = quoted(alloc, file.name)?;
            let bytes = bytes_text(alloc, file.bytes, "null")?;
            let lost = all.saturating_sub(there);
            let first = format!(in alloc; "\"name\":{name},\"bytes\":{bytes},\"code\":\"{code}\"")?;
            format!(in alloc;
                "{{{first},\"fragments\":{there},\"lost\":{lost},\"state\":\"{state}\"}}"
            )
        }
    }
}

/// A number of bytes, or what is written where it isn't known.
fn bytes_text(alloc: Global, bytes: Option<u64>, unknown: &str) -> Result<String, AllocError> {
    match bytes {
        Some(bytes) => format!(in alloc; "{bytes}"),
        None => String::from_str(alloc, unknown),
    }
}
