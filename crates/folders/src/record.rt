//! What was called, as contracts see it. A record takes no memory, and nothing happens when it is written.
ghost use Rattle.std.specs.Prelude.{◌≡◌, ℕ, List, [], ◌∷◌, Option, Some};
ghost use Rattle.std.specs.Borrow.{ftrue};
ghost use Rattle.folders.specs.Calls.{Answered, answered_code, bytes_code};

use std::marker::Model;

/// The calls on a folder and whether each answered Ok, the newest first. Contracts read them as `calls`.
#[derive(Drop)]
pub struct Record {
    pub ghost calls: { List Answered } by { answered_code },
}

impl Model for Record {
    ghost also_owns = { λ _. ftrue };
}

/// The bytes that were appended to a file, if no append failed. Contracts read them as `bytes`.
#[derive(Drop)]
pub struct Written {
    pub ghost bytes: { Option (List ℕ) } by { bytes_code },
}

impl Model for Written {
    ghost also_owns = { λ _. ftrue };
}

/// A call that was made, to be recorded with its answer. The number of a file is the length of the record that it got when it was made.
#[derive(Clone, Copy)]
pub enum Call<'a> {
    Make(&'a str),
    Sync(&'a Record, &'a Written),
    Link(&'a Record, &'a str),
    LinkAgain(&'a str, &'a str),
    Rename(&'a Record, &'a str, &'a str),
    RenameAgain(&'a str, &'a str),
    Remove(&'a str),
    SyncFolder(&'a str),
    SameFile(&'a str, &'a str),
    Absent(&'a str),
}

impl Record {
    ghost use Rattle.folders.specs.Recorded.{recorded};

    /// No call was made.
    pub fn new() -> Record
        ensures { result.calls ≡ [] }
    {
        Record {}
    }

    /// The same record once more.
    pub fn again(&self) -> Record
        ensures { result.calls ≡ self.now.calls }
    {
        Record {}
    }

    /// The record with one more call.
    pub fn with(_before: &Record, _call: &Call<'_>, _is_ok: bool) -> Record
        ensures { result.calls ≡ recorded _call.now _is_ok ∷ _before.now.calls }
    {
        Record {}
    }
}

impl Written {
    ghost use Rattle.folders.specs.Recorded.{written_with};

    /// Nothing was appended.
    pub fn new() -> Written
        ensures { result.bytes ≡ Some [] }
    {
        Written {}
    }

    /// What was appended, and these bytes after it, if they were.
    pub fn with(_before: &Written, _bytes: &[u8], _is_ok: bool) -> Written
        ensures { result.bytes ≡ written_with _before.now.bytes _bytes.now _is_ok }
    {
        Written {}
    }
}
