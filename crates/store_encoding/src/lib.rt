//! Encoding a file into the fragments of a stripe, in place of another one too, and taking a file out of a store.
//!
//! ```rust
//! encode_file(&threads, &rt, &mut target, &SourceFile { path: "notes.txt", name: None, progress: &progress })?;
//! remove_stored(&rt, &mut target, "notes.txt")?;
//! ```
#![tactic(auto)]

mod encoding;
mod left;
mod own_code;
mod own_folders;
mod refusing;
mod removing;
mod taking;

pub use encoding::spool::Spool;
pub use encoding::subfolders::make_folder;
pub use encoding::sums::{stored_sums, write_new_sums};
pub use encoding::{SourceFile, encode_file};
pub use left::has_left;
pub use removing::remove_stored;
pub use taking::{take_away, take_files};
