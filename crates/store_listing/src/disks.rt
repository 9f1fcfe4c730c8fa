//! Folders of a store that can't be listed.
use std::io;

/// The number of the error that something is no folder.
pub const NOT_A_FOLDER: i32 = 20;

/// A folder that couldn't be listed: what is in it counts as lost.
pub struct Unlisted {
    /// Its name in the store, and its path.
    pub name: String,
    pub path: String,
    pub error: io::Error,
}

impl Drop for Unlisted {
    fn drop(self) {
        let Unlisted {
            name: _,
            path: _,
            error: _,
        } = self;
    }
}
