//! Where the names of a store lead: the ends of links, and the folders.
use folders::Identity;
use std::alloc::{AllocError, Global};
use std::fs::Metadata;
use std::io;
use store_names::last_of;

/// The end of a link: which folder it is in, and its name there.
#[derive(Drop)]
pub struct End {
    pub folder: Identity,
    pub last: String,
}

/// The path of a link, and its end.
#[derive(Drop)]
pub struct NamedEnd {
    pub path: String,
    pub end: End,
}

/// The name of a folder in the store, and which folder it is.
#[derive(Drop)]
pub struct NamedFolder {
    pub name: String,
    pub folder: Identity,
}

/// The path of a link of which isn't known where it leads, and the number of the system's error.
#[derive(Drop)]
pub struct UnknownEnd {
    pub path: String,
    pub code: i32,
}

/// Where names of a store lead.
#[derive(Drop)]
pub struct Ends {
    pub unknown: Vec<UnknownEnd>,
    pub links: Vec<NamedEnd>,
    pub folders: Vec<NamedFolder>,
}

impl Ends {
    /// No names.
    pub(crate) fn new(alloc: Global) -> Ends {
        Ends {
            unknown: Vec::new(alloc),
            links: Vec::new(alloc),
            folders: Vec::new(alloc),
        }
    }

    /// Notes the path that a link leads to, of which this is said of the folder.
    pub(crate) fn note_link(
        &mut self,
        alloc: Global,
        path: String,
        there: &Metadata,
        end: &str,
    ) -> Result<(), AllocError> {
        let folder = Identity::of(there);
        let last = String::from_str(alloc, last_of(end))?;
        let end = End { folder, last };
        self.links.push(NamedEnd { path, end })?;
        Ok(())
    }

    /// Notes that it isn't known where a link leads, or who may write there.
    pub(crate) fn note_unknown(
        &mut self,
        path: String,
        error: &io::Error,
    ) -> Result<(), AllocError> {
        let code = error.raw_os_error().unwrap_or(0);
        self.unknown.push(UnknownEnd { path, code })?;
        Ok(())
    }

    /// Notes of a folder in the store which one it is.
    pub(crate) fn note_folder(
        &mut self,
        alloc: Global,
        name: &str,
        there: &Metadata,
    ) -> Result<(), AllocError> {
        self.folders.push(NamedFolder {
            name: String::from_str(alloc, name)?,
            folder: Identity::of(there),
        })?;
        Ok(())
    }
}
