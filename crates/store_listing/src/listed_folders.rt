//! What is noted of folders, links and files that are met while a store is listed.
use crate::disks::Unlisted;
use crate::listing::Listing;
use crate::watching::{Foreign, Wanted, Watched, is_of_store, may_others_write};
use folders::Identity;
use std::alloc::{AllocError, Global};
use std::fs::Metadata;
use std::io::{self, ErrorKind};
use std::os::unix::fs::MetadataExt;
use store_folder::Links;
use store_names::path_in;

impl Listing {
    /// Notes that a folder inside the store's can't be listed; the store's own has to be.
    pub(crate) fn note_unlisted(
        &mut self,
        alloc: Global,
        folder: &str,
        inside: &str,
        error: io::Error,
    ) -> io::Result<()> {
        let is_noted = |other: &Unlisted| other.name.as_str() == inside;
        if inside.is_empty() || error.kind() == ErrorKind::OutOfMemory {
            return Err(error);
        }
        if !self.unlisted.iter().any(is_noted) {
            self.unlisted.push(Unlisted {
                name: String::from_str(alloc, inside)?,
                path: path_in(alloc, folder, inside)?,
                error,
            })?;
        }
        Ok(())
    }

    /// Notes a link that isn't followed: once, though the folders of all disks may be below it.
    pub(crate) fn note_link(&mut self, path: String) -> Result<(), AllocError> {
        if self
            .link
            .as_ref()
            .is_some_and(|noted| noted.as_str() == path.as_str())
        {
            return Ok(());
        }
        if self.link.is_none() {
            self.link = Some(path);
        }
        self.links = self.links.saturating_add(1);
        Ok(())
    }

    /// Notes who may write into a folder of the store, and whether the watched path is a name of the store's in it.
    pub(crate) fn note_folder(
        &mut self,
        alloc: Global,
        path: &str,
        inside: &str,
        metadata: &Metadata,
        wanted: &Wanted<'_>,
    ) -> Result<(), AllocError> {
        self.note_writers(alloc, path, metadata)?;
        if wanted.links == Links::Followed {
            self.ends.note_folder(alloc, inside, metadata)?;
        }
        let here = Identity::of(metadata);
        for watched in wanted.watched {
            if watched.folder == here {
                let name = if inside.is_empty() {
                    String::from_str(alloc, watched.name)?
                } else {
                    path_in(alloc, inside, watched.name)?
                };
                if is_of_store(name.as_str(), wanted) {
                    self.note_watched(alloc, watched)?;
                }
            }
        }
        Ok(())
    }

    /// Notes a folder that others than root may write into, if it is the first.
    pub(crate) fn note_writers(
        &mut self,
        alloc: Global,
        path: &str,
        metadata: &Metadata,
    ) -> Result<(), AllocError> {
        if self.foreign.is_none() && may_others_write(metadata) {
            self.foreign = Some(Foreign {
                folder: String::from_str(alloc, path)?,
                user: metadata.uid(),
            });
        }
        Ok(())
    }

    /// Notes that a watched path is one of the store's.
    fn note_watched(&mut self, alloc: Global, watched: &Watched<'_>) -> Result<(), AllocError> {
        if self.watched.is_none() {
            self.watched = Some(String::from_str(alloc, watched.given)?);
        }
        Ok(())
    }

    /// Notes the watched paths at which this file is.
    pub(crate) fn note_file(
        &mut self,
        alloc: Global,
        metadata: &Metadata,
        wanted: &Wanted<'_>,
    ) -> Result<(), AllocError> {
        let here = Identity::of(metadata);
        for watched in wanted.watched {
            if watched.file == Some(here) {
                self.note_watched(alloc, watched)?;
            }
        }
        Ok(())
    }
}
