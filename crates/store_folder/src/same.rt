//! Files that have their names already.
use crate::digesting::digest_of;
use crate::folder_store::FolderStore;
use crate::links::{Links, status_at};
use crate::surviving::open_fragment_in;
use folders::{Folder, Rights};
use lrc_code::Place;
use std::io::{self, ErrorKind};

impl<F: Folder> FolderStore<'_, F> {
    /// Those of a file of the stripe at another place, whose owner and rights a rebuilt fragment gets.
    pub(crate) fn rights_of(&self, stripe: &str, own: Place) -> io::Result<Option<Rights>> {
        let mut refused = None;
        for place in self.site.code.places() {
            if place.index() == own.index() {
                continue;
            }
            let path = self.path_of(self.site.folder, stripe, *place)?;
            match status_at(&self.files, path.as_str(), self.site.links) {
                Ok(status) if status.is_file() => return Ok(Some(status.rights)),
                Ok(_) => {}
                Err(error) if error.kind() == ErrorKind::NotFound => {}
                Err(error) => refused = Some(error),
            }
        }
        refused.map_or(Ok(None), Err)
    }

    /// Whether a file has its name, by what the system answered, or something that is there is the same: a run that was killed may have
    /// given the name to a file with the same bytes.
    pub(crate) fn has_name(
        &self,
        answer: io::Result<()>,
        made_at: &str,
        path: &str,
    ) -> io::Result<bool> {
        match answer {
            Ok(()) => Ok(true),
            Err(error) if error.kind() == ErrorKind::AlreadyExists => self.is_same(made_at, path),
            Err(error) => Err(error),
        }
    }

    /// Whether what is at a path is a regular file with the bytes of this one.
    fn is_same(&self, made_at: &str, path: &str) -> io::Result<bool> {
        let alloc = self.rt.alloc();
        let length = self.files.status(made_at)?.length;
        let links = Links::NotFollowed;
        let made = open_fragment_in(&self.files, made_at, length, links)?;
        let there = match open_fragment_in(&self.files, path, length, links) {
            Ok(there) => there,
            Err(error) if error.kind() == ErrorKind::OutOfMemory => return Err(error),
            Err(_) => return Ok(false),
        };
        let digest = digest_of(alloc, &made, length as usize)?;
        Ok(digest_of(alloc, &there, length as usize)? == digest)
    }
}
