//! What is there of the copies of a stripe's description.
use crate::copies::DescribedStripe;
use folders::Rights;
use sha2::{Digest as _, Sha256};
use std::alloc::AllocError;
use std::fs;
use std::io::{self, ErrorKind};
use store_faults::{Copies, CopyState, FoundCopy};
use store_folder::{
    Site, description_names, first_description_name, is_absent, look_at, path_in, read_description,
    refuse_linked_folders,
};

/// The copies of a stripe's description that are there, or should be.
#[derive(Drop)]
pub(crate) struct Seen {
    pub(crate) copies: Copies,
    /// The owner and the rights of one that is there.
    pub(crate) like: Option<Rights>,
}

impl Seen {
    /// Looks at the copies of a stripe's description.
    pub(crate) fn look(
        rt: &HostRuntime,
        site: &Site<'_>,
        stripe: &DescribedStripe<'_>,
    ) -> Result<Seen, AllocError> {
        let alloc = rt.alloc();
        let mut seen = Seen {
            copies: Copies {
                all: Vec::new(alloc),
                listed: None,
            },
            like: None,
        };
        for name in description_names(alloc, &site.pattern, site.code, stripe.name)? {
            seen.add(rt, site, name, true)?;
        }
        for copy in seen.copies.all.iter_mut() {
            if matches!(copy.state, CopyState::Absent) {
                if let Err(error) = site.refuse_unmounted(copy.name.as_str()) {
                    copy.state = CopyState::Unread(error);
                }
            }
        }
        let first = first_description_name(alloc, stripe.name)?;
        let is_first = |copy: &FoundCopy| { copy.name.as_str() == first.as_str() };
        if !seen.copies.all.iter().any(is_first) {
            seen.add(rt, site, first, false)?;
        }
        Ok(seen)
    }

    /// Looks at what is under the name of a copy, and adds that; whether it has to be there is given.
    fn add(
        &mut self,
        rt: &HostRuntime,
        site: &Site<'_>,
        name: String,
        is_wanted: bool,
    ) -> Result<(), AllocError> {
        let path = path_in(rt.alloc(), site.folder, name.as_str())?;
        let state = state_of(rt, site, name.as_str(), path.as_str())?;
        if !is_wanted && is_of_others(site, name.as_str(), &state) {
            return Ok(());
        }
        if let (CopyState::There(..), None) = (&state, &self.like) {
            self.like = fs::metadata(rt, path.as_str())
                .ok()
                .map(|there| Rights::of(&there));
        }
        if let (Some(sums), None) = (site.sums, self.copies.listed) {
            self.copies.listed = sums.digest_of(name.as_str()).copied();
        }
        self.copies.all.push(FoundCopy {
            name,
            state,
            is_wanted,
        })?;
        Ok(())
    }
}

/// Whether what has the name of a copy that needn't be there is somebody else's: it says nothing of a file, and no digest names it.
fn is_of_others(site: &Site<'_>, name: &str, state: &CopyState) -> bool {
    let is_listed = site
        .sums
        .is_some_and(|sums| { sums.digest_of(name).is_some() });
    !is_listed && matches!(state, CopyState::Odd { .. } | CopyState::NoFile)
}

/// What is of a copy of a name, at a path. Behind a link in place of its folder is nothing, unless links are followed.
fn state_of(
    rt: &HostRuntime,
    site: &Site<'_>,
    name: &str,
    path: &str,
) -> Result<CopyState, AllocError> {
    match refuse_linked_folders(rt, site.folder, name, site.links) {
        Ok(()) => state_at(rt, site, path),
        Err(error) if error.kind() == ErrorKind::InvalidInput => Ok(CopyState::Absent),
        Err(error) => refused(error),
    }
}

/// What is at the path of a copy.
fn state_at(rt: &HostRuntime, site: &Site<'_>, path: &str) -> Result<CopyState, AllocError> {
    match read_description(rt, path, site.links) {
        Ok(Some(described)) => {
            let text = described.text(rt.alloc())?;
            let digest = Sha256::digest(text.as_bytes());
            Ok(CopyState::There(described, digest))
        }
        Ok(None) => match look_at(rt, path, site.links) {
            Ok(there) => Ok(CopyState::Odd {
                length: there.len(),
            }),
            Err(error) => refused(error),
        },
        Err(error) => refused(error),
    }
}

/// What a copy is that can't be read.
fn refused(error: io::Error) -> Result<CopyState, AllocError> {
    match error.kind() {
        ErrorKind::OutOfMemory => Err(AllocError),
        ErrorKind::NotFound | ErrorKind::NotADirectory => Ok(CopyState::Absent),
        ErrorKind::InvalidInput => Ok(CopyState::NoFile),
        _ => Ok(CopyState::Unread(error)),
    }
}
