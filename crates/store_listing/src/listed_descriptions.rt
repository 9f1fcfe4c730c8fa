//! Descriptions that are met while a store is listed.
use crate::listing::Listing;
use crate::votes::Votes;
use crate::watching::Wanted;
use lrc_code::Code;
use std::alloc::{AllocError, Global};
use std::io::{self, ErrorKind};
use std::mem;
use store_folder::{
    Described, Links, description_names, digest_of_description, first_description_name, is_absent,
    look_at, read_description, refuse_linked_folders,
};
use store_names::{described_stripe, folder_in, is_folder_of, last_of, path_in};

impl Listing {
    /// Whether a name of the store is that of a description, which then is noted.
    pub(crate) fn is_description(
        &mut self,
        rt: &HostRuntime,
        folder: &str,
        wanted: &Wanted<'_>,
        name: &str,
    ) -> Result<bool, AllocError> {
        let alloc = rt.alloc();
        let Some(stripe) = described_stripe(last_of(name)) else {
            return Ok(false);
        };
        let inside = folder_in(name);
        let pattern = &wanted.pattern;
        if !inside.is_empty() && !is_folder_of(alloc, pattern, wanted.code, stripe, inside)? {
            return Ok(false);
        }
        let may_be_fragment = pattern.read(wanted.code, name).is_some();
        if wanted.links == Links::Followed {
            self.note_behind(rt, path_in(alloc, folder, name)?)?;
        }
        if self.names.is_described(stripe) && !may_be_fragment {
            return Ok(true);
        }
        if wanted.knows_code && !may_be_fragment && !self.names.is_wanted(stripe) {
            return Ok(true);
        }
        let path = path_in(alloc, folder, name)?;
        match read_description(rt, path.as_str(), wanted.links) {
            Ok(Some(described)) => {
                let is_first = self.names.is_wanted(stripe) && !self.names.is_described(stripe);
                let code = if wanted.asks_copies && is_first {
                    code_of_copies(rt, folder, wanted, stripe, described.code)?
                } else {
                    described.code
                };
                self.names.describe(alloc, stripe, code)?;
            }
            Err(error) if error.kind() == ErrorKind::OutOfMemory => return Err(AllocError),
            Err(error) if !may_be_fragment && is_unread(error.kind()) => {
                self.unread.push(String::from_str(alloc, stripe)?)?;
            }
            Err(error) if is_unread(error.kind()) => {
                self.names.doubt(alloc, stripe)?;
                return Ok(false);
            }
            _ if may_be_fragment => return Ok(false),
            _ => self.names.doubt(alloc, stripe)?,
        }
        Ok(true)
    }

    /// The listing with those stripes that descriptions name which can't be read. Another one of such a stripe may say more, so that this
    /// is known only when all are met.
    pub(crate) fn with_unread(self, alloc: Global) -> io::Result<Listing> {
        let mut listing = self;
        let unread = mem::replace(&mut listing.unread, Vec::new(alloc));
        for stripe in &unread {
            if !listing.names.is_described(stripe.as_str()) {
                listing.names.expect_description(alloc, stripe.as_str())?;
            }
        }
        Ok(listing)
    }

    /// Notes the description that an earlier build made, if a name in the store's own folder is one. A folder may be a stripe's own.
    pub(crate) fn add_first(
        &mut self,
        rt: &HostRuntime,
        folder: &str,
        wanted: &Wanted<'_>,
        name: &str,
    ) -> Result<(), AllocError> {
        let is_first = folder_in(name).is_empty() && described_stripe(name).is_some();
        if !is_first || !wanted.has_stripes {
            return Ok(());
        }
        let path = path_in(rt.alloc(), folder, name)?;
        match look_at(rt, path.as_str(), wanted.links) {
            Ok(there) if there.is_dir() => Ok(()),
            Err(error) if error.kind() == ErrorKind::OutOfMemory => Err(AllocError),
            _ => {
                self.is_description(rt, folder, wanted, name)?;
                Ok(())
            }
        }
    }
}

/// Whether the kind of an error says that there is a file which the system refuses to read.
fn is_unread(kind: ErrorKind) -> bool {
    !is_absent(kind) && kind != ErrorKind::InvalidInput
}

/// The code that most copies of a stripe's description say, but for those that differ from their digests; this one if there are no others.
fn code_of_copies(
    rt: &HostRuntime,
    folder: &str,
    wanted: &Wanted<'_>,
    stripe: &str,
    said: Code,
) -> Result<Code, AllocError> {
    let alloc = rt.alloc();
    let mut names = description_names(alloc, &wanted.pattern, wanted.code, stripe)?;
    let first = first_description_name(alloc, stripe)?;
    if !names.iter().any(|name| name.as_str() == first.as_str()) {
        names.push(first)?;
    }
    let mut votes = Votes::default();
    for name in &names {
        if let Some(described) = described_at(rt, folder, wanted, name.as_str())? {
            if is_as_listed(alloc, wanted, name.as_str(), &described)? {
                votes.add(described.code);
            }
        }
    }
    Ok(votes.most().unwrap_or(said))
}

/// What a copy of a description says, if it can be read.
fn described_at(
    rt: &HostRuntime,
    folder: &str,
    wanted: &Wanted<'_>,
    name: &str,
) -> Result<Option<Described>, AllocError> {
    if let Err(error) = refuse_linked_folders(rt, folder, name, wanted.links) {
        if error.kind() == ErrorKind::OutOfMemory {
            return Err(AllocError);
        }
        return Ok(None);
    }
    let path = path_in(rt.alloc(), folder, name)?;
    match read_description(rt, path.as_str(), wanted.links) {
        Ok(described) => Ok(described),
        Err(error) if error.kind() == ErrorKind::OutOfMemory => Err(AllocError),
        Err(_) => Ok(None),
    }
}

/// Whether a description under a name has the digest that is listed of it, if one is.
fn is_as_listed(
    alloc: Global,
    wanted: &Wanted<'_>,
    name: &str,
    described: &Described,
) -> Result<bool, AllocError> {
    let Some(sums) = wanted.sums else {
        return Ok(true);
    };
    match sums.digest_of(name) {
        Some(digest) => Ok(digest_of_description(alloc, described)? == *digest),
        None => Ok(true),
    }
}
