//! The copies of the description of a stripe's file: which are as they should be, and making those that are lost from one that is believed.
mod looking;
mod remaking;
mod rights;

use folders::{Folder, Rights};
use looking::Seen;
use lrc_code::PlaceSet;
use remaking::described_as;
use rights::rights_of_files;
use std::alloc::AllocError;
use std::io::{self, ErrorKind};
use store_faults::{Copies, CopyFinding, CopyReason, Descriptions, FoundCopy};
use store_folder::{
    Described, Links, NewFile, Placed, Site, SystemFolder, create_tagged, exchange_new, folder_of,
    followed, path_in, place_new, read_description, refuse_linked_folders,
};
use store_names::is_free;
use store_repair::NewFragment;

/// What is done with copies that aren't as they should be.
#[derive(Clone, Copy, PartialEq, Eq)]
pub enum CopyWork {
    /// They are named.
    Name,
    /// It is said which would be made, or replaced if that is asked for.
    Plan { replaces: bool },
    /// Those that are lost are made, and others are replaced if that is asked for.
    Make { replaces: bool },
}

/// The stripe whose description is looked at.
#[derive(Clone, Copy)]
pub struct DescribedStripe<'a> {
    pub name: &'a str,
    /// How many bytes each fragment has. To name copies (`CopyWork::Name`) it isn't needed.
    pub length: usize,
    /// The places of the fragments of which something is said already.
    pub said: PlaceSet,
}

/// Looks at the copies of a stripe's description, and makes what is lost of them if that is asked for. If no copy is believed, and they
/// aren't only named, the description is the one that the digests determine with the file that the fragments give, if there is one.
pub fn tend_descriptions(
    rt: &HostRuntime,
    site: &Site<'_>,
    stripe: &DescribedStripe<'_>,
    work: CopyWork,
) -> Result<Descriptions, AllocError> {
    let alloc = rt.alloc();
    let Seen { copies, like } = Seen::look(rt, site, stripe)?;
    let mut done = Descriptions {
        made: Vec::new(alloc),
        findings: copies.stripe_findings(alloc, site.code, stripe.name)?,
        replaceable: 0,
        described: None,
    };
    let believed = match (copies.believed(), &copies.listed) {
        (None, Some(listed)) if work != CopyWork::Name => {
            described_as(rt, site, stripe, listed, &mut done.findings)?
        }
        (believed, _) => believed,
    };
    done.described = believed;
    let like = match like {
        None if matches!(work, CopyWork::Make { .. }) => rights_of_files(rt, site, stripe)?,
        like => like,
    };
    let tended = Tended {
        site,
        work,
        believed,
        like,
    };
    let Copies { all, listed } = copies;
    for copy in all {
        tended.tend(rt, copy, listed.is_some(), &mut done)?;
    }
    Ok(done)
}

/// What is done with the copies of a stripe's description.
#[derive(Drop)]
struct Tended<'a> {
    site: &'a Site<'a>,
    work: CopyWork,
    believed: Option<Described>,
    /// The owner and the rights of a copy that is there, or else of all files of the stripe.
    like: Option<Rights>,
}

impl Tended<'_> {
    /// Notes what becomes of a copy that isn't as it should be.
    fn tend(
        &self,
        rt: &HostRuntime,
        copy: FoundCopy,
        has_sums: bool,
        done: &mut Descriptions,
    ) -> Result<(), AllocError> {
        let FoundCopy {
            name,
            state,
            is_wanted,
        } = copy;
        let may_replace = state.may_be_replaced();
        let Some(reason) = state.reason(self.believed.as_ref(), has_sums) else {
            return Ok(());
        };
        if !is_wanted && matches!(reason, CopyReason::Lost) {
            return Ok(());
        }
        match self.left(rt, name.as_str(), reason, may_replace)? {
            None => done.made.push(name)?,
            Some(reason) => {
                if self.would_replace(&reason, may_replace) {
                    done.replaceable = done.replaceable.saturating_add(1);
                }
                done.findings.push(CopyFinding { name, reason })?;
            }
        }
        Ok(())
    }

    /// Whether a copy is left that would be replaced if that were asked for.
    fn would_replace(&self, reason: &CopyReason, may_replace: bool) -> bool {
        let is_replaced = match self.work {
            CopyWork::Name => false,
            CopyWork::Plan { replaces } | CopyWork::Make { replaces } => replaces,
        };
        may_replace && !is_replaced && self.believed.is_some() && !reason.is_of_device()
    }

    /// Makes the copy of a name that isn't as it should be, if it is to be made, and says why it still isn't so.
    fn left(
        &self,
        rt: &HostRuntime,
        name: &str,
        reason: CopyReason,
        may_replace: bool,
    ) -> Result<Option<CopyReason>, AllocError> {
        let is_lost = matches!(reason, CopyReason::Lost);
        let Some(described) = &self.believed else {
            return Ok(Some(reason));
        };
        match self.work {
            CopyWork::Make { replaces } if is_lost || (replaces && may_replace) => made(
                rt,
                self.site,
                name,
                described,
                !is_lost,
                self.like.as_ref(),
            ),
            CopyWork::Plan { replaces } if is_lost || (replaces && may_replace) => {
                refused(rt, self.site, name, !is_lost)
            }
            _ => Ok(Some(reason)),
        }
    }
}

/// Why a copy can't be made, or replaced, if it is known before that is tried.
fn refused(
    rt: &HostRuntime,
    site: &Site<'_>,
    name: &str,
    replaces: bool,
) -> Result<Option<CopyReason>, AllocError> {
    let is_replaced = replaces && site.target == site.folder;
    match site.refuse_name(rt.alloc(), name, is_replaced) {
        Ok(()) => Ok(None),
        Err(error) if error.kind() == ErrorKind::OutOfMemory => Err(AllocError),
        Err(error) => Ok(Some(CopyReason::Unwritten(error))),
    }
}

/// Makes a copy, and says why it couldn't be made.
fn made(
    rt: &HostRuntime,
    site: &Site<'_>,
    name: &str,
    described: &Described,
    replaces: bool,
    like: Option<&Rights>,
) -> Result<Option<CopyReason>, AllocError> {
    match make(rt, site, name, described, replaces, like) {
        Ok(Placed::Placed) => Ok(None),
        Ok(Placed::IsThere) => Ok(Some(CopyReason::CameMeanwhile)),
        Err(error) if error.kind() == ErrorKind::OutOfMemory => Err(AllocError),
        Err(error) => Ok(Some(CopyReason::Unwritten(error))),
    }
}

/// Makes a copy, with the owner and the rights of another one, or else of the stripe's other files. If links are followed, it is made where
/// a link leads, as fragments are.
fn make(
    rt: &HostRuntime,
    site: &Site<'_>,
    name: &str,
    described: &Described,
    replaces: bool,
    like: Option<&Rights>,
) -> io::Result<Placed> {
    let alloc = rt.alloc();
    let is_replaced = replaces && site.target == site.folder;
    site.refuse_name(alloc, name, is_replaced)?;
    refuse_linked_folders(rt, site.target, name, site.links)?;
    let mut path = path_in(alloc, site.target, name)?;
    if site.links == Links::Followed {
        path = followed(rt, path)?;
    }
    let path = path.as_str();
    if !is_free(path) {
        return Err(io::Error::from(ErrorKind::InvalidInput));
    }
    let text = described.text(alloc)?;
    let files = &mut SystemFolder::new(rt);
    let mut file = create_tagged(rt, files, folder_of(path), site.tag)?;
    if let Err(error) = fill(&mut file, text.as_bytes(), like) {
        file.discard(rt)?;
        return Err(error);
    }
    let placed = if is_replaced {
        exchange_new(rt, files, file, path)?
    } else {
        match place_new(files, file, path)? {
            Placed::IsThere if says(rt, path, described)? => Placed::Placed,
            placed => placed,
        }
    };
    files.sync_folder(folder_of(path))?;
    Ok(placed)
}

/// Whether a regular file at a path says this of a file, as one does that an earlier run has made.
fn says(rt: &HostRuntime, path: &str, described: &Described) -> Result<bool, AllocError> {
    match read_description(rt, path, Links::NotFollowed) {
        Ok(there) => Ok(there.as_ref() == Some(described)),
        Err(error) if error.kind() == ErrorKind::OutOfMemory => Err(AllocError),
        Err(_) => Ok(false),
    }
}

/// Writes the text of a copy, and gives the file the owner and the rights of another file, if there is one.
fn fill(file: &mut NewFile, text: &[u8], like: Option<&Rights>) -> io::Result<()> {
    file.append(text)?;
    if let Some(like) = like {
        file.take_rights(like)?;
    }
    Ok(())
}
