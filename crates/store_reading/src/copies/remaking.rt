//! The description of a file, from its fragments and the digest of the description.
ghost use Rattle.std.specs.Prelude.{◌≡◌, None, vec_len};

use crate::copies::DescribedStripe;
use lrc_code::{Place, PlaceSet};
use sha2::{Digest as _, Sha256};
use std::alloc::{AllocError, Global};
use std::io;
use store_faults::{CopyFinding, CopyReason, FileFault};
use store_files::{Fragments, Missing, Refused, Sought, StoredFile, open_fragments, survivors_of};
use store_folder::{Described, Digest, Site};
use store_repair::{MendFault, NewFragment, fragment_length, read_file, without};

/// What is kept of a file that may end at several bytes: the digest up to the first of them, and the bytes after it.
struct Ends {
    head: Sha256,
    left: usize,
    tail: Vec<u8>,
}

impl Drop for Ends {
    fn drop(self) {
        let Ends {
            head: _,
            left: _,
            tail: _,
        } = self;
    }
}

impl NewFragment for Ends {
    ghost shown = { λ _. None };

    fn append(&mut self, bytes: &[u8]) -> io::Result<()> {
        let (head, tail) = bytes.split_at(self.left.min(bytes.len()));
        self.head.update(head);
        self.left = self.left.saturating_sub(head.len());
        self.tail.extend_from_slice(tail)?;
        Ok(())
    }
}

/// The description that has a digest, of a file that the fragments of a stripe give. As many lengths are possible as a code has data
/// fragments, since the last of these are filled up with 00. It is found which fragments can't be read.
pub(crate) fn described_as(
    rt: &HostRuntime,
    site: &Site<'_>,
    stripe: &DescribedStripe<'_>,
    listed: &Digest,
    findings: &mut Vec<CopyFinding>,
) -> Result<Option<Described>, AllocError> {
    let alloc = rt.alloc();
    let code = site.code;
    let Some(most) = stripe.length.checked_mul(code.data_count()) else {
        return Ok(None);
    };
    let Some(ends) = ends_of(rt, site, stripe, most, findings)? else {
        return Ok(None);
    };
    for count in 0..=ends.tail.len() {
        let mut digest = ends.head.clone()?;
        let (more, _) = ends.tail.as_slice().split_at(count.min(ends.tail.len()));
        digest.update(more);
        let described = Described {
            length: most.saturating_sub(ends.tail.len()).saturating_add(count) as u64,
            digest: digest.finalize(),
            code,
        };
        if Sha256::digest(described.text(alloc)?.as_bytes()) == *listed {
            return Ok(Some(described));
        }
    }
    Ok(None)
}

/// The file of at most so many bytes that the fragments of a stripe give; none where they don't determine it. Those that can't be read are
/// found and left out.
fn ends_of(
    rt: &HostRuntime,
    site: &Site<'_>,
    stripe: &DescribedStripe<'_>,
    most: usize,
    findings: &mut Vec<CopyFinding>,
) -> Result<Option<Ends>, AllocError> {
    let alloc = rt.alloc();
    let file = StoredFile {
        folder: site.folder,
        pattern: site.pattern,
        name: stripe.name,
        links: site.links,
        progress: None,
    };
    let described = Described {
        length: most as u64,
        digest: [0; 32],
        code: site.code,
    };
    let sought = Sought::new(&file, described);
    let Ok(mut fragments) = open_fragments(rt, &sought, Missing::Unsaid) else {
        return Err(AllocError);
    };
    if let Some(Refused { place, error }) = fragments.refused.take() {
        find_unread(alloc, &sought, stripe, place, error, findings)?;
    }
    let mut set = fragments.set;
    // In each turn but the last a fragment more is left out.
    for _turn in 0..=Place::ALL.len() {
        let (index, error) = match ends_from(alloc, &sought, &fragments, set) {
            Ok(ends) => return Ok(Some(ends)),
            Err(fault) if fault.is_for_memory() => return Err(AllocError),
            Err(MendFault::Unread { index, error }) => (index, error),
            Err(_) => return Ok(None),
        };
        let Some(place) = Place::from_index(index) else {
            return Ok(None);
        };
        find_unread(alloc, &sought, stripe, place, error, findings)?;
        set = without(site.code, set, place);
    }
    Ok(None)
}

/// The file that some fragments give.
fn ends_from(
    alloc: Global,
    sought: &Sought<'_, '_>,
    fragments: &Fragments,
    set: PlaceSet,
) -> Result<Ends, MendFault>
    requires { vec_len fragments.now.opened ≡ 16 }
{
    let file_bytes = sought.described.length as usize;
    let mut ends = Ends {
        head: Sha256::new(),
        left: file_bytes.saturating_sub(sought.described.code.data_count()),
        tail: Vec::new(alloc),
    };
    let survivors = survivors_of(sought, fragments, set);
    read_file(alloc, &survivors, file_bytes, &mut ends)?;
    Ok(ends)
}

/// Adds that the fragment at a place can't be read, unless that is said already.
fn find_unread(
    alloc: Global,
    sought: &Sought<'_, '_>,
    stripe: &DescribedStripe<'_>,
    place: Place,
    error: io::Error,
    findings: &mut Vec<CopyFinding>,
) -> Result<(), AllocError> {
    if stripe.said.has(place) {
        return Ok(());
    }
    let name = sought.name_of(alloc, place)?;
    let reason = CopyReason::Unread(error);
    findings.push(CopyFinding { name, reason })?;
    Ok(())
}
