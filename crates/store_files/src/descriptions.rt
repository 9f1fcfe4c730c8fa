//! What the copies of a file's description say.
use crate::own_sums::own_sums;
use crate::staging::{has_fragment, has_some, no_stored};
use crate::stored_file::StoredFile;
use crate::target::Target;
use lrc_code::{Code, Place, PlaceSet};
use sha2::{Digest as _, Sha256};
use std::alloc::Global;
use std::io::{self, ErrorKind};
use std::{fs, mem};
use store_faults::{FileFault, device};
use store_folder::{
    Described, Links, description_names, first_description_name, is_absent, path_in,
    read_description, refuse_linked_folders,
};
use store_repair::lost_places;

/// What is done about copies that can't be read.
#[derive(Clone, Copy)]
enum Unread {
    /// It is said of each but the last why it can't be.
    Said,
    Unsaid,
}

/// Why a copy of a description says nothing.
#[derive(Clone, Copy, PartialEq, Eq)]
pub enum Cause {
    /// It is a file of another form.
    Odd,
    /// It is no regular file, or behind a link.
    NoFile,
    /// The system refuses to read it, so that it may be a description.
    Unread,
}

impl Cause {
    /// Whether it is said in the end, and another cause before it.
    fn outranks(self, other: Cause) -> bool {
        match self {
            Cause::Odd => false,
            Cause::NoFile => other == Cause::Odd,
            Cause::Unread => other != Cause::Unread,
        }
    }
}

/// That a copy of a description says nothing, though something is there.
#[derive(Drop)]
pub struct Refusal {
    pub fault: FileFault,
    pub cause: Cause,
}

/// What a copy of a description says.
#[derive(Drop)]
enum Copy {
    Says(Described),
    Absent,
    Refused(Refusal),
}

/// What the copies of a file's description say, each once: first what the copies say that have the digest which the store's sums name for
/// them, and then what most say.
pub fn descriptions_of(
    rt: &HostRuntime,
    file: &StoredFile<'_, '_>,
) -> Result<Vec<Described>, FileFault> {
    let alloc = rt.alloc();
    let name = file.name;
    if !file.has_name(alloc)? {
        return Err(no_stored(alloc, name, file.folder)?);
    }
    // The code isn't known before one is read: the folders of a (12,2,2) stripe have those of a (6,2,2) one among them.
    let mut names = description_names(alloc, &file.pattern, Code::Wide, name)?;
    let first = first_description_name(alloc, name)?;
    if !names.iter().any(|other| other.as_str() == first.as_str()) {
        names.push(first)?;
    }
    let mut said = Vec::new(alloc);
    let mut refused = None;
    let copies = names.as_slice();
    let ordered = match add_copies(rt, file, copies, Unread::Said, &mut said, &mut refused) {
        Ok(_) => ordered(rt, file, said.as_slice(), refused)?,
        Err(fault) => return Err(fault),
    };
    listed_first(rt, file, copies, ordered)
}

/// Descriptions of a file, first those with the digest that the store's sums name for one of the copies, if there are several.
fn listed_first(
    rt: &HostRuntime,
    file: &StoredFile<'_, '_>,
    copies: &[String],
    said: Vec<Described>,
) -> Result<Vec<Described>, FileFault> {
    if said.len() < 2 {
        return Ok(said);
    }
    let alloc = rt.alloc();
    let Some(sums) = own_sums(rt, file)? else {
        return Ok(said);
    };
    let mut order = Vec::with_capacity(alloc, said.len())?;
    for is_first in [true, false] {
        for described in &said {
            let text = described.text(alloc)?;
            let digest = Sha256::digest(text.as_bytes());
            let is_listed = copies
                .iter()
                .any(|copy| sums.digest_of(copy.as_str()) == Some(&digest));
            if is_listed == is_first {
                order.push(*described)?;
            }
        }
    }
    Ok(order)
}

/// What the copies of a file's description say, each once, first what most say; none where no copy is there. If no copy says anything, one
/// that is there but can't be read isn't taken for nothing.
pub fn descriptions_for_sure(
    rt: &HostRuntime,
    file: &StoredFile<'_, '_>,
) -> Result<Vec<Described>, FileFault> {
    let Copies { said, refused, .. } = copies_of(rt, file)?;
    match refused {
        Some(Refusal { fault, .. }) if said.is_empty() => Err(fault),
        _ => Ok(said),
    }
}

/// What copies of a description say, each once, first what most say; and why one says nothing that is there: of several the gravest cause.
#[derive(Drop)]
pub struct Copies {
    pub said: Vec<Described>,
    pub refused: Option<Refusal>,
    /// Whether the one that is made first isn't there, so that a killed run has made none.
    pub is_first_absent: bool,
}

/// What the copies of a file's description say that have to be there.
pub fn copies_of(rt: &HostRuntime, file: &StoredFile<'_, '_>) -> Result<Copies, FileFault> {
    let alloc = rt.alloc();
    let names = description_names(alloc, &file.pattern, Code::Wide, file.name)?;
    let mut said = Vec::new(alloc);
    let mut refused = None;
    let copies = names.as_slice();
    match add_copies(rt, file, copies, Unread::Unsaid, &mut said, &mut refused) {
        Ok(is_first_absent) => Ok(Copies {
            said: in_order(alloc, said.as_slice())?,
            refused,
            is_first_absent,
        }),
        Err(fault) => Err(fault),
    }
}

/// Adds what copies say, and why one of those can't be read that can't. Says whether the first isn't there.
fn add_copies(
    rt: &HostRuntime,
    file: &StoredFile<'_, '_>,
    copies: &[String],
    unread: Unread,
    said: &mut Vec<Described>,
    refused: &mut Option<Refusal>,
) -> Result<bool, FileFault> {
    let mut is_first_absent = false;
    let mut is_first = true;
    for copy in copies {
        match description_at(rt, file, copy.as_str())? {
            Copy::Says(described) => said.push(described)?,
            Copy::Absent => is_first_absent = is_first_absent || is_first,
            Copy::Refused(refusal) => {
                let other = keep_gravest(refused, refusal);
                match unread {
                    Unread::Said => say_refusal(rt, file, other),
                    Unread::Unsaid => drop(other),
                }
            }
        }
        is_first = false;
    }
    Ok(is_first_absent)
}

/// Keeps the graver one of two refusals, or the later one, and gives the other.
fn keep_gravest(refused: &mut Option<Refusal>, refusal: Refusal) -> Option<Refusal> {
    let is_graver = match &*refused {
        Some(before) => before.cause.outranks(refusal.cause),
        None => false,
    };
    if is_graver {
        return Some(refusal);
    }
    mem::replace(refused, Some(refusal))
}

/// What copies say, first what most say; or why none says anything. Else it is said why the last that can't be read can't.
fn ordered(
    rt: &HostRuntime,
    file: &StoredFile<'_, '_>,
    said: &[Described],
    refused: Option<Refusal>,
) -> Result<Vec<Described>, FileFault> {
    if said.is_empty() {
        return match refused {
            // The caller says it.
            Some(Refusal { fault, .. }) => Err(fault),
            None => Err(undescribed(rt, file)?),
        };
    }
    say_refusal(rt, file, refused);
    in_order(rt.alloc(), said)
}

/// Says why a copy says nothing, if one doesn't.
fn say_refusal(rt: &HostRuntime, file: &StoredFile<'_, '_>, refusal: Option<Refusal>) {
    if let Some(Refusal { fault, .. }) = refusal {
        say_fault(rt, file, Some(fault));
    }
}

/// Says what can't be read, if anything can't.
fn say_fault(rt: &HostRuntime, file: &StoredFile<'_, '_>, fault: Option<FileFault>) {
    if let Some(fault) = fault {
        file.say(rt, format!(in rt.alloc(); "rebuild-store: {fault}"));
    }
}

/// That nothing describes a file: it isn't in the store, or its descriptions are lost.
fn undescribed(rt: &HostRuntime, file: &StoredFile<'_, '_>) -> Result<FileFault, FileFault> {
    let alloc = rt.alloc();
    let StoredFile { folder, name, .. } = *file;
    fs::metadata(rt, folder).map_err(|error| device(alloc, folder, error))?;
    if !has_some(rt, file, Code::Wide, &Place::ALL)? {
        return Ok(no_stored(alloc, name, folder)?);
    }
    let what = format!(in alloc;
        "{name}: no description is there, as {name}.file, so nothing says how long it is"
    )?;
    Ok(FileFault::Refused { what })
}

/// What the first copy of a file's description says that can be read. What can't be read counts as not there.
pub fn first_described(
    rt: &HostRuntime,
    file: &StoredFile<'_, '_>,
) -> Result<Option<Described>, FileFault> {
    for copy in description_names(rt.alloc(), &file.pattern, Code::Wide, file.name)? {
        if let Copy::Says(described) = description_at(rt, file, copy.as_str())? {
            return Ok(Some(described));
        }
    }
    Ok(None)
}

/// Whether so many fragments of a stripe are there that they give the others. A disk that was away when the stripe replaced another one has
/// fewer. What can't be looked at counts as not there, and is said.
pub fn is_whole(
    rt: &HostRuntime,
    file: &StoredFile<'_, '_>,
    code: Code,
) -> Result<bool, FileFault> {
    let there = fragments_there(rt, file, code)?;
    let lost = lost_places(rt.alloc(), code, there, code.others(there))?;
    Ok(lost.several.is_empty())
}

/// The places of a stripe at which there is something under the name of a fragment.
fn fragments_there(
    rt: &HostRuntime,
    file: &StoredFile<'_, '_>,
    code: Code,
) -> Result<PlaceSet, FileFault> {
    let mut there = PlaceSet::empty();
    for place in code.places() {
        match has_fragment(rt, file, code, *place) {
            Ok(true) => there = there.with(*place),
            Ok(false) => {}
            Err(fault) if matches!(&fault, FileFault::OutOfMemory) => return Err(fault),
            Err(fault) => say_fault(rt, file, Some(fault)),
        }
    }
    Ok(there)
}

/// The name of the description of a stripe in the store's own folder, which a store that was made before has beside the copies that are
/// made now. What is there under that name and says nothing of a file is somebody else's, so then there is none.
pub fn own_description(
    rt: &HostRuntime,
    target: &Target<'_>,
    stripe: &str,
) -> Result<Option<String>, FileFault> {
    let alloc = rt.alloc();
    let first = first_description_name(alloc, stripe)?;
    let copies = description_names(alloc, &target.pattern, target.code, stripe)?;
    if copies.iter().any(|copy| copy.as_str() == first.as_str()) {
        return Ok(None);
    }
    let path = target.path(alloc, first.as_str())?;
    // A link there is no description that was made, whether links are followed or not.
    match read_description(rt, path.as_str(), Links::NotFollowed) {
        Ok(said) => Ok(said.map(|_said| first)),
        Err(error) if is_absent(error.kind()) || error.kind() == ErrorKind::InvalidInput => {
            Ok(None)
        }
        Err(error) => Err(device(alloc, path.as_str(), error)),
    }
}

/// What descriptions say, each once, first what most say.
fn in_order(alloc: Global, said: &[Described]) -> Result<Vec<Described>, FileFault> {
    let mut order = Vec::new(alloc);
    for votes in (1..=said.len()).rev() {
        for described in said {
            let count = said.iter().filter(|other| **other == *described).count();
            if count == votes && !order.iter().any(|other| *other == *described) {
                order.push(*described)?;
            }
        }
    }
    Ok(order)
}

/// What a copy says.
fn description_at(
    rt: &HostRuntime,
    file: &StoredFile<'_, '_>,
    copy: &str,
) -> Result<Copy, FileFault> {
    let alloc = rt.alloc();
    let path = path_in(alloc, file.folder, copy)?;
    let error = match description_below(rt, file, copy, path.as_str()) {
        Ok(Some(described)) => return Ok(Copy::Says(described)),
        Ok(None) => {
            let what = format!(in alloc;
                "{path}: isn't a line with a length, a digest and a code"
            )?;
            return Ok(refused_copy(FileFault::Refused { what }, Cause::Odd));
        }
        Err(error) => error,
    };
    let kind = error.kind();
    if kind == ErrorKind::OutOfMemory {
        return Err(FileFault::OutOfMemory);
    }
    if is_absent(kind) {
        return Ok(Copy::Absent);
    }
    let cause = if kind == ErrorKind::InvalidInput {
        Cause::NoFile
    } else {
        Cause::Unread
    };
    Ok(refused_copy(device(alloc, path.as_str(), error), cause))
}

/// A copy that says nothing.
fn refused_copy(fault: FileFault, cause: Cause) -> Copy {
    Copy::Refused(Refusal { fault, cause })
}

/// The description in the copy of a name in the store.
fn description_below(
    rt: &HostRuntime,
    file: &StoredFile<'_, '_>,
    copy: &str,
    path: &str,
) -> io::Result<Option<Described>> {
    refuse_linked_folders(rt, file.folder, copy, file.links)?;
    read_description(rt, path, file.links)
}
