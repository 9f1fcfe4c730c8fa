//! The fragments of a file that is read.
ghost use Rattle.std.specs.Prelude.{◌≡◌, IfOk, length, vec_len};
ghost use Rattle.store_repair.specs.Files.{fragment_length};

use crate::digesting::{Digested, Unkept};
use crate::stored_file::Sought;
use lrc_code::{Place, PlaceSet};
use std::alloc::{AllocError, Global};
use std::io::{self, ErrorKind};
use store_faults::{FileFault, device, words_of};
use store_folder::{
    Digest, FileFragment, SystemOpen, digest_of, is_absent, open_fragment, path_in,
    refuse_linked_folders,
};
use store_progress::Counted;
use store_repair::{MendFault, Survivors, fragment_length, lost_places, read_file};

/// The fragments of a stripe that are there, by the places' indexes.
#[derive(Drop)]
pub struct Fragments {
    pub set: PlaceSet,
    pub opened: Vec<Option<FileFragment<SystemOpen>>>,
    /// The first that the system refused to open, and may be there.
    pub refused: Option<Refused>,
}

/// A fragment that the system refused to open or to read.
#[derive(Drop)]
pub struct Refused {
    pub place: Place,
    pub error: io::Error,
}

/// What some fragments give.
#[derive(Drop)]
pub(crate) enum Given {
    /// The file that is described.
    File,
    /// Another one, or none.
    Other,
    /// The fragment at the place of this index can't be read.
    Unread { index: usize, error: io::Error },
}

/// Of which fragments that can't be opened it is said why.
#[derive(Clone, Copy, PartialEq, Eq)]
pub enum Missing {
    /// Of all, also of those that are lost.
    Said,
    /// Of those that aren't lost.
    UnreadSaid,
    Unsaid,
}

impl Missing {
    /// Whether it is said of a fragment that can't be opened for an error of this kind.
    fn says(self, kind: ErrorKind) -> bool {
        match self {
            Missing::Said => true,
            Missing::UnreadSaid => !is_lost(kind),
            Missing::Unsaid => false,
        }
    }
}

/// Opens the fragments of a file.
pub fn open_fragments(
    rt: &HostRuntime,
    sought: &Sought<'_, '_>,
    missing: Missing,
) -> Result<Fragments, FileFault>
    ensures { IfOk result (λ fragments. vec_len fragments.opened ≡ 16) }
{
    let alloc = rt.alloc();
    let mut set = PlaceSet::empty();
    let mut opened = Vec::with_capacity(alloc, 16)?;
    let mut refused = None;
    'places: while opened.len() < 16 {
        let mut fragment = None;
        if let Some(place) = Place::from_index(opened.len()) {
            if sought.described.code.has(place) {
                fragment = open_at(rt, sought, place, missing, &mut refused)?;
                if fragment.is_some() {
                    set = set.with(place);
                }
            }
        }
        opened.push(fragment)?;
    }
    Ok(Fragments {
        set,
        opened,
        refused,
    })
}

/// Opens a fragment; where that isn't possible, says so if that is asked for, and keeps why for the first that may be there.
fn open_at(
    rt: &HostRuntime,
    sought: &Sought<'_, '_>,
    place: Place,
    missing: Missing,
    refused: &mut Option<Refused>,
) -> Result<Option<FileFragment<SystemOpen>>, FileFault> {
    let alloc = rt.alloc();
    let name = sought.name_of(alloc, place)?;
    let path = path_in(alloc, sought.file.folder, name.as_str())?;
    let error = match open_below(rt, sought, name.as_str(), path.as_str()) {
        Ok(fragment) => return Ok(Some(fragment)),
        Err(error) => error,
    };
    let kind = error.kind();
    if kind == ErrorKind::OutOfMemory {
        return Err(FileFault::OutOfMemory);
    }
    if missing.says(kind) {
        let why = words_of(alloc, &error)?;
        sought.file.say(
            rt,
            format!(in rt.alloc(); "rebuild-store: {name}: left out: {why}"),
        );
    }
    if refused.is_none() && !is_lost(kind) {
        *refused = Some(Refused { place, error });
    }
    Ok(None)
}

/// Opens the fragment of a name in the store.
fn open_below(
    rt: &HostRuntime,
    sought: &Sought<'_, '_>,
    name: &str,
    path: &str,
) -> io::Result<FileFragment<SystemOpen>> {
    refuse_linked_folders(rt, sought.file.folder, name, sought.file.links)?;
    open_fragment(rt, path, sought.length as u64, sought.file.links)
}

/// Whether some of the fragments give the file that is described. What doesn't determine it isn't read.
pub(crate) fn given_by(
    rt: &HostRuntime,
    sought: &Sought<'_, '_>,
    fragments: &Fragments,
    set: PlaceSet,
) -> Result<Given, FileFault>
    requires { vec_len fragments.now.opened ≡ 16 }
{
    if !are_enough(rt.alloc(), sought, set)? {
        return Ok(Given::Other);
    }
    let mut counted = Counted {
        file: Digested::new(Unkept::new()),
        rt,
        progress: sought.file.progress,
    };
    let survivors = survivors_of(sought, fragments, set);
    let file_bytes = sought.described.length as usize;
    match read_file(rt.alloc(), &survivors, file_bytes, &mut counted) {
        Ok(()) => {
            let (_, is_file) = counted.file.finish(&sought.described.digest);
            Ok(if is_file { Given::File } else { Given::Other })
        }
        Err(fault) if fault.is_for_memory() => Err(FileFault::OutOfMemory),
        Err(MendFault::Unread { index, error }) => Ok(Given::Unread { index, error }),
        Err(_) => Ok(Given::Other),
    }
}

/// Whether the fragments at some places determine those of the file's parts that have bytes of it.
fn are_enough(alloc: Global, sought: &Sought<'_, '_>, set: PlaceSet) -> Result<bool, AllocError> {
    let lost = lost_places(alloc, sought.described.code, set, parts_of(sought))?;
    Ok(lost.several.is_empty())
}

/// The places of the file's parts that have bytes of it: all data fragments, but for the last ones of a short file.
pub(crate) fn parts_of(sought: &Sought<'_, '_>) -> PlaceSet {
    let code = sought.described.code;
    let mut left = sought.described.length as usize;
    let mut parts = PlaceSet::empty();
    for place in code.places() {
        if left == 0 {
            break;
        }
        parts = parts.with(*place);
        left = left.saturating_sub(sought.length);
    }
    parts
}

/// Why a fragment can't be read, if the system refuses one.
pub(crate) fn unread_now(
    rt: &HostRuntime,
    sought: &Sought<'_, '_>,
    opened: &[Option<FileFragment<SystemOpen>>],
) -> Result<Option<FileFault>, FileFault> {
    let alloc = rt.alloc();
    for (place, fragment) in Place::ALL.iter().zip(opened.iter()) {
        if !sought.described.code.has(*place) {
            continue;
        }
        let name = sought.name_of(alloc, *place)?;
        let path = path_in(alloc, sought.file.folder, name.as_str())?;
        let read = match fragment {
            Some(fragment) => digest_of(alloc, fragment, sought.length),
            None => digest_below(rt, sought, name.as_str(), path.as_str()),
        };
        match read {
            Err(error) if !is_lost(error.kind()) => {
                return Ok(Some(device(alloc, path.as_str(), error)));
            }
            _ => {}
        }
    }
    Ok(None)
}

/// The digest of the fragment of a name in the store.
fn digest_below(
    rt: &HostRuntime,
    sought: &Sought<'_, '_>,
    name: &str,
    path: &str,
) -> io::Result<Digest> {
    let fragment = open_below(rt, sought, name, path)?;
    digest_of(rt.alloc(), &fragment, sought.length)
}

/// Whether the kind of an error says that a fragment isn't there, is no regular file or has another length.
pub fn is_lost(kind: ErrorKind) -> bool {
    is_absent(kind) || kind == ErrorKind::InvalidInput || kind == ErrorKind::UnexpectedEof
}

/// Some of the fragments, as survivors.
pub fn survivors_of<'f>(
    sought: &Sought<'_, '_>,
    fragments: &'f Fragments,
    set: PlaceSet,
) -> Survivors<'f, FileFragment<SystemOpen>>
    requires { vec_len fragments.now.opened ≡ 16 }
    ensures sixteen { length result.fragments.now ≡ 16 }
    ensures len { result.length ≡ fragment_length result.code sought.now.described.length }
{
    let code = sought.described.code;
    Survivors {
        code,
        length: fragment_length(code, sought.described.length as usize),
        set,
        fragments: fragments.opened.as_slice(),
    }
}
