//! How a store is listed, and what is looked out for meanwhile: a path that may be one of its names, folders that others may write into.
use folders::{Identity, folder_of};
use lrc_code::Code;
use std::fs::{self, Metadata};
use std::io::{self, Read};
use std::os::unix::fs::MetadataExt;
use store_folder::{Links, SUMS_NAME, Sums, is_absent, open_regular};
use store_names::{KEPT, Part, Pattern, described_stripe, is_of_runs, last_of};

/// The rights by which others than a file's user may write: of the group, and of everybody.
const GROUP_WRITES: u32 = 0o020;

const ALL_WRITE: u32 = 0o002;

/// So many bytes of a file at most say whether a run wrote it.
const MOST_BEGIN: usize = 64;

/// How a folder is listed.
#[derive(Clone, Copy)]
pub struct Wanted<'a> {
    pub pattern: Pattern<'a>,
    /// The code by which names are read.
    pub code: Code,
    /// Whether that is the store's, so that no description is asked for it.
    pub knows_code: bool,
    /// Whether stripes are listed, and not only what runs have left.
    pub has_stripes: bool,
    /// The part whose stripes are listed, or all.
    pub part: Option<Part>,
    pub links: Links,
    /// Whether all copies of a stripe's description are asked for its code, and not only the first that is met.
    pub asks_copies: bool,
    /// The digests: a copy that differs from its own isn't asked.
    pub sums: Option<&'a Sums>,
    /// Paths that may be some of the store's.
    pub watched: &'a [Watched<'a>],
}

/// A path that may lead to a file of a store: as it was given, and of what it leads to the folder, the last part, and which file is
/// there, if one is, and whether a run wrote that.
#[derive(Clone, Copy)]
pub struct Watched<'a> {
    pub(crate) given: &'a str,
    pub(crate) folder: Identity,
    pub(crate) name: &'a str,
    pub(crate) file: Option<Identity>,
    pub(crate) is_output: bool,
}

impl<'a> Watched<'a> {
    /// A path that was given and leads to this path, if the folder of that is there. What a run writes begins with one of these texts, of
    /// at most 64 bytes, or is empty. If the system refuses to show what is there, it isn't known whether it is the store's.
    pub fn at(
        rt: &HostRuntime,
        given: &'a str,
        path: &'a str,
        begins: &[&str],
    ) -> io::Result<Option<Watched<'a>>> {
        let Some(folder) = what_is_at(rt, folder_of(path))? else {
            return Ok(None);
        };
        Ok(Some(Watched {
            given,
            folder,
            name: last_of(path),
            file: what_is_at(rt, path)?,
            is_output: begins_with_one(rt, path, begins),
        }))
    }

    /// Whether a fragment may be at the path by another name.
    pub(crate) fn may_be_fragment(&self) -> bool {
        self.file.is_some() && !self.is_output
    }
}

/// Which file or folder is at a path, if one is.
fn what_is_at(rt: &HostRuntime, path: &str) -> io::Result<Option<Identity>> {
    match fs::metadata(rt, path) {
        Ok(metadata) => Ok(Some(Identity::of(&metadata))),
        Err(error) if is_absent(error.kind()) => Ok(None),
        Err(error) => Err(error),
    }
}

/// Whether a regular file is at a path that is empty or begins with one of these texts.
fn begins_with_one(rt: &HostRuntime, path: &str, begins: &[&str]) -> bool {
    let Ok(open) = open_regular(rt, path, Links::Followed) else {
        return false;
    };
    let mut file = open.file;
    let mut bytes = [0; MOST_BEGIN];
    match file.read(&mut bytes) {
        Ok(0) => true,
        Ok(count) => begins
            .iter()
            .any(|begin| bytes[..count].starts_with(begin.as_bytes())),
        Err(_) => false,
    }
}

/// A folder that others than root may write into.
#[derive(Drop)]
pub struct Foreign {
    pub folder: String,
    /// The number of its user.
    pub user: u32,
}

/// Whether others than root may write into a folder.
pub(crate) fn may_others_write(metadata: &Metadata) -> bool {
    let mode = metadata.mode();
    metadata.uid() != 0
        || mode & ALL_WRITE != 0
        || (mode & GROUP_WRITES != 0 && metadata.gid() != 0)
}

/// Whether a name in a store is one that the store has, or gets: a fragment's, one that was kept, its digests, a description.
pub(crate) fn is_of_store(name: &str, wanted: &Wanted<'_>) -> bool {
    let name = name.strip_suffix(KEPT).unwrap_or(name);
    let is_fragment = wanted.pattern.read(wanted.code, name).is_some();
    is_fragment
        || name == SUMS_NAME
        || described_stripe(name).is_some()
        || is_of_runs(last_of(name))
}
