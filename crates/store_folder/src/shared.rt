//! Names of a store that lead to one path: the fragment of the one would be written over by that of the other.
use crate::sums::SUMS_NAME;
use lrc_code::Code;
use std::alloc::{AllocError, Global};
use std::collections::{BTreeMap, BTreeSet};
use std::io::{self, ErrorKind};
use store_names::{KEPT, Pattern, described_stripe, folder_in, last_of, path_in};

/// What is refused where another name leads.
const WORDS: &str = "another name leads there too";

/// The names of a store that share a path with another one, where links are followed. Nothing is made or replaced under a link that leads
/// to what another name of the store leads to, or under a name in a folder that is another folder of the store too, if that has the name of
/// the store's then. What only links lead to besides is made under its own name, and isn't replaced: it may be the fragment of a link.
pub struct Shared {
    /// The links that lead to what another name leads to.
    links: BTreeSet<String>,
    /// The names that are no links, to which a link leads.
    ends: BTreeSet<String>,
    /// The other names of folders that have several.
    folders: BTreeMap<String, Vec<String>>,
    /// The links of which isn't known where they lead, and the numbers of the system's errors. Nothing is made there.
    unknown: BTreeMap<String, i32>,
}

impl Drop for Shared {
    fn drop(self) {
        let Shared {
            links: _,
            ends: _,
            folders: _,
            unknown: _,
        } = self;
    }
}

impl Shared {
    /// No names.
    pub fn new(alloc: Global) -> Shared {
        Shared {
            links: BTreeSet::new(alloc),
            ends: BTreeSet::new(alloc),
            folders: BTreeMap::new(alloc),
            unknown: BTreeMap::new(alloc),
        }
    }

    /// Notes that a link leads to what another name leads to.
    pub fn note_link(&mut self, alloc: Global, name: &str) -> Result<(), AllocError> {
        if !self.links.contains(name) {
            self.links.insert(String::from_str(alloc, name)?)?;
        }
        Ok(())
    }

    /// Notes that a link leads to what has a name that is no link.
    pub fn note_end(&mut self, alloc: Global, name: &str) -> Result<(), AllocError> {
        if !self.ends.contains(name) {
            self.ends.insert(String::from_str(alloc, name)?)?;
        }
        Ok(())
    }

    /// Notes that it isn't known where a link leads, or who may write there.
    pub fn note_unknown(&mut self, alloc: Global, name: &str, code: i32) -> Result<(), AllocError> {
        if !self.unknown.contains_key(name) {
            self.unknown.insert(String::from_str(alloc, name)?, code)?;
        }
        Ok(())
    }

    /// Notes that a folder has another name too.
    pub fn note_folder(
        &mut self,
        alloc: Global,
        folder: &str,
        other: &str,
    ) -> Result<(), AllocError> {
        let other = String::from_str(alloc, other)?;
        if let Some(others) = self.folders.get_mut(folder) {
            others.push(other)?;
            return Ok(());
        }
        let mut others = Vec::new(alloc);
        others.push(other)?;
        self.folders
            .insert(String::from_str(alloc, folder)?, others)?;
        Ok(())
    }

    /// Refuses to make, or to replace, what a name leads to that shares it with another name, or of which isn't known what it is.
    pub(crate) fn refuse(
        &self,
        alloc: Global,
        pattern: &Pattern<'_>,
        code: Code,
        name: &str,
        is_replaced: bool,
    ) -> io::Result<()> {
        if let Some(code) = self.unknown.get(name) {
            return Err(io::Error::from_raw_os_error(*code));
        }
        let is_shared = self.links.contains(name) || (is_replaced && self.ends.contains(name));
        if is_shared || self.is_in_other_folder(alloc, pattern, code, name)? {
            return Err(io::Error::new(ErrorKind::InvalidInput, WORDS));
        }
        Ok(())
    }

    /// Whether what has a name has another one of the store too, since its folder has.
    fn is_in_other_folder(
        &self,
        alloc: Global,
        pattern: &Pattern<'_>,
        code: Code,
        name: &str,
    ) -> Result<bool, AllocError> {
        if let Some(others) = self.folders.get(folder_in(name)) {
            for folder in others {
                let other = name_in(alloc, folder.as_str(), last_of(name))?;
                if is_name_of_store(pattern, code, other.as_str()) {
                    return Ok(true);
                }
            }
        }
        Ok(false)
    }
}

/// The name in a store of a file in a folder of it.
pub fn name_in(alloc: Global, folder: &str, last: &str) -> Result<String, AllocError> {
    if folder.is_empty() {
        return String::from_str(alloc, last);
    }
    path_in(alloc, folder, last)
}

/// Whether a name in a store's folder is one that the store has or may get: that of a fragment, of a description or of the digests, or the
/// second name of one.
pub fn is_name_of_store(pattern: &Pattern<'_>, code: Code, name: &str) -> bool {
    let name = name.strip_suffix(KEPT).unwrap_or(name);
    let is_fragment = pattern.read(code, name).is_some();
    is_fragment || name == SUMS_NAME || described_stripe(last_of(name)).is_some()
}
