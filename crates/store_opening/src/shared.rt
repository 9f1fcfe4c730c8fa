//! Which names of a store lead to one path, by what was listed: `Shared` says what is refused then.
use crate::opening::{Opening, Unmounted};
use lrc_code::Code;
use std::alloc::{AllocError, Global};
use std::collections::BTreeMap;
use std::fs;
use std::io::{self, ErrorKind};
use store_faults::{StoreFault, device_fault};
use store_folder::{
    Identity, Links, Pattern, SUMS_NAME, Shared, folder_of, followed, is_absent, is_name_of_store,
    name_in, path_in,
};
use store_listing::{End, Ends, Listing};
use store_names::last_of;

/// The first name that was met of an end of a link, and whether something may be written under it. That of no file of the store is empty.
#[derive(Drop)]
struct First {
    name: String,
    is_written: bool,
}

/// What was met until now.
struct Met<'a> {
    pattern: Pattern<'a>,
    code: Code,
    /// The names of each folder.
    folders: BTreeMap<String, Vec<String>>,
    ends: BTreeMap<String, First>,
}

impl Drop for Met<'_> {
    fn drop(self) {
        let Met {
            pattern: _,
            code: _,
            folders: _,
            ends: _,
        } = self;
    }
}

/// The names under which nothing is to be written, since others lead there too: of the store, or of the folder that rebuilt fragments are
/// written to, beside both. What the digests, the list of stripes, the report and the counters are in is led to as well. Without links
/// that are followed there are none.
pub(crate) fn shared_names(
    rt: &HostRuntime,
    opening: &Opening<'_>,
    code: Code,
    listing: &Listing,
    target: Option<&Listing>,
) -> Result<Shared, StoreFault> {
    let alloc = rt.alloc();
    let mut shared = Shared::new(alloc);
    if opening.links == Links::NotFollowed || !is_to_repair(opening) {
        return Ok(shared);
    }
    let mut met = Met {
        pattern: opening.pattern,
        code,
        folders: BTreeMap::new(alloc),
        ends: BTreeMap::new(alloc),
    };
    met.add_paths(rt, opening)?;
    met.add_folders(alloc, &listing.ends)?;
    if let Some(target) = target {
        met.add_folders(alloc, &target.ends)?;
        let folder = opening.to.unwrap_or(opening.folder);
        met.note_folders(alloc, &target.ends, &mut shared)?;
        met.note_links(alloc, folder, &target.ends, true, &mut shared)?;
    } else {
        met.note_folders(alloc, &listing.ends, &mut shared)?;
    }
    let is_written = target.is_none();
    met.note_links(
        alloc,
        opening.folder,
        &listing.ends,
        is_written,
        &mut shared,
    )?;
    Ok(shared)
}

/// Whether a store is to be repaired, or that is planned: other commands put nothing in its place.
fn is_to_repair(opening: &Opening<'_>) -> bool {
    opening.to.is_some() || opening.unmounted != Unmounted::Named
}

impl Met<'_> {
    /// Adds the paths of files that the run itself reads or writes.
    fn add_paths(&mut self, rt: &HostRuntime, opening: &Opening<'_>) -> Result<(), StoreFault> {
        match opening.sums {
            Some(path) => self.add_path(rt, path)?,
            None => {
                let own = path_in(rt.alloc(), opening.folder, SUMS_NAME)?;
                self.add_path(rt, own.as_str())?;
            }
        }
        for path in [opening.stripes, opening.report, opening.progress] {
            if let Some(path) = path {
                self.add_path(rt, path)?;
            }
        }
        Ok(())
    }

    /// Adds what the path of such a file leads to.
    fn add_path(&mut self, rt: &HostRuntime, path: &str) -> Result<(), StoreFault> {
        let alloc = rt.alloc();
        match end_of(rt, path) {
            Ok(end) => {
                let key = key_of_end(alloc, &end)?;
                let name = String::new(alloc);
                let is_written = false;
                self.ends.insert(key, First { name, is_written })?;
                Ok(())
            }
            // So many links lead nowhere that is written to.
            Err(error) if is_absent(error.kind()) || error.kind() == ErrorKind::InvalidInput => {
                Ok(())
            }
            Err(error) => Err(device_fault(String::from_str(alloc, path)?, error)),
        }
    }

    /// Adds the names of folders.
    fn add_folders(&mut self, alloc: Global, ends: &Ends) -> Result<(), AllocError> {
        for named in &ends.folders {
            self.add_folder(alloc, named.name.as_str(), &named.folder)?;
        }
        Ok(())
    }

    /// Adds a name of a folder, unless it is there.
    fn add_folder(
        &mut self,
        alloc: Global,
        name: &str,
        folder: &Identity,
    ) -> Result<(), AllocError> {
        let key = key_of(alloc, folder)?;
        if let Some(names) = self.folders.get_mut(key.as_str()) {
            if !names.iter().any(|other| other.as_str() == name) {
                names.push(String::from_str(alloc, name)?)?;
            }
            return Ok(());
        }
        let mut names = Vec::new(alloc);
        names.push(String::from_str(alloc, name)?)?;
        self.folders.insert(key, names)?;
        Ok(())
    }

    /// Notes the folders that have several names.
    fn note_folders(
        &self,
        alloc: Global,
        ends: &Ends,
        shared: &mut Shared,
    ) -> Result<(), AllocError> {
        for named in &ends.folders {
            let key = key_of(alloc, &named.folder)?;
            if let Some(names) = self.folders.get(key.as_str()) {
                for other in names {
                    if other.as_str() != named.name.as_str() {
                        shared.note_folder(alloc, named.name.as_str(), other.as_str())?;
                    }
                }
            }
        }
        Ok(())
    }

    /// Notes the links below a folder that lead to what other names lead to.
    fn note_links(
        &mut self,
        alloc: Global,
        folder: &str,
        ends: &Ends,
        is_written: bool,
        shared: &mut Shared,
    ) -> Result<(), AllocError> {
        for link in &ends.unknown {
            if is_written {
                shared.note_unknown(alloc, name_below(folder, link.path.as_str()), link.code)?;
            }
        }
        for link in &ends.links {
            let name = name_below(folder, link.path.as_str());
            self.note_plain(alloc, name, &link.end, is_written, shared)?;
            self.note_linked(alloc, name, &link.end, is_written, shared)?;
        }
        Ok(())
    }

    /// Notes a link that leads to what has a name in one of the folders.
    fn note_plain(
        &self,
        alloc: Global,
        name: &str,
        end: &End,
        is_written: bool,
        shared: &mut Shared,
    ) -> Result<(), AllocError> {
        let key = key_of(alloc, &end.folder)?;
        let Some(folders) = self.folders.get(key.as_str()) else {
            return Ok(());
        };
        for folder in folders {
            let other = name_in(alloc, folder.as_str(), end.last.as_str())?;
            let is_other = other.as_str() != name;
            if is_other && is_name_of_store(&self.pattern, self.code, other.as_str()) {
                shared.note_end(alloc, other.as_str())?;
                if is_written {
                    shared.note_link(alloc, name)?;
                }
            }
        }
        Ok(())
    }

    /// Notes a link that leads where another one does.
    fn note_linked(
        &mut self,
        alloc: Global,
        name: &str,
        end: &End,
        is_written: bool,
        shared: &mut Shared,
    ) -> Result<(), AllocError> {
        let key = key_of_end(alloc, end)?;
        if let Some(first) = self.ends.get(key.as_str()) {
            let is_other = first.name.as_str() != name;
            if is_other && first.is_written {
                shared.note_link(alloc, first.name.as_str())?;
            }
            if is_other && is_written {
                shared.note_link(alloc, name)?;
            }
            return Ok(());
        }
        let name = String::from_str(alloc, name)?;
        self.ends.insert(key, First { name, is_written })?;
        Ok(())
    }
}

/// Where a path leads.
fn end_of(rt: &HostRuntime, path: &str) -> io::Result<End> {
    let alloc = rt.alloc();
    let end = followed(rt, String::from_str(alloc, path)?)?;
    let there = fs::metadata(rt, folder_of(end.as_str()))?;
    let folder = Identity::of(&there);
    let last = String::from_str(alloc, last_of(end.as_str()))?;
    Ok(End { folder, last })
}

/// A folder as a text.
fn key_of(alloc: Global, folder: &Identity) -> Result<String, AllocError> {
    let Identity { device, node } = *folder;
    format!(in alloc; "{device}/{node}")
}

/// The end of a link as a text.
fn key_of_end(alloc: Global, end: &End) -> Result<String, AllocError> {
    let Identity { device, node } = end.folder;
    let last = end.last.as_str();
    format!(in alloc; "{device}/{node}/{last}")
}

/// The name of a path below a folder.
fn name_below<'a>(folder: &str, path: &'a str) -> &'a str {
    let rest = path.strip_prefix(folder).unwrap_or(path);
    rest.strip_prefix('/').unwrap_or(rest)
}
