//! What is in a store: which fragments of which stripes, and how many bytes each has; no times are kept.
use crate::disks::{NOT_A_FOLDER, Unlisted};
use crate::ends::Ends;
use crate::kinds::{found_of, may_be_made, path_inside};
use crate::stripe_names::StripeNames;
use crate::watching::{Foreign, Wanted, Watched};
use folders::folder_of;
use std::alloc::AllocError;
use std::collections::BTreeSet;
use std::fs::{self, Metadata};
use std::io::{self, ErrorKind};
use store_folder::{Links, followed, is_absent, look_at};
use store_names::{described_stripe, disk_folders, is_of_runs, last_of, path_in};
use stores::Found;

/// The folder that a file system keeps for what it finds of lost files: no store's, and no stripe's.
const LOST_AND_FOUND: &str = "lost+found";

/// What is in a folder.
pub struct Listing {
    /// What the names of its files say of stripes.
    pub names: StripeNames,
    /// The folders in it that couldn't be listed, or aren't there.
    pub unlisted: Vec<Unlisted>,
    /// The paths of files that have the names of such as runs leave if they are killed.
    pub leftovers: Vec<String>,
    /// The path of a link that wasn't followed, the first that was met, and how many there are.
    pub link: Option<String>,
    pub links: u64,
    /// The folders that links led to.
    pub linked: BTreeSet<String>,
    /// Where names lead that were looked at, if links are followed.
    pub ends: Ends,
    /// A folder of the store that others than root may write into.
    pub foreign: Option<Foreign>,
    /// The first path of those that were to be watched that was found to be one of the store's.
    pub watched: Option<String>,
    /// The stripes of descriptions that the system refuses to read.
    pub(crate) unread: Vec<String>,
    /// Whether fragments of other parts are looked at too.
    looks_at_all: bool,
}

impl Drop for Listing {
    fn drop(self) {
        let Listing {
            names: _,
            unlisted: _,
            leftovers: _,
            link: _,
            links: _,
            linked: _,
            ends: _,
            foreign: _,
            watched: _,
            unread: _,
            looks_at_all: _,
        } = self;
    }
}

/// Lists the folder at a path. Names that don't fit its pattern are left alone. A folder in it that can't be listed costs what is in it.
pub fn list(rt: &HostRuntime, folder: &str, wanted: &Wanted<'_>) -> io::Result<Listing> {
    let mut listing = Listing::new(rt, wanted);
    match listing.add_all(rt, folder, wanted) {
        Ok(()) => listing.with_unread(rt.alloc()),
        Err(error) => Err(error),
    }
}

impl Listing {
    /// What is known before anything is listed.
    fn new(rt: &HostRuntime, wanted: &Wanted<'_>) -> Listing {
        let alloc = rt.alloc();
        Listing {
            names: StripeNames::new(alloc, wanted.part),
            unlisted: Vec::new(alloc),
            leftovers: Vec::new(alloc),
            link: None,
            links: 0,
            linked: BTreeSet::new(alloc),
            ends: Ends::new(alloc),
            foreign: None,
            watched: None,
            unread: Vec::new(alloc),
            looks_at_all: wanted.links == Links::Followed
                || wanted.watched.iter().any(Watched::may_be_fragment),
        }
    }

    /// Adds all that is in the store's folder, and below it where fragments are there.
    fn add_all(&mut self, rt: &HostRuntime, folder: &str, wanted: &Wanted<'_>) -> io::Result<()> {
        let own = self.entries(rt, folder, "", wanted)?;
        let Some(disks) = disk_folders(rt.alloc(), &wanted.pattern, wanted.code)? else {
            return self.add_below(rt, folder, wanted, own);
        };
        for name in &own {
            self.add_own(rt, folder, wanted, name.as_str())?;
        }
        for disk in &disks {
            self.add_disk(rt, folder, wanted, disk.as_str())?;
        }
        Ok(())
    }

    /// Adds what is under a name in the store's own folder, where fragments are in others.
    fn add_own(
        &mut self,
        rt: &HostRuntime,
        folder: &str,
        wanted: &Wanted<'_>,
        name: &str,
    ) -> io::Result<()> {
        if is_of_runs(name) {
            self.leftovers.push(path_in(rt.alloc(), folder, name)?)?;
            return Ok(());
        }
        if wanted.has_stripes {
            self.is_description(rt, folder, wanted, name)?;
        }
        Ok(())
    }

    /// Adds what is in the folder of a disk.
    fn add_disk(
        &mut self,
        rt: &HostRuntime,
        folder: &str,
        wanted: &Wanted<'_>,
        disk: &str,
    ) -> io::Result<()> {
        let alloc = rt.alloc();
        let mut inside = String::new(alloc);
        for part in disk.split('/') {
            if !inside.is_empty() {
                if !self.enters(rt, folder, inside.as_str(), wanted)? {
                    return Ok(());
                }
                inside.push('/')?;
            }
            inside.push_str(part)?;
        }
        for name in self.entries(rt, folder, disk, wanted)? {
            self.add(rt, folder, wanted, name.as_str())?;
        }
        Ok(())
    }

    /// Adds what is below the store's own folder, as deep as names are.
    fn add_below(
        &mut self,
        rt: &HostRuntime,
        folder: &str,
        wanted: &Wanted<'_>,
        own: Vec<String>,
    ) -> io::Result<()> {
        let alloc = rt.alloc();
        let depth_of_names = wanted.pattern.depth();
        let mut entries = own;
        'depths: for depth in 0..=depth_of_names {
            let mut below = Vec::new(alloc);
            for name in &entries {
                if depth == depth_of_names || is_of_runs(last_of(name.as_str())) {
                    self.add(rt, folder, wanted, name.as_str())?;
                } else if last_of(name.as_str()) != LOST_AND_FOUND {
                    self.add_first(rt, folder, wanted, name.as_str())?;
                    for entry in self.entries(rt, folder, name.as_str(), wanted)? {
                        below.push(entry)?;
                    }
                }
            }
            entries = below;
        }
        Ok(())
    }

    /// The names in a folder inside the store's, each with that folder's. What is no folder has none, and of one that can't be listed it is
    /// noted; the store's own has to be listed.
    fn entries(
        &mut self,
        rt: &HostRuntime,
        folder: &str,
        inside: &str,
        wanted: &Wanted<'_>,
    ) -> io::Result<Vec<String>> {
        let alloc = rt.alloc();
        let mut names = Vec::new(alloc);
        if !self.enters(rt, folder, inside, wanted)? {
            return Ok(names);
        }
        let path = path_inside(alloc, folder, inside)?;
        if let Err(error) = self.names_in(rt, path.as_str(), inside, wanted, &mut names) {
            self.note_unlisted(alloc, folder, inside, error)?;
        }
        Ok(names)
    }

    /// Whether a folder inside the store's can be gone into. Why it can't is noted.
    fn enters(
        &mut self,
        rt: &HostRuntime,
        folder: &str,
        inside: &str,
        wanted: &Wanted<'_>,
    ) -> io::Result<bool> {
        let alloc = rt.alloc();
        let path = path_inside(alloc, folder, inside)?;
        let links = if inside.is_empty() {
            Links::Followed
        } else {
            wanted.links
        };
        let metadata = match look_at(rt, path.as_str(), links) {
            Ok(metadata) => metadata,
            Err(error) => {
                self.note_unlisted(alloc, folder, inside, error)?;
                return Ok(false);
            }
        };
        if metadata.is_symlink() {
            self.note_link(path)?;
            return Ok(false);
        }
        if !metadata.is_dir() && !inside.is_empty() {
            if disk_folders(alloc, &wanted.pattern, wanted.code)?.is_some() {
                let error = io::Error::from_raw_os_error(NOT_A_FOLDER);
                self.note_unlisted(alloc, folder, inside, error)?;
            }
            return Ok(false);
        }
        self.note_folder(alloc, path.as_str(), inside, &metadata, wanted)?;
        Ok(true)
    }

    /// Adds the names in the folder at a path, each with the name that this has in the store.
    fn names_in(
        &mut self,
        rt: &HostRuntime,
        path: &str,
        inside: &str,
        wanted: &Wanted<'_>,
        names: &mut Vec<String>,
    ) -> io::Result<()> {
        let alloc = rt.alloc();
        for entry in fs::read_dir(rt, path)? {
            match entry {
                Ok(entry) if inside.is_empty() => {
                    let name = String::from_str(alloc, entry.file_name())?;
                    self.keep_name(wanted, name, names)?;
                }
                Ok(entry) => {
                    let name = path_in(alloc, inside, entry.file_name())?;
                    self.keep_name(wanted, name, names)?;
                }
                // A name that is no UTF-8 is left alone.
                Err(error) if error.kind() == ErrorKind::InvalidFilename => {}
                Err(error) => return Err(error),
            }
        }
        Ok(())
    }

    /// Keeps a name of the store, unless it is that of another part's fragment: such are only counted, so that a part costs its part, and
    /// listing the names. It is kept too if it may be that of a description. Where a watched path may be a fragment of any part by another
    /// name, all are looked at.
    fn keep_name(
        &mut self,
        wanted: &Wanted<'_>,
        name: String,
        names: &mut Vec<String>,
    ) -> Result<(), AllocError> {
        if wanted.part.is_some() && wanted.has_stripes && !self.looks_at_all {
            let may_describe = described_stripe(last_of(name.as_str())).is_some();
            if let Some((stripe, _)) = wanted.pattern.read(wanted.code, name.as_str()) {
                if !may_describe && !self.names.is_wanted(stripe) {
                    self.names.note_name();
                    return Ok(());
                }
            }
        }
        names.push(name)?;
        Ok(())
    }

    /// Adds what is under a name of the store.
    fn add(
        &mut self,
        rt: &HostRuntime,
        folder: &str,
        wanted: &Wanted<'_>,
        name: &str,
    ) -> io::Result<()> {
        let alloc = rt.alloc();
        let path = path_in(alloc, folder, name)?;
        if is_of_runs(last_of(name)) {
            self.leftovers.push(path)?;
            return Ok(());
        }
        if !wanted.has_stripes {
            if wanted.links == Links::Followed && may_be_made(wanted, name) {
                self.note_behind(rt, path)?;
            }
            return Ok(());
        }
        if self.is_description(rt, folder, wanted, name)? {
            return Ok(());
        }
        let Some((stripe, place)) = wanted.pattern.read(wanted.code, name) else {
            return Ok(());
        };
        match self.look(rt, path, wanted)? {
            Some(found) => self.names.note(alloc, stripe, place, found)?,
            None => self.names.note_folder(alloc, stripe, place)?,
        }
        Ok(())
    }

    /// Notes the folder that the link at a path leads to, if one is there: what is lost is made there.
    pub(crate) fn note_behind(&mut self, rt: &HostRuntime, path: String) -> Result<(), AllocError> {
        match fs::symlink_metadata(rt, path.as_str()) {
            Ok(there) if there.is_symlink() => {
                let _ = self.look_behind(rt, path)?;
                Ok(())
            }
            Err(error) if error.kind() == ErrorKind::OutOfMemory => Err(AllocError),
            _ => Ok(()),
        }
    }

    /// What is at a path at which there is a name; none where that is a folder.
    fn look(
        &mut self,
        rt: &HostRuntime,
        path: String,
        wanted: &Wanted<'_>,
    ) -> Result<Option<Found>, AllocError> {
        let metadata = match fs::symlink_metadata(rt, path.as_str()) {
            Ok(metadata) if !metadata.is_symlink() => Ok(metadata),
            Ok(_) if wanted.links == Links::NotFollowed => {
                self.note_link(path)?;
                return Ok(Some(Found::Other));
            }
            Ok(_) => self.look_behind(rt, path)?,
            Err(error) => Err(error),
        };
        match metadata {
            Ok(metadata) => {
                self.note_file(rt.alloc(), &metadata, wanted)?;
                Ok(found_of(&metadata))
            }
            Err(error) if error.kind() == ErrorKind::NotFound => Ok(Some(Found::Dangling)),
            Err(error) if error.kind() == ErrorKind::OutOfMemory => Err(AllocError),
            Err(error) => Ok(Some(Found::Unknown {
                code: error.raw_os_error().unwrap_or(0),
            })),
        }
    }

    /// What the link at a path leads to; its folder is noted, and who may write there.
    fn look_behind(
        &mut self,
        rt: &HostRuntime,
        path: String,
    ) -> Result<io::Result<Metadata>, AllocError> {
        let alloc = rt.alloc();
        let metadata = fs::metadata(rt, path.as_str());
        match followed(rt, String::from_str(alloc, path.as_str())?) {
            Ok(end) => {
                let folder = String::from_str(alloc, folder_of(end.as_str()))?;
                match fs::metadata(rt, folder.as_str()) {
                    Ok(there) => {
                        self.note_writers(alloc, folder.as_str(), &there)?;
                        self.ends.note_link(alloc, path, &there, end.as_str())?;
                    }
                    Err(error) if error.kind() == ErrorKind::OutOfMemory => return Err(AllocError),
                    // Others may write there, so that nothing is to be made.
                    Err(error) if !is_absent(error.kind()) => {
                        self.ends.note_unknown(path, &error)?;
                        return Ok(Err(error));
                    }
                    Err(_) => {}
                }
                self.linked.insert(folder)?;
            }
            Err(error) if error.kind() == ErrorKind::OutOfMemory => return Err(AllocError),
            // So many links are followed nowhere.
            Err(error) if error.kind() == ErrorKind::InvalidInput => {}
            Err(error) => {
                self.ends.note_unknown(path, &error)?;
                return Ok(Err(error));
            }
        }
        Ok(metadata)
    }
}
