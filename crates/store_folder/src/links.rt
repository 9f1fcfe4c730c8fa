//! Symbolic links below a store's folder.
use folders::{Folder, Status, SystemFolder, folder_of, is_absent};
use std::alloc::Global;
use std::fs::{self, Metadata};
use std::io::{self, ErrorKind};
use store_names::path_in;

/// So many links at most are followed, one after the other.
const MOST_LINKS: usize = 16;

/// What is done with the links below a store's folder.
#[derive(Clone, Copy, Debug, PartialEq, Eq)]
pub enum Links {
    /// They are taken for links, whatever they lead to.
    NotFollowed,
    /// They are taken for what they lead to.
    Followed,
}

/// What is said of what is at a path: of a link itself where links aren't followed.
pub fn look_at(rt: &HostRuntime, path: &str, links: Links) -> io::Result<Metadata> {
    match links {
        Links::NotFollowed => fs::symlink_metadata(rt, path),
        Links::Followed => fs::metadata(rt, path),
    }
}

/// What is said of what is at a path of a folder: of a link itself where links aren't followed.
pub(crate) fn status_at<F: Folder>(folder: &F, path: &str, links: Links) -> io::Result<Status> {
    match links {
        Links::NotFollowed => folder.status(path),
        Links::Followed => folder.status_followed(path),
    }
}

/// The path that a path's links lead to, as far as there are links.
pub fn followed(rt: &HostRuntime, path: String) -> io::Result<String> {
    followed_in(rt.alloc(), &SystemFolder::new(rt), path)
}

/// The path that a path's links lead to in a folder, as far as there are links.
pub(crate) fn followed_in<F: Folder>(
    alloc: Global,
    folder: &F,
    path: String,
) -> io::Result<String> {
    let mut path = path;
    for _link in 0..=MOST_LINKS {
        if !is_link(folder, path.as_str())? {
            return Ok(path);
        }
        let text = folder.read_link(path.as_str())?;
        path = if text.starts_with('/') {
            text
        } else {
            path_in(alloc, folder_of(path.as_str()), text.as_str())?
        };
    }
    Err(io::Error::from(ErrorKind::InvalidInput))
}

/// Whether a link is at a path of a folder. Where that can't be looked at, a link may be there.
fn is_link<F: Folder>(folder: &F, path: &str) -> io::Result<bool> {
    match folder.status(path) {
        Ok(status) => Ok(status.is_link()),
        Err(error) if is_absent(error.kind()) => Ok(false),
        Err(error) => Err(error),
    }
}

/// Refuses a name below a folder if a folder on the way is a link, unless links are followed.
pub fn refuse_linked_folders(
    rt: &HostRuntime,
    folder: &str,
    name: &str,
    links: Links,
) -> io::Result<()> {
    refuse_linked_in(rt.alloc(), &SystemFolder::new(rt), folder, name, links)
}

/// Refuses a name below a path of a folder if a folder on the way is a link, unless links are followed.
pub(crate) fn refuse_linked_in<F: Folder>(
    alloc: Global,
    folder: &F,
    path: &str,
    name: &str,
    links: Links,
) -> io::Result<()> {
    let Some((inside, _)) = name.rsplit_once('/') else {
        return Ok(());
    };
    if links == Links::Followed {
        return Ok(());
    }
    let mut path = String::from_str(alloc, path)?;
    for part in inside.split('/') {
        path = path_in(alloc, path.as_str(), part)?;
        if folder.status(path.as_str())?.is_link() {
            return Err(io::Error::new(
                ErrorKind::InvalidInput,
                "its folder is a link, and links aren't followed",
            ));
        }
    }
    Ok(())
}
