//! Fragments that survive as files.
ghost use Rattle.std.specs.Prelude.{◌≡◌, IfOk, None};

use crate::links::Links;
use crate::regular::open_in;
use folders::{Folder, OpenFile, Status, SystemFolder, SystemOpen};
use std::io::{self, ErrorKind};
use stores::Fragment;

/// A fragment in a file that is open for reading. An error of the kind `ResourceBusy` says that the file was changed since then.
#[derive(Drop)]
pub struct FileFragment<O> {
    file: O,
    opened: Status,
}

/// Whether a file has the length and the times of change that it had.
fn is_unchanged(before: &Status, now: &Status) -> bool {
    now.length == before.length && now.modified == before.modified && now.changed == before.changed
}

impl<O: OpenFile> Fragment for FileFragment<O> {
    ghost shown = { λ _. None };

    fn read_at(&self, from: usize, bytes: &mut [u8]) -> io::Result<()> {
        let read = self.file.read_exact_at(from as u64, bytes);
        if !is_unchanged(&self.opened, &self.file.status()?) {
            return Err(io::Error::new(ErrorKind::ResourceBusy, "changed meanwhile"));
        }
        read
    }
}

/// Opens the regular file at a path, which has to have so many bytes.
pub fn open_fragment(
    rt: &HostRuntime,
    path: &str,
    length: u64,
    links: Links,
) -> io::Result<FileFragment<SystemOpen>> {
    open_fragment_in(&SystemFolder::new(rt), path, length, links)
}

/// Opens the regular file at a path of a folder, which has to have so many bytes.
pub(crate) fn open_fragment_in<F: Folder>(
    folder: &F,
    path: &str,
    length: u64,
    links: Links,
) -> io::Result<FileFragment<F::Open>>
    ensures { IfOk result (λ fragment. fragment.opened.length ≡ length) }
{
    let (file, opened) = open_in(folder, path, links)?;
    if opened.length != length {
        return Err(io::Error::from(ErrorKind::UnexpectedEof));
    }
    Ok(FileFragment { file, opened })
}
