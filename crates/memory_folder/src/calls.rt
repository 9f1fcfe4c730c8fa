//! The calls of a file system, in memory.
ghost use Rattle.std.specs.Prelude.{◌≡◌};

use crate::handles::{MemoryNew, MemoryOpen, MemoryWhole, status_of};
use crate::memory::{MemoryFolder, copied};
use folders::{Call, Folder, Rights, Status, Written};
use std::io::{self, ErrorKind};

impl Folder for MemoryFolder {
    type Open = MemoryOpen;

    type New = MemoryNew;

    type Whole = MemoryWhole;

    ghost calls = { λ folder. folder.past.calls };

    fn status(&self, path: &str) -> io::Result<Status> {
        match self.node_at(path) {
            Some(node) => Ok(status_of(node, self.length_of(node))),
            None => Err(io::Error::from(ErrorKind::NotFound)),
        }
    }

    fn status_followed(&self, path: &str) -> io::Result<Status> {
        self.status(path)
    }

    fn read_link(&self, _path: &str) -> io::Result<String> {
        Err(io::Error::from(ErrorKind::InvalidInput))
    }

    fn open(&self, path: &str) -> io::Result<MemoryOpen> {
        let status = self.status(path)?;
        let bytes = self.bytes_at(path).unwrap_or(&[]);
        Ok(MemoryOpen {
            bytes: copied(self.alloc, bytes)?,
            status,
        })
    }

    fn create_new(&mut self, path: &str, _mode: u32) -> io::Result<MemoryNew> {
        let answer = self.make(path);
        self.note(&Call::Make(path), answer.is_ok());
        let (node, path, bytes) = answer?;
        Ok(MemoryNew {
            node,
            path,
            bytes,
            made: self.past.again(),
            written: Written::new(),
        })
    }

    fn sync(&mut self, file: MemoryNew) -> io::Result<MemoryWhole> {
        let MemoryNew {
            node,
            path,
            bytes,
            made,
            written,
        } = file;
        let answer = self.write(node, bytes);
        self.note(&Call::Sync(&made, &written), answer.is_ok());
        answer?;
        Ok(MemoryWhole { node, path, made })
    }

    fn link(&mut self, file: &MemoryWhole, to: &str) -> io::Result<()> {
        let answer = self.add(file.node, to);
        self.note(&Call::Link(&file.made, to), answer.is_ok());
        answer
    }

    fn link_again(&mut self, from: &str, to: &str) -> io::Result<()> {
        let answer = match self.node_at(from) {
            Some(node) => self.add(node, to),
            None => Err(io::Error::from(ErrorKind::NotFound)),
        };
        self.note(&Call::LinkAgain(from, to), answer.is_ok());
        answer
    }

    fn rename(&mut self, file: &MemoryWhole, to: &str) -> io::Result<()> {
        let from = file.path.as_str();
        let answer = self.change_path(file.node, from, to);
        self.note(&Call::Rename(&file.made, from, to), answer.is_ok());
        answer
    }

    fn rename_again(&mut self, from: &str, to: &str) -> io::Result<()> {
        let answer = match (self.node_at(from), self.node_at(to)) {
            (None, _) => Err(io::Error::from(ErrorKind::NotFound)),
            (Some(node), Some(there)) if node == there => self.change_nothing(),
            (Some(node), _) => self.change_path(node, from, to),
        };
        self.note(&Call::RenameAgain(from, to), answer.is_ok());
        answer
    }

    fn remove(&mut self, path: &str) -> io::Result<()> {
        let answer = match self.node_at(path) {
            Some(_) => self.change(path, None),
            None => Err(io::Error::from(ErrorKind::NotFound)),
        };
        self.note(&Call::Remove(path), answer.is_ok());
        answer
    }

    fn sync_folder(&mut self, path: &str) -> io::Result<()> {
        let answer = self.write_names(path);
        self.note(&Call::SyncFolder(path), answer.is_ok());
        answer
    }

    fn is_same_file(&mut self, path: &str, other: &str) -> io::Result<bool> {
        let is = match (self.node_at(path), self.node_at(other)) {
            (Some(node), Some(another)) => node == another,
            _ => false,
        };
        self.note(&Call::SameFile(path, other), is);
        Ok(is)
    }

    fn is_absent(&mut self, path: &str) -> io::Result<bool> {
        let is = self.node_at(path).is_none();
        self.note(&Call::Absent(path), is);
        Ok(is)
    }
}
