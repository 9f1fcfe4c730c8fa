//! A file system in memory, for tests: it keeps all that a crash may leave, and fails when it is asked to.
ghost use Rattle.std.specs.Prelude.{◌≡◌, ◌∷◌, IfOk, string_bytes};

use folders::{Call, Record};
use std::alloc::{AllocError, Global};
use std::io::{self, ErrorKind};

/// Files in memory. What is at a path after a crash is what was put on the disk, or any of what was there since.
pub struct MemoryFolder {
    pub(crate) alloc: Global,
    pub(crate) past: Record,
    nodes: Vec<Node>,
    names: Vec<Name>,
    /// How many calls were made that change something.
    count: u64,
    fault: Option<Fault>,
}

impl Drop for MemoryFolder {
    fn drop(self) {
        let MemoryFolder {
            alloc: _,
            past: _,
            nodes: _,
            names: _,
            count: _,
            fault: _,
        } = self;
    }
}

/// Which calls fail: those that change something are counted from 0 on.
#[derive(Clone, Copy, Debug, PartialEq, Eq)]
pub struct Fault {
    /// The first call that fails.
    pub at: u64,
    /// Whether all calls after it fail too, as if the machine had stopped.
    pub lasts: bool,
    /// Whether what the call was to do is done, although it answers that it failed.
    pub is_done: bool,
}

/// A file's bytes.
#[derive(Drop)]
struct Node {
    bytes: Vec<u8>,
    is_on_disk: bool,
}

/// What is at a path, as the number of a file.
struct Name {
    path: String,
    seen: Option<usize>,
    /// What was there since the names of its folder were written to the disk.
    before: Vec<Option<usize>>,
}

impl Drop for Name {
    fn drop(self) {
        let Name {
            path: _,
            seen: _,
            before: _,
        } = self;
    }
}

/// What a crash may leave of a file that isn't on the disk: nothing, a half, all, or other bytes.
const STATES: u64 = 4;

/// Whether a path is that of a name in a folder.
fn is_in(folder: &str, path: &str) -> bool {
    path.strip_prefix(folder)
        .and_then(|rest| rest.strip_prefix('/'))
        .is_some_and(|name| !name.contains('/'))
}

/// What a crash leaves of bytes that aren't on the disk, in the way of this number.
fn torn(bytes: Vec<u8>, way: u64) -> Vec<u8> {
    let mut bytes = bytes;
    match way {
        0 => bytes.clear(),
        1 => bytes.truncate(bytes.len() / 2),
        2 => {
            for byte in bytes.iter_mut() {
                *byte ^= 0x5a;
            }
        }
        _ => {}
    }
    bytes
}

/// What a call answers.
fn answer_of(fails: Option<bool>) -> io::Result<()> {
    match fails {
        None => Ok(()),
        Some(_) => Err(io::Error::from(ErrorKind::Other)),
    }
}

/// A copy of bytes.
pub(crate) fn copied(alloc: Global, bytes: &[u8]) -> Result<Vec<u8>, AllocError> {
    Vec::from_slice(alloc, bytes)
}

impl MemoryFolder {
    ghost use Rattle.folders.specs.Recorded.{recorded};

    /// No files.
    pub fn new(alloc: Global) -> MemoryFolder {
        MemoryFolder {
            alloc,
            past: Record::new(),
            nodes: Vec::new(alloc),
            names: Vec::new(alloc),
            count: 0,
            fault: None,
        }
    }

    /// Puts a file with these bytes at a path, on the disk.
    pub fn put(&mut self, path: &str, bytes: &[u8]) -> Result<(), AllocError> {
        let node = self.add_node(copied(self.alloc, bytes)?, true)?;
        self.set(path, Some(node))?;
        self.settle_all();
        Ok(())
    }

    /// The bytes at a path, as programs see them.
    pub fn bytes_at(&self, path: &str) -> Option<&[u8]> {
        let node = self.nodes.get(self.node_at(path)?)?;
        Some(node.bytes.as_slice())
    }

    /// The paths at which something is.
    pub fn paths(&self) -> Result<Vec<&str>, AllocError> {
        let mut paths = Vec::new(self.alloc);
        for name in &self.names {
            if name.seen.is_some() {
                paths.push(name.path.as_str())?;
            }
        }
        Ok(paths)
    }

    /// Has calls fail from now on.
    pub fn fail(&mut self, fault: Fault) {
        self.count = 0;
        self.fault = Some(fault);
    }

    /// How many calls were made that change something, since calls were asked to fail.
    pub fn count(&self) -> u64 {
        self.count
    }

    /// How many ways there are for a crash to go now.
    pub fn crashes(&self) -> u64 {
        let mut crashes = 1u64;
        for name in &self.names {
            crashes = crashes.saturating_mul((name.before.len() as u64).saturating_add(1));
        }
        for node in &self.nodes {
            if !node.is_on_disk {
                crashes = crashes.saturating_mul(STATES);
            }
        }
        crashes
    }

    /// What a crash leaves that goes in the way of this number, all of it on the disk.
    pub fn after_crash(&self, way: u64) -> Result<MemoryFolder, AllocError> {
        let mut left = MemoryFolder::new(self.alloc);
        let mut way = way;
        for node in &self.nodes {
            let bytes = copied(self.alloc, node.bytes.as_slice())?;
            let bytes = if node.is_on_disk {
                bytes
            } else {
                let state = way % STATES;
                way /= STATES;
                torn(bytes, state)
            };
            left.add_node(bytes, true)?;
        }
        for name in &self.names {
            let ways = (name.before.len() as u64).saturating_add(1);
            let chosen = (way % ways) as usize;
            way /= ways;
            let node = name.before.get(chosen).copied().unwrap_or(name.seen);
            left.set(name.path.as_str(), node)?;
        }
        left.settle_all();
        Ok(left)
    }

    /// Adds a file that has no path yet, and gives its number.
    fn add_node(&mut self, bytes: Vec<u8>, is_on_disk: bool) -> Result<usize, AllocError>
        ensures { self.new.past.calls ≡ self.old.past.calls }
    {
        let node = self.nodes.len();
        self.nodes.push(Node { bytes, is_on_disk })?;
        Ok(node)
    }

    /// The number of the file at a path, as it is seen now.
    pub(crate) fn node_at(&self, path: &str) -> Option<usize> {
        self.names
            .iter()
            .find(|name| name.path.as_str() == path)
            .and_then(|name| name.seen)
    }

    /// Puts a file, or none, at a path, without writing the name to the disk.
    fn set(&mut self, path: &str, node: Option<usize>) -> Result<(), AllocError>
        ensures { self.new.past.calls ≡ self.old.past.calls }
    {
        for name in &mut self.names {
            if name.path.as_str() == path {
                name.before.push(name.seen)?;
                name.seen = node;
                return Ok(());
            }
        }
        let mut before = Vec::new(self.alloc);
        before.push(None)?;
        self.names.push(Name {
            path: String::from_str(self.alloc, path)?,
            seen: node,
            before,
        })?;
        Ok(())
    }

    /// Writes all names to the disk.
    fn settle_all(&mut self)
        ensures { self.new.past.calls ≡ self.old.past.calls }
    {
        for name in &mut self.names {
            name.before.clear();
        }
    }

    /// Writes the names in a folder to the disk.
    fn settle(&mut self, folder: &str)
        ensures { self.new.past.calls ≡ self.old.past.calls }
    {
        for name in &mut self.names {
            if is_in(folder, name.path.as_str()) {
                name.before.clear();
            }
        }
    }

    /// How many bytes the file with a number has; 0 if there is none.
    pub(crate) fn length_of(&self, node: usize) -> usize {
        match self.nodes.get(node) {
            Some(node) => node.bytes.len(),
            None => 0,
        }
    }

    /// Makes an empty file at a path at which nothing is.
    pub(crate) fn make(&mut self, path: &str) -> io::Result<(usize, String, Vec<u8>)>
        ensures path { IfOk result (λ made. string_bytes made.1 ≡ path.now) }
        ensures calls { self.new.past.calls ≡ self.old.past.calls }
    {
        let own = String::from_str(self.alloc, path)?;
        let node = self.add_node(Vec::new(self.alloc), false)?;
        self.add(node, path)?;
        Ok((node, own, Vec::new(self.alloc)))
    }

    /// Writes a file's bytes to the disk, if the call doesn't fail. Programs see them either way.
    pub(crate) fn write(&mut self, node: usize, bytes: Vec<u8>) -> io::Result<()>
        ensures { self.new.past.calls ≡ self.old.past.calls }
    {
        let fails = self.fails();
        if let Some(node) = self.nodes.get_mut(node) {
            node.bytes = bytes;
            node.is_on_disk = fails != Some(false);
        }
        answer_of(fails)
    }

    /// Counts a call that changes something. Says whether it fails, and then whether it is done all the same.
    fn fails(&mut self) -> Option<bool>
        ensures { self.new.past.calls ≡ self.old.past.calls }
    {
        let call = self.count;
        self.count = self.count.saturating_add(1);
        let fault = self.fault?;
        let is_hit = call == fault.at || (fault.lasts && call > fault.at);
        is_hit.then_some(fault.is_done && call == fault.at)
    }

    /// Puts a file, or none, at a path, if the call doesn't fail.
    pub(crate) fn change(&mut self, path: &str, node: Option<usize>) -> io::Result<()>
        ensures { self.new.past.calls ≡ self.old.past.calls }
    {
        let fails = self.fails();
        if fails != Some(false) {
            self.set(path, node)?;
        }
        answer_of(fails)
    }

    /// Puts a file at a path in place of another path, if the call doesn't fail.
    pub(crate) fn change_path(&mut self, node: usize, from: &str, to: &str) -> io::Result<()>
        ensures { self.new.past.calls ≡ self.old.past.calls }
    {
        let fails = self.fails();
        if fails != Some(false) {
            self.set(to, Some(node))?;
            self.set(from, None)?;
        }
        answer_of(fails)
    }

    /// A call that has nothing to do, and may fail.
    pub(crate) fn change_nothing(&mut self) -> io::Result<()>
        ensures { self.new.past.calls ≡ self.old.past.calls }
    {
        let fails = self.fails();
        answer_of(fails)
    }

    /// Writes the names in a folder to the disk, if the call doesn't fail.
    pub(crate) fn write_names(&mut self, folder: &str) -> io::Result<()>
        ensures { self.new.past.calls ≡ self.old.past.calls }
    {
        let fails = self.fails();
        if fails != Some(false) {
            self.settle(folder);
        }
        answer_of(fails)
    }

    /// Notes a call in what was recorded, with whether it ended well.
    pub(crate) fn note(&mut self, call: &Call<'_>, is_ok: bool)
        ensures { self.new.past.calls ≡ recorded call.now is_ok ∷ self.old.past.calls }
    {
        self.past = Record::with(&self.past, call, is_ok);
    }

    /// Puts a file at a path at which nothing is.
    pub(crate) fn add(&mut self, node: usize, to: &str) -> io::Result<()>
        ensures { self.new.past.calls ≡ self.old.past.calls }
    {
        if self.node_at(to).is_some() {
            return Err(io::Error::from(ErrorKind::AlreadyExists));
        }
        self.change(to, Some(node))
    }
}
