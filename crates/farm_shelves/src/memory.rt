//! A shelf in memory, which can be made to fail.
ghost use Rattle.std.specs.Prelude.{◌≡◌, ℕ, List, ◌<◌, ◌+◌, ◌^◌, if◌then◌else◌, Some, None, IfOk, IfErr, OnOk, OnErr, take, option_map};
ghost use Rattle.farm_shelves.specs.Files.{CountsFailure, Writes, put};
ghost use Rattle.farm_shelves.specs.Memory.{FailsWhenDue, FailsWriteWhenDue, LeavesHalf, due_next, failed_of, fails_in, files_of, is_due};

use crate::shelf::{Shelf, ShelfFault};
use std::alloc::{AllocError, Global};
use std::collections::BTreeMap;

/// A shelf in memory, which can be made to fail at a call. Contracts see its files by name, how often it failed,
/// and how many reads and writes go well before the one that fails.
#[derive(Drop)]
pub struct MemoryShelf {
    pub(crate) stored: BTreeMap<String, Vec<u8>>,
    pub(crate) failed: u64,
    pub(crate) fails_in: Option<u64>,
}

impl MemoryShelf {
    /// A shelf without files that fails at no call. Takes no memory.
    pub fn new(alloc: Global) -> MemoryShelf
        ensures empty { (name : List ℕ) → files_of result name ≡ None }
        ensures failed { failed_of result ≡ 0 }
        ensures steady { fails_in result ≡ None }
    {
        MemoryShelf {
            stored: BTreeMap::new(alloc),
            failed: 0,
            fails_in: None,
        }
    }

    /// Puts a copy of these bytes as the file of that name. It is no write of the device, so it never fails as one.
    pub fn place(&mut self, alloc: Global, name: &str, bytes: &[u8]) -> Result<(), AllocError>
        ensures ok { OnOk result (files_of self.new ≡ put (files_of self.old) name.now bytes.now) }
        ensures err { OnErr result (files_of self.new ≡ files_of self.old) }
        ensures failed { failed_of self.new ≡ failed_of self.old }
        ensures steady { fails_in self.new ≡ fails_in self.old }
    {
        let key = String::from_str(alloc, name)?;
        let mut copy = Vec::new(alloc);
        copy.extend_from_slice(bytes)?;
        match self.stored.insert(key, copy) {
            Ok(_) => Ok(()),
            Err(_) => Err(AllocError),
        }
    }

    /// The bytes of the file of that name, where it is there.
    pub fn file(&self, name: &str) -> Option<&[u8]>
        ensures { option_map (λ b. b.now) result ≡ files_of self.now name.now }
    {
        match self.stored.get(name) {
            Some(bytes) => Some(bytes.as_slice()),
            None => None,
        }
    }

    /// Of the reads and writes from now on, counted from 0, number `k` fails and the others don't. A failed write leaves
    /// the first half of its bytes; if there is no memory for these, the write is refused memory and changes nothing. A later call
    /// replaces an earlier one.
    pub fn fail_at(&mut self, k: u64)
        ensures armed { fails_in self.new ≡ Some k }
        ensures files { files_of self.new ≡ files_of self.old }
        ensures failed { failed_of self.new ≡ failed_of self.old }
    {
        self.fails_in = Some(k);
    }

    /// Whether the next call is the one that fails.
    fn fails_next(&self) -> bool
        ensures { result ≡ is_due (fails_in self.now) }
    {
        match self.fails_in {
            Some(left) => left == 0,
            None => false,
        }
    }

    /// Counts a call that is refused memory.
    fn pass_call(&mut self)
        ensures next { fails_in self.new ≡ due_next (fails_in self.old) }
        ensures files { files_of self.new ≡ files_of self.old }
        ensures failed { failed_of self.new ≡ failed_of self.old }
    {
        self.fails_in = match self.fails_in {
            Some(0) => None,
            Some(k) => Some(k - 1),
            None => None,
        };
    }

    /// Whether the call at hand is the one that fails; it is counted.
    fn fails_now(&mut self) -> bool
        requires { failed_of self.old < 2 ^ 63 }
        ensures due { result ≡ is_due (fails_in self.old) }
        ensures next { fails_in self.new ≡ due_next (fails_in self.old) }
        ensures files { files_of self.new ≡ files_of self.old }
        ensures failed { failed_of self.new ≡ failed_of self.old + (if result then 1 else 0) }
    {
        match self.fails_in {
            Some(0) => {
                self.fails_in = None;
                self.failed += 1;
                true
            }
            Some(k) => {
                self.fails_in = Some(k - 1);
                false
            }
            None => false,
        }
    }
}

impl Shelf for MemoryShelf {
    ghost files = { λ s. Some (files_of s) };

    ghost failed = { λ s. failed_of s };

    fn failures(&self) -> u64 {
        self.failed
    }

    fn read(
        &mut self,
        alloc: Global,
        name: &str,
        limit: usize,
    ) -> Result<Option<Vec<u8>>, ShelfFault>
        requires { failed_of self.old < 2 ^ 63 }
        ensures bytes { IfOk result (λ v. option_map (λ b. b.items) v ≡ option_map (take limit) (files_of self.old name.now)) }
        ensures same { files_of self.new ≡ files_of self.old }
        ensures failure { CountsFailure result (failed_of self.old) (failed_of self.new) }
        ensures due { FailsWhenDue result (is_due (fails_in self.old)) }
        ensures next { fails_in self.new ≡ due_next (fails_in self.old) }
    {
        if self.fails_now() {
            return Err(ShelfFault::Device);
        }
        let Some(bytes) = self.file(name) else {
            return Ok(None);
        };
        let size = bytes.len().min(limit);
        let mut copy = Vec::new(alloc);
        match copy.extend_from_slice(&bytes[..size]) {
            Ok(()) => Ok(Some(copy)),
            Err(_) => Err(ShelfFault::OutOfMemory),
        }
    }

    fn write(&mut self, alloc: Global, name: &str, bytes: &[u8]) -> Result<(), ShelfFault>
        requires { failed_of self.old < 2 ^ 63 }
        ensures written { Writes result name.now bytes.now (Some (files_of self.old)) (Some (files_of self.new)) }
        ensures failure { CountsFailure result (failed_of self.old) (failed_of self.new) }
        ensures half { IfErr result (λ f. LeavesHalf f name.now bytes.now (files_of self.old) (files_of self.new)) }
        ensures due { FailsWriteWhenDue result (is_due (fails_in self.old)) }
        ensures next { fails_in self.new ≡ due_next (fails_in self.old) }
    {
        let kept = if self.fails_next() {
            &bytes[..bytes.len() / 2]
        } else {
            bytes
        };
        if self.place(alloc, name, kept).is_err() {
            self.pass_call();
            return Err(ShelfFault::OutOfMemory);
        }
        if self.fails_now() {
            return Err(ShelfFault::Device);
        }
        Ok(())
    }
}
