//! A store in memory.
ghost use Rattle.std.specs.Prelude.{◌≡◌, ◌<◌, List, ℕ, IfOk, None, OnErr, OnOk, Some, drop, find, option_copied, option_map};
ghost use Rattle.std.specs.Prelude.{false, refl, true, vec_len};
ghost use Rattle.stores.specs.Changed.{ChangesOrHas, GivesOneMore, changed_kept, none_changed};
ghost use Rattle.stores.specs.Kept.{Given, HasBytes, KeepsOrHas, StaysBeside, StaysOver, still_has, unchanged};
ghost use Rattle.lrc_code.specs.Code.{AreBytes};
ghost use Rattle.lrc_code.specs.declared.places.Place.{Place};
ghost use Rattle.stores.specs.Memory.{ExchangesName, GivesName, bytes_of, files_of, is_entry, names_of, put_name, with_fragment, with_kept};
ghost use Rattle.stores.specs.Store.{AreUntouched, HasName, SameElsewhere};

use crate::store::{Fragment, NameFault, NewFragment, Placed, Refused, Store};
use lrc_code::Place;
use std::alloc::{AllocError, Global};
use std::io::{self, ErrorKind};

/// A store in memory. Contracts see its fragments, and those that were replaced, by the names of their stripes and their places.
pub struct MemoryStore {
    alloc: Global,
    /// Of several entries of one name the first counts.
    pub(crate) fragments: Vec<Entry>,
    pub(crate) replaced: Vec<Entry>,
}

impl Drop for MemoryStore {
    fn drop(self) {
        let MemoryStore {
            alloc: _,
            fragments: _,
            replaced: _,
        } = self;
    }
}

/// The bytes of a stripe's fragment at a place.
pub(crate) struct Entry {
    stripe: String,
    place: Place,
    bytes: Vec<u8>,
}

impl Drop for Entry {
    fn drop(self) {
        let Entry {
            stripe: _,
            place: _,
            bytes: _,
        } = self;
    }
}

/// A fragment of a store in memory: one that survives, or a new one that has no name yet. Contracts see its bytes.
#[derive(Drop)]
pub struct MemoryFragment {
    pub(crate) bytes: Vec<u8>,
}

impl Fragment for MemoryFragment {
    ghost shown = { λ f. Some (bytes_of f) };

    fn read_at(&self, from: usize, bytes: &mut [u8]) -> io::Result<()> {
        let size = self.bytes.len();
        if from > size || bytes.len() > size - from {
            return Err(io::Error::from(ErrorKind::UnexpectedEof));
        }
        let end = from + bytes.len();
        bytes.copy_from_slice(&self.bytes[from..end]);
        Ok(())
    }
}

impl NewFragment for MemoryFragment {
    ghost shown = { λ f. Some (bytes_of f) };

    fn append(&mut self, bytes: &[u8]) -> io::Result<()> {
        self.bytes.extend_from_slice(bytes)?;
        Ok(())
    }
}

/// The entry that counts for a stripe's fragment at a place.
fn entry_of<'e>(entries: &'e [Entry], stripe: &str, place: Place) -> Option<&'e Entry>
    ensures { option_copied result ≡ find (is_entry stripe.now place) entries.now }
{
    entries.iter().find(|entry| entry.stripe.as_str() == stripe
        && entry.place.index() == place.index())
}

/// The bytes of a stripe's fragment at a place.
fn bytes_at<'e>(entries: &'e [Entry], stripe: &str, place: Place) -> Option<&'e [u8]>
    ensures { option_map (λ b. b.now) result ≡ names_of entries.now stripe.now place }
{
    match entry_of(entries, stripe, place) {
        Some(entry) => Some(entry.bytes.as_slice()),
        None => None,
    }
}

/// Puts an entry before the others, so that it counts.
fn put_entry(
    alloc: Global,
    entries: &mut Vec<Entry>,
    stripe: &str,
    place: Place,
    bytes: Vec<u8>,
) -> Result<(), AllocError>
    ensures ok { OnOk result (names_of entries.new.items ≡ put_name (names_of entries.old.items) stripe.now place bytes.items) }
    ensures before { OnOk result ((0 < vec_len entries.new) × (drop 1 entries.new.items ≡ entries.old.items)) }
    ensures err { OnErr result (entries.new.items ≡ entries.old.items) }
{
    let stripe = String::from_str(alloc, stripe)?;
    match entries.insert(
        0,
        Entry {
            stripe,
            place,
            bytes,
        },
    ) {
        Ok(()) => Ok(()),
        Err(_) => Err(AllocError),
    }
}

impl MemoryStore {
    /// A store without fragments. What comes into it takes its memory from this allocator.
    pub fn new(alloc: Global) -> MemoryStore
        ensures fragments { (stripe : List ℕ) (place : Place) → (files_of result).fragments stripe place ≡ None }
        ensures kept { (stripe : List ℕ) (place : Place) → (files_of result).kept stripe place ≡ None }
    {
        MemoryStore {
            alloc,
            fragments: Vec::new(alloc),
            replaced: Vec::new(alloc),
        }
    }

    /// Puts a copy of these bytes as a stripe's fragment at a place, in place of what was there.
    pub fn put(&mut self, stripe: &str, place: Place, bytes: &[u8]) -> Result<(), AllocError>
        ensures ok { OnOk result (files_of self.new ≡ with_fragment (files_of self.old) stripe.now place bytes.now) }
        ensures err { OnErr result (files_of self.new ≡ files_of self.old) }
    {
        let copy = copied(self.alloc, bytes)?;
        put_entry(self.alloc, &mut self.fragments, stripe, place, copy)
    }

    /// A stripe's fragment at a place, where it is there.
    pub fn fragment(&self, stripe: &str, place: Place) -> Option<&[u8]>
        ensures { option_map (λ b. b.now) result ≡ (files_of self.now).fragments stripe.now place }
    {
        bytes_at(self.fragments.as_slice(), stripe, place)
    }

    /// The fragment that was replaced at a place of a stripe and is kept under its second name, where it is there.
    pub fn kept(&self, stripe: &str, place: Place) -> Option<&[u8]>
        ensures { option_map (λ b. b.now) result ≡ (files_of self.now).kept stripe.now place }
    {
        bytes_at(self.replaced.as_slice(), stripe, place)
    }

    /// Gives bytes a name, if nothing is there.
    fn give_name(&mut self, stripe: &str, place: Place, bytes: Vec<u8>) -> io::Result<Placed>
        ensures { GivesName result stripe.now place bytes.items (files_of self.old) (files_of self.new) }
    {
        if self.fragment(stripe, place).is_some() {
            return Ok(Placed::IsThere);
        }
        put_entry(self.alloc, &mut self.fragments, stripe, place, bytes)?;
        Ok(Placed::Placed)
    }

    /// Gives bytes the name of what is there, which gets its second name, if nothing has that.
    fn exchange_name(&mut self, stripe: &str, place: Place, bytes: Vec<u8>) -> io::Result<Placed>
        ensures { ExchangesName result stripe.now place bytes.items (files_of self.old) (files_of self.new) }
    {
        if self.kept(stripe, place).is_some() {
            return Ok(Placed::IsThere);
        }
        let Some(old) = self.fragment(stripe, place) else {
            put_entry(self.alloc, &mut self.fragments, stripe, place, bytes)?;
            return Ok(Placed::Placed);
        };
        let old = copied(self.alloc, old)?;
        self.put_both(stripe, place, bytes, old)?;
        Ok(Placed::Placed)
    }

    /// Puts bytes under a name, and others under its second name; without memory neither.
    fn put_both(
        &mut self,
        stripe: &str,
        place: Place,
        bytes: Vec<u8>,
        old: Vec<u8>,
    ) -> Result<(), AllocError>
        ensures ok { OnOk result (files_of self.new
            ≡ with_fragment (with_kept (files_of self.old) stripe.now place old.items) stripe.now place bytes.items) }
        ensures err { OnErr result (files_of self.new ≡ files_of self.old) }
    {
        put_entry(self.alloc, &mut self.replaced, stripe, place, old)?;
        let put = put_entry(self.alloc, &mut self.fragments, stripe, place, bytes);
        if put.is_err() {
            self.replaced.remove(0);
        }
        put
    }
}

/// A copy of bytes.
fn copied(alloc: Global, bytes: &[u8]) -> Result<Vec<u8>, AllocError>
    ensures copy { IfOk result (λ v. v.items ≡ bytes.now) }
    ensures bytes { AreBytes bytes.now }
{
    let mut copy = Vec::new(alloc);
    copy.extend_from_slice(bytes)?;
    Ok(copy)
}

impl Store for MemoryStore {
    type Survivor = MemoryFragment;

    type New = MemoryFragment;

    ghost files = { λ s. Some (files_of s) };

    ghost kept = { λ stripe given old new. KeepsOrHas stripe given (files_of old) (files_of new) };

    ghost kept_same = { λ stripe given s. unchanged stripe given (files_of s) };

    ghost changed = { λ stripe given old new. ChangesOrHas stripe given (files_of old) (files_of new) };

    ghost changed_same = { λ stripe s. none_changed stripe (files_of s) };

    ghost got_name = { λ s. HasBytes (files_of s) };

    ghost settled = { λ s. HasBytes (files_of s) };

    ghost new_shown = { λ s f h. refl };

    ghost changed_then = { λ stripe given more all old mid new leads widens changes keeps. changed_kept stripe given more all (files_of old)
        (files_of mid) (files_of new) leads widens changes keeps };

    ghost kept_apart = { λ stripe given old new keeps apart. tt };

    ghost changed_apart = { λ stripe given old new changes apart. tt };

    ghost settled_stays = { λ stripe given old new keeps. still_has stripe given (files_of old) (files_of new) keeps };

    fn open(&self, stripe: &str, place: Place, length: usize) -> io::Result<MemoryFragment> {
        let Some(bytes) = self.fragment(stripe, place) else {
            return Err(io::Error::from(ErrorKind::NotFound));
        };
        if bytes.len() != length {
            return Err(io::Error::from(ErrorKind::UnexpectedEof));
        }
        let bytes = copied(self.alloc, bytes)?;
        Ok(MemoryFragment { bytes })
    }

    fn refused(
        &self,
        alloc: Global,
        _stripe: &str,
        _length: usize,
        _fragments: &[Option<MemoryFragment>],
    ) -> Result<Vec<Refused>, AllocError> {
        Ok(Vec::new(alloc))
    }

    fn is_listed(&self, _stripe: &str, _place: Place) -> Result<bool, AllocError> {
        Ok(false)
    }

    fn is_as_listed(
        &self,
        _file: &MemoryFragment,
        _stripe: &str,
        _place: Place,
    ) -> Result<bool, AllocError> {
        Ok(true)
    }

    fn create(&mut self, _stripe: &str, _place: Place) -> io::Result<MemoryFragment> {
        Ok(MemoryFragment {
            bytes: Vec::new(self.alloc),
        })
    }

    fn place(&mut self, file: MemoryFragment, stripe: &str, place: Place) -> io::Result<Placed>
        ensures untouched { AreUntouched false stripe.now (Some (files_of self.old)) (Some (files_of self.new)) }
        ensures elsewhere { SameElsewhere stripe.now place (Some (files_of self.old)) (Some (files_of self.new)) }
        ensures placed { IfOk result (HasName stripe.now place (Some (bytes_of file)) (Some (files_of self.new))) }
        ensures kept { (given : Given) (from : MemoryStore) → given place ≡ Some (bytes_of file)
            → KeepsOrHas stripe.now given (files_of from) (files_of self.old)
            → KeepsOrHas stripe.now given (files_of from) (files_of self.new) }
        ensures others { StaysOver (HasBytes (files_of self.old)) (HasBytes (files_of self.new)) }
        ensures named { IfOk result (λ placed. placed ≡ Placed.Placed → HasBytes (files_of self.new) stripe.now place
            (Some (bytes_of file))) }
        ensures gives { GivesName result stripe.now place (bytes_of file) (files_of self.old) (files_of self.new) }
    {
        self.give_name(stripe, place, file.bytes)
    }

    fn replace(&mut self, file: MemoryFragment, stripe: &str, place: Place) -> io::Result<Placed>
        ensures untouched { AreUntouched true stripe.now (Some (files_of self.old)) (Some (files_of self.new)) }
        ensures elsewhere { SameElsewhere stripe.now place (Some (files_of self.old)) (Some (files_of self.new)) }
        ensures placed { IfOk result (HasName stripe.now place (Some (bytes_of file)) (Some (files_of self.new))) }
        ensures changed { (given : Given) (from : MemoryStore) → given place ≡ None → ChangesOrHas stripe.now given (files_of from)
            (files_of self.old) → GivesOneMore (λ name given old new. ChangesOrHas name given (files_of old) (files_of new)) stripe.now
            given place (Some (bytes_of file)) from self.new }
        ensures beside { StaysBeside stripe.now place (HasBytes (files_of self.old)) (HasBytes (files_of self.new)) }
        ensures named { IfOk result (λ placed. placed ≡ Placed.Placed → HasBytes (files_of self.new) stripe.now place
            (Some (bytes_of file))) }
        ensures exchanges { ExchangesName result stripe.now place (bytes_of file) (files_of self.old) (files_of self.new) }
    {
        self.exchange_name(stripe, place, file.bytes)
    }

    fn discard(&mut self, _file: MemoryFragment) -> io::Result<()> {
        Ok(())
    }

    fn settle(&mut self) -> Result<(), NameFault> {
        Ok(())
    }
}
