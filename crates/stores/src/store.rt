//! What a store gives for a repair: fragments that survive, and new ones that get their names when they are whole.
ghost use Rattle.std.specs.Prelude.{◌≡◌, ◌++◌, ℕ, List, Option, None, IfOk, OnOk, IsSome, true, false, option_map};
ghost use Rattle.lrc_code.specs.declared.places.Place.{Place};
ghost use Rattle.stores.specs.Changed.{GivesOneMore, IsAmong};
ghost use Rattle.stores.specs.Kept.{Given, StaysBeside, StaysOver, nothing};
ghost use Rattle.stores.specs.Shown.{IsEmpty, IsReadAt};
ghost use Rattle.stores.specs.Store.{AreUntouched, HasName, IsOpened, SameElsewhere, ShownFiles};

use lrc_code::Place;
use std::alloc::{AllocError, Global};
use std::io;
use thiserror::Error;

/// A fragment that survives, open for reading. Contracts see its bytes where they are shown; those of a file of the system are not, since
/// other programs may change it.
pub trait Fragment {
    ghost shown: { Self → Option (List ℕ) };

    /// Fills `bytes` with the fragment's own from this position on.
    fn read_at(&self, from: usize, bytes: &mut [u8]) -> io::Result<()>
        ensures { OnOk result (IsReadAt (shown self.now) from bytes.new) };
}

impl<F: Fragment> Fragment for &F {
    ghost shown = { λ f. F.shown f.now };

    fn read_at(&self, from: usize, bytes: &mut [u8]) -> io::Result<()> {
        (**self).read_at(from, bytes)
    }
}

/// A fragment that is being written. It has no name in the store until it is whole.
pub trait NewFragment {
    ghost shown: { Self → Option (List ℕ) };

    /// Writes `bytes` after those that were written before.
    fn append(&mut self, bytes: &[u8]) -> io::Result<()>
        ensures { OnOk result (shown self.new ≡ option_map (λ written. written ++ bytes.now) (shown self.old)) };
}

/// What the system refused, and of which file or folder.
#[derive(Debug, Drop, Error)]
#[error("{name}: {error}")]
pub struct NameFault {
    pub name: String,
    pub error: io::Error,
}

/// A fragment that is open and isn't used, and why.
#[derive(Debug, Drop)]
pub struct Refused {
    pub place: Place,
    pub error: io::Error,
}

/// What became of a fragment that was to get its name.
#[derive(Clone, Copy, Debug, PartialEq, Eq)]
pub enum Placed {
    /// It has its name.
    Placed,
    /// Something is under its name, or under the second name of what it was to replace. That stays.
    IsThere,
}

/// A store: fragments under the names of their stripes and places. Contracts see them where they are shown; those of a folder are not,
/// since other programs may change it.
pub trait Store {
    /// A fragment that is open for reading.
    type Survivor: Fragment + Drop;

    /// A fragment that has no name yet.
    type New: NewFragment + Drop;

    /// The fragments by their names, where the store shows them.
    ghost files: { Self → ShownFiles } = { λ _. None };

    /// What a stripe's calls that replace nothing leave, whenever they end, by a crash or by themselves: from the first state to the second
    /// all is as it was, but for names of this stripe at which nothing was and that were given these fragments.
    ghost kept: { List ℕ → Given → Self → Self → Type 0 };

    /// Where nothing was called, all is as it was.
    ghost kept_same: { (stripe : List ℕ) (given : Given) (s : Self) → kept stripe given s s };

    /// What a stripe's calls leave that may replace fragments, whenever they end, by a crash or by themselves: from the first state to the
    /// second all is as it was, but for names of this stripe that were given these fragments, where what was there is kept.
    ghost changed: { List ℕ → Given → Self → Self → Type 0 };

    /// Where nothing was called, all is as it was.
    ghost changed_same: { (stripe : List ℕ) (s : Self) → changed stripe nothing s s };

    /// A stripe's fragment at a place got its name, with these bytes. The name may still have to be written to the disk.
    ghost got_name: { Self → List ℕ → Place → Option (List ℕ) → Type 0 };

    /// So it did, and its name and its bytes are on the disk.
    ghost settled: { Self → List ℕ → Place → Option (List ℕ) → Type 0 };

    /// No two of a stripe's names lead to one file.
    ghost apart: { Self → Type 0 } = { λ _. Unit {0} };

    /// The store knows a digest of a stripe's fragment at a place, to which it holds what is to get that name.
    ghost listed: { Self → List ℕ → Place → Type 0 } = { λ _ _ _. ⊥ };

    /// Opens a stripe's fragment, which has to have so many bytes.
    fn open(&self, stripe: &str, place: Place, length: usize) -> io::Result<Self::Survivor>
        ensures { IfOk result (λ f. IsOpened stripe.now place length (files self.now) (Self.Survivor.shown f)) };

    /// Which of a stripe's fragments, listed by their places' indexes and of so many bytes each, don't have the bytes that the store knows
    /// of them, or can't be read. No clause says which: the bytes of a folder's files are known by digests.
    fn refused(
        &self,
        alloc: Global,
        stripe: &str,
        length: usize,
        fragments: &[Option<Self::Survivor>],
    ) -> Result<Vec<Refused>, AllocError>;

    /// Whether the store knows a digest of a stripe's fragment at a place, to which it holds what is to get that name.
    fn is_listed(&self, stripe: &str, place: Place) -> Result<bool, AllocError>
        ensures { IfOk result (λ is. is ≡ true → listed self.now stripe.now place) };

    /// Whether a whole new fragment for a place of a stripe has the digest that the store knows of that, if it knows one. No clause says
    /// which: `place` and `replace` refuse one that hasn't.
    fn is_as_listed(
        &self,
        file: &Self::New,
        stripe: &str,
        place: Place,
    ) -> Result<bool, AllocError>;

    /// A new fragment for a place of a stripe, still without bytes and without a name.
    fn create(&mut self, stripe: &str, place: Place) -> io::Result<Self::New>
        ensures same { files self.new ≡ files self.old }
        ensures empty { IfOk result (λ f. IsEmpty (Self.New.shown f)) }
        ensures kept { (given : Given) (from : Self) → kept stripe.now given from self.old
            → kept stripe.now given from self.new };

    /// Gives a fragment its name, if nothing is there, and else discards it. After a failure the name has the whole fragment or nothing.
    fn place(&mut self, file: Self::New, stripe: &str, place: Place) -> io::Result<Placed>
        ensures untouched { AreUntouched false stripe.now (files self.old) (files self.new) }
        ensures elsewhere { SameElsewhere stripe.now place (files self.old) (files self.new) }
        ensures placed { IfOk result (HasName stripe.now place (Self.New.shown file) (files self.new)) }
        ensures kept { (given : Given) (from : Self) → given place ≡ Self.New.shown file → kept stripe.now given from self.old
            → kept stripe.now given from self.new }
        ensures others { StaysOver (got_name self.old) (got_name self.new) }
        ensures named { IfOk result (λ placed. placed ≡ Placed.Placed → got_name self.new stripe.now place (Self.New.shown file)) };

    /// Gives a fragment the name of one that is there, which is kept under its second name; if one is kept there already, the new one is
    /// discarded. After a failure the name has the one fragment or the other. Names that others got before stay theirs, where no two of the
    /// stripe's names lead to one file.
    fn replace(&mut self, file: Self::New, stripe: &str, place: Place) -> io::Result<Placed>
        ensures untouched { AreUntouched true stripe.now (files self.old) (files self.new) }
        ensures elsewhere { SameElsewhere stripe.now place (files self.old) (files self.new) }
        ensures placed { IfOk result (HasName stripe.now place (Self.New.shown file) (files self.new)) }
        ensures changed { (given : Given) (from : Self) → given place ≡ None → changed stripe.now given from self.old
            → GivesOneMore changed stripe.now given place (Self.New.shown file) from self.new }
        ensures beside { apart self.old → StaysBeside stripe.now place (got_name self.old) (got_name self.new) }
        ensures named { IfOk result (λ placed. placed ≡ Placed.Placed → got_name self.new stripe.now place (Self.New.shown file)) };

    /// Discards a fragment that has no name. What can't be removed may be said by `settle`.
    fn discard(&mut self, file: Self::New) -> io::Result<()>
        ensures same { files self.new ≡ files self.old }
        ensures kept { (stripe : List ℕ) (given : Given) (from : Self) → kept stripe given from self.old
            → kept stripe given from self.new }
        ensures others { StaysOver (got_name self.old) (got_name self.new) };

    /// Writes the names that were given to the disk, and says what was left over since it was called last.
    fn settle(&mut self) -> Result<(), NameFault>
        ensures same { files self.new ≡ files self.old }
        ensures kept { (stripe : List ℕ) (given : Given) (from : Self) → kept stripe given from self.old
            → kept stripe given from self.new }
        ensures done { OnOk result (StaysOver (got_name self.old) (settled self.new)) };

    /// Where they are shown, so are new fragments.
    ghost new_shown: { (s : Self) (f : Self.New) → IsSome (files s) → IsSome (Self.New.shown f) };

    /// After calls that may replace fragments, calls of the stripe that replace nothing.
    ghost changed_then: { (stripe : List ℕ) (given more all : Given) (old mid new : Self) → IsAmong given all → IsAmong more all
        → changed stripe given old mid → kept stripe more mid new → changed stripe all old new };

    /// Names stay apart over a stripe's calls that replace nothing.
    ghost kept_apart: { (stripe : List ℕ) (given : Given) (old new : Self) → kept stripe given old new → apart old → apart new };

    /// So they do over those that may replace fragments.
    ghost changed_apart: { (stripe : List ℕ) (given : Given) (old new : Self) → changed stripe given old new → apart old → apart new };

    /// What is on the disk stays there over a stripe's calls that replace nothing.
    ghost settled_stays: { (stripe : List ℕ) (given : Given) (old new : Self) → kept stripe given old new
        → StaysOver (settled old) (settled new) };
}
