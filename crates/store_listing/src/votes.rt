//! Of which code a store is: what is at the places of its stripes, and how many things say each code.
ghost use Rattle.std.specs.Prelude.{◌↔◌, ◌≡◌, ◌≢◌, ◌+◌, ◌-◌, ◌^◌, ◌<◌, ◌≤◌, ◌⊎◌, Some, None, min, nat_le, slice_index_or};
ghost use Rattle.std.specs.Bool.{IsTrue};
ghost use Rattle.lrc_code.specs.Places.{index_of};
ghost use Rattle.lrc_code.specs.declared.codes.Code.TheVariants.{Narrow, Wide};
ghost use Rattle.stores.specs.declared.stripes.Found.TheVariants as found;
ghost use Rattle.store_listing.specs.declared.votes.Others.TheVariants as others;
ghost use Rattle.store_listing.specs.Votes.{SayWide, code_said, is_there, other_code, there_count, voted, votes_of};

use lrc_code::{Code, Place};
use stores::{Found, StripeFiles};

/// How many places the (6,2,2) code has.
const NARROW_PLACES: usize = 10;

/// A stripe that nothing else names has so many fragments at least: a file alone may have such a name by chance.
const LEAST_FRAGMENTS: usize = 2;

/// How many things say each code.
#[derive(Clone, Copy, Default)]
pub(crate) struct Votes {
    pub(crate) narrow: u64,
    pub(crate) wide: u64,
}

/// How many of some stripes are of another code.
#[derive(Clone, Copy, PartialEq, Eq)]
pub enum Others {
    None,
    Some,
    All,
}

impl Votes {
    /// Adds a vote for a code.
    pub(crate) fn add(&mut self, code: Code)
        ensures added { votes_of self.new code ≡ min (votes_of self.old code + 1) (2 ^ 64 - 1) }
        ensures others { votes_of self.new (other_code code) ≡ votes_of self.old (other_code code) }
        ensures all { self.new ≡ voted code self.old }
    {
        match code {
            Code::Narrow => self.narrow = self.narrow.saturating_add(1),
            Code::Wide => self.wide = self.wide.saturating_add(1),
        }
    }

    /// How many votes a code has.
    fn of(&self, code: Code) -> u64
        ensures { result ≡ votes_of self.now code }
    {
        match code {
            Code::Narrow => self.narrow,
            Code::Wide => self.wide,
        }
    }

    /// The code that most say, 6-2-2 if as many say each; none if there is no vote.
    pub(crate) fn most(&self) -> Option<Code>
        ensures wide { (result ≡ Some Wide) ↔ (self.now.narrow < self.now.wide) }
        ensures none { (result ≡ None) ↔ ((self.now.narrow ≡ 0) × (self.now.wide ≡ 0)) }
    {
        if self.narrow == 0 && self.wide == 0 {
            return None;
        }
        Some(if self.narrow < self.wide {
            Code::Wide
        } else {
            Code::Narrow
        })
    }
}

/// The code that isn't this one.
pub fn other_than(code: Code) -> Code
    ensures { result ≡ other_code code }
{
    match code {
        Code::Narrow => Code::Wide,
        Code::Wide => Code::Narrow,
    }
}

/// The code of a store without descriptions: 12-2-2 where at least half of the stripes have a place of that code alone, or a fifth of the
/// fragments that sums name.
pub(crate) fn placed_code(by_places: Votes, by_sums: Votes) -> Code
    ensures { (result ≡ Wide) ↔ SayWide by_places by_sums }
{
    let are_wide = by_places.wide > 0 && by_places.wide >= by_places.narrow;
    if are_wide || by_sums.wide > by_sums.narrow / 4 {
        Code::Wide
    } else {
        Code::Narrow
    }
}

/// How many stripes are of the other code than this one, by what descriptions say and by the places: all, if descriptions say the other
/// code alone, or the places do without descriptions.
pub(crate) fn others_of(code: Code, described: Votes, placed: Votes) -> Others
    ensures none { (result ≡ others.None)
        ↔ ((votes_of described (other_code code) ≡ 0) × (votes_of placed (other_code code) ≡ 0)) }
    ensures all { (result ≡ others.All) ↔ ((votes_of described code ≡ 0) × ((0 < votes_of described (other_code code))
        ⊎ ((0 < votes_of placed (other_code code)) × (votes_of placed code ≡ 0)))) }
{
    let other = other_than(code);
    if described.of(other) == 0 && placed.of(other) == 0 {
        return Others::None;
    }
    if described.of(code) == 0 && (described.of(other) > 0 || placed.of(code) == 0) {
        return Others::All;
    }
    Others::Some
}

/// Whether files make a stripe of a code, though nothing else names it.
pub(crate) fn are_stripe(files: &StripeFiles, code: Code) -> bool
    ensures enough { IsTrue result ↔ (2 ≤ there_count code files.now.found) }
    ensures is { result ≡ nat_le 2 (there_count code files.now.found) }
{
    count_of(files, code) >= LEAST_FRAGMENTS
}

/// The code of a stripe by its places: 12-2-2 if it has one that the (6,2,2) code hasn't, 6-2-2 if it has all of that code, and else this.
pub(crate) fn said_by(files: &StripeFiles, doubtful_is: Code) -> Code
    ensures { result ≡ code_said doubtful_is files.now.found }
{
    let narrow = count_of(files, Code::Narrow);
    if narrow < count_of(files, Code::Wide) {
        return Code::Wide;
    }
    if narrow == NARROW_PLACES {
        return Code::Narrow;
    }
    doubtful_is
}

/// At how many places of a code there is something.
fn count_of(files: &StripeFiles, code: Code) -> usize
    ensures { result ≡ there_count code files.now.found }
{
    code.places()
        .iter()
        .filter(|place| is_found(files, **place))
        .count()
}

/// Whether there is something at a place.
pub(crate) fn is_found(files: &StripeFiles, place: Place) -> bool
    ensures { result ≡ is_there (slice_index_or files.now.found (index_of place) found.Absent) }
{
    match files.found[place.index()] {
        Found::Absent => false,
        _ => true,
    }
}
