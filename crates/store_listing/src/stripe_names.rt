//! Which stripes a store has, by the names of its files and by what else says that they should be there.
ghost use Rattle.std.specs.Prelude.{◌↔◌, ◌≡◌, ◌≢◌, ◌+◌, ◌++◌, ◌<◌, ◌⊎◌, ◌∷◌, [], OnOk, if◌then◌else◌, map};
ghost use Rattle.std.specs.BTreeMap.{values};
ghost use Rattle.std.specs.BTreeSet.{contains_text};
ghost use Rattle.std.specs.Bool.{IsTrue};
ghost use Rattle.lrc_code.specs.declared.codes.Code.TheVariants.{Narrow, Wide};
ghost use Rattle.store_listing.specs.declared.votes.Others.TheVariants as others;
ghost use Rattle.store_listing.specs.Names.{Begins, Gains, Notes, is_wanted, named, one_more};
ghost use Rattle.store_listing.specs.Votes.{SayWide, code_of_place, other_code, placed_votes, voted, votes_of};

use crate::store_stripes::{Alone, NO_FILES, StoreStripes};
use crate::votes::{Others, Votes, are_stripe, others_of, placed_code, said_by};
use lrc_code::{Code, Place};
use std::alloc::{AllocError, Global};
use std::collections::{BTreeMap, BTreeSet};
use store_names::{Part, Pattern};
use stores::{Found, StripeFiles};

/// What names say of a store's stripes, while they are read.
pub struct StripeNames {
    part: Option<Part>,
    files: BTreeMap<String, StripeFiles>,
    /// Folders under the names of fragments. They make no stripe.
    blocked: Vec<Alone>,
    /// Those that have to be there, and those of which a description is there.
    expected: BTreeSet<String>,
    described: BTreeSet<String>,
    /// Those of which a file is there that is named as a description and isn't one.
    doubtful: BTreeSet<String>,
    /// How many files are named as fragments, also those of other parts.
    named: u64,
    /// How many descriptions say each code, and how many fragments that sums name are at places of each.
    by_descriptions: Votes,
    by_sums: Votes,
}

impl Drop for StripeNames {
    fn drop(self) {
        let StripeNames {
            part: _,
            files: _,
            blocked: _,
            expected: _,
            described: _,
            doubtful: _,
            named: _,
            by_descriptions: _,
            by_sums: _,
        } = self;
    }
}

impl StripeNames {
    /// No names. Those of other parts than this one are left out.
    pub fn new(alloc: Global, part: Option<Part>) -> StripeNames {
        StripeNames {
            part,
            files: BTreeMap::new(alloc),
            blocked: Vec::new(alloc),
            expected: BTreeSet::new(alloc),
            described: BTreeSet::new(alloc),
            doubtful: BTreeSet::new(alloc),
            named: 0,
            by_descriptions: Votes::default(),
            by_sums: Votes::default(),
        }
    }

    /// Whether no file is named as a fragment and no stripe is expected, in any part.
    pub fn is_empty(&self) -> bool
        ensures { IsTrue result ↔ self.now.named ≡ 0 }
    {
        self.named == 0
    }

    /// Notes that a file is named as a fragment.
    pub fn note_name(&mut self)
        ensures { self.new ≡ record self.old { named = one_more self.old.named } }
    {
        self.named = self.named.saturating_add(1);
    }

    /// Notes what is under the name of a fragment.
    pub fn note(
        &mut self,
        alloc: Global,
        stripe: &str,
        place: Place,
        found: Found,
    ) -> Result<(), AllocError>
        ensures noted { OnOk result (Notes (is_wanted self.old.part stripe.now) stripe.now place found self.old.files self.new.files) }
        ensures others { self.new ≡ record self.old { named = one_more self.old.named; files = self.new.files } }
    {
        self.note_name();
        if !self.is_wanted(stripe) {
            return Ok(());
        }
        begin(alloc, stripe, &mut self.files)?;
        if let Some(files) = self.files.get_mut(stripe) {
            files.found[place.index()] = found;
        }
        Ok(())
    }

    /// Notes a folder under the name of a fragment.
    pub fn note_folder(
        &mut self,
        alloc: Global,
        stripe: &str,
        place: Place,
    ) -> Result<(), AllocError>
        ensures noted { OnOk result (map named self.new.blocked.items ≡ map named self.old.blocked.items
            ++ (if is_wanted self.old.part stripe.now then (stripe.now, place) ∷ [] else [])) }
        ensures others { self.new ≡ record self.old { blocked = self.new.blocked } }
    {
        if self.is_wanted(stripe) {
            let stripe = String::from_str(alloc, stripe)?;
            self.blocked.push(Alone { stripe, place })?;
        }
        Ok(())
    }

    /// Notes that a stripe has to be there.
    pub fn expect(&mut self, alloc: Global, stripe: &str) -> Result<(), AllocError>
        ensures expected { OnOk result (Gains (is_wanted self.old.part stripe.now) stripe.now self.old.expected self.new.expected) }
        ensures others { self.new ≡ record self.old { named = one_more self.old.named; expected = self.new.expected } }
    {
        self.note_name();
        let is_wanted = self.is_wanted(stripe);
        put(is_wanted, alloc, stripe, &mut self.expected)
    }

    /// Notes that a fragment of a stripe has to be there.
    pub fn expect_fragment(
        &mut self,
        alloc: Global,
        stripe: &str,
        place: Place,
    ) -> Result<(), AllocError>
        ensures expected { OnOk result (Gains (is_wanted self.old.part stripe.now) stripe.now self.old.expected self.new.expected) }
        ensures voted { self.new.by_sums ≡ voted (code_of_place place) self.old.by_sums }
        ensures others { self.new ≡ record self.old {
          named = one_more self.old.named;
          expected = self.new.expected;
          by_sums = self.new.by_sums;
        } }
    {
        let is_narrow = Code::Narrow.has(place);
        self.by_sums
            .add(if is_narrow { Code::Narrow } else { Code::Wide });
        self.expect(alloc, stripe)
    }

    /// Whether a stripe has to be there.
    pub fn is_expected(&self, stripe: &str) -> bool
        ensures { result ≡ contains_text self.now.expected stripe.now }
    {
        self.expected.contains(stripe)
    }

    /// Notes that a description of a stripe has to be there, so that the stripe has to be there too.
    pub fn expect_description(&mut self, alloc: Global, stripe: &str) -> Result<(), AllocError>
        ensures described { OnOk result (Gains (is_wanted self.old.part stripe.now) stripe.now self.old.described self.new.described) }
        ensures expected { OnOk result (Gains (is_wanted self.old.part stripe.now) stripe.now self.old.expected self.new.expected) }
        ensures others { (self.new.by_descriptions ≡ self.old.by_descriptions) × (self.new.by_sums ≡ self.old.by_sums)
            × (self.new.files ≡ self.old.files) × (self.new.part ≡ self.old.part) }
    {
        let is_wanted = self.is_wanted(stripe);
        put(is_wanted, alloc, stripe, &mut self.described)?;
        self.expect(alloc, stripe)
    }

    /// Notes that there is a description of a stripe, which says that it is of a code.
    pub fn describe(&mut self, alloc: Global, stripe: &str, code: Code) -> Result<(), AllocError>
        ensures voted { self.new.by_descriptions ≡ (if contains_text self.old.described stripe.now then self.old.by_descriptions
            else voted code self.old.by_descriptions) }
        ensures described { OnOk result (Gains (is_wanted self.old.part stripe.now) stripe.now self.old.described self.new.described) }
        ensures expected { OnOk result (Gains (is_wanted self.old.part stripe.now) stripe.now self.old.expected self.new.expected) }
        ensures others { (self.new.by_sums ≡ self.old.by_sums) × (self.new.files ≡ self.old.files) × (self.new.part ≡ self.old.part) }
    {
        if !self.described.contains(stripe) {
            self.by_descriptions.add(code);
        }
        self.expect_description(alloc, stripe)
    }

    /// Notes that a file is named as a stripe's description and isn't one. It makes no stripe.
    pub fn doubt(&mut self, alloc: Global, stripe: &str) -> Result<(), AllocError>
        ensures doubted { OnOk result (Gains (is_wanted self.old.part stripe.now) stripe.now self.old.doubtful self.new.doubtful) }
        ensures others { self.new ≡ record self.old { doubtful = self.new.doubtful } }
    {
        let is_wanted = self.is_wanted(stripe);
        put(is_wanted, alloc, stripe, &mut self.doubtful)
    }

    /// Whether a description of a stripe was met.
    pub fn is_described(&self, stripe: &str) -> bool
        ensures { result ≡ contains_text self.now.described stripe.now }
    {
        self.described.contains(stripe)
    }

    /// Whether a stripe is of the part that is wanted.
    pub fn is_wanted(&self, stripe: &str) -> bool
        ensures { result ≡ is_wanted self.now.part stripe.now }
    {
        match self.part {
            Some(part) => part.has(stripe),
            None => true,
        }
    }

    /// The code that most descriptions say, and without them the places of the files: 12-2-2 where at least half of the stripes have a
    /// place of that code alone, or a fifth of the fragments that sums name.
    pub fn code(&self) -> Code
        ensures described { 0 < self.now.by_descriptions.narrow + self.now.by_descriptions.wide
            → ((result ≡ Wide) ↔ (self.now.by_descriptions.narrow < self.now.by_descriptions.wide)) }
        ensures placed { self.now.by_descriptions.narrow + self.now.by_descriptions.wide ≡ 0
            → ((result ≡ Wide) ↔ SayWide (placed_votes Narrow (values self.now.files)) self.now.by_sums) }
    {
        match self.by_descriptions.most() {
            Some(code) => code,
            None => placed_code(self.by_places(Code::Narrow), self.by_sums),
        }
    }

    /// How many stripes are of each code by their places.
    fn by_places(&self, doubtful_is: Code) -> Votes
        ensures { result ≡ placed_votes doubtful_is (values self.now.files) }
    {
        let mut votes = Votes::default();
        for files in self.files.values() {
            if are_stripe(files, Code::Wide) {
                votes.add(said_by(files, doubtful_is));
            }
        }
        votes
    }

    /// How many stripes are of the other code than this one, as their descriptions say, or their places: one has a place that the (6,2,2)
    /// code hasn't, or all places of that one and no other. Where all descriptions say the other code, all are.
    pub fn of_another_code(&self, code: Code) -> Others
        ensures none { (result ≡ others.None) ↔ ((votes_of self.now.by_descriptions (other_code code) ≡ 0)
            × (votes_of (placed_votes code (values self.now.files)) (other_code code) ≡ 0)) }
        ensures all { (result ≡ others.All) ↔ ((votes_of self.now.by_descriptions code ≡ 0)
            × ((0 < votes_of self.now.by_descriptions (other_code code))
            ⊎ ((0 < votes_of (placed_votes code (values self.now.files)) (other_code code))
            × (votes_of (placed_votes code (values self.now.files)) code ≡ 0)))) }
    {
        others_of(code, self.by_descriptions, self.by_places(code))
    }

    /// The stripes of this code, whose fragments are named by a pattern.
    pub fn settled(
        self,
        alloc: Global,
        pattern: &Pattern<'_>,
        code: Code,
    ) -> Result<StoreStripes, AllocError> {
        let StripeNames {
            part: _,
            files,
            blocked,
            expected,
            described,
            doubtful,
            named: _,
            by_descriptions: _,
            by_sums: _,
        } = self;
        let mut stripes = StoreStripes {
            files: BTreeMap::new(alloc),
            described,
            alone: Vec::new(alloc),
        };
        stripes.settle_all(alloc, pattern, code, files, &expected)?;
        stripes.add_expected(expected)?;
        stripes.add_doubtful(doubtful)?;
        stripes.block(blocked);
        Ok(stripes)
    }
}

/// Puts a stripe among others, if it is wanted and isn't there.
fn put(
    is_wanted: bool,
    alloc: Global,
    stripe: &str,
    others: &mut BTreeSet<String>,
) -> Result<(), AllocError>
    ensures { OnOk result (Gains is_wanted stripe.now others.old others.new) }
{
    if !is_wanted || others.contains(stripe) {
        return Ok(());
    }
    others.insert(String::from_str(alloc, stripe)?)?;
    Ok(())
}

/// Puts a stripe without files among others, unless it is there.
fn begin(
    alloc: Global,
    stripe: &str,
    others: &mut BTreeMap<String, StripeFiles>,
) -> Result<(), AllocError>
    ensures { OnOk result (Begins stripe.now others.old others.new) }
{
    if others.contains_key(stripe) {
        return Ok(());
    }
    others.insert(String::from_str(alloc, stripe)?, NO_FILES)?;
    Ok(())
}
