//! The names of a store's fragments, as a pattern makes and reads them, and the second name, `.damaged`, of one that was replaced.
ghost use Rattle.std.specs.Prelude.{◌≡◌, ◌≢◌, ◌++◌, ℕ, List, Option, IfOk, IfSome, MatchOption, not, ◌==◌, option_map, string_bytes};
ghost use Rattle.std.specs.List.{list_all};
ghost use Rattle.lrc_code.specs.declared.places.Place.{Place};
ghost use Rattle.store_names.specs.Names.{IsMade, IsNameOf, is_below, is_for_fragments, is_second, is_stripe, key_of, name_with};

use crate::layouts::Naming;
use crate::patterns::Pattern;
use crate::temporary::is_free;
use crate::texts::{after, until};
use lrc_code::{Code, Place};
use std::alloc::{AllocError, Global};

/// How the second name of a fragment ends that was replaced and is kept.
pub const KEPT: &str = ".damaged";

/// The numbers of the shards.
const NUMBERS: [&str; 16] = [
    "0", "1", "2", "3", "4", "5", "6", "7", "8", "9", "10", "11", "12", "13", "14", "15",
];

/// Whether a text may be a stripe's name: it isn't empty and has no `/`.
fn can_be_stripe(text: &[u8]) -> bool
    ensures { result ≡ is_stripe text.now }
{
    let is_alone = has_no_slash(text);
    0 < text.len() && is_alone
}

/// Whether a text has no slash.
fn has_no_slash(text: &[u8]) -> bool
    ensures { result ≡ list_all (λ byte. not (byte == 47)) text.now }
{
    text.iter().all(|byte| *byte != b'/')
}

/// Whether a name leads nowhere out of the folder that it is in: none of its parts is empty or `..`.
fn leads_below(name: &str) -> bool
    ensures { result ≡ is_below name.now }
{
    name.split('/').all(|part| part != "" && part != "..")
}

/// Whether a name is the second one of a fragment.
fn is_second(name: &str) -> bool
    ensures { result ≡ is_second name.now }
{
    name.ends_with(KEPT)
}

/// Whether a fragment may have a name: it leads nowhere out of the store's folder, runs give it to no file of their own that isn't whole
/// yet, and it is no second name.
fn is_for_fragments(name: &str) -> bool
    ensures { result ≡ is_for_fragments name.now }
{
    leads_below(name) && is_free(name) && !is_second(name)
}

impl Pattern<'_> {
    /// The name of a stripe's fragment at a place. There is none where the code has no shard at the place, where the stripe's name is
    /// empty or has a `/`, and where no fragment may have the name: where it would lead out of the store's folder, as `{stripe}/{place}`
    /// does for a stripe `..`, where unfinished files have it, and where it is the second name of a fragment that was replaced.
    pub fn name_of(
        &self,
        alloc: Global,
        code: Code,
        stripe: &str,
        place: Place,
    ) -> Result<Option<String>, AllocError>
        ensures { IfOk result (λ o. MatchOption o ((name : List ℕ) → ¬ IsNameOf self.now code stripe.now place name)
            (λ name. IsNameOf self.now code stripe.now place (string_bytes name))) }
    {
        let Some(key) = self.key_of(code, place) else {
            return Ok(None);
        };
        if !can_be_stripe(stripe.as_bytes()) {
            return Ok(None);
        }
        let name = self.name_with(alloc, stripe, key)?;
        if !is_for_fragments(name.as_str()) {
            return Ok(None);
        }
        Ok(Some(name))
    }

    /// The name of a stripe and the key of a place.
    fn name_with(&self, alloc: Global, stripe: &str, key: &str) -> Result<String, AllocError>
        ensures { IfOk result (λ name. string_bytes name ≡ name_with self.now stripe.now key.now) }
    {
        let mut name = String::from_str(alloc, self.before)?;
        if self.is_stripe_first {
            name.push_str(stripe)?;
            name.push_str(self.between)?;
            name.push_str(key)?;
        } else {
            name.push_str(key)?;
            name.push_str(self.between)?;
            name.push_str(stripe)?;
        }
        name.push_str(self.after)?;
        Ok(name)
    }

    /// How a place is named.
    fn key_of(&self, code: Code, place: Place) -> Option<&'static str>
        ensures { option_map (λ key. key.now) result ≡ key_of self.now.naming self.now.layout code place }
    {
        match self.naming {
            Naming::ByPlace => Some(place.name()),
            Naming::ByShard => NUMBERS.get(self.layout.shard(code, place)?).copied(),
        }
    }

    /// The stripe and the place of which a name is that of the fragment, if there are such.
    pub fn read<'n>(&self, code: Code, name: &'n str) -> Option<(&'n str, Place)>
        ensures takes { IfSome result (λ read. IsNameOf self.now code read.0.now read.1 name.now) }
        ensures gives { (stripe : List ℕ) (place : Place) → IsNameOf self.now code stripe place name.now
            → MatchOption result ⊥ (λ read. (read.0.now ≡ stripe) × (read.1 ≡ place)) }
    {
        if !is_for_fragments(name) {
            return None;
        }
        for place in &Place::ALL {
            if let Some(stripe) = self.stripe_at(code, *place, name) {
                return Some((stripe, *place));
            }
        }
        None
    }

    /// The stripe of which a name has the key of a place.
    fn stripe_at<'n>(&self, code: Code, place: Place, name: &'n str) -> Option<&'n str>
        ensures { MatchOption result ((stripe : List ℕ) → ¬ IsMade self.now code stripe place name.now)
            (λ stripe. IsMade self.now code stripe.now place name.now) }
    {
        let key = self.key_of(code, place)?;
        let stripe = self.stripe_with(key, name)?;
        if !can_be_stripe(stripe.as_bytes()) {
            return None;
        }
        Some(stripe)
    }

    /// The stripe in a name that has this key.
    fn stripe_with<'n>(&self, key: &str, name: &'n str) -> Option<&'n str>
        ensures { MatchOption result ((stripe : List ℕ) → name.now ≢ name_with self.now stripe key.now)
            (λ stripe. name.now ≡ name_with self.now stripe.now key.now) }
    {
        let rest = until(name, self.after)?;
        if self.is_stripe_first {
            let rest = until(until(rest, key)?, self.between)?;
            return after(rest, self.before);
        }
        let Some(in_rest) = after(rest, self.before) else {
            return None;
        };
        let Some(in_key) = after(in_rest, key) else {
            return None;
        };
        after(in_key, self.between)
    }
}
