//! Patterns of names: a stripe's name and a place with texts round them, as `{stripe}.{place}` or `disk{shard}/{stripe}`.
ghost use Rattle.std.specs.Prelude.{◌≡◌, true};
ghost use Rattle.store_names.specs.Patterns.{keeps_apart};

use crate::layouts::{Layout, Naming};

/// A pattern of names, relative to the store's folder. It has a stripe and a place, each once.
#[derive(Clone, Copy, Debug)]
pub struct Pattern<'a> {
    pub(crate) before: &'a str,
    pub(crate) between: &'a str,
    pub(crate) after: &'a str,
    pub(crate) is_stripe_first: bool,
    pub(crate) naming: Naming,
    pub(crate) layout: Layout,
    // The digits of a number and of a stripe's name can't be taken for each other's.
    ghost apart: { keeps_apart naming is_stripe_first between.now ≡ true },
}

/// How many times a text goes into a folder.
fn slashes(text: &str) -> usize {
    text.chars().filter(|letter| *letter == '/').count()
}

/// Whether a number that is before a text or after it can't have digits of what is beyond the text.
pub(crate) fn keeps_apart(naming: Naming, is_stripe_first: bool, between: &[u8]) -> bool
    ensures { result ≡ keeps_apart naming is_stripe_first between.now }
{
    match naming {
        Naming::ByPlace => true,
        Naming::ByShard => {
            if is_stripe_first {
                between.len() > 0 && !between[between.len() - 1].is_ascii_digit()
            } else {
                between.len() > 0 && !between[0].is_ascii_digit()
            }
        }
    }
}

impl Pattern<'static> {
    /// `{stripe}.{place}`, the pattern of a store that has no other.
    pub const PLAIN: Pattern<'static> = Pattern {
        before: "",
        between: ".",
        after: "",
        is_stripe_first: true,
        naming: Naming::ByPlace,
        layout: Layout::Plain,
    };
}

impl<'a> Pattern<'a> {
    /// Whether the names have the numbers of shards, so that the code has to be known to read them.
    pub fn has_shards(&self) -> bool {
        self.naming == Naming::ByShard
    }

    /// How many folders a name has below the store's.
    pub fn depth(&self) -> usize {
        slashes(self.before)
            .saturating_add(slashes(self.between))
            .saturating_add(slashes(self.after))
    }
}
