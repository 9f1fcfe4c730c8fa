//! Patterns as they are written.
ghost use Rattle.std.specs.Prelude.{◌≡◌, ◌++◌, if◌then◌else◌, codes, IfOk, IfSome};
ghost use Rattle.store_names.specs.Names.{text_of, written_key};

use crate::layouts::{Layout, Naming};
use crate::patterns::{Pattern, keeps_apart};
use thiserror::Error;

/// Why a text is no pattern.
#[derive(Clone, Copy, Debug, PartialEq, Eq, Error)]
pub enum PatternFault {
    #[error("the pattern of names needs {{stripe}} once, and {{place}} or {{shard}} once")]
    NotOnce,
    #[error("the pattern of names is no name below the store's folder")]
    NotBelow,
    #[error("the pattern of names needs something that is no digit between {{stripe}} and {{shard}}")]
    Adjoining,
}

const STRIPE: &str = "{stripe}";

const PLACE: &str = "{place}";

const SHARD: &str = "{shard}";

/// Whether a text has a brace, which only {stripe}, {place} and {shard} may have.
fn has_brace(text: &str) -> bool {
    text.contains('{') || text.contains('}')
}

/// The texts of a pattern round its stripe and the key of its place, and which of these is first.
#[derive(Clone, Copy)]
struct Texts<'a> {
    before: &'a str,
    between: &'a str,
    after: &'a str,
    is_stripe_first: bool,
}

/// How the place is named, and how it is written.
fn key_in(text: &str) -> (Naming, &'static str)
    ensures { result.1.now ≡ written_key result.0 }
{
    if text.contains(SHARD) {
        (Naming::ByShard, SHARD)
    } else {
        (Naming::ByPlace, PLACE)
    }
}

/// The texts round the stripe and a key that are in a text; none where it hasn't both.
fn texts_of<'a>(text: &'a str, key: &str) -> Option<Texts<'a>>
    ensures { IfSome result (λ texts. text.now ≡ texts.before.now ++ (if texts.is_stripe_first then codes "{stripe}" else key.now)
        ++ texts.between.now ++ (if texts.is_stripe_first then key.now else codes "{stripe}") ++ texts.after.now) }
{
    let (head, tail) = text.split_once(STRIPE)?;
    if let Some((before, between)) = head.split_once(key) {
        return Some(Texts {
            before,
            between,
            after: tail,
            is_stripe_first: false,
        });
    }
    let (between, after) = tail.split_once(key)?;
    Some(Texts {
        before: head,
        between,
        after,
        is_stripe_first: true,
    })
}

/// Whether a text is a name below the store's folder.
fn is_below(text: &str) -> bool {
    !text.starts_with('/') && !text.contains("//") && !text.contains("..") && !text.ends_with('/')
}

impl<'a> Pattern<'a> {
    /// The pattern that a text is.
    pub fn parse(text: &'a str, layout: Layout) -> Result<Pattern<'a>, PatternFault>
        ensures is { IfOk result (λ pattern. text.now ≡ text_of pattern) }
        ensures layout { IfOk result (λ pattern. pattern.layout ≡ layout) }
    {
        let (naming, key) = key_in(text);
        let Some(texts) = texts_of(text, key) else {
            return Err(PatternFault::NotOnce);
        };
        let Texts {
            before,
            between,
            after,
            is_stripe_first,
        } = texts;
        if has_brace(before) || has_brace(between) || has_brace(after) {
            return Err(PatternFault::NotOnce);
        }
        if !is_below(text) {
            return Err(PatternFault::NotBelow);
        }
        if !keeps_apart(naming, is_stripe_first, between.as_bytes()) {
            return Err(PatternFault::Adjoining);
        }
        Ok(Pattern {
            before,
            between,
            after,
            is_stripe_first,
            naming,
            layout,
        })
    }
}
