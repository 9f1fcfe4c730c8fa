//! How the fragments of a store are named, and which files are taken for them: `--names` and `--layout` with their defaults, links.
use crate::faults::UsageFault;
use crate::shared::definitions::{Argument, Form, TEXT};
use clap::ArgMatches;
use lrc_code::Code;
use store_folder::{Layout, Links, Pattern};

/// The option with the pattern of names.
pub(crate) const NAMES: Argument = Argument {
    id: "names",
    value: "PATTERN",
    help: "How the files are named: {stripe} and {place}, or {shard} [default: {stripe}.{place}]",
    ..TEXT
};

const LAYOUTS: &[&str] = &["plain", "groups"];

/// The option with the order of shards.
pub(crate) const LAYOUT: Argument = Argument {
    id: "layout",
    form: Form::Choice(LAYOUTS),
    value: "LAYOUT",
    default: Some("plain"),
    help: "The order of the shards: plain (data, then px py p0 p1) or groups",
    ..TEXT
};

/// The pattern of names that a store has if no other is given.
const DEFAULT_NAMES: &str = "{stripe}.{place}";

/// How the fragments of a store are named.
#[derive(Clone, Copy)]
pub struct Naming<'a> {
    /// The pattern as it was given.
    pub text: &'a str,
    pub pattern: Pattern<'a>,
}

impl<'a> Naming<'a> {
    /// How matches say that fragments are named. The numbers of shards need a code.
    pub(crate) fn of(
        matches: &ArgMatches<'a>,
        code: Option<Code>,
    ) -> Result<Naming<'a>, UsageFault> {
        let text = matches.get_str("names").unwrap_or(DEFAULT_NAMES);
        match Pattern::parse(text, layout_of(matches.get_str("layout"))) {
            Err(fault) => Err(UsageFault::BadPattern(fault)),
            Ok(pattern) if pattern.has_shards() && code.is_none() => Err(UsageFault::NeedsCode),
            Ok(pattern) => Ok(Naming { text, pattern }),
        }
    }
}

/// The layout of a name that the parser let pass.
fn layout_of(name: Option<&str>) -> Layout {
    match name {
        Some("groups") => Layout::Groups,
        _ => Layout::Plain,
    }
}

/// What matches say of links.
pub(crate) fn links_of(matches: &ArgMatches<'_>) -> Links {
    if matches.get_flag("follow-links") {
        return Links::Followed;
    }
    Links::NotFollowed
}
