//! Which store a command works on, and which stripes of it.
ghost use Rattle.std.specs.Prelude.{◌≤◌, IfOk, IfSome};

use crate::faults::UsageFault;
use crate::shared::definitions::{Argument, CODE, FOLLOW, STORE, TEXT, code_of};
use crate::shared::naming::{LAYOUT, NAMES, Naming, links_of};
use clap::ArgMatches;
use lrc_code::Code;
use store_folder::{Links, Part};

const STRIPES: Argument = Argument {
    id: "stripes",
    value: "FILE",
    help: "File of the stripes that should be there, a name on each line",
    ..TEXT
};

const PART: Argument = Argument {
    id: "part",
    value: "I/N",
    help: "Only the stripes of part I of N, as 3/10",
    ..TEXT
};

/// A store, and the stripes of it that a command works on.
#[derive(Clone, Copy)]
pub struct StoreOptions<'a> {
    /// The path of its folder.
    pub folder: &'a str,
    /// The code that is given; none where the places of the files are to say it.
    pub code: Option<Code>,
    pub naming: Naming<'a>,
    pub links: Links,
    /// The path of a file of stripes' names.
    pub stripes: Option<&'a str>,
    pub part: Option<Part>,
}

/// The arguments of a command over a store.
pub(crate) static STORE_ARGUMENTS: &[Argument] = &[
    STORE, CODE, NAMES, LAYOUT, FOLLOW, STRIPES, PART,
];

impl<'a> StoreOptions<'a> {
    /// The store that matches name.
    pub(crate) fn of(matches: &ArgMatches<'a>) -> Result<StoreOptions<'a>, UsageFault> {
        let code = code_of(matches.get_str("code"));
        Ok(StoreOptions {
            folder: folder_of(matches),
            code,
            naming: Naming::of(matches, code)?,
            links: links_of(matches),
            stripes: matches.get_str("stripes"),
            part: part_of(matches.get_str("part"))?,
        })
    }
}

/// The path of the store's folder, which the definition of each command requires: so what takes its place here is never taken.
pub(crate) fn folder_of<'a>(matches: &ArgMatches<'a>) -> &'a str {
    matches.get_str("store").unwrap_or(".")
}

/// The part that a text says, as `3/10`.
fn part_of(text: Option<&str>) -> Result<Option<Part>, UsageFault>
    ensures { IfOk result (λ part. IfSome part (λ p. (1 ≤ p.index) × (p.index ≤ p.of))) }
{
    let Some(text) = text else {
        return Ok(None);
    };
    if let Some((index, of)) = text.split_once('/') {
        if let (Ok(index), Ok(of)) = (index.parse::<u64>(), of.parse::<u64>()) {
            if 0 < index && index <= of {
                return Ok(Some(Part { index, of }));
            }
        }
    }
    Err(UsageFault::BadPart)
}
