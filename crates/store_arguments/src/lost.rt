//! The command `lost`.
use crate::faults::UsageFault;
use crate::shared::definitions::{Argument, FLAG, defined};
use crate::shared::store::{STORE_ARGUMENTS, StoreOptions};
use clap::{ArgMatches, Command as Definition};
use std::alloc::{AllocError, Global};

const ABOUT: &str = "Writes the request list of what is lost";

const JSON: Argument = Argument {
    id: "json",
    help: "Write the requests as JSON, an object on each line",
    ..FLAG
};

static ARGUMENTS: &[Argument] = &[JSON];

/// What `lost` is given.
#[derive(Clone, Copy)]
pub struct LostOptions<'a> {
    pub store: StoreOptions<'a>,
    /// Whether requests are JSON, and not a list.
    pub json: bool,
}

/// The definition of the command.
pub(crate) fn definition<'a>(alloc: Global) -> Result<Definition<'a>, AllocError> {
    let tables = [STORE_ARGUMENTS, ARGUMENTS];
    defined(alloc, "lost", ABOUT, &tables)
}

impl<'a> LostOptions<'a> {
    /// What matches ask for.
    pub(crate) fn of(matches: &ArgMatches<'a>) -> Result<LostOptions<'a>, UsageFault> {
        Ok(LostOptions {
            store: StoreOptions::of(matches)?,
            json: matches.get_flag("json"),
        })
    }
}
