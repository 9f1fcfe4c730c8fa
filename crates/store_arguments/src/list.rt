//! The command `list`.
use crate::faults::UsageFault;
use crate::shared::definitions::{Argument, FLAG, defined};
use crate::shared::store::{STORE_ARGUMENTS, StoreOptions};
use clap::{ArgMatches, Command as Definition};
use std::alloc::{AllocError, Global};

const ABOUT: &str = "Says which files are in a store, and whether they are whole";

const JSON: Argument = Argument {
    id: "json",
    help: "Write a JSON object for each file, on a line of its own",
    ..FLAG
};

static ARGUMENTS: &[Argument] = &[JSON];

/// What `list` is given.
#[derive(Clone, Copy)]
pub struct ListOptions<'a> {
    pub store: StoreOptions<'a>,
    /// Whether lines are JSON objects.
    pub json: bool,
}

/// The definition of the command.
pub(crate) fn definition<'a>(alloc: Global) -> Result<Definition<'a>, AllocError> {
    let tables = [STORE_ARGUMENTS, ARGUMENTS];
    defined(alloc, "list", ABOUT, &tables)
}

impl<'a> ListOptions<'a> {
    /// What matches ask for.
    pub(crate) fn of(matches: &ArgMatches<'a>) -> Result<ListOptions<'a>, UsageFault> {
        Ok(ListOptions {
            store: StoreOptions::of(matches)?,
            json: matches.get_flag("json"),
        })
    }
}
