//! The command `scrub`.
use crate::faults::UsageFault;
use crate::shared::definitions::{Argument, defined};
use crate::shared::store::{STORE_ARGUMENTS, StoreOptions};
use crate::shared::testing::{TEST_ARGUMENTS, TestOptions, WORKERS};
use clap::{ArgMatches, Command as Definition};
use std::alloc::{AllocError, Global};

const ABOUT: &str = "Tests whether the fragments of each stripe belong together";

static ARGUMENTS: &[Argument] = &[WORKERS];

/// What `scrub` is given.
#[derive(Clone, Copy)]
pub struct ScrubOptions<'a> {
    pub store: StoreOptions<'a>,
    pub test: TestOptions<'a>,
}

/// The definition of the command.
pub(crate) fn definition<'a>(alloc: Global) -> Result<Definition<'a>, AllocError> {
    let tables = [STORE_ARGUMENTS, ARGUMENTS, TEST_ARGUMENTS];
    defined(alloc, "scrub", ABOUT, &tables)
}

impl<'a> ScrubOptions<'a> {
    /// What matches ask for.
    pub(crate) fn of(matches: &ArgMatches<'a>) -> Result<ScrubOptions<'a>, UsageFault> {
        let test = TestOptions::of(matches)?;
        Ok(ScrubOptions {
            store: StoreOptions::of(matches)?,
            test,
        })
    }
}
