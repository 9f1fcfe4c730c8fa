//! The command `read`.
use crate::faults::UsageFault;
use crate::shared::definitions::{Argument, FOLLOW, QUIET, STORE, TEXT, WORD, defined};
use crate::shared::naming::{LAYOUT, NAMES, Naming, links_of};
use crate::shared::store::folder_of;
use clap::{ArgMatches, Command as Definition};
use lrc_code::Code;
use std::alloc::{AllocError, Global};
use store_folder::Links;

const ABOUT: &str = "Writes a file to standard output, also while fragments are lost";

const NAME: Argument = Argument {
    id: "name",
    value: "NAME",
    help: "Name of the file",
    ..WORD
};

const OUTPUT: Argument = Argument {
    id: "output",
    short: Some('o'),
    value: "FILE",
    help: "Write to this file, which gets its name when all of it is on the disk",
    ..TEXT
};

static ARGUMENTS: &[Argument] = &[STORE, NAME, NAMES, LAYOUT, FOLLOW, OUTPUT, QUIET];

/// What `read` is given.
#[derive(Clone, Copy)]
pub struct ReadOptions<'a> {
    /// The path of the store's folder.
    pub folder: &'a str,
    /// The name of the file, which is its stripe's.
    pub name: &'a str,
    pub naming: Naming<'a>,
    pub links: Links,
    /// The path of the file that is written; none for standard output.
    pub output: Option<&'a str>,
    /// Whether no progress is shown.
    pub quiet: bool,
}

/// The definition of the command.
pub(crate) fn definition<'a>(alloc: Global) -> Result<Definition<'a>, AllocError> {
    defined(alloc, "read", ABOUT, &[ARGUMENTS])
}

impl<'a> ReadOptions<'a> {
    /// What matches ask for. The description says the code, so that names may have the numbers of shards.
    pub(crate) fn of(matches: &ArgMatches<'a>) -> Result<ReadOptions<'a>, UsageFault> {
        Ok(ReadOptions {
            folder: folder_of(matches),
            name: matches.get_str("name").unwrap_or(""),
            naming: Naming::of(matches, Some(Code::Wide))?,
            links: links_of(matches),
            output: matches.get_str("output"),
            quiet: matches.get_flag("quiet"),
        })
    }
}
