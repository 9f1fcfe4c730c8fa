//! The command `verify`.
use crate::faults::UsageFault;
use crate::shared::definitions::{Argument, FOLLOW, Form, QUIET, STORE, WORD, defined};
use crate::shared::naming::{LAYOUT, NAMES, Naming, links_of};
use crate::shared::store::folder_of;
use clap::{ArgMatches, Command as Definition};
use lrc_code::Code;
use std::alloc::{AllocError, Global};
use store_folder::Links;

const ABOUT: &str = "Reads files back and holds them to their digests, and writes nothing";

const FILES: Argument = Argument {
    id: "files",
    form: Form::AnyWords,
    value: "NAME",
    help: "Names of files [default: all]",
    ..WORD
};

static ARGUMENTS: &[Argument] = &[STORE, FILES, NAMES, LAYOUT, FOLLOW, QUIET];

/// What `verify` is given.
#[derive(Drop)]
pub struct VerifyOptions<'a> {
    /// The path of the store's folder.
    pub folder: &'a str,
    /// The names of the files; all are read if there are none.
    pub names: Vec<&'a str>,
    pub naming: Naming<'a>,
    pub links: Links,
    /// Whether neither progress nor a summary is shown.
    pub quiet: bool,
}

/// The definition of the command.
pub(crate) fn definition<'a>(alloc: Global) -> Result<Definition<'a>, AllocError> {
    defined(alloc, "verify", ABOUT, &[ARGUMENTS])
}

impl<'a> VerifyOptions<'a> {
    /// What matches ask for. Descriptions say the code, so that names may have the numbers of shards.
    pub(crate) fn of(
        alloc: Global,
        matches: &ArgMatches<'a>,
    ) -> Result<VerifyOptions<'a>, UsageFault> {
        let mut names = Vec::new(alloc);
        for name in matches.get_strs("files").unwrap_or(&[]) {
            names.push(*name)?;
        }
        Ok(VerifyOptions {
            folder: folder_of(matches),
            names,
            naming: Naming::of(matches, Some(Code::Wide))?,
            links: links_of(matches),
            quiet: matches.get_flag("quiet"),
        })
    }
}
