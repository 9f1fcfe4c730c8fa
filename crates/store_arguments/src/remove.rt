//! The command `remove`.
use crate::faults::UsageFault;
use crate::shared::definitions::{
    Argument, CODE, FOLLOW, Form, QUIET, STORE, TRUST, WORD, code_of, defined,
};
use crate::shared::naming::{LAYOUT, NAMES, Naming, links_of};
use crate::shared::store::folder_of;
use clap::{ArgMatches, Command as Definition};
use lrc_code::Code;
use std::alloc::{AllocError, Global};
use store_folder::Links;

const ABOUT: &str = "Takes files out of a store";

const FILES: Argument = Argument {
    id: "files",
    form: Form::Words,
    value: "NAME",
    help: "Names of files",
    ..WORD
};

static ARGUMENTS: &[Argument] = &[STORE, FILES, CODE, NAMES, LAYOUT, FOLLOW, TRUST, QUIET];

/// What `remove` is given.
#[derive(Drop)]
pub struct RemoveOptions<'a> {
    /// The path of the store's folder.
    pub folder: &'a str,
    /// The names of the files.
    pub names: Vec<&'a str>,
    /// The code that is given; none where the places of the files are to say it.
    pub code: Option<Code>,
    pub naming: Naming<'a>,
    pub links: Links,
    /// Whether root works in folders that others may write into.
    pub trusts_writers: bool,
    /// Whether no summary is shown.
    pub quiet: bool,
}

/// The definition of the command.
pub(crate) fn definition<'a>(alloc: Global) -> Result<Definition<'a>, AllocError> {
    defined(alloc, "remove", ABOUT, &[ARGUMENTS])
}

impl<'a> RemoveOptions<'a> {
    /// What matches ask for.
    pub(crate) fn of(
        alloc: Global,
        matches: &ArgMatches<'a>,
    ) -> Result<RemoveOptions<'a>, UsageFault> {
        let mut names = Vec::new(alloc);
        for name in matches.get_strs("files").unwrap_or(&[]) {
            names.push(*name)?;
        }
        let code = code_of(matches.get_str("code"));
        Ok(RemoveOptions {
            folder: folder_of(matches),
            names,
            code,
            naming: Naming::of(matches, code)?,
            links: links_of(matches),
            trusts_writers: matches.get_flag("trust-writers"),
            quiet: matches.get_flag("quiet"),
        })
    }
}
