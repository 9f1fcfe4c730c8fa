//! The command `encode`.
use crate::faults::UsageFault;
use crate::shared::definitions::{
    Argument, CODE, FLAG, FOLLOW, Form, QUIET, STORE, TEXT, TRUST, UNMOUNTED, WORD, code_of,
    defined,
};
use crate::shared::naming::{LAYOUT, NAMES, Naming, links_of};
use crate::shared::store::folder_of;
use clap::{ArgMatches, Command as Definition};
use lrc_code::Code;
use std::alloc::{AllocError, Global};
use store_folder::Links;

const ABOUT: &str = "Makes the fragments of files, each file a stripe that is named for it";

const FILES: Argument = Argument {
    id: "files",
    form: Form::Words,
    value: "FILE",
    help: "Files to encode, or - for standard input",
    ..WORD
};

const CODE_OF_STRIPES: Argument = Argument {
    default: Some("6-2-2"),
    help: "Code of the stripes",
    ..CODE
};

const AS: Argument = Argument {
    id: "as",
    value: "NAME",
    help: "Name in the store, of one file",
    ..TEXT
};

const FOLDERS: Argument = Argument {
    id: "make-folders",
    help: "Make the folders that the fragments' names have",
    ..FLAG
};

const REPLACE: Argument = Argument {
    id: "replace",
    help: "Replace files of the store that have other bytes",
    ..FLAG
};

/// The folder and the files; how the stripes are made and named.
static ARGUMENTS: &[Argument] = &[STORE, FILES, CODE_OF_STRIPES, NAMES, LAYOUT];

/// What may be done.
static PERMISSIONS: &[Argument] = &[FOLLOW, TRUST, UNMOUNTED, AS, FOLDERS, REPLACE, QUIET];

/// What `encode` is given.
#[derive(Drop)]
pub struct EncodeOptions<'a> {
    /// The path of the store's folder.
    pub folder: &'a str,
    /// The paths of the files that are encoded.
    pub files: Vec<&'a str>,
    /// The name that a single file gets in the store, if that isn't its own.
    pub name: Option<&'a str>,
    pub code: Code,
    pub naming: Naming<'a>,
    pub links: Links,
    /// Whether root works in folders that others may write into.
    pub trusts_writers: bool,
    /// Whether folders of disks are written into at which none is mounted.
    pub allows_unmounted: bool,
    /// Whether the folders that names have are made.
    pub makes_folders: bool,
    /// Whether files of the store that have other bytes are replaced.
    pub replaces: bool,
    /// Whether neither progress nor a summary is shown.
    pub quiet: bool,
}

/// The definition of the command.
pub(crate) fn definition<'a>(alloc: Global) -> Result<Definition<'a>, AllocError> {
    let tables = [ARGUMENTS, PERMISSIONS];
    defined(alloc, "encode", ABOUT, &tables)
}

impl<'a> EncodeOptions<'a> {
    /// What matches ask for.
    pub(crate) fn of(
        alloc: Global,
        matches: &ArgMatches<'a>,
    ) -> Result<EncodeOptions<'a>, UsageFault> {
        // The definition has this default, so that none is given without it.
        let code = code_of(matches.get_str("code")).unwrap_or(Code::Narrow);
        let mut files = Vec::new(alloc);
        for file in matches.get_strs("files").unwrap_or(&[]) {
            files.push(*file)?;
        }
        let name = matches.get_str("as");
        let has_input = files.iter().any(|file| *file == "-");
        if (name.is_some() || has_input) && files.len() != 1 {
            return Err(UsageFault::OneFile);
        }
        if name.is_none() && has_input {
            return Err(UsageFault::NeedsName);
        }
        if name.is_some_and(|name| name.contains('/')) {
            return Err(UsageFault::FolderInName);
        }
        Ok(EncodeOptions {
            folder: folder_of(matches),
            files,
            name,
            code,
            naming: Naming::of(matches, Some(code))?,
            links: links_of(matches),
            trusts_writers: matches.get_flag("trust-writers"),
            allows_unmounted: matches.get_flag("allow-unmounted"),
            makes_folders: matches.get_flag("make-folders"),
            replaces: matches.get_flag("replace"),
            quiet: matches.get_flag("quiet"),
        })
    }
}
