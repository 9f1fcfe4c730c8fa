//! The command `repair`.
use crate::faults::UsageFault;
use crate::shared::definitions::{Argument, FLAG, Form, TEXT, TRUST, UNMOUNTED, defined};
use crate::shared::store::{STORE_ARGUMENTS, StoreOptions};
use crate::shared::testing::{TEST_ARGUMENTS, TestOptions, WORKERS};
use clap::{ArgMatches, Command as Definition};
use std::alloc::{AllocError, Global};
use store_repair::Reads;

const ABOUT: &str = "Rebuilds each lost fragment and puts it in its place";

const DRY_RUN: Argument = Argument {
    id: "dry-run",
    short: Some('n'),
    help: "Only say what would be done",
    ..FLAG
};

const REPLACE: Argument = Argument {
    id: "replace-damaged",
    help: "Replace fragments that are damaged or have another length; keep them as <name>.damaged",
    ..FLAG
};

const ASSUME: Argument = Argument {
    id: "assume-one-damaged",
    help: "Take a fragment for the damaged one if it alone may be, a guess that no check covers",
    ..FLAG
};

const TO: Argument = Argument {
    id: "to",
    value: "FOLDER",
    help: "Write the rebuilt fragments to this folder and not into the store",
    ..TEXT
};

const WAYS: &[&str] = &["all", "checked", "few"];

const READS: Argument = Argument {
    id: "reads",
    form: Form::Choice(WAYS),
    value: "WHICH",
    help: "The survivors that are read: all, as few as show damage (the default), or as few as are needed",
    ..TEXT
};

/// The arguments that it has alone, and the number of threads.
static ARGUMENTS: &[Argument] = &[
    WORKERS, DRY_RUN, REPLACE, ASSUME, TO, TRUST, UNMOUNTED, READS,
];

/// What `repair` is given.
#[derive(Clone, Copy)]
pub struct RepairOptions<'a> {
    pub store: StoreOptions<'a>,
    pub test: TestOptions<'a>,
    pub reads: Reads,
    pub dry_run: bool,
    pub replace_damaged: bool,
    /// Whether the only survivor without which the others belong together is taken for the damaged one.
    pub assume_one_damaged: bool,
    /// The folder that rebuilt fragments are written to, if that isn't the store's.
    pub to: Option<&'a str>,
    /// Whether root works in folders that others may write into.
    pub trusts_writers: bool,
    /// Whether folders of disks are written into at which none is mounted.
    pub allows_unmounted: bool,
}

/// The definition of the command.
pub(crate) fn definition<'a>(alloc: Global) -> Result<Definition<'a>, AllocError> {
    let tables = [STORE_ARGUMENTS, ARGUMENTS, TEST_ARGUMENTS];
    defined(alloc, "repair", ABOUT, &tables)
}

impl<'a> RepairOptions<'a> {
    /// What matches ask for.
    pub(crate) fn of(matches: &ArgMatches<'a>) -> Result<RepairOptions<'a>, UsageFault> {
        let test = TestOptions::of(matches)?;
        let replace_damaged = matches.get_flag("replace-damaged");
        let assume_one_damaged = matches.get_flag("assume-one-damaged");
        let looks_for_damage = replace_damaged || assume_one_damaged;
        Ok(RepairOptions {
            store: StoreOptions::of(matches)?,
            test,
            reads: reads_of(matches.get_str("reads"), looks_for_damage),
            dry_run: matches.get_flag("dry-run"),
            replace_damaged,
            assume_one_damaged,
            to: matches.get_str("to"),
            trusts_writers: matches.get_flag("trust-writers"),
            allows_unmounted: matches.get_flag("allow-unmounted"),
        })
    }
}

/// Which survivors are read, by a name that the parser let pass; if none is given, all where damage is looked for.
fn reads_of(name: Option<&str>, looks_for_damage: bool) -> Reads {
    match name {
        Some("all") => Reads::All,
        Some("few") => Reads::Few,
        Some(_) => Reads::Checked,
        None if looks_for_damage => Reads::All,
        None => Reads::Checked,
    }
}
