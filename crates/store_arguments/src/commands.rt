//! The program's definition, and the command that its arguments name.
use crate::encode::{self, EncodeOptions};
use crate::faults::UsageFault;
use crate::list::{self, ListOptions};
use crate::lost::{self, LostOptions};
use crate::read::{self, ReadOptions};
use crate::remove::{self, RemoveOptions};
use crate::repair::{self, RepairOptions};
use crate::scrub::{self, ScrubOptions};
use crate::verify::{self, VerifyOptions};
use clap::error::ErrorKind;
use clap::{ArgMatches, Command as Definition, Error as ParseError};
use std::alloc::{AllocError, Global};

const NAME: &str = "rebuild-store";

const VERSION: &str = "0.1.0";

const ABOUT: &str =
    "Keeps files in a store of erasure-coded stripes, and makes it whole after fragments were lost.";

const AFTER_HELP: &str = "\
A store is a folder with a file <stripe>.<place> for each fragment, as note.x1.
Places: x0 x1 x2 y0 y1 y2 px py p0 p1; 12-2-2 has x3 x4 x5 y3 y4 y5 too.
Exit status: 0 done, 1 something is left, 2 usage, 3 I/O error, 4 memory.";

const NO_COMMAND: &str =
    "error: rebuild-store takes a command\n\nFor more information, try '--help'.\n";

/// What the arguments ask for.
#[derive(Drop)]
pub enum Command<'a> {
    Repair(RepairOptions<'a>),
    Lost(LostOptions<'a>),
    Scrub(ScrubOptions<'a>),
    Encode(EncodeOptions<'a>),
    Read(ReadOptions<'a>),
    List(ListOptions<'a>),
    Verify(VerifyOptions<'a>),
    Remove(RemoveOptions<'a>),
    /// To show this text: help, or the version.
    Help(String),
}

/// What arguments ask for; the program's name is not among them.
pub fn read_arguments<'a>(
    alloc: Global,
    arguments: &'a [String],
) -> Result<Command<'a>, UsageFault> {
    match program(alloc)?.try_get_matches_from(arguments) {
        Ok(matches) => command_of(alloc, &matches),
        Err(error) => shown(alloc, &error),
    }
}

/// The definition of the program.
fn program<'a>(alloc: Global) -> Result<Definition<'a>, AllocError> {
    let program = without_commands(alloc);
    let program = with(program, repair::definition(alloc));
    let program = with(program, lost::definition(alloc));
    let program = with(program, scrub::definition(alloc));
    let program = with(program, encode::definition(alloc));
    let program = with(program, read::definition(alloc));
    let program = with(program, list::definition(alloc));
    let program = with(program, verify::definition(alloc));
    with(program, remove::definition(alloc))
}

/// The definition of the program without its commands.
fn without_commands<'a>(alloc: Global) -> Result<Definition<'a>, AllocError> {
    let program = Definition::new(alloc, NAME).bin_name(NAME)?;
    Ok(
        program
            .no_binary_name(true)
            .version(VERSION)
            .about(ABOUT)
            .after_help(AFTER_HELP),
    )
}

/// The definition of a program with one more command, if memory was refused to neither.
fn with<'a>(
    program: Result<Definition<'a>, AllocError>,
    command: Result<Definition<'a>, AllocError>,
) -> Result<Definition<'a>, AllocError> {
    program?.subcommand(command?)
}

/// The command that matches name.
fn command_of<'a>(alloc: Global, matches: &ArgMatches<'a>) -> Result<Command<'a>, UsageFault> {
    match matches.subcommand() {
        Some(("repair", matches)) => Ok(Command::Repair(RepairOptions::of(matches)?)),
        Some(("lost", matches)) => Ok(Command::Lost(LostOptions::of(matches)?)),
        Some(("scrub", matches)) => Ok(Command::Scrub(ScrubOptions::of(matches)?)),
        Some(("encode", matches)) => Ok(Command::Encode(EncodeOptions::of(alloc, matches)?)),
        Some(("read", matches)) => Ok(Command::Read(ReadOptions::of(matches)?)),
        Some(("list", matches)) => Ok(Command::List(ListOptions::of(matches)?)),
        Some(("verify", matches)) => Ok(Command::Verify(VerifyOptions::of(alloc, matches)?)),
        Some(("remove", matches)) => Ok(Command::Remove(RemoveOptions::of(alloc, matches)?)),
        _ => Err(UsageFault::Mistake(String::from_str(alloc, NO_COMMAND)?)),
    }
}

/// The text of help, of the version or of a mistake.
fn shown<'a>(alloc: Global, error: &ParseError) -> Result<Command<'a>, UsageFault> {
    match error.kind() {
        ErrorKind::OutOfMemory => Err(UsageFault::OutOfMemory),
        ErrorKind::DisplayHelp | ErrorKind::DisplayVersion => {
            Ok(Command::Help(format!(in alloc; "{error}")?))
        }
        _ => {
            let text = format!(in alloc; "{error}")?;
            Err(UsageFault::Mistake(without_tip(alloc, text.as_str())?))
        }
    }
}

/// The text of a mistake without the tip that a word which begins with a hyphen may be meant as a value: it seldom is.
fn without_tip(alloc: Global, text: &str) -> Result<String, AllocError> {
    if let Some((before, after)) = text.split_once("\n  tip: to pass ") {
        if let Some((_, rest)) = after.split_once("\n\n") {
            let before = before.trim_end();
            return format!(in alloc; "{before}\n\n{rest}");
        }
    }
    String::from_str(alloc, text)
}
