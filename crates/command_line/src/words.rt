//! The program's arguments, and what they ask for.
ghost use Rattle.std.specs.Prelude.{◌≡◌, [], IfOk, IfErr, map, string_bytes};
ghost use Rattle.clap.specs.Words.{kind_of, subcommand_rows_of};
ghost use Rattle.command_line.specs.Command.{AreLines, Asks, MatchesFault, MatchesWords, Refuses, Shows, ShowsFault};
ghost use Rattle.command_line.specs.declared.words.WordsFault.TheVariants as words_fault;

use crate::definition::program;
use crate::values::FarmValues;
use clap::error::ErrorKind;
use clap::{ArgMatches, Error as ParseError};
use std::alloc::{AllocError, Global};
use thiserror::Error;

const NO_COMMAND: &str =
    "error: rebuild takes the command farm, or no arguments at all\n\nFor more information, try '--help'.\n";

/// clap's own text would name the range of the type, which is wider than the limits of a farm.
const BAD_NUMBER: &str = "\
error: --workers takes a number from 1 to 16, and --queue one from 1 to 1024\n\nFor more information, try '--help'.\n";

const OTHER_COMMANDS: &str =
    "The commands for stores, such as repair, are those of rebuild-store.\n";

/// What the program's arguments ask for.
#[derive(Debug, Drop)]
pub enum Words {
    /// There are no arguments: line mode.
    Lines,
    /// To serve the folder `input` into the folder `output`, with this many workers and queues of this capacity. Both
    /// numbers are at most 65,535, and not yet tested against the limits of a farm.
    Farm {
        input: String,
        output: String,
        workers: usize,
        queue: usize,
    },
    /// To show this text: help, or the version.
    Help(String),
}

/// Why arguments are refused.
#[derive(Debug, Drop, Error)]
pub enum WordsFault {
    /// The arguments have a mistake, or no command. The text says which, and where help is.
    #[error("{0}")]
    Usage(String),
    /// E16: memory was refused.
    #[error("memory was refused")]
    OutOfMemory,
}

impl From<AllocError> for WordsFault {
    ghost from_gives = { λ _ e. e ≡ words_fault.OutOfMemory };

    fn from(_: AllocError) -> Self {
        WordsFault::OutOfMemory
    }
}

/// What arguments ask for; the program's name is not among them. Takes no memory where there are none.
///
/// An option's number may have a plus sign. An option is before or after the folders, and its value after a
/// space or an equals sign.
pub fn read_words(alloc: Global, words: &[String]) -> Result<Words, WordsFault>
    ensures none { words.now ≡ [] → AreLines result }
    ensures asked { IfOk result (λ w. Asks w (map string_bytes words.now)) }
    ensures refused { IfErr result (λ f. Refuses f (map string_bytes words.now)) }
{
    if words.is_empty() {
        return Ok(Words::Lines);
    }
    let program = program(alloc)?;
    match program.try_get_matches_from(words) {
        Ok(matches) => asked_of_farm(alloc, &matches),
        Err(error) => shown(alloc, &error),
    }
}

/// What matches ask for.
fn asked_of_farm(alloc: Global, matches: &ArgMatches<'_>) -> Result<Words, WordsFault>
    ensures asked { IfOk result (MatchesWords (subcommand_rows_of matches.now)) }
    ensures refused { IfErr result (MatchesFault (subcommand_rows_of matches.now)) }
{
    match FarmValues::of(matches) {
        Some(values) => Ok(Words::Farm {
            input: String::from_str(alloc, values.input)?,
            output: String::from_str(alloc, values.output)?,
            workers: values.workers as usize,
            queue: values.queue as usize,
        }),
        None => Err(WordsFault::Usage(String::from_str(alloc, NO_COMMAND)?)),
    }
}

/// The text of help, of the version or of a mistake.
fn shown(alloc: Global, error: &ParseError) -> Result<Words, WordsFault>
    ensures asked { IfOk result (Shows (kind_of error.now)) }
    ensures refused { IfErr result (ShowsFault (kind_of error.now)) }
{
    match error.kind() {
        ErrorKind::OutOfMemory => Err(WordsFault::OutOfMemory),
        ErrorKind::DisplayHelp | ErrorKind::DisplayVersion => {
            Ok(Words::Help(format!(in alloc; "{error}")?))
        }
        ErrorKind::ValueValidation => {
            Err(WordsFault::Usage(String::from_str(alloc, BAD_NUMBER)?))
        }
        ErrorKind::InvalidSubcommand => {
            Err(WordsFault::Usage(format!(in alloc; "{error}{OTHER_COMMANDS}")?))
        }
        _ => Err(WordsFault::Usage(format!(in alloc; "{error}")?)),
    }
}
