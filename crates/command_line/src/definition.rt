//! The definition of the command line.
ghost use Rattle.std.specs.Prelude.{◌≡◌, false, IfOk};
ghost use Rattle.clap.specs.Words.{app_of, rule_of};
ghost use Rattle.command_line.specs.Command.{farm, folder_rule, has_globals, number_rule, program};

use clap::{Arg, Command};
use std::alloc::{AllocError, Global};

const VERSION: &str = "0.1.0";

const ABOUT: &str =
    "Rebuilds lost fragments of stripes coded by a (6,2,2) or (12,2,2) Local Reconstruction Code.";

const AFTER_HELP: &str = "\
Without a command, rebuild replies to each line of its standard input, as
  [code=<code>] <stripe> <target> <length> <place>=<hexadecimal bytes> ..
The code is 6-2-2, which needs no word, or 12-2-2.
Places: x0 x1 x2 y0 y1 y2 px py p0 p1; 12-2-2 has x3 x4 x5 y3 y4 y5 too.
Example: echo 'a x0 1 x1=02 x2=03 px=00' | rebuild
Exit status: 0 all lines answered, 1 a line refused, 2 usage, 3 I/O error, 4 memory.
Folders of request lists are served by rebuild farm: see rebuild farm --help.
The manual: man rebuild for the program, man 5 rebuild for its files and lines.";

const FARM_ABOUT: &str = "Rebuilds the fragments that the request lists of a folder ask for";

const FARM_USAGE: &str = "rebuild farm [OPTIONS] <IN> <OUT>";

const FARM_AFTER_HELP: &str = "\
Files of IN:
  rack<k>.csv                    the request list of rack k, from rack0.csv on
  rack<k>.feed<f>.csv            its further feeds, from feed1 to feed3
  <stripe>.<place>               a surviving fragment, as abc.x1
Files written to OUT, those of these names replaced:
  rack<k>-<n>.<stripe>.<place>   the fragment rebuilt for request n of rack k
  rack<k>.report.csv             the answers of rack k, each with its request
Exit status: 0 served, 1 lists refused, 2 usage, 3 I/O error, 4 memory or threads.
A fault is reported in one line, as 'rack0.csv: record 2: E20':
  E11 the workers are not 1 to 16         E21 a record's request is refused: E1 its
  E12 the queue is not 1 to 1024              stripe's name, E2 its length, E3 a
  E16 out of memory                           survivor listed twice, E4 the target
  E17 a thread was refused                    is among the survivors
  E18 there are more than 16 racks        E23 there is no rack0.csv
  E19 the header is not one of a list     E24 an I/O error
  E20 a record does not have its form     E25 a list is over 1048576 bytes
  E28 a rack has more than 4 feeds        E26 a list has over 4096 records
The manual: man rebuild for the program, man 5 rebuild for its files and lines.";

const INPUT_HELP: &str = "Folder of request lists and surviving fragments";

const OUTPUT_HELP: &str = "Folder for rebuilt fragments and reports, which must exist";

const WORKERS_HELP: &str = "Threads that rebuild, 1 to 16";

const QUEUE_HELP: &str = "Room of each queue, 1 to 1024";

/// The command line; the program's name is not among its arguments.
pub(crate) fn program<'a>(alloc: Global) -> Result<Command<'a>, AllocError>
    ensures { IfOk result (λ c. app_of c ≡ program) }
{
    let farm = farm_command(alloc)?;
    Command::new(alloc, "rebuild")
        .no_binary_name(true)
        .version(VERSION)
        .about(ABOUT)
        .after_help(AFTER_HELP)
        .subcommand(farm)
}

/// The command `farm`, with its folders and its two numbers.
fn farm_command<'a>(alloc: Global) -> Result<Command<'a>, AllocError>
    ensures app { IfOk result (λ c. app_of c ≡ farm) }
    ensures local { IfOk result (λ c. has_globals c ≡ false) }
{
    Command::new(alloc, "farm")
        .about(FARM_ABOUT)
        .override_usage(FARM_USAGE)
        .after_help(FARM_AFTER_HELP)
        .arg(folder(alloc, "in", "IN", INPUT_HELP))?
        .arg(folder(alloc, "out", "OUT", OUTPUT_HELP))?
        .arg(number(alloc, "workers", "4", "N", WORKERS_HELP))?
        .arg(number(alloc, "queue", "16", "Q", QUEUE_HELP))
}

/// The argument that is the path of a folder; it has to be given.
fn folder<'a>(alloc: Global, id: &'a str, shown: &'a str, help: &'a str) -> Arg<'a>
    ensures rule { rule_of result ≡ folder_rule id.entry.now }
    ensures local { result.global ≡ false }
{
    Arg::new(alloc, id)
        .required(true)
        .value_name(shown)
        .help(help)
}

/// An option that takes a whole number from 0 to 65,535, and what it is without it.
fn number<'a>(
    alloc: Global,
    id: &'a str,
    default: &'a str,
    shown: &'a str,
    help: &'a str,
) -> Arg<'a>
    ensures rule { rule_of result ≡ number_rule id.entry.now default.entry.now }
    ensures local { result.global ≡ false }
{
    Arg::new(alloc, id)
        .long(id)
        .value_parser(clap::value_parser!(u16))
        .default_value(default)
        .value_name(shown)
        .help(help)
}
