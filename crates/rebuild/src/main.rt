//! The program `rebuild`: replies to the requests of its standard input, line by line, or serves a folder of request
//! lists by its command `farm`.
//!
//! Each mode has a call that does its work over any reader, writer or shelf, a status that says how that ended, and a
//! type of faults:
//!
//! ```rust
//! let answered = line_mode_in_threads(&rt, rt.alloc(), &mut rt.stdin(), &mut rt.stdout());
//! ExitCode::from(line_status(&answered))
//! ```
//!
//! What can't be written to standard error is lost; the status says how it ended all the same.
#![tactic(auto)]

use command_line::{DEVICE, DONE, NO_RESOURCES, USAGE, Words, WordsFault, read_words};
use farm_core::{Settings, SettingsFault};
use farm_files::{Served, serve_folders};
use farm_reading::{farm_status, fault_line};
use line_mode::{line_mode_in_threads, line_status};
use std::io::{ErrorKind, IsTerminal};
use std::process::ExitCode;
use std::sync::Wait;
use std::thread::Threads;
use std::{env, io};

const AT_TERMINAL: &str = "rebuild: reading lines until Ctrl-D; their form: rebuild --help";

/// Does what the arguments ask for; the exit status says how it ended.
fn main(rt: HostRuntime) -> ExitCode {
    let status = match asked(&rt) {
        Ok(Words::Lines) => answer_lines(&rt, &rt),
        Ok(
            Words::Farm {
                input,
                output,
                workers,
                queue,
            },
        ) => match Settings::new(workers, queue) {
            Ok(settings) => answer_farm(&rt, &rt, input.as_str(), output.as_str(), settings),
            Err(SettingsFault::BadWorkers) => refuse_arguments(&rt, "refused E11\n"),
            Err(SettingsFault::BadQueue) => refuse_arguments(&rt, "refused E12\n"),
        },
        Ok(Words::Help(text)) => show(&rt, text.as_str()),
        Err(WordsFault::Usage(text)) => refuse_arguments(&rt, text.as_str()),
        Err(WordsFault::OutOfMemory) => report_out_of_memory(&rt),
    };
    ExitCode::from(status)
}

/// What the arguments after the program's name ask for.
fn asked(rt: &HostRuntime) -> Result<Words, WordsFault> {
    let arguments = match arguments(rt) {
        Ok(arguments) => arguments,
        Err(e) if e.kind() == ErrorKind::OutOfMemory => return Err(WordsFault::OutOfMemory),
        Err(_) => {
            let text = String::from_str(rt.alloc(), "error: an argument is not text\n")?;
            return Err(WordsFault::Usage(text));
        }
    };
    read_words(rt.alloc(), arguments.as_slice())
}

/// The arguments after the program's name.
fn arguments(rt: &HostRuntime) -> io::Result<Vec<String>> {
    Ok(env::args(rt)?.skip(1).collect(rt.alloc())?)
}

/// Replies to the lines of standard input on standard output, and gives the exit status. At a terminal it says so first, since nothing
/// is printed before the input has ended.
fn answer_lines<T: Threads + Sync>(rt: &T, system: &HostRuntime) -> u8 {
    if system.stdin().is_terminal() {
        let _ = eprintln!(system; "{AT_TERMINAL}");
    }
    let answered = line_mode_in_threads(
        rt,
        system.alloc(),
        &mut system.stdin(),
        &mut system.stdout(),
    );
    if let Err(fault) = answered {
        let _ = eprintln!(system; "E{}", fault.number());
    }
    line_status(&answered)
}

/// Serves one folder into another, says how that ended, and gives the exit status.
fn answer_farm<R>(rt: &R, system: &HostRuntime, input: &str, output: &str, settings: Settings) -> u8
where
    R: Threads + Wait + Sync + Print + Eprint + AllocGlobal,
{
    let served = serve_folders(rt, system, rt.alloc(), input, output, settings);
    match &served {
        Ok(Served { racks, answers }) => {
            if println!(rt; "served {racks} racks, {answers} answers").is_err() {
                return DEVICE;
            }
        }
        Err(fault) => {
            let Ok(line) = fault_line(rt.alloc(), fault) else {
                return NO_RESOURCES;
            };
            let _ = eprintln!(rt; "{line}");
        }
    }
    farm_status(&served)
}

/// Shows a text that was asked for.
fn show(rt: &HostRuntime, text: &str) -> u8 {
    match print!(rt; "{text}") {
        Ok(()) => DONE,
        Err(_) => DEVICE,
    }
}

/// Says why arguments are refused.
fn refuse_arguments(rt: &HostRuntime, text: &str) -> u8 {
    let _ = eprint!(rt; "{text}");
    USAGE
}

/// Says that memory was refused, and gives the exit status.
fn report_out_of_memory(rt: &HostRuntime) -> u8 {
    let _ = eprintln!(rt; "E16");
    NO_RESOURCES
}
