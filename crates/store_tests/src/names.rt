//! Names, by a test that shows what a call gives for each line of standard input. gate/store-names.py has the lines, and what has to come.
use folders::folder_of;
use lrc_code::{Code, Place};
use std::alloc::{AllocError, Global};
use std::io::{Read, Stdin};
use std::process::Abort;
use std::str;
use store_names::{
    Layout, Locking, Part, Pattern, described_stripe, folder_in, is_description_name, is_left_by,
    is_of_runs, last_of, lock_name, locking_at, path_in, run_named, run_of, tag_of_part,
};

/// The first word of a text, and what is after the bar behind it.
fn cut(text: &str) -> (&str, &str) {
    match text.split_once('|') {
        Some(parts) => parts,
        None => (text, ""),
    }
}

fn number(text: &str) -> u64 {
    text.parse::<u64>().unwrap_or(0)
}

fn answer(is: bool) -> &'static str {
    if is { "true" } else { "false" }
}

/// Whether a stripe is of a part, of so many.
fn is_of_part(index: &str, of: &str, stripe: &str) -> bool {
    let part = Part {
        index: number(index),
        of: number(of),
    };
    part.has(stripe)
}

/// What a call says of texts.
fn said_by<'t>(what: &str, one: &'t str, other: &str, third: &str) -> &'t str {
    match what {
        "described_stripe" => described_stripe(one).unwrap_or("none"),
        "folder_in" => folder_in(one),
        "folder_of" => folder_of(one),
        "is_left_by" => answer(is_left_by(one, other)),
        "is_of_part" => answer(is_of_part(one, other, third)),
        "is_of_runs" => answer(is_of_runs(one)),
        "last_of" => last_of(one),
        "run_of" => run_of(one).unwrap_or("none"),
        _ => "no call",
    }
}

fn name_of_locking(locking: Locking) -> &'static str {
    match locking {
        Locking::OneHost => "one host",
        Locking::SharedFiles => "shared files",
        Locking::Unknown => "unknown",
    }
}

/// What a call makes of texts and of numbers; whom locks keep out is by a table of mounts.
fn made_by(alloc: Global, table: &str, what: &str, words: &str) -> Result<String, AllocError> {
    let (one, rest) = cut(words);
    let (other, third) = cut(rest);
    match what {
        "lock_name" => lock_name(alloc, number(one), number(other)),
        "locking_at" => String::from_str(alloc, name_of_locking(locking_at(alloc, table, one)?)),
        "path_in" => path_in(alloc, one, other),
        "pattern" => made_by_pattern(alloc, one, rest),
        "run_named" => run_named(alloc, one, other),
        "tag_of_part" => tag_of_part(alloc, number(one), number(other)),
        _ => String::from_str(alloc, said_by(what, one, other, third)),
    }
}

/// What a call gives of a pattern in a layout, and of a code.
fn made_by_pattern(alloc: Global, what: &str, words: &str) -> Result<String, AllocError> {
    let (text, rest) = cut(words);
    let (layout, rest) = cut(rest);
    let (code, rest) = cut(rest);
    let layout = if layout == "groups" {
        Layout::Groups
    } else {
        Layout::Plain
    };
    let code = Code::parse(code.as_bytes()).unwrap_or(Code::Narrow);
    match Pattern::parse(text, layout) {
        Ok(pattern) => given_by(alloc, &pattern, code, what, rest),
        Err(fault) => format!(in alloc; "{fault}"),
    }
}

/// What a call of a pattern gives.
fn given_by(
    alloc: Global,
    pattern: &Pattern<'_>,
    code: Code,
    what: &str,
    words: &str,
) -> Result<String, AllocError> {
    let (one, other) = cut(words);
    match what {
        "is_description_name" => {
            let is_so = is_description_name(alloc, pattern, code, one)?;
            String::from_str(alloc, answer(is_so))
        }
        "name_of" => name_by(alloc, pattern, code, one, other),
        _ => fragment_by(alloc, pattern, code, one),
    }
}

/// The name of a stripe's fragment at a place.
fn name_by(
    alloc: Global,
    pattern: &Pattern<'_>,
    code: Code,
    stripe: &str,
    place: &str,
) -> Result<String, AllocError> {
    let place = Place::parse(place).unwrap_or(Place::X0);
    match pattern.name_of(alloc, code, stripe, place)? {
        Some(name) => Ok(name),
        None => String::from_str(alloc, "none"),
    }
}

/// The stripe and the place of a fragment's name.
fn fragment_by(
    alloc: Global,
    pattern: &Pattern<'_>,
    code: Code,
    name: &str,
) -> Result<String, AllocError> {
    match pattern.read(code, name) {
        Some((stripe, place)) => path_in(alloc, stripe, place.name()),
        None => String::from_str(alloc, "none"),
    }
}

/// Shows what the call gives that a line names, of the words behind its name.
fn show(rt: &(impl AllocGlobal + Print), table: &str, line: &str) {
    let (what, words) = cut(line);
    let _ = match made_by(rt.alloc(), table, what, words) {
        Ok(text) => println!(rt; "{}", text.as_str()),
        Err(_) => println!(rt; "no memory"),
    };
}

/// The bytes of standard input.
fn given_bytes(rt: &impl Abort, alloc: Global, mut input: Stdin) -> Vec<u8> {
    let mut bytes = Vec::new(alloc);
    input.read_to_end(&mut bytes).expect(rt, "standard input");
    bytes
}

/// What is before the first empty line is a table of mounts.
fn show_all(rt: &(impl AllocGlobal + Print), text: &str) {
    let Some((table, lines)) = text.split_once("\n\n") else {
        return;
    };
    for line in lines.lines() {
        show(rt, table, line);
    }
}

#[test]
fn calls_are_shown(rt: HostRuntime) {
    let bytes = given_bytes(&rt, rt.alloc(), rt.stdin());
    show_all(&rt, str::from_utf8(&bytes).unwrap_or(""));
}
