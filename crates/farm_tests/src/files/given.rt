//! What standard input says that a test is to do.
use std::alloc::Global;
use std::io::{Read, Stdin};
use std::process::Abort;
use std::str::SplitWhitespace;

/// The bytes of standard input.
pub(crate) fn given_bytes(rt: &impl Abort, alloc: Global, mut input: Stdin) -> Vec<u8> {
    let mut bytes = Vec::new(alloc);
    input.read_to_end(&mut bytes).expect(rt, "standard input");
    bytes
}

/// The next word, or an empty one.
pub(crate) fn word<'a>(words: &mut SplitWhitespace<'a>) -> &'a str {
    words.next().unwrap_or("")
}

/// The next word as a number, or the greatest number.
pub(crate) fn number(words: &mut SplitWhitespace<'_>) -> usize {
    word(words).parse::<usize>().unwrap_or(usize::MAX)
}
