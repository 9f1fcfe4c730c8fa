//! What standard input says that a test is to do. A request is written as line mode takes it, but without its stripe: a code, or - for
//! none, the target, the length, and the survivors, each with its bytes.
use lrc_code::{Code, Fragment, Place, Request, RequestFault};
use std::alloc::Global;
use std::io::{Read, Stdin};
use std::process::Abort;
use std::str::SplitWhitespace;

/// The bytes of standard input.
pub(crate) fn given_bytes(rt: &impl Abort, alloc: Global, mut input: Stdin) -> Vec<u8> {
    let mut bytes = Vec::new(alloc);
    input.read_to_end(&mut bytes).expect(rt, "standard input");
    bytes
}

/// The next word, or an empty one.
fn word<'a>(words: &mut SplitWhitespace<'a>) -> &'a str {
    words.next().unwrap_or("")
}

/// The next word as a number, or the greatest number.
pub(crate) fn number(words: &mut SplitWhitespace<'_>) -> usize {
    word(words).parse::<usize>().unwrap_or(usize::MAX)
}

/// The next word as a byte, or the greatest.
pub(crate) fn byte(words: &mut SplitWhitespace<'_>) -> u8 {
    word(words).parse::<u8>().unwrap_or(u8::MAX)
}

/// The next word as a place, or x0.
pub(crate) fn place(words: &mut SplitWhitespace<'_>) -> Place {
    Place::parse(word(words)).unwrap_or(Place::X0)
}

/// The fragment that a word writes, as `x1=02`.
fn fragment_of(rt: &(impl Abort + AllocGlobal), word: &str) -> Fragment {
    let (name, digits) = word.split_once('=').unwrap_or(("", ""));
    Fragment {
        place: Place::parse(name).unwrap_or(Place::X0),
        bytes: hex::decode(rt.alloc(), digits).expect(rt, "digits"),
    }
}

/// The fragments that words write.
fn fragments_of(rt: &(impl Abort + AllocGlobal), words: SplitWhitespace<'_>) -> Vec<Fragment> {
    let mut fragments = Vec::new(rt.alloc());
    for word in words {
        let fragment = fragment_of(rt, word);
        fragments.push(fragment).expect(rt, "fragments");
    }
    fragments
}

/// The request for a fragment of this stripe that words write, made by the call that names no code if they name none.
pub(crate) fn request_of(
    rt: &(impl Abort + AllocGlobal),
    stripe: &str,
    mut words: SplitWhitespace<'_>,
) -> Result<Request, RequestFault> {
    let code = Code::parse(word(&mut words).as_bytes());
    let target = place(&mut words);
    let length = word(&mut words).parse::<u32>().unwrap_or(u32::MAX);
    let fragments = fragments_of(rt, words);
    let stripe = String::from_str(rt.alloc(), stripe).expect(rt, "a name");
    match code {
        Some(code) => Request::new_in(code, stripe, target, length, fragments),
        None => Request::new(stripe, target, length, fragments),
    }
}
