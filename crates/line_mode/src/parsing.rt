//! The request that a line writes, or why the line is refused.
ghost use Rattle.std.specs.Prelude.{◌≡◌, ◌∷◌, Ok, Some, None, IfOk, MatchResult, map, true};
ghost use Rattle.std.specs.List.{list_all};
ghost use Rattle.std.specs.Option.{option_map};
ghost use Rattle.std.specs.String.{string_bytes};
ghost use Rattle.lrc_code.specs.Requests.{refusal};
ghost use Rattle.lrc_code.specs.Survivors.{survivor_of, survivors_of};
ghost use Rattle.lrc_code.specs.Text.{every};
ghost use Rattle.line_mode.specs.Line.{line_code, request_in, request_of, is_printable, survivor, words as line_words};
ghost use Rattle.line_mode.specs.Parts.{asked_of};
ghost use Rattle.line_mode.specs.LineReply.{refusal_of};

use crate::hexadecimal::decode;
use crate::memory::KeptMemory;
use crate::refusals::LineRefusal;
use crate::scanning::{are_printable, find_near_byte};
use crate::words::LineWords;
use lrc_code::text::parse_number;
use lrc_code::{Code, Fragment, Place, Request};
use std::alloc::{AllocError, Global};

/// The request that a line writes, or why the line is refused. Its survivors are read into the memory that was kept.
pub(crate) fn parse_line(
    alloc: Global,
    memory: &mut KeptMemory,
    line: &[u8],
) -> Result<Result<Request, LineRefusal>, AllocError>
    ensures { IfOk result (λ asked. MatchResult asked
        (λ request. (request_of line.now ≡ Some request) × (refusal request ≡ None))
        (λ e. refusal_of line.now ≡ Some e)) }
{
    let Some(parts) = parse_parts(alloc, memory, line)? else {
        return Ok(Err(LineRefusal::BadLine));
    };
    let Parts {
        code,
        stripe,
        target,
        length,
        survivors,
    } = parts;
    match Request::new_in(code, stripe, target, length, survivors) {
        Ok(request) => Ok(Ok(request)),
        Err(fault) => Ok(Err(LineRefusal::Refused(fault))),
    }
}

/// A request as a line writes it, before its refusals are tested.
#[derive(Drop)]
struct Parts {
    code: Code,
    stripe: String,
    target: Place,
    length: u32,
    survivors: Vec<Fragment>,
}

/// The parts of the request that a line writes, where the line has the form of one.
fn parse_parts(
    alloc: Global,
    memory: &mut KeptMemory,
    line: &[u8],
) -> Result<Option<Parts>, AllocError>
    ensures { IfOk result (λ parts. option_map asked_of parts ≡ request_of line.now) }
{
    if !are_printable(line) {
        return Ok(None);
    }
    let mut words = LineWords::new(line);
    let Some(first) = words.next() else {
        return Ok(None);
    };
    let parts = match parse_line_code(first) {
        None => parse_request(alloc, memory, Code::UNNAMED, first, words)?,
        Some(code) => {
            let Some(stripe) = words.next() else {
                return Ok(None);
            };
            parse_request(alloc, memory, code, stripe, words)?
        }
    };
    Ok(parts)
}

/// The code that a line's first word names after `code=`.
fn parse_line_code(word: &[u8]) -> Option<Code>
    ensures { result ≡ line_code word.now }
{
    if word.len() >= 5 && &word[..5] == b"code=".as_slice() {
        return Code::parse(&word[5..]);
    }
    None
}

/// The parts of the request over a code that a stripe's name and the words after it write.
fn parse_request(
    alloc: Global,
    memory: &mut KeptMemory,
    code: Code,
    stripe: &[u8],
    mut words: LineWords<'_>,
) -> Result<Option<Parts>, AllocError>
    requires { list_all is_printable stripe.now ≡ true }
    ensures { IfOk result (λ parts. option_map asked_of parts ≡ request_in code (stripe.now ∷ line_words words.entry.rest.now)) }
{
    let (Some(target), Some(length)) = (words.next(), words.next()) else {
        return Ok(None);
    };
    let (Some(target), Some(length)) = (code.named(target), parse_number(length)) else {
        return Ok(None);
    };
    let Some(survivors) = parse_survivors(alloc, memory, code, words)? else {
        return Ok(None);
    };
    let stripe = copy_text(alloc, stripe)?;
    Ok(Some(Parts {
        code,
        stripe,
        target,
        length,
        survivors,
    }))
}

/// A copy of printable characters.
fn copy_text(alloc: Global, text: &[u8]) -> Result<String, AllocError>
    requires { list_all is_printable text.now ≡ true }
    ensures { IfOk result (λ copy. string_bytes copy ≡ text.now) }
{
    String::from_str(alloc, str::from_utf8(text).unwrap())
}

/// The surviving fragments that words write, where each writes one.
fn parse_survivors(
    alloc: Global,
    memory: &mut KeptMemory,
    code: Code,
    words: LineWords<'_>,
) -> Result<Option<Vec<Fragment>>, AllocError>
    ensures { IfOk result (λ fragments. option_map (λ fs. survivors_of fs.items) fragments
        ≡ every (map (survivor code) (line_words words.entry.rest.now))) }
{
    let mut survivors = memory.take_list(alloc)?;
    for word in words {
        let Some(fragment) = parse_survivor(memory.take_room(alloc), code, word)? else {
            return Ok(None);
        };
        survivors.push(fragment)?;
    }
    Ok(Some(survivors))
}

/// The surviving fragment that a word writes, as in `x1=0F`, whose bytes are put into the memory of `room`.
fn parse_survivor(room: Vec<u8>, code: Code, word: &[u8]) -> Result<Option<Fragment>, AllocError>
    ensures { IfOk result (λ fragment. option_map survivor_of fragment ≡ survivor code word.now) }
{
    let Some(at) = find_near_byte(word, b'=') else {
        return Ok(None);
    };
    let Some(place) = code.named(&word[..at]) else {
        return Ok(None);
    };
    let bytes = decode(room, &word[at + 1..])?;
    Ok(bytes.map(|bytes| Fragment { place, bytes }))
}
