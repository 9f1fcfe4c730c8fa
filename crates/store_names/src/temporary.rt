//! The names of files that runs keep to themselves: those that aren't whole yet, and the locks of parts.
ghost use Rattle.std.specs.Prelude.{◌≡◌, ◌↔◌, ◌<◌, ◌++◌, ◌∷◌, [], IfOk, IsTrue, MatchOption, List, ℕ, codes, length, string_bytes, true};
ghost use Rattle.std.specs.List.{list_all, starts_with};
ghost use Rattle.std.specs.Char.{is_ascii_digit};
ghost use Rattle.std.specs.Fmt.{decimal};
ghost use Rattle.std.proofs.Math.Dec.{eqb};
ghost use Rattle.store_names.specs.RunFiles.{IsBeforeRun, IsLeftBy, IsLock, IsOfRuns, IsOfUnfinished, IsOwn, IsPart, IsRun, IsRunIn};
ghost use Rattle.store_names.specs.RunFiles.{IsLockText, IsTag, SaysRun, is_zero};
ghost use Rattle.store_names.specs.RunFiles.{is_host, is_number, is_of_host, is_random, kept, lock_of, run_named, tag_of};
ghost use Rattle.store_names.specs.Texts.{lacks};
ghost use Rattle.store_names.specs.Temporary.{ends_in_digits, is_digit, is_free, is_unfinished};

use crate::texts::{after, around_first, around_last, until};
use std::alloc::{AllocError, Global};

/// How the name of a file begins that isn't whole yet.
pub const UNFINISHED: &str = ".rebuild-store-";

/// What follows in the name of the lock of a part, before its number, and before the number of parts.
const PART: &str = "part-";

const OF: &str = "of-";

/// How many digits at random end the name of an unfinished file.
pub const RANDOM_DIGITS: usize = 16;

/// How many letters of a host's name are kept: as many as Linux lets it have.
const MOST_OF_HOST: usize = 64;

/// Whether a byte is a hexadecimal digit in small letters.
fn is_digit(byte: u8) -> bool
    ensures { result ≡ is_digit byte }
{
    (b'0' <= byte && byte <= b'9') || (b'a' <= byte && byte <= b'f')
}

/// Whether all of these bytes are such digits.
fn are_digits(text: &[u8]) -> bool
    ensures { result ≡ list_all is_digit text.now }
{
    text.iter().all(|byte| is_digit(*byte))
}

/// Whether a name ends in as many digits as an unfinished file has.
fn ends_in_digits(name: &[u8]) -> bool
    ensures { result ≡ ends_in_digits name.now }
{
    if name.len() < RANDOM_DIGITS {
        return false;
    }
    are_digits(&name[name.len() - RANDOM_DIGITS..])
}

/// Whether a name begins as those of unfinished files do.
fn begins_as_unfinished(name: &str) -> bool
    ensures { result ≡ starts_with eqb name.now (codes ".rebuild-store-") }
{
    name.starts_with(UNFINISHED)
}

/// Whether a name is such as unfinished files have, whichever part the run worked on: it begins with `.rebuild-store-` and ends in sixteen
/// digits. No fragment has it.
pub fn is_unfinished(name: &str) -> bool
    ensures { result ≡ is_unfinished name.now }
{
    begins_as_unfinished(name) && ends_in_digits(name.as_bytes())
}

/// Whether no part of a path is such a name.
pub fn is_free(path: &str) -> bool
    ensures { result ≡ is_free path.now }
{
    path.split('/').all(|part| !is_unfinished(part))
}

/// Whether a name has exactly the form of an unfinished file's: `.rebuild-store-`, then `I-N-` if the run worked on part I of N, then
/// `PROCESS@HOST-` if the name says which run that was, then sixteen digits at random.
fn is_of_unfinished(name: &str) -> bool
    ensures { IsTrue result ↔ IsOfUnfinished name.now }
{
    let Some(rest) = after(name, UNFINISHED) else {
        return false;
    };
    match around_last(rest, '-') {
        Some((before, digits)) => is_random(digits) && is_tag(before),
        None => is_random(rest),
    }
}

/// Whether a text is what the name of an unfinished file has before its digits.
fn is_tag(text: &str) -> bool
    ensures { IsTrue result ↔ IsTag text.now }
{
    match run_in(text) {
        Some((before, run)) => may_be_before(before) && is_run(run),
        None => is_part(text, ""),
    }
}

/// Whether a text may be before the run that such a text says.
fn may_be_before(text: &str) -> bool
    ensures { IsTrue result ↔ IsBeforeRun text.now }
{
    text.is_empty() || is_part(text, "")
}

/// The part and the run that such a text says, if it says a run.
fn run_in(text: &str) -> Option<(&str, &str)>
    ensures { MatchOption result (lacks 64 text.now ≡ true) (λ parts. IsRunIn text.now parts.0.now parts.1.now) }
{
    let (left, _) = around_first(text, '@')?;
    match around_last(left, '-') {
        Some((part, _)) => Some((part, after(after(text, part)?, "-")?)),
        None => Some(("", text)),
    }
}

/// The run that made an unfinished file, as `PROCESS@HOST`, if the name says it.
pub fn run_of(name: &str) -> Option<&str>
    ensures { MatchOption result ((run : List ℕ) → ¬ SaysRun name.now run) (λ run. SaysRun name.now run.now) }
{
    let Some(rest) = after(name, UNFINISHED) else {
        return None;
    };
    let Some((before, digits)) = around_last(rest, '-') else {
        return None;
    };
    let Some((_, run)) = run_in(before) else {
        return None;
    };
    if !is_random(digits) {
        return None;
    }
    if is_run(run) { Some(run) } else { None }
}

/// Whether a text says a run: the number of its process, `@`, and its host, of at most 64 letters, digits, `.`, `-` and `_`.
pub fn is_run(text: &str) -> bool
    ensures { IsTrue result ↔ IsRun text.now }
{
    match around_first(text, '@') {
        Some((process, host)) => is_number(process) && is_host(host.as_bytes()),
        None => false,
    }
}

/// Whether a text is a host's name as runs say it.
fn is_host(text: &[u8]) -> bool
    ensures { result ≡ is_host text.now }
{
    0 < text.len() && text.len() <= MOST_OF_HOST && are_of_host(text)
}

/// Whether each of these bytes is a letter of a host's name that is kept as it is.
fn are_of_host(text: &[u8]) -> bool
    ensures { result ≡ list_all is_of_host text.now }
{
    text.iter().all(|byte| is_of_host(char::from(*byte)))
}

/// A run as the names of its files say it: the number of its process, and its host, of whose name other signs than those are `_`.
pub fn run_named(alloc: Global, process: &str, host: &str) -> Result<String, AllocError>
    ensures is { IfOk result (λ run. string_bytes run ≡ run_named process.now host.now) }
    ensures taken { is_number process.now ≡ true → 0 < length host.now → IfOk result (λ run. IsRun (string_bytes run)) }
{
    let mut run = String::from_str(alloc, process)?;
    run.push('@')?;
    for letter in host.chars().take(MOST_OF_HOST) {
        run.push(kept(letter))?;
    }
    Ok(run)
}

/// What a letter of a host's name is in the name of a run.
fn kept(letter: char) -> char
    ensures { result ≡ kept letter }
{
    if is_of_host(letter) { letter } else { '_' }
}

/// Whether a letter of a host's name is kept as it is.
fn is_of_host(letter: char) -> bool
    ensures { result ≡ is_of_host letter }
{
    letter.is_ascii_alphanumeric() || letter == '.' || letter == '-' || letter == '_'
}

/// Whether a name is one that runs give to files of their own: that of an unfinished file, or of the lock of a part.
pub fn is_of_runs(name: &str) -> bool
    ensures { IsTrue result ↔ IsOfRuns name.now }
{
    is_of_unfinished(name) || is_lock(name)
}

/// Whether a name is one that a run with this tag may have left: with a tag, that of an unfinished file of its own; without one, any that
/// runs give.
pub fn is_left_by(name: &str, tag: &str) -> bool
    ensures { IsTrue result ↔ IsLeftBy tag.now name.now }
{
    if tag.is_empty() {
        return is_of_runs(name);
    }
    let Some(rest) = after(name, UNFINISHED) else {
        return false;
    };
    match after(rest, tag) {
        Some(own) => is_own(own),
        None => false,
    }
}

/// Whether a text is what follows the tag in the name of an unfinished file.
fn is_own(text: &str) -> bool
    ensures { IsTrue result ↔ IsOwn text.now }
{
    match around_last(text, '-') {
        Some((run, digits)) => is_random(digits) && is_run(run),
        None => is_random(text),
    }
}

/// Whether the file of a lock can have a text: a line that says a run, or no bytes, or zeros alone, as a power failure leaves them in place
/// of a line that wasn't on the disk yet.
pub fn is_lock_text(text: &str) -> bool
    ensures { IsTrue result ↔ IsLockText text.now }
{
    match until(text, "\n") {
        Some(run) => is_run(run),
        None => are_zeros(text.as_bytes()),
    }
}

/// Whether bytes are zeros alone.
fn are_zeros(bytes: &[u8]) -> bool
    ensures { result ≡ list_all is_zero bytes.now }
{
    bytes.iter().all(
        |byte|
            ensures { result ≡ is_zero byte.now }
        { *byte == 0 },
    )
}

/// The name of the lock of part I of N.
pub fn lock_name(alloc: Global, index: u64, of: u64) -> Result<String, AllocError>
    ensures is { IfOk result (λ name. string_bytes name ≡ lock_of index of) }
    ensures taken { 0 < index → 0 < of → IfOk result (λ name. IsLock (string_bytes name)) }
{
    format!(in alloc; "{UNFINISHED}{PART}{index}-{OF}{of}")
}

/// What the names of unfinished files of part I of N have before the run, or before their digits.
pub fn tag_of_part(alloc: Global, index: u64, of: u64) -> Result<String, AllocError>
    ensures { IfOk result (λ tag. string_bytes tag ≡ tag_of index of) }
{
    format!(in alloc; "{index}-{of}-")
}

/// Whether a name is that of the lock of a part.
fn is_lock(name: &str) -> bool
    ensures { IsTrue result ↔ IsLock name.now }
{
    let Some(rest) = after(name, UNFINISHED) else {
        return false;
    };
    match after(rest, PART) {
        Some(part) => is_part(part, OF),
        None => false,
    }
}

/// Whether a text is two numbers, with `-` and a text between.
fn is_part(text: &str, between: &str) -> bool
    ensures { IsTrue result ↔ IsPart between.now text.now }
{
    let Some((index, rest)) = around_first(text, '-') else {
        return false;
    };
    match after(rest, between) {
        Some(of) => is_number(index) && is_number(of),
        None => false,
    }
}

/// Whether a text is a number from 1 on, without zeros before it.
fn is_number(text: &str) -> bool
    ensures { result ≡ is_number text.now }
{
    let bytes = text.as_bytes();
    0 < bytes.len() && bytes[0] != b'0' && are_decimal(bytes)
}

/// Whether each of these bytes is a decimal digit.
fn are_decimal(text: &[u8]) -> bool
    ensures { result ≡ list_all is_ascii_digit text.now }
{
    text.iter().all(|byte| byte.is_ascii_digit())
}

/// Whether a text is the digits at random of an unfinished file.
fn is_random(text: &str) -> bool
    ensures { result ≡ is_random text.now }
{
    text.len() == RANDOM_DIGITS && are_digits(text.as_bytes())
}
