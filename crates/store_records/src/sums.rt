//! Sums: the SHA-256 digests of files, listed by names as `sha256sum` writes them. Lines end in a line feed, also after a carriage return.
//! Empty lines and those that begin with `#` say nothing.
ghost use Rattle.std.specs.Prelude.{◌≡◌, ◌++◌, ◌⊎◌, IfErr, IfOk, ℕ, List, None, OnErr, OnOk, Some, if◌then◌else◌, is_some};
ghost use Rattle.std.specs.Prelude.{option_copied, option_map};
ghost use Rattle.std.specs.List.{list_any};
ghost use Rattle.std.specs.Str.{bytes_eq};
ghost use Rattle.store_records.specs.ReadLines.{digest_with, fault_by, fault_of, is_separator, said_after, said_by, said_in};
ghost use Rattle.store_records.specs.ReadLines.{stands_for, unescaped, without_dot, without_return};
ghost use Rattle.store_records.specs.SumLines.{escaped_byte, is_escaped, sum_line, sum_lines};
ghost use Rattle.store_records.specs.Sums.{digest_in};

use crate::digits::digits_of;
use hex::FromHex;
use std::alloc::{AllocError, AllocFailed, Global};
use std::collections::BTreeMap;
use std::str;
use thiserror::Error;

/// How many bytes are before a name: 64 digits, and two spaces or a space and a star.
const BEFORE_NAME: usize = 66;

/// The digests of files, by their names. A name is without the `./` that may be before it in a file.
#[derive(Drop)]
pub struct Sums {
    digests: BTreeMap<Vec<u8>, [u8; 32]>,
}

/// Why a line of sums can't be taken.
#[derive(Debug, Drop, Error)]
pub enum LineFault {
    #[error("out of memory")]
    OutOfMemory,
    /// The line of this number, from 1 on, has another form.
    #[error("line {line} isn't as sha256sum writes it: 64 digits, two spaces or ' *', a name")]
    NotASum { line: u64 },
    /// The line of this number names a file of which an earlier line has another digest.
    #[error("line {line} has another digest of a file than an earlier line")]
    Contradicts { line: u64 },
}

impl From<AllocError> for LineFault {
    ghost use Rattle.store_records.specs.declared.sums.LineFault.TheVariants.{OutOfMemory};

    ghost from_gives = { λ _ fault. fault ≡ OutOfMemory };

    fn from(_error: AllocError) -> LineFault {
        LineFault::OutOfMemory
    }
}

impl<T: Drop> From<AllocFailed<T>> for LineFault {
    ghost use Rattle.store_records.specs.declared.sums.LineFault.TheVariants.{OutOfMemory};

    ghost from_gives = { λ _ fault. fault ≡ OutOfMemory };

    fn from(_failed: AllocFailed<T>) -> LineFault {
        LineFault::OutOfMemory
    }
}

/// What a line says.
#[derive(Drop)]
struct Sum {
    name: Vec<u8>,
    digest: [u8; 32],
}

impl Sums {
    /// No sums.
    pub fn new(alloc: Global) -> Sums
        ensures { (name : List ℕ) → digest_in result name ≡ None }
    {
        Sums {
            digests: BTreeMap::new(alloc),
        }
    }

    /// The digest of the file of a name, where there is one.
    pub fn digest_of(&self, name: &str) -> Option<&[u8; 32]>
        ensures { option_copied result ≡ digest_in self.now name.now }
    {
        self.digests.get(name.as_bytes())
    }

    /// The names that are UTF-8, in their order.
    pub fn names(&self, alloc: Global) -> Result<Vec<&str>, AllocError> {
        let mut names = Vec::new(alloc);
        for name in self.digests.keys() {
            if let Ok(name) = str::from_utf8(name.as_slice()) {
                names.push(name)?;
            }
        }
        Ok(names)
    }

    /// Sets the digest of the file of a name.
    pub fn set(&mut self, alloc: Global, name: &str, digest: [u8; 32]) -> Result<(), AllocError>
        ensures { OnOk result ((other : List ℕ) → digest_in self.new other
            ≡ (if bytes_eq name.now other then Some digest else digest_in self.old other)) }
    {
        self.digests
            .insert(Vec::from_slice(alloc, name.as_bytes())?, digest)?;
        Ok(())
    }

    /// Takes the digest of the file of a name out, and says whether there was one.
    pub fn remove(&mut self, name: &str) -> bool
        ensures had { result ≡ is_some (digest_in self.old name.now) }
        ensures others { (other : List ℕ) → digest_in self.new other
            ≡ (if bytes_eq name.now other then None else digest_in self.old other) }
    {
        self.digests.remove(name.as_bytes()).is_some()
    }

    /// The lines as `sha256sum` writes them, in the order of the names.
    pub fn text(&self, alloc: Global) -> Result<Vec<u8>, AllocError>
        ensures { IfOk result (λ text. text.items ≡ sum_lines self.now) }
    {
        let mut text = Vec::new(alloc);
        for (name, digest) in self.digests.iter() {
            append_line(alloc, name.as_slice(), digest, &mut text)?;
        }
        Ok(text)
    }

    /// Takes what the line of a number says, without its line feed.
    pub fn read_line(&mut self, alloc: Global, line: &[u8], number: u64) -> Result<(), LineFault>
        ensures taken { OnOk result (fault_of self.old number line.now ≡ None) }
        ensures refused { IfErr result (λ fault. (fault ≡ LineFault.OutOfMemory)
            ⊎ (fault_of self.old number line.now ≡ Some fault)) }
        ensures said { OnOk result ((name : List ℕ) → digest_in self.new name
            ≡ digest_with self.old (said_in line.now) name) }
        ensures unchanged { OnErr result ((name : List ℕ) → digest_in self.new name ≡ digest_in self.old name) }
    {
        let line = without_return(line);
        if line.is_empty() || line.starts_with(b"#".as_slice()) {
            return Ok(());
        }
        match sum_of(alloc, line)? {
            Some(sum) => self.take(sum, number),
            None => Err(LineFault::NotASum { line: number }),
        }
    }

    /// Takes what the line of a number says of a file.
    fn take(&mut self, sum: Sum, number: u64) -> Result<(), LineFault>
        ensures taken { OnOk result (fault_by self.old number (Some (sum.name.items, sum.digest)) ≡ None) }
        ensures refused { IfErr result (λ fault. (fault ≡ LineFault.OutOfMemory)
            ⊎ (fault_by self.old number (Some (sum.name.items, sum.digest)) ≡ Some fault)) }
        ensures said { OnOk result ((name : List ℕ) → digest_in self.new name
            ≡ digest_with self.old (Some (sum.name.items, sum.digest)) name) }
        ensures unchanged { OnErr result ((name : List ℕ) → digest_in self.new name ≡ digest_in self.old name) }
    {
        let digest = sum.digest;
        if let Some(earlier) = self.digests.get(sum.name.as_slice()) {
            if *earlier != digest {
                return Err(LineFault::Contradicts { line: number });
            }
            return Ok(());
        }
        self.digests.insert(sum.name, digest)?;
        Ok(())
    }
}

/// A line without the carriage return that may be at its end.
fn without_return(line: &[u8]) -> &[u8]
    ensures { result.now ≡ without_return line.now }
{
    line.strip_suffix(b"\r".as_slice()).unwrap_or(line)
}

/// What a line says, if it has the form.
fn sum_of(alloc: Global, line: &[u8]) -> Result<Option<Sum>, AllocError>
    ensures { IfOk result (λ sum. option_map (λ s. (s.name.items, s.digest)) sum ≡ said_by line.now) }
{
    match line.strip_prefix(b"\\".as_slice()) {
        Some(rest) => sum_after(alloc, true, rest),
        None => sum_after(alloc, false, line),
    }
}

/// What a line says, if it has the form, without the backslash that says that its name is escaped.
fn sum_after(alloc: Global, is_escaped: bool, line: &[u8]) -> Result<Option<Sum>, AllocError>
    ensures { IfOk result (λ sum. option_map (λ s. (s.name.items, s.digest)) sum ≡ said_after is_escaped line.now) }
{
    if line.len() <= BEFORE_NAME {
        return Ok(None);
    }
    let (before, name) = line.split_at(BEFORE_NAME);
    let (digits, separator) = before.split_at(64);
    if !is_separator(separator) {
        return Ok(None);
    }
    let Ok(digest) = <[u8; 32] as FromHex>::from_hex(digits) else {
        return Ok(None);
    };
    match name_of(alloc, is_escaped, without_dot(name))? {
        Some(name) => Ok(Some(Sum { name, digest })),
        None => Ok(None),
    }
}

/// Whether bytes may be between the digits and the name.
fn is_separator(bytes: &[u8]) -> bool
    ensures { result ≡ is_separator bytes.now }
{
    bytes == b"  ".as_slice() || bytes == b" *".as_slice()
}

/// A text without the `./` that may be before it.
fn without_dot(text: &[u8]) -> &[u8]
    ensures { result.now ≡ without_dot text.now }
{
    text.strip_prefix(b"./".as_slice()).unwrap_or(text)
}

/// The name that a text stands for, which is escaped or not.
fn name_of(alloc: Global, is_escaped: bool, text: &[u8]) -> Result<Option<Vec<u8>>, AllocError>
    ensures { IfOk result (λ name. option_map (λ n. n.items) name
        ≡ (if is_escaped then unescaped text.now else Some text.now)) }
{
    if is_escaped {
        return unescaped(alloc, text);
    }
    Ok(Some(Vec::from_slice(alloc, text)?))
}

/// A name whose backslashes, line feeds and carriage returns are written as `\\`, `\n` and `\r`; none where something else is after a
/// backslash.
fn unescaped(alloc: Global, text: &[u8]) -> Result<Option<Vec<u8>>, AllocError>
    ensures { IfOk result (λ name. option_map (λ n. n.items) name ≡ unescaped text.now) }
{
    let mut name = Vec::new(alloc);
    let mut is_after_backslash = false;
    for byte in text {
        if is_after_backslash {
            let Some(meant) = stands_for(*byte) else {
                return Ok(None);
            };
            name.push(meant)?;
            is_after_backslash = false;
        } else if *byte == b'\\' {
            is_after_backslash = true;
        } else {
            name.push(*byte)?;
        }
    }
    if is_after_backslash {
        return Ok(None);
    }
    Ok(Some(name))
}

/// The byte that a byte after a backslash stands for.
fn stands_for(byte: u8) -> Option<u8>
    ensures { result ≡ stands_for byte }
{
    match byte {
        b'\\' => Some(b'\\'),
        b'n' => Some(b'\n'),
        b'r' => Some(b'\r'),
        _ => None,
    }
}

/// Appends the line of a file.
fn append_line(
    alloc: Global,
    name: &[u8],
    digest: &[u8; 32],
    text: &mut Vec<u8>,
) -> Result<(), AllocError>
    ensures { OnOk result (text.new.items ≡ text.old.items ++ sum_line name.now digest.now) }
{
    if has_escaped(name) {
        text.push(b'\\')?;
    }
    text.extend_from_slice(digits_of(alloc, digest)?.as_bytes())?;
    text.extend_from_slice(b"  ".as_slice())?;
    for byte in name {
        append_escaped(*byte, text)?;
    }
    text.push(b'\n')?;
    Ok(())
}

/// Whether a line has something of a name in another form.
fn has_escaped(name: &[u8]) -> bool
    ensures { result ≡ list_any is_escaped name.now }
{
    name.iter()
        .any(|byte| *byte == b'\\' || *byte == b'\n' || *byte == b'\r')
}

/// Appends a byte of a name as an escaped name has it.
fn append_escaped(byte: u8, text: &mut Vec<u8>) -> Result<(), AllocError>
    ensures { OnOk result (text.new.items ≡ text.old.items ++ escaped_byte byte) }
{
    match byte {
        b'\\' => text.extend_from_slice(b"\\\\".as_slice())?,
        b'\n' => text.extend_from_slice(b"\\n".as_slice())?,
        b'\r' => text.extend_from_slice(b"\\r".as_slice())?,
        other => text.push(other)?,
    }
    Ok(())
}
