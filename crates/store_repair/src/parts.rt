//! The parts of a file: the data fragments of its stripe.
ghost use Rattle.std.specs.Prelude.{◌≡◌, ◌≤◌, ◌-◌, ◌++◌, ℕ, List, length, map, take, drop, replicate, IfOk, OnOk, Some, option_map};
ghost use Rattle.lrc_code.specs.Codes.{data_count};
ghost use Rattle.store_repair.specs.Files.{fragment_length, part, parts};
ghost use Rattle.stores.specs.Shown.{shown_of};

use lrc_code::Code;
use std::alloc::{AllocError, Global};
use std::io::{self, ErrorKind};
use stores::Fragment;

/// Some bytes of a file from a position on, with 00 after its end.
#[derive(Drop)]
pub(crate) struct FilePart<'s, S> {
    source: &'s S,
    file_bytes: usize,
    from: usize,
    many: usize,
}

impl<'s, S: Fragment> Fragment for FilePart<'s, S> {
    ghost shown = { λ p. option_map (λ file. part (take p.file_bytes file) p.from p.many) (S.shown p.source.now) };

    fn read_at(&self, from: usize, bytes: &mut [u8]) -> io::Result<()> {
        if from > self.many || bytes.len() > self.many - from {
            return Err(io::Error::from(ErrorKind::UnexpectedEof));
        }
        let file_bytes = self.file_bytes;
        let start = self.from.saturating_add(from);
        let there = file_bytes.saturating_sub(start).min(bytes.len());
        read_padded(self.source, start, there, bytes)
    }
}

/// Fills bytes with those of a file from a position on, so many, and 00 after them.
fn read_padded<S: Fragment>(
    source: &S,
    from: usize,
    there: usize,
    bytes: &mut [u8],
) -> io::Result<()>
    requires { there ≤ length bytes.old }
    ensures len { length bytes.new ≡ length bytes.old }
    ensures padded { (file : List ℕ) → S.shown source.now ≡ Some file
        → OnOk result (bytes.new ≡ take there (drop from file) ++ replicate (length bytes.old - there) 0) }
{
    let (own, padding) = bytes.split_at_mut(there);
    source.read_at(from, own)?;
    padding.fill(0);
    Ok(())
}

/// How many bytes each fragment of a file of so many bytes has: enough that the data fragments have room for all of them.
pub fn fragment_length(code: Code, bytes: usize) -> usize
    ensures { result ≡ fragment_length code bytes }
{
    let many = code.data_count();
    bytes / many + if bytes % many == 0 { 0 } else { 1 }
}

/// The parts of a file, as many as a code has data fragments.
pub(crate) fn parts_of<'s, S: Fragment>(
    alloc: Global,
    code: Code,
    source: &'s S,
    file_bytes: usize,
) -> Result<Vec<Option<FilePart<'s, S>>>, AllocError>
    ensures many { IfOk result (λ v. length v.items ≡ data_count code) }
    ensures parts { (file : List ℕ) → S.shown source.now ≡ Some file → length file ≡ file_bytes
        → IfOk result (λ v. map (shown_of ⟦<FilePart<'s, S> as Fragment>⟧.shown) v.items
        ≡ map Some (parts code (fragment_length code file_bytes) file)) }
{
    let many = fragment_length(code, file_bytes);
    let mut parts = Vec::with_capacity(alloc, code.data_count())?;
    for index in 0..code.data_count() {
        parts.push(Some(FilePart {
            source,
            file_bytes,
            from: index.saturating_mul(many),
            many,
        }))?;
    }
    Ok(parts)
}
