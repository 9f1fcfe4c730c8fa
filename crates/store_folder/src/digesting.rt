//! SHA-256 digests of fragments that are there.
ghost use Rattle.std.specs.Prelude.{◌≡◌, ◌≤◌, ◌*◌, IfSome, IsSome, OnErr, length};
ghost use Rattle.sha256_lanes.specs.Lanes.{AreOfOneLength, message};

use sha2::{Digest as _, Sha256};
use sha256_lanes::HasherOfEight;
use std::alloc::{AllocError, Global};
use std::io;
use store_records::Digest;
use stores::Fragment;

/// How many bytes of a file are read at once: whole blocks of SHA-256.
const BLOCK: usize = 262_144;

/// How many fragments are digested side by side.
const LANES: usize = 8;

/// Of fewer each is digested by itself, which takes less time.
const LEAST_TOGETHER: usize = 3;

/// The digest of a fragment of so many bytes.
pub fn digest_of<F: Fragment>(alloc: Global, fragment: &F, length: usize) -> io::Result<Digest> {
    let mut block = Vec::from_elem(alloc, 0u8, length.min(BLOCK))?;
    let mut digest = Sha256::new();
    let mut from = 0;
    'reads: while from < length {
        let size = (length - from).min(BLOCK);
        let bytes = block.slice_mut(..size);
        fragment.read_at(from, bytes)?;
        digest.update(&*bytes);
        from += size;
    }
    Ok(digest.finalize())
}

/// The digests of fragments of so many bytes each, by their indexes, or why one can't be read; none where there is no fragment. Each eight
/// neighbours are digested side by side, which takes the time of two.
pub fn digests_of<F: Fragment>(
    alloc: Global,
    fragments: &[Option<&F>],
    length: usize,
) -> Result<Vec<Option<io::Result<Digest>>>, AllocError> {
    let mut found = Vec::with_capacity(alloc, fragments.len())?;
    for some in fragments.chunks(LANES) {
        if some.iter().flatten().count() < LEAST_TOGETHER {
            for fragment in some {
                found.push(match fragment {
                    Some(fragment) => Some(digest_of(alloc, *fragment, length)),
                    None => None,
                })?;
            }
        } else {
            add_together(alloc, some, length, &mut found)?;
        }
    }
    Ok(found)
}

/// Adds the digests of at most eight fragments, which are read by turns and digested side by side.
fn add_together<F: Fragment>(
    alloc: Global,
    fragments: &[Option<&F>],
    length: usize,
    found: &mut Vec<Option<io::Result<Digest>>>,
) -> Result<(), AllocError> {
    let mut room = Vec::from_elem(alloc, 0u8, LANES * length.min(BLOCK))?;
    let mut reads = Vec::with_capacity(alloc, fragments.len())?;
    for fragment in fragments {
        reads.push(fragment.map(|_| Ok(())))?;
    }
    let mut hasher = HasherOfEight::new();
    let mut left = length;
    'blocks: while left > BLOCK {
        read_eight(
            fragments,
            length - left,
            room.as_mut_slice(),
            BLOCK,
            reads.as_mut_slice(),
        );
        hasher.update(&eight_parts(room.as_slice(), BLOCK));
        left -= BLOCK;
    }
    read_eight(
        fragments,
        length - left,
        room.as_mut_slice(),
        left,
        reads.as_mut_slice(),
    );
    let digests = hasher.finalize(&eight_parts(room.as_slice(), left));
    for (read, digest) in reads.into_iter().zip(digests) {
        found.push(read.map(|done| done.map(|()| digest)))?;
    }
    Ok(())
}

/// Reads so many bytes of each of at most eight fragments from a position on, each into its part of the room.
fn read_eight<F: Fragment>(
    fragments: &[Option<&F>],
    from: usize,
    room: &mut [u8],
    size: usize,
    reads: &mut [Option<io::Result<()>>],
)
    requires reads { length reads.old ≡ length fragments.now }
    requires room { 8 * size ≤ length room.old }
    ensures room { length room.new ≡ length room.old }
    ensures reads { length reads.new ≡ length reads.old }
{
    for index in 0..LANES {
        let start = index * size;
        read_one(
            fragments,
            index,
            from,
            &mut room[start..start + size],
            reads,
        );
    }
}

/// Reads bytes of the fragment at an index from a position on, if there is one of which no read failed before.
fn read_one<F: Fragment>(
    fragments: &[Option<&F>],
    index: usize,
    from: usize,
    bytes: &mut [u8],
    reads: &mut [Option<io::Result<()>>],
)
    requires { length reads.old ≡ length fragments.now }
    ensures { length reads.new ≡ length reads.old }
{
    if index >= fragments.len() {
        return;
    }
    let is_read = matches!(&reads[index], Some(Ok(())));
    if let Some(fragment) = fragments[index] {
        if is_read {
            reads[index] = Some(fragment.read_at(from, bytes));
        }
    }
}

/// The eight parts of a room that have so many bytes each.
fn eight_parts(room: &[u8], size: usize) -> [&[u8]; 8]
    requires { 8 * size ≤ length room.now }
    ensures one { AreOfOneLength result }
    ensures size { length (message result 0) ≡ size }
{
    [
        &room[..size],
        &room[size..2 * size],
        &room[2 * size..3 * size],
        &room[3 * size..4 * size],
        &room[4 * size..5 * size],
        &room[5 * size..6 * size],
        &room[6 * size..7 * size],
        &room[7 * size..8 * size],
    ]
}

/// Why a fragment isn't used, by its digest and the one that it has to have: one that couldn't be read isn't.
pub(crate) fn refusal_of(
    digest: Option<io::Result<Digest>>,
    sum: &Option<Digest>,
) -> Option<io::Error>
    ensures { IfSome digest (λ read. OnErr read (IsSome result)) }
{
    match (digest, sum) {
        (Some(Ok(digest)), Some(sum)) if digest != *sum => {
            Some(io::Error::from(io::ErrorKind::InvalidData))
        }
        (Some(Err(error)), _) => Some(error),
        _ => None,
    }
}
