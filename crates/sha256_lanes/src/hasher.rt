//! Eight messages of one length, from their pieces to their digests.

ghost use Rattle.std.specs.Prelude.{◌≡◌, ℕ, ◌%◌, ◌<◌, List, [], ◌++◌, length, map, slice_index_or};
ghost use Rattle.sha2.specs.Sha256.{final_hash, initial_hash_256, sha256};
ghost use Rattle.sha256_lanes.specs.Lanes.{AreOfOneLength, lane, message};
ghost use Rattle.sha256_lanes.specs.Hashers.{HasTaken, state_of};

use crate::digest::{Digest, absorb, digest, initial_state, whole_blocks};
use crate::tail::{tail, tail_blocks};
use std::simd::u32x8;

/// The SHA-256 of eight messages of one length that come in pieces. Nothing is kept of a piece but the hash values after it, so each
/// piece but the last is of whole blocks.
///
/// ```
/// use sha256_lanes::HasherOfEight;
///
/// let mut hasher = HasherOfEight::new();
/// let block = [0x61; 64];
/// hasher.update(&[&block, &block, &block, &block, &block, &block, &block, &block]);
/// let digests = hasher.finalize(&[b"a", b"b", b"c", b"d", b"e", b"f", b"g", b"h"]);
/// ```
#[derive(Clone, Copy, Debug)]
pub struct HasherOfEight {
    /// The words of the hash values.
    h0: u32x8,
    h1: u32x8,
    h2: u32x8,
    h3: u32x8,
    h4: u32x8,
    h5: u32x8,
    h6: u32x8,
    h7: u32x8,
    /// How many bytes of each message were taken in, modulo 2^64.
    taken: u64,
}

impl HasherOfEight {
    /// The hasher before the first piece.
    pub fn new() -> HasherOfEight
        ensures { HasTaken result (λ _. []) }
    {
        HasherOfEight::of(initial_state(), 0)
    }

    /// The hasher of these hash values, after so many bytes.
    fn of(state: [u32x8; 8], taken: u64) -> HasherOfEight
        ensures state { state_of result ≡ state }
        ensures taken { result.taken ≡ taken }
    {
        let [h0, h1, h2, h3, h4, h5, h6, h7] = state;
        HasherOfEight {
            h0,
            h1,
            h2,
            h3,
            h4,
            h5,
            h6,
            h7,
            taken,
        }
    }

    /// The hash values.
    fn state(self) -> [u32x8; 8]
        ensures { result ≡ state_of self }
    {
        [
            self.h0, self.h1, self.h2, self.h3, self.h4, self.h5, self.h6, self.h7,
        ]
    }

    /// Takes in the next piece of each message: eight pieces of one length, a multiple of 64 bytes.
    pub fn update(&mut self, pieces: &[&[u8]; 8])
        requires length { AreOfOneLength pieces.now }
        requires blocks { length (message pieces.now 0) % 64 ≡ 0 }
        ensures { (m : ℕ → List ℕ) → HasTaken self.old m → HasTaken self.new (λ l. m l ++ message pieces.now l) }
    {
        let count = whole_blocks(pieces[0]);
        let taken = self.taken.wrapping_add(pieces[0].len() as u64);
        let mut state = self.state();
        absorb(&mut state, pieces, count);
        *self = HasherOfEight::of(state, taken);
    }

    /// The digests of the messages that end with these pieces, eight of any one length: 32 bytes each, the first byte of the hash value
    /// first.
    pub fn finalize(self, ends: &[&[u8]; 8]) -> [Digest; 8]
        requires { AreOfOneLength ends.now }
        ensures many { length result ≡ 8 }
        ensures digests { (m : ℕ → List ℕ) → HasTaken self m → (l : ℕ) → l < 8
            → slice_index_or result l [] ≡ sha256 (m l ++ message ends.now l) }
    {
        let state = hash_values(self, ends);
        [
            digest(&state, 0),
            digest(&state, 1),
            digest(&state, 2),
            digest(&state, 3),
            digest(&state, 4),
            digest(&state, 5),
            digest(&state, 6),
            digest(&state, 7),
        ]
    }
}

/// The hash value of each message after its end and its padding.
fn hash_values(hasher: HasherOfEight, ends: &[&[u8]; 8]) -> [u32x8; 8]
    requires { AreOfOneLength ends.now }
    ensures { (m : ℕ → List ℕ) → HasTaken hasher m → (l : ℕ) → l < 8
        → lane l result ≡ final_hash initial_hash_256 (m l ++ message ends.now l) }
{
    let before = hasher.taken;
    let whole = whole_blocks(ends[0]);
    let rest = tail_blocks(ends[0].len());
    let tails = [
        tail(ends[0], before),
        tail(ends[1], before),
        tail(ends[2], before),
        tail(ends[3], before),
        tail(ends[4], before),
        tail(ends[5], before),
        tail(ends[6], before),
        tail(ends[7], before),
    ];
    let mut state = hasher.state();
    absorb(&mut state, ends, whole);
    absorb(
        &mut state,
        &[
            &tails[0], &tails[1], &tails[2], &tails[3], &tails[4], &tails[5], &tails[6], &tails[7],
        ],
        rest,
    );
    state
}

/// The SHA-256 digests (FIPS 180-4) of eight messages of one length, in their order: 32 bytes each, the first byte of the hash
/// value first. The length is any; messages of several lengths are for `digests`.
pub fn digests_of_eight(messages: &[&[u8]; 8]) -> [Digest; 8]
    requires { AreOfOneLength messages.now }
    ensures { result ≡ map (λ m. sha256 m.now) messages.now }
{
    HasherOfEight::new().finalize(messages)
}
