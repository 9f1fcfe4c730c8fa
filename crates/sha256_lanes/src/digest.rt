//! The hash values of eight messages, from the first one to the digests.

ghost use Rattle.std.specs.Prelude.{◌≡◌, ◌↔◌, IsTrue, ℕ, ◌*◌, ◌/◌, ◌^◌, ◌<◌, ◌≤◌, length};
ghost use Rattle.sha2.specs.Sha256.{digest_bytes, hash_after, initial_hash_256};
ghost use Rattle.sha256_lanes.specs.Lanes.{AreOfOneLength, lane, message};

use crate::block::compress;
use crate::consts::INITIAL_HASH;
use std::simd::u32x8;

/// A SHA-256 digest.
pub type Digest = [u8; 32];

/// The hash values before the first block.
pub(crate) fn initial_state() -> [u32x8; 8]
    ensures { (l : ℕ) → l < 8 → lane l result ≡ initial_hash_256 }
{
    [
        u32x8::splat(INITIAL_HASH[0]),
        u32x8::splat(INITIAL_HASH[1]),
        u32x8::splat(INITIAL_HASH[2]),
        u32x8::splat(INITIAL_HASH[3]),
        u32x8::splat(INITIAL_HASH[4]),
        u32x8::splat(INITIAL_HASH[5]),
        u32x8::splat(INITIAL_HASH[6]),
        u32x8::splat(INITIAL_HASH[7]),
    ]
}

/// Takes the first `count` blocks of each message into that message's hash value.
pub(crate) fn absorb(state: &mut [u32x8; 8], messages: &[&[u8]; 8], count: usize)
    requires room { (l : ℕ) → l < 8 → 64 * count ≤ length (message messages.now l) }
    requires end { 64 * count < 2 ^ 64 }
    ensures { (l : ℕ) → l < 8
        → lane l state.new ≡ hash_after (lane l state.old) (message messages.now l) count }
{
    'blocks: for i in 0..count {
        compress(state, messages, 64 * i);
    }
}

/// How many whole blocks a message has.
pub(crate) fn whole_blocks(message: &[u8]) -> usize
    ensures count { result ≡ length message.now / 64 }
    ensures end { 64 * result < 2 ^ 64 }
{
    message.len() / 64
}

/// The hash value of message `l`.
fn hash_value(state: &[u32x8; 8], l: usize) -> [u32; 8]
    requires { l < 8 }
    ensures { result ≡ lane l state.now }
{
    [
        state[0].to_array()[l],
        state[1].to_array()[l],
        state[2].to_array()[l],
        state[3].to_array()[l],
        state[4].to_array()[l],
        state[5].to_array()[l],
        state[6].to_array()[l],
        state[7].to_array()[l],
    ]
}

/// A hash value as bytes, high first.
fn bytes_of(h: [u32; 8]) -> Digest
    ensures { result ≡ digest_bytes h 8 }
{
    let [a0, a1, a2, a3] = h[0].to_be_bytes();
    let [b0, b1, b2, b3] = h[1].to_be_bytes();
    let [c0, c1, c2, c3] = h[2].to_be_bytes();
    let [d0, d1, d2, d3] = h[3].to_be_bytes();
    let [e0, e1, e2, e3] = h[4].to_be_bytes();
    let [f0, f1, f2, f3] = h[5].to_be_bytes();
    let [g0, g1, g2, g3] = h[6].to_be_bytes();
    let [h0, h1, h2, h3] = h[7].to_be_bytes();
    [
        a0, a1, a2, a3, b0, b1, b2, b3, c0, c1, c2, c3, d0, d1, d2, d3, e0, e1, e2, e3, f0, f1, f2,
        f3, g0, g1, g2, g3, h0, h1, h2, h3,
    ]
}

/// The digest of message `l`.
pub(crate) fn digest(state: &[u32x8; 8], l: usize) -> Digest
    requires { l < 8 }
    ensures { result ≡ digest_bytes (lane l state.now) 8 }
{
    bytes_of(hash_value(state, l))
}

/// Whether the eight messages have one length, which `digests_of_eight` and `HasherOfEight` ask for.
pub fn are_of_one_length(messages: &[&[u8]; 8]) -> bool
    ensures { IsTrue result ↔ AreOfOneLength messages.now }
{
    let len = messages[0].len();
    for message in messages {
        if message.len() != len {
            return false;
        }
    }
    true
}
