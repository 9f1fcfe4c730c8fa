//! Any number of messages of any lengths, in order.

ghost use Rattle.std.specs.Prelude.{◌≡◌, ℕ, ◌<◌, ◌≤◌, length, map};
ghost use Rattle.sha2.specs.Sha256.{sha256};
ghost use Rattle.sha256_lanes.specs.Lanes.{AreDigestsBelow};

use crate::digest::{Digest, are_of_one_length};
use crate::hasher::digests_of_eight;
use sha2::{Digest as _, Sha256};
use std::convert::AsSlice;

/// Writes the digests of the next messages from `at` on, of eight where so many are left and have one length, else of one.
/// Returns the index of the first message after them.
fn next_digests<T: AsSlice<u8>>(messages: &[T], at: usize, out: &mut [Digest]) -> usize
    requires within { at < length messages.now }
    requires room { length out.old ≡ length messages.now }
    ensures forward { at < result }
    ensures within { result ≤ length messages.now }
    ensures digests { AreDigestsBelow (map T.items messages.now) out.old at
        → AreDigestsBelow (map T.items messages.now) out.new result }
{
    if messages.len() - at >= 8 {
        let m0 = messages[at].as_slice();
        let m1 = messages[at + 1].as_slice();
        let m2 = messages[at + 2].as_slice();
        let m3 = messages[at + 3].as_slice();
        let m4 = messages[at + 4].as_slice();
        let m5 = messages[at + 5].as_slice();
        let m6 = messages[at + 6].as_slice();
        let m7 = messages[at + 7].as_slice();
        let eight = [m0, m1, m2, m3, m4, m5, m6, m7];
        if are_of_one_length(&eight) {
            let digests = digests_of_eight(&eight);
            out[at..at + 8].copy_from_slice(&digests);
            return at + 8;
        }
    }
    out[at] = Sha256::digest(messages[at].as_slice());
    at + 1
}

/// Writes the SHA-256 digest (FIPS 180-4) of each message over the bytes of `out` at its index: of `n` messages `n` digests of 32
/// bytes each, the first byte of the hash value first. The digests that stood in `out` don't matter. From the first message on,
/// each eight neighbours of one length are taken at once, which is some four times as fast with AVX2; any other message is taken
/// alone.
///
/// ```
/// let messages = [b"abc".as_slice(), b"abd".as_slice(), b"".as_slice()];
/// let mut found = [[0; 32]; 3];
/// sha256_lanes::digests(&messages, &mut found);
/// ```
pub fn digests<T: AsSlice<u8>>(messages: &[T], out: &mut [Digest])
    requires { length out.old ≡ length messages.now }
    ensures { out.new ≡ map (λ m. sha256 (T.items m)) messages.now }
{
    let mut done = 0;
    while done < messages.len() {
        done = next_digests(messages, done, out);
    }
}
