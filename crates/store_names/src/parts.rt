//! Parts of a store's stripes, for runs that work side by side.
ghost use Rattle.std.specs.Prelude.{◌≡◌};
ghost use Rattle.std.specs.Int.{from_be_bytes, w64};
ghost use Rattle.store_names.specs.Parts.{is_of_part};

use sha2::{Digest, Sha256};

/// A part of a store's stripes: those whose names have this remainder.
#[derive(Clone, Copy, Debug, PartialEq, Eq)]
pub struct Part {
    /// From 1 on.
    pub index: u64,
    pub of: u64,
}

impl Part {
    /// Whether a stripe is of the part: which one it is of is said by the first eight bytes of the digest of its name.
    pub fn has(&self, stripe: &str) -> bool
        ensures { result ≡ is_of_part self.now.index self.now.of stripe.now }
    {
        let digest = Sha256::digest(stripe.as_bytes());
        let number = first_number(&digest);
        0 < self.of && 0 < self.index && number % self.of == self.index - 1
    }
}

/// The first eight bytes of a digest as a number, the first of them the highest.
fn first_number(digest: &[u8; 32]) -> u64
    ensures { result ≡ from_be_bytes w64 digest.now }
{
    u64::from_be_bytes([
        digest[0], digest[1], digest[2], digest[3], digest[4], digest[5], digest[6], digest[7],
    ])
}
