//! The digits of a digest.
ghost use Rattle.std.specs.Prelude.{◌≡◌, IfOk, string_bytes};
ghost use Rattle.hex.specs.Hex.{encode_lower};

use std::alloc::{AllocError, Global};

/// A SHA-256 digest.
pub type Digest = [u8; 32];

/// The 64 digits of a digest.
pub fn digits_of(alloc: Global, digest: &[u8; 32]) -> Result<String, AllocError>
    ensures { IfOk result (λ digits. string_bytes digits ≡ encode_lower digest.now) }
{
    hex::encode(alloc, digest.as_slice())
}
