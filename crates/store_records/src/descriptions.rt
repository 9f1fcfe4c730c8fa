//! What is kept of a file beside the fragments of its stripe: a line with its length, its SHA-256 digest and the code.
ghost use Rattle.std.specs.Prelude.{◌≡◌, IfOk, IfSome, string_bytes};
ghost use Rattle.std.specs.Fmt.{decimal};
ghost use Rattle.store_records.specs.Descriptions.{line_of};

use crate::digits::digits_of;
use hex::FromHex;
use lrc_code::Code;
use std::alloc::{AllocError, Global};
use std::str;

/// No description has more bytes: 20 digits, 64 digits, the longest name of a code, two spaces and a line feed.
pub const MOST_BYTES: u64 = 93;

/// A file that is kept as a stripe.
#[derive(Clone, Copy, Debug, PartialEq, Eq)]
pub struct Described {
    /// How many bytes it has.
    pub length: u64,
    /// Its SHA-256 digest.
    pub digest: [u8; 32],
    pub code: Code,
}

impl Described {
    /// The line.
    pub fn text(&self, alloc: Global) -> Result<String, AllocError>
        ensures { IfOk result (λ text. string_bytes text ≡ line_of self.now) }
    {
        let digits = digits_of(alloc, &self.digest)?;
        let mut line = decimal_of(alloc, self.length)?;
        line.push_str(" ")?;
        line.push_str(digits.as_str())?;
        line.push_str(" ")?;
        line.push_str(self.code.text())?;
        line.push_str("\n")?;
        Ok(line)
    }

    /// What a text says that is such a line, and no other text.
    pub fn parse(alloc: Global, text: &[u8]) -> Result<Option<Described>, AllocError>
        ensures { IfOk result (λ o. IfSome o (λ described. text.now ≡ line_of described)) }
    {
        let Some(described) = described_by(text) else {
            return Ok(None);
        };
        let line = described.text(alloc)?;
        if line.as_bytes() != text {
            return Ok(None);
        }
        Ok(Some(described))
    }
}

/// The decimal digits of a number.
fn decimal_of(alloc: Global, number: u64) -> Result<String, AllocError>
    ensures { IfOk result (λ digits. string_bytes digits ≡ decimal number) }
{
    format!(in alloc; "{number}")
}

/// What the parts of a line say.
fn described_by(text: &[u8]) -> Option<Described> {
    let text = str::from_utf8(text).ok()?;
    let (length, rest) = text.split_once(' ')?;
    let (digits, code) = rest.trim_end().split_once(' ')?;
    let digest = <[u8; 32] as FromHex>::from_hex(digits).ok()?;
    Some(Described {
        length: length.parse::<u64>().ok()?,
        digest,
        code: Code::parse(code.as_bytes())?,
    })
}
