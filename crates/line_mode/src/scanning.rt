//! Searches of bytes, and tests of all of them.
ghost use Rattle.std.specs.Prelude.{◌≡◌, ◌==◌, position};
ghost use Rattle.std.specs.List.{list_all};
ghost use Rattle.line_mode.specs.Line.{is_printable};

use memchr::memchr;

/// The first index of a byte.
pub(crate) fn find_byte(bytes: &[u8], byte: u8) -> Option<usize>
    ensures { result ≡ position (λ b. b == byte) bytes.now }
{
    memchr(byte, bytes)
}

/// The first index of a byte that is near the front: one byte is looked at after the other.
pub(crate) fn find_near_byte(bytes: &[u8], byte: u8) -> Option<usize>
    ensures { result ≡ position (λ b. b == byte) bytes.now }
{
    bytes.iter().position(|b| *b == byte)
}

/// Whether all bytes are printable characters, from a space to a tilde.
/// The loop has no branch, so that it runs over many bytes at once.
pub(crate) fn are_printable(bytes: &[u8]) -> bool
    ensures { result ≡ list_all is_printable bytes.now }
{
    let mut greatest = 0u8;
    for i in 0..bytes.len() {
        greatest = greatest.max(bytes[i].wrapping_sub(b' '));
    }
    greatest <= b'~' - b' '
}
