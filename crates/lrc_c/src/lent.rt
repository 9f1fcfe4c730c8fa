//! Bytes that C lends, as a type alone: `arguments` tests what is passed.
ghost use Rattle.std.specs.Prelude.{◌≡◌};

use lrc_field::Source;

/// Bytes that the caller lends: for C a pointer, which is never null, and a length.
#[repr(C)]
#[derive(Drop)]
pub struct Lent<'a> {
    pub bytes: &'a [u8],
}

impl<'a> Source<'a> for Lent<'a> {
    ghost bytes_of = { λ l. l.bytes.now };

    #[inline(always)]
    fn bytes(&self) -> &'a [u8] {
        self.bytes
    }
}
