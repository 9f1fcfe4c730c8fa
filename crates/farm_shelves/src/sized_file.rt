//! Open files whose length is known.
use std::io::{self, Read};

/// An open file, of the length that the system says. Once so many bytes were read, a read finds its end without asking the system. Where
/// the length is said to be 0 the system is asked, since it says so of files that it makes up as they are read.
#[derive(Drop)]
pub(crate) struct SizedFile<F: Drop> {
    file: F,
    length: u64,
    got: u64,
}

impl<F: Drop> SizedFile<F> {
    /// An open file of which nothing was read so far.
    pub(crate) fn new(file: F, length: u64) -> SizedFile<F> {
        SizedFile {
            file,
            length,
            got: 0,
        }
    }
}

impl<F: Read + Drop> Read for SizedFile<F> {
    ghost use Rattle.farm_shelves.specs.Sized.{sized_remaining};

    ghost remaining = { sized_remaining F.remaining };

    fn read(&mut self, buf: &mut [u8]) -> io::Result<usize> {
        if self.got == self.length && self.length > 0 {
            return Ok(0);
        }
        let count = self.file.read(buf)?;
        self.got = self.got.saturating_add(count as u64);
        Ok(count)
    }
}
