//! What is read or written of a file, counted as far as it is done.
use crate::progress::Progress;
use std::io;
use store_repair::{Fragment, NewFragment};

/// A file whose bytes are counted as they are read.
#[derive(Drop)]
pub struct CountedSource<'p, F> {
    pub file: F,
    pub rt: &'p HostRuntime,
    pub progress: &'p Progress,
}

impl<F: Fragment> Fragment for CountedSource<'_, F> {
    ghost shown = { λ source. F.shown source.file };

    fn read_at(&self, from: usize, bytes: &mut [u8]) -> io::Result<()> {
        let many = bytes.len() as u64;
        self.file.read_at(from, bytes)?;
        self.progress.advance(self.rt, many);
        Ok(())
    }
}

/// A file whose bytes are counted as they are written, if there is somebody to see it.
#[derive(Drop)]
pub struct Counted<'p, N> {
    pub file: N,
    pub rt: &'p HostRuntime,
    pub progress: Option<&'p Progress>,
}

impl<N: NewFragment> NewFragment for Counted<'_, N> {
    ghost shown = { λ counted. N.shown counted.file };

    fn append(&mut self, bytes: &[u8]) -> io::Result<()> {
        self.file.append(bytes)?;
        if let Some(progress) = self.progress {
            progress.advance(self.rt, bytes.len() as u64);
        }
        Ok(())
    }
}
