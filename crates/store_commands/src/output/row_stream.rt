//! Rows that are printed as they are known, an object on each line.
use crate::output::say_unprinted;
use std::alloc::AllocError;
use std::io;
use std::sync::atomic::{AtomicU64, Ordering};
use store_listing::Alone;
use store_progress::allow_output;
use store_reports::{Done, RowSource, Rows, add_alone, add_stripe};

/// Where threads print rows side by side. No thread waits for another: what can't be printed now is held back by its thread.
#[derive(Drop)]
pub(crate) struct RowStream<'a> {
    source: RowSource<'a>,
    /// 1 while a thread prints.
    is_taken: AtomicU64,
    /// 1 once something couldn't be printed, which was said.
    has_failed: AtomicU64,
}

impl<'a> RowStream<'a> {
    /// A stream of which nothing was printed.
    pub(crate) fn new(source: RowSource<'a>) -> RowStream<'a> {
        RowStream {
            source,
            is_taken: AtomicU64::new(0),
            has_failed: AtomicU64::new(0),
        }
    }

    /// Adds the rows of a stripe to what a thread holds back, and prints that if no other thread prints now.
    pub(crate) fn add(
        &self,
        rt: &HostRuntime,
        held: &mut String,
        stripe: &str,
        done: &Done,
    ) -> Result<(), AllocError> {
        // Only memory can be refused.
        if add_stripe(rt.alloc(), self.source, stripe, done, Rows::Json, held).is_err() {
            return Err(AllocError);
        }
        if self.is_taken.swap(1, Ordering::SeqCst) == 1 {
            return Ok(());
        }
        self.print(rt, held)?;
        self.is_taken.store(0, Ordering::SeqCst);
        Ok(())
    }

    /// Prints what was held back, or drops it if something has failed before. What fails is said, once.
    fn print(&self, rt: &HostRuntime, held: &mut String) -> Result<(), AllocError> {
        if !held.is_empty() && self.has_failed.load(Ordering::SeqCst) == 0 {
            if let Err(error) = printed(rt, held.as_str()) {
                self.has_failed.store(1, Ordering::SeqCst);
                say_unprinted(rt, error)?;
            }
        }
        held.clear();
        Ok(())
    }

    /// Prints what threads have held back, and the rows of files that are of no stripe. Says whether all rows could be printed.
    pub(crate) fn end(
        &self,
        rt: &HostRuntime,
        held: &mut String,
        alone: &[Alone],
    ) -> io::Result<bool> {
        add_alone(rt.alloc(), alone, Rows::Json, held)?;
        self.print(rt, held)?;
        Ok(self.has_failed.load(Ordering::SeqCst) == 0)
    }
}

/// Prints a text, unless it is longer than a limit lets standard output get.
fn printed(rt: &HostRuntime, text: &str) -> io::Result<()> {
    allow_output(rt, text.len() as u64)?;
    print!(rt; "{text}")
}
