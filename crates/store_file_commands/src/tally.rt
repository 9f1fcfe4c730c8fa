//! What became of the files that a command was given.
ghost use Rattle.std.specs.Prelude.{◌≡◌, ◌-◌, ◌≤◌, IfOk, IsOk, OnErr, Ok, if◌then◌else◌, max};

use std::alloc::AllocError;
use std::io;
use store_faults::{DEVICE, DONE, FileFault, device, say, write};
use store_progress::Progress;

/// Of how many files a command has done what it is for, and the exit status that the others ask for.
#[derive(Clone, Copy)]
pub(crate) struct Tally {
    pub(crate) done: u64,
    pub(crate) status: u8,
}

impl Tally {
    /// That of a command that has no file done yet. A leftover that couldn't be removed asks for a status too.
    pub(crate) fn new(is_clean: bool) -> Tally
        ensures done { result.done ≡ 0 }
        ensures status { result.status ≡ (if is_clean then 0 else 3) }
    {
        Tally {
            done: 0,
            status: if is_clean { DONE } else { DEVICE },
        }
    }

    /// Notes that something failed which was said. It asks for a status.
    pub(crate) fn fail(&mut self)
        ensures status { self.new.status ≡ max self.old.status 3 }
        ensures done { self.new.done ≡ self.old.done }
    {
        self.status = self.status.max(DEVICE);
    }

    /// Notes what became of a file, and says why its work isn't done, in place of the line that shows how far the command is. A want of
    /// memory isn't noted: it ends the command.
    pub(crate) fn note(
        &mut self,
        rt: &HostRuntime,
        progress: Option<&Progress>,
        done: Result<(), FileFault>,
    ) -> Result<(), AllocError>
        ensures status { self.old.status ≤ self.new.status }
        ensures done { self.old.done ≤ self.new.done }
        ensures unnoted { OnErr result (self.new ≡ self.old) }
    {
        let fault = match done {
            Ok(()) => {
                self.done = self.done.saturating_add(1);
                return Ok(());
            }
            Err(fault) => fault,
        };
        if matches!(&fault, FileFault::OutOfMemory) {
            return Err(AllocError);
        }
        if let Some(progress) = progress {
            progress.clear(rt);
        }
        self.status = self.status.max(fault.status());
        let _ = say(rt, format!(in rt.alloc(); "rebuild-store: {fault}"));
        drop(fault);
        Ok(())
    }

    /// Of how many of so many files the work isn't done.
    pub(crate) fn left_of(&self, files: usize) -> u64
        ensures { result ≡ files - self.now.done }
    {
        (files as u64).saturating_sub(self.done)
    }
}

/// Writes a line to standard output, which says what a command has done.
pub(crate) fn write_line(
    rt: &HostRuntime,
    line: Result<String, AllocError>,
) -> Result<(), FileFault> {
    match write(rt, line) {
        Ok(()) => Ok(()),
        Err(error) => Err(device(rt.alloc(), "standard output", error)),
    }
}

/// What a command on a folder answers that has given its locks back: its status or its fault, or else why they couldn't be.
pub(crate) fn released(
    rt: &HostRuntime,
    folder: &str,
    status: Result<u8, FileFault>,
    released: io::Result<()>,
) -> Result<u8, FileFault>
    ensures { IfOk result (λ s. (status ≡ Ok s) × IsOk released) }
{
    match (status, released) {
        (Ok(_), Err(error)) => Err(device(rt.alloc(), folder, error)),
        (status, _) => status,
    }
}
