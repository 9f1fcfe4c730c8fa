//! A file that is written as it is read: to standard output, or to what is open.
ghost use Rattle.std.specs.Prelude.{◌≡◌, [], OnOk, Some, vec_len};
ghost use Rattle.store_files.specs.Digests.{HasDigest};

use folders::Written;
use lrc_code::PlaceSet;
use std::alloc::Global;
use std::fs::File;
use std::io::{self, BufWriter, Printer, Write};
use store_faults::{FileFault, device};
use store_files::{Digested, Fragments, Sought, survivors_of};
use store_progress::{Counted, allow_output};
use store_repair::{MendFault, NewFragment, read_file};

/// What is written to. A type parameter in its place would leave open that it fits in memory.
#[derive(Drop)]
enum Sink<'a> {
    Standard(BufWriter<Printer<'a, HostRuntime>>),
    Opened(BufWriter<File>),
}

/// What is written to, and, for contracts, the bytes that it was given.
#[derive(Drop)]
struct Output<'a> {
    sink: Sink<'a>,
    written: Written,
}

impl NewFragment for Output<'_> {
    ghost shown = { λ output. output.written.bytes };

    fn append(&mut self, bytes: &[u8]) -> io::Result<()> {
        let answer = match &mut self.sink {
            Sink::Standard(writer) => writer.write_all(bytes),
            Sink::Opened(writer) => writer.write_all(bytes),
        };
        self.written = Written::with(&self.written, bytes, answer.is_ok());
        answer
    }
}

/// Writes the file to standard output.
pub(crate) fn write_out(
    rt: &HostRuntime,
    sought: &Sought<'_, '_>,
    fragments: &Fragments,
    set: PlaceSet,
) -> Result<(), FileFault>
    requires { vec_len fragments.now.opened ≡ 16 }
{
    let alloc = rt.alloc();
    let name = "standard output";
    allow_output(rt, sought.described.length).map_err(|error| device(alloc, name, error))?;
    let writer = BufWriter::new(alloc, io::writer(rt)).map_err(|error| device(alloc, name, error))?;
    write_to(rt, sought, fragments, set, Sink::Standard(writer), name)
}

/// Writes the file to what is open at a path.
pub(crate) fn write_into(
    rt: &HostRuntime,
    sought: &Sought<'_, '_>,
    fragments: &Fragments,
    set: PlaceSet,
    file: File,
    path: &str,
) -> Result<(), FileFault>
    requires { vec_len fragments.now.opened ≡ 16 }
{
    let alloc = rt.alloc();
    let writer = BufWriter::new(alloc, file).map_err(|error| device(alloc, path, error))?;
    write_to(rt, sought, fragments, set, Sink::Opened(writer), path)
}

/// Writes the file to what has this name.
fn write_to(
    rt: &HostRuntime,
    sought: &Sought<'_, '_>,
    fragments: &Fragments,
    set: PlaceSet,
    sink: Sink<'_>,
    name: &str,
) -> Result<(), FileFault>
    requires { vec_len fragments.now.opened ≡ 16 }
{
    let output = Output {
        sink,
        written: Written::new(),
    };
    let (output, done) = give(rt, sought, fragments, set, output, name);
    match flushed(output.sink) {
        Ok(()) => done,
        Err(error) => Err(device(rt.alloc(), name, error)),
    }
}

/// Gives the file to an output, which was given nothing yet. After Ok all that it was given has the file's digest; it hasn't if a fragment
/// has changed since the fragments were found to give the file.
fn give<'o>(
    rt: &HostRuntime,
    sought: &Sought<'_, '_>,
    fragments: &Fragments,
    set: PlaceSet,
    output: Output<'o>,
    name: &str,
) -> (Output<'o>, Result<(), FileFault>)
    requires sixteen { vec_len fragments.now.opened ≡ 16 }
    requires empty { output.written.bytes ≡ Some [] }
    ensures { OnOk result.1 (HasDigest sought.now.described.digest result.0.written.bytes) }
{
    let mut counted = Counted {
        file: Digested::new(output),
        rt,
        progress: sought.file.progress,
    };
    let survivors = survivors_of(sought, fragments, set);
    let file_bytes = sought.described.length as usize;
    let done = read_file(rt.alloc(), &survivors, file_bytes, &mut counted);
    let (output, is_file) = counted.file.finish(&sought.described.digest);
    match done {
        Ok(()) if is_file => (output, Ok(())),
        Ok(()) => (output, Err(changed_meanwhile(rt.alloc(), sought))),
        Err(fault) => (output, Err(unread(rt.alloc(), sought, name, fault))),
    }
}

/// Why the file couldn't be read, or not be written to what has this name.
fn unread(alloc: Global, sought: &Sought<'_, '_>, name: &str, fault: MendFault) -> FileFault {
    match fault {
        MendFault::Unwritten { error, .. } => device(alloc, name, error),
        MendFault::Unread { error, .. } => device(alloc, sought.file.name, error),
        _ => FileFault::OutOfMemory,
    }
}

/// Writes what is still kept.
fn flushed(sink: Sink<'_>) -> io::Result<()> {
    match sink {
        Sink::Standard(writer) => {
            let mut writer = writer;
            writer.flush()
        }
        Sink::Opened(writer) => {
            let mut writer = writer;
            writer.flush()
        }
    }
}

/// That a fragment has changed since the fragments were found to give the file.
pub(crate) fn changed_meanwhile(alloc: Global, sought: &Sought<'_, '_>) -> FileFault {
    let error = io::Error::other("a fragment changed meanwhile: what was written isn't the file");
    device(alloc, sought.file.name, error)
}
