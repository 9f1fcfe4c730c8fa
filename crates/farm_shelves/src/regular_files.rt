//! Regular files of the system: how they are opened, read and written; none is synced.
ghost use Rattle.std.specs.Prelude.{◌≡◌, ◌+◌, ◌<◌, ◌≤◌, IfErr, IfOk, IfSome, OnErr, OnOk, drop, length, take};
ghost use Rattle.std.specs.Io.KnownBytes.{Consumes, IsAtEnd, Keeps};
ghost use Rattle.farm_shelves.specs.Folder.{found, kind_fault};
ghost use Rattle.farm_shelves.specs.declared.shelf.ShelfFault.TheVariants as fault;

use crate::shelf::ShelfFault;
use crate::sized_file::SizedFile;
use std::fs::{self, OpenOptions};
use std::io::{self, ErrorKind, Read, Write};
use std::rt::Files;

/// The room that is taken for the first read, if the limit isn't less. A fragment of the greatest length fits it.
pub(crate) const FIRST_ROOM: usize = 65_537;

/// How often a file is read at most.
const READ_TURNS: u32 = 16_777_216;

/// What an error of the system is for a reader.
fn fault_of(kind: ErrorKind) -> ShelfFault
    ensures { result ≡ kind_fault kind }
{
    match kind {
        ErrorKind::OutOfMemory => ShelfFault::OutOfMemory,
        _ => ShelfFault::Device,
    }
}

/// What the system found under a name: there is no such file exactly where it says that it was not found. Any other error is a
/// fault, as too many open files, or links that loop.
fn if_there<T: Drop>(answer: io::Result<T>) -> Result<Option<T>, ShelfFault>
    ensures { result ≡ found answer }
{
    match answer {
        Ok(there) => Ok(Some(there)),
        Err(e) => match e.kind() {
            ErrorKind::NotFound => Ok(None),
            kind => Err(fault_of(kind)),
        },
    }
}

/// The regular file at a path, open; none where there is no file.
pub(crate) fn open_regular<R: Files>(
    rt: &R,
    path: &str,
) -> Result<Option<SizedFile<R::File>>, ShelfFault> {
    let length = match if_there(fs::metadata(rt, path))? {
        Some(metadata) if metadata.is_file() => metadata.len(),
        Some(_) => return Err(ShelfFault::Device),
        None => return Ok(None),
    };
    let opened = if_there(fs::open(rt, path))?;
    Ok(opened.map(|file| SizedFile::new(file, length)))
}

/// Replaces the bytes of the regular file at a path, which is made where there is none. It is first taken to be new, which saves a call for
/// each file of a new folder.
pub(crate) fn write_regular<R: Files>(rt: &R, path: &str, bytes: &[u8]) -> Result<(), ShelfFault> {
    let made = OpenOptions::new()
        .write(true)
        .create_new(true)
        .open(rt, path);
    match made {
        Ok(file) => write_whole(file, bytes),
        Err(e) if e.kind() == ErrorKind::AlreadyExists => replace_regular(rt, path, bytes),
        Err(e) => Err(fault_of(e.kind())),
    }
}

/// Replaces the bytes of the regular file at a path. Anything else there is left alone, since opening a FIFO waits for a reader.
fn replace_regular<R: Files>(rt: &R, path: &str, bytes: &[u8]) -> Result<(), ShelfFault> {
    match if_there(fs::metadata(rt, path))? {
        Some(metadata) if !metadata.is_file() => return Err(ShelfFault::Device),
        _ => {}
    }
    let opened = OpenOptions::new()
        .write(true)
        .create(true)
        .truncate(true)
        .open(rt, path);
    match opened {
        Ok(file) => write_whole(file, bytes),
        Err(e) => Err(fault_of(e.kind())),
    }
}

/// Writes all bytes of an open file. It has changed by then, so any error is the device's: refused memory leaves each file as it was.
fn write_whole<F: Write + Drop>(file: F, bytes: &[u8]) -> Result<(), ShelfFault>
    ensures { IfErr result (λ f. f ≡ fault.Device) }
{
    let mut file = file;
    match file.write_all(bytes) {
        Ok(()) => Ok(()),
        Err(_) => Err(ShelfFault::Device),
    }
}

/// The first bytes of a file, as many as the limit at most, in this room, whose own bytes are read over and not given. What the room lacks
/// is taken and cleared once, so that a fragment of the listed length takes two reads: the first gives its bytes, the second finds its end.
pub fn read_front<F: Read + Drop>(
    room: Vec<u8>,
    file: F,
    limit: usize,
) -> Result<Vec<u8>, ShelfFault>
    ensures { IfOk result (λ bytes. IfSome (F.remaining file) (λ all. bytes.items ≡ take limit all)) }
{
    let mut file = file;
    let mut bytes = room;
    bytes.truncate(limit);
    let mut got = 0;
    for _turn in 0..READ_TURNS {
        if got == limit {
            return Ok(bytes);
        }
        make_room(&mut bytes, got, limit)?;
        match read_at(&mut file, bytes.as_mut_slice(), got) {
            Ok(0) => {
                bytes.truncate(got);
                return Ok(bytes);
            }
            Ok(count) => got += count,
            Err(e) => match e.kind() {
                ErrorKind::Interrupted => {}
                kind => return Err(fault_of(kind)),
            },
        }
    }
    if got == limit {
        return Ok(bytes);
    }
    Err(ShelfFault::Device)
}

/// Reads into the room after the bytes that were read.
fn read_at<F: Read>(file: &mut F, bytes: &mut [u8], got: usize) -> io::Result<usize>
    requires { got < length bytes.old }
    ensures front { take got bytes.new ≡ take got bytes.old }
    ensures fits { IfOk result (λ n. got + n ≤ length bytes.new) }
    ensures ok { IfOk result (λ n. Consumes (F.remaining file.old) (F.remaining file.new) (take n (drop got bytes.new))) }
    ensures end { IfOk result (λ n. n ≡ 0 → IsAtEnd (F.remaining file.new)) }
    ensures err { OnErr result (Keeps (F.remaining file.old) (F.remaining file.new)) }
{
    file.read(&mut bytes[got..])
}

/// Makes room for a read after the bytes that were read, where it is full.
fn make_room(bytes: &mut Vec<u8>, got: usize, limit: usize) -> Result<(), ShelfFault>
    requires got { got ≤ length bytes.old.items }
    requires limit { (got < limit) × (length bytes.old.items ≤ limit) }
    ensures front { OnOk result (take got bytes.new.items ≡ take got bytes.old.items) }
    ensures room { OnOk result ((got < length bytes.new.items) × (length bytes.new.items ≤ limit)) }
{
    if got < bytes.len() {
        return Ok(());
    }
    let room = got.saturating_mul(2).max(FIRST_ROOM).min(limit);
    match bytes.resize(room, 0) {
        Ok(()) => Ok(()),
        Err(_) => Err(ShelfFault::OutOfMemory),
    }
}
