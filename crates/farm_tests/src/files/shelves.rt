//! Shelves, by tests that do with one what standard input says, and show what it gives. gate/farm-shelves.py gives them steps.
ghost use Rattle.std.specs.Prelude.{◌<◌, ◌^◌};

use crate::files::given::{given_bytes, number, word};
use farm_files::{FileRead, FolderShelf, MemoryShelf, ReadAheadShelf, Shelf, ShelfFault};
use std::alloc::AllocError;
use std::fs;
use std::process::Abort;
use std::rt::Files;
use std::str::{self, Lines, SplitWhitespace};
use std::sync::atomic::{AtomicU64, Ordering};
use std::thread::Threads;

/// More often than a device fails here: the calls ask that a shelf have room to count further failures.
const MOST_FAILURES: u64 = 1000;

/// The name of a fault. There are no others: with another one this doesn't compile.
fn name_of(fault: ShelfFault) -> &'static str {
    match fault {
        ShelfFault::Device => "Device",
        ShelfFault::OutOfMemory => "OutOfMemory",
    }
}

/// The files that words name, after the limit that each of them has.
fn files_of(rt: &(impl Abort + AllocGlobal), mut words: SplitWhitespace<'_>) -> Vec<FileRead> {
    let limit = number(&mut words);
    let mut files = Vec::new(rt.alloc());
    for name in words {
        let name = String::from_str(rt.alloc(), name).expect(rt, "a name");
        files.push((name, limit)).expect(rt, "a file");
    }
    files
}

/// Memory that has the bytes of words.
fn rooms_of(rt: &(impl Abort + AllocGlobal), words: SplitWhitespace<'_>) -> Vec<Vec<u8>> {
    let mut rooms = Vec::new(rt.alloc());
    for word in words {
        let room = Vec::from_slice(rt.alloc(), word.as_bytes()).expect(rt, "a room");
        rooms.push(room).expect(rt, "rooms");
    }
    rooms
}

/// Reads a file, and shows its bytes, which are text.
fn show_read<S: Shelf>(rt: &(impl AllocGlobal + Print), shelf: &mut S, name: &str, limit: usize)
    requires { S.failed shelf.old < 2 ^ 63 }
{
    let _ = match shelf.read(rt.alloc(), name, limit) {
        Ok(Some(bytes)) => println!(rt; "{} {}", bytes.len(), str::from_utf8(&bytes).unwrap_or("")),
        Ok(None) => println!(rt; "none"),
        Err(fault) => println!(rt; "{}", name_of(fault)),
    };
}

/// Writes a file, and shows the answer.
fn show_written<S: Shelf>(rt: &(impl AllocGlobal + Print), shelf: &mut S, name: &str, bytes: &[u8])
    requires { S.failed shelf.old < 2 ^ 63 }
{
    let _ = match shelf.write(rt.alloc(), name, bytes) {
        Ok(()) => println!(rt; "written"),
        Err(fault) => println!(rt; "{}", name_of(fault)),
    };
}

/// Work that fails at its first call, as where it is refused a thread, and then gives how often it was called.
fn fails_once(calls: &AtomicU64) -> Result<u64, AllocError> {
    match calls.fetch_add(1, Ordering::SeqCst) {
        0 => Err(AllocError),
        before => Ok(before.saturating_add(1)),
    }
}

/// Reads files beside such work that was called so often, and shows what it gives, and how often it was called then.
fn show_beside<R: Abort + AllocGlobal + Files + Print + Sync + Threads, S: Shelf>(
    rt: &R,
    shelf: &mut S,
    mut words: SplitWhitespace<'_>,
) {
    let threads = number(&mut words);
    let calls = AtomicU64::new(number(&mut words) as u64);
    let files = files_of(rt, words);
    let gives = shelf.read_beside(rt, rt.alloc(), files, threads, || fails_once(&calls));
    let _ = println!(rt; "{gives:?} {}", calls.load(Ordering::SeqCst));
}

/// Does a step with a shelf, and shows what that gives. By `put` another program puts a file at a path.
fn step<R: Abort + AllocGlobal + Files + Print + Sync + Threads, S: Shelf>(
    rt: &R,
    shelf: &mut S,
    what: &str,
    mut words: SplitWhitespace<'_>,
) {
    if shelf.failures() > MOST_FAILURES {
        return;
    }
    match what {
        "read" => show_read(rt, shelf, word(&mut words), number(&mut words)),
        "write" => show_written(rt, shelf, word(&mut words), word(&mut words).as_bytes()),
        "put" => {
            let _put = fs::write(rt, word(&mut words), word(&mut words).as_bytes());
        }
        "ahead" => {
            let threads = number(&mut words);
            shelf.read_ahead(rt, rt.alloc(), files_of(rt, words), threads);
        }
        "beside" => show_beside(rt, shelf, words),
        "keep" => shelf.keep_rooms(rooms_of(rt, words)),
        _ => {
            let _ = println!(rt; "{} failures", shelf.failures());
        }
    }
}

/// Does the steps of these lines, up to one that sets which call is to fail, which it gives.
fn steps<R: Abort + AllocGlobal + Files + Print + Sync + Threads, S: Shelf>(
    rt: &R,
    shelf: &mut S,
    lines: &mut Lines<'_>,
) -> Option<u64> {
    while let Some(line) = lines.next() {
        let mut words = line.split_whitespace();
        match word(&mut words) {
            "fail" => return Some(number(&mut words) as u64),
            what => step(rt, shelf, what, words),
        }
    }
    None
}

/// The first line says the path of the folder.
#[test]
fn of_a_folder(rt: HostRuntime) {
    let bytes = given_bytes(&rt, rt.alloc(), rt.stdin());
    let mut lines = str::from_utf8(&bytes).unwrap_or("").lines();
    let path = lines.next().unwrap_or("");
    let mut shelf = FolderShelf::open(&rt, rt.alloc(), path).expect(&rt, "a shelf");
    let _none = steps(&rt, &mut shelf, &mut lines);
}

#[test]
fn read_ahead_of_a_folder(rt: HostRuntime) {
    let bytes = given_bytes(&rt, rt.alloc(), rt.stdin());
    let mut lines = str::from_utf8(&bytes).unwrap_or("").lines();
    let path = lines.next().unwrap_or("");
    let mut shelf = ReadAheadShelf::open(&rt, rt.alloc(), path).expect(&rt, "a shelf");
    let _none = steps(&rt, &mut shelf, &mut lines);
}

#[test]
fn in_memory(rt: HostRuntime) {
    let bytes = given_bytes(&rt, rt.alloc(), rt.stdin());
    let mut lines = str::from_utf8(&bytes).unwrap_or("").lines();
    let mut shelf = MemoryShelf::new(rt.alloc());
    for _part in 0..4u32 {
        if let Some(call) = steps(&rt, &mut shelf, &mut lines) {
            shelf.fail_at(call);
        }
    }
}
