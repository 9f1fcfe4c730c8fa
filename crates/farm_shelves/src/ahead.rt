//! Files that are read ahead in threads.
ghost use Rattle.std.specs.Prelude.{◌≡◌, ◌<◌, ◌++◌, ◌∷◌, [], Some, IfSome, true, option_map};
ghost use Rattle.std.specs.Thread.{IsSync};
ghost use Rattle.farm_shelves.specs.Ahead.{IsKnown, IsListedAs, known};

use crate::folder::FolderShelf;
use crate::regular_files::{FIRST_ROOM, open_regular, read_front};
use crate::shelf::{FileRead, ShelfFault};
use crate::worth::worthwhile;
use std::alloc::{AllocError, Global};
use std::io::Read;
use std::sync::Mutex;
use std::sync::atomic::{AtomicUsize, Ordering};
use std::thread::Threads;
use std::{mem, thread};

/// What a file takes to be opened and closed, as the bytes that are read in that time.
const OPENING: u64 = 16_384;

/// How many parts of the files there are for each thread that reads them.
const PARTS_PER_THREAD: usize = 8;

/// A file of a folder that is read ahead: its name, its limit and how far it is.
#[derive(Drop)]
pub(crate) struct ReadAhead {
    name: String,
    limit: usize,
    state: State,
}

/// How far a file is that is read ahead.
#[derive(Drop)]
enum State {
    // It is to be read into this room, or couldn't be opened.
    Listed(Vec<u8>),
    // Its first bytes, as they were then.
    Read(Vec<u8>),
    // There is no such file. The room stays with it, since a thread that gives memory back takes some of its own.
    Absent(Vec<u8>),
    // It could not be read. The read that it was for reads it again, and says why.
    Unread,
}

impl ReadAhead {
    /// A file that is to be read ahead, with the room for it. The room is taken before the threads start, since the system's allocator
    /// makes threads that take memory at once wait for each other.
    pub(crate) fn listed(
        alloc: Global,
        file: FileRead,
        rooms: &mut Vec<Vec<u8>>,
    ) -> Result<ReadAhead, AllocError> {
        let (name, limit) = file;
        let room = room_for(alloc, limit, rooms)?;
        Ok(ReadAhead {
            name,
            limit,
            state: State::Listed(room),
        })
    }

    /// Whether it is the file of this name, up to this limit.
    fn is_of(&self, name: &str, limit: usize) -> bool
        ensures { result ≡ true → IsListedAs name.now limit self.now }
    {
        self.limit == limit && self.name.as_str() == name
    }
}

/// The room for a file: the last of these that were read into before, if that file had the length that is listed here (the limit is one
/// more), so that nothing of it is cleared and no memory is taken; else a new one.
fn room_for(alloc: Global, limit: usize, rooms: &mut Vec<Vec<u8>>) -> Result<Vec<u8>, AllocError> {
    match rooms.pop() {
        Some(room) if room.len().saturating_add(1) == limit => Ok(room),
        _ => Vec::with_capacity(alloc, FIRST_ROOM.min(limit)),
    }
}

/// How many threads are worth their start for these files, of so many at most.
fn threads_for(files: &[ReadAhead], threads: usize) -> usize
    ensures { 0 < result }
{
    let mut bytes = 0u64;
    for file in files {
        bytes = bytes
            .saturating_add(OPENING)
            .saturating_add(file.limit as u64);
    }
    worthwhile(bytes, threads)
}

/// Files of a folder that are read in parts, each by the thread that takes it.
#[derive(Drop)]
struct Parts<'f> {
    alloc: Global,
    folder: &'f FolderShelf<HostRuntime>,
    parts: Vec<Mutex<&'f mut [ReadAhead]>>,
    next: AtomicUsize,
}

/// The files in parts for so many threads.
fn parts_of<'f>(
    alloc: Global,
    folder: &'f FolderShelf<HostRuntime>,
    files: &'f mut [ReadAhead],
    threads: usize,
) -> Result<Parts<'f>, AllocError>
    requires { 0 < threads }
{
    let count = threads.saturating_mul(PARTS_PER_THREAD);
    let size = files.len().div_ceil(count).max(1);
    let mut parts = Vec::new(alloc);
    for part in files.chunks_mut(size) {
        parts.push(Mutex::new(part))?;
    }
    Ok(Parts {
        alloc,
        folder,
        parts,
        next: AtomicUsize::new(0),
    })
}

impl<'f> Parts<'f> {
    /// Reads the files of one part after the other, each the next that no thread has taken, so that a thread that comes late or shares its
    /// processor leaves more to the others. Nobody else has a part's lock: if it is refused all the same, its files are read in their
    /// turn, as those are whose path was refused memory.
    fn read(&self) {
        for _turn in 0..self.parts.len() {
            let Some(part) = self.parts.get(self.next.fetch_add(1, Ordering::SeqCst)) else {
                return;
            };
            if let Some(mut files) = part.try_lock() {
                let _read = read_each(self.alloc, self.folder, &mut files);
            }
        }
    }

    /// Reads files as `read` does, as work that isn't refused.
    fn read_here(&self) -> Result<(), AllocError> {
        self.read();
        Ok(())
    }
}

/// Does some work in this thread, while so many others read. Each of them is started by this one: beside busy processes a thread waits for
/// its first turn, and one that it starts itself would wait as long once more. A thread that is refused leaves all to the others.
#[cycle(readers)]
fn work_while_reading<H: Threads + Sync, T: Drop, E: Drop, F: Fn() -> Result<T, E>>(
    rt: &H,
    readers: usize,
    files: &Parts<'_>,
    work: &F,
) -> Result<T, E>
    requires sync { IsSync H.row }
    requires work { F.pre work.now }
    ensures { F.post work.now result }
{
    if readers == 0 {
        return work();
    }
    let (_read, done) = thread::join(
        rt,
        || files.read(),
        || -> Result<T, E>
            requires { IsSync H.row × F.pre work.now × (0 < readers) }
            ensures { F.post work.entry.now result }
        { work_while_reading(rt, readers - 1, files, work) },
    );
    done
}

/// Some work, which is done while listed files are read in at most so many further threads: the files, and what the work gives. No file is
/// left where memory is refused.
pub(crate) fn read_beside<H: Threads + Sync, T: Drop, E: Drop, F: Fn() -> Result<T, E>>(
    rt: &H,
    alloc: Global,
    folder: &FolderShelf<HostRuntime>,
    mut files: Vec<ReadAhead>,
    threads: usize,
    work: &F,
) -> (Vec<ReadAhead>, Result<T, E>)
    requires sync { IsSync H.row }
    requires work { F.pre work.now }
    ensures { F.post work.now result.1 }
{
    let threads = threads_for(files.as_slice(), threads);
    let done = match parts_of(alloc, folder, files.as_mut_slice(), threads) {
        Ok(parts) => work_while_reading(rt, threads, &parts, work),
        Err(_) => return (Vec::new(alloc), work()),
    };
    (files, done)
}

/// Listed files, read in at most so many threads, of which this one is the last; none where memory is refused.
pub(crate) fn read_all<R: Threads + Sync>(
    rt: &R,
    alloc: Global,
    folder: &FolderShelf<HostRuntime>,
    mut files: Vec<ReadAhead>,
    threads: usize,
) -> Vec<ReadAhead>
    requires { IsSync R.row }
{
    let threads = threads_for(files.as_slice(), threads);
    let read = match parts_of(alloc, folder, files.as_mut_slice(), threads) {
        Ok(parts) => work_while_reading(rt, threads - 1, &parts, &|| parts.read_here()),
        Err(refused) => Err(refused),
    };
    match read {
        Ok(()) => files,
        Err(_) => Vec::new(alloc),
    }
}

/// Opens, reads and closes listed files, one after the other, each into its room. Their paths are made in one text, one after the other.
fn read_each(
    alloc: Global,
    folder: &FolderShelf<HostRuntime>,
    files: &mut [ReadAhead],
) -> Result<(), AllocError> {
    let mut path = String::new(alloc);
    for file in files.iter_mut() {
        folder.write_path(&mut path, file.name.as_str())?;
        file.state = match mem::replace(&mut file.state, State::Unread) {
            State::Listed(room) => {
                let opened = open_regular(folder.system(), path.as_str());
                state_of(opened, room, file.limit)
            }
            state => state,
        };
    }
    Ok(())
}

/// How far a file is that was opened so, once its first bytes are read into this room. A failure says nothing of the file.
fn state_of<F: Read + Drop>(
    opened: Result<Option<F>, ShelfFault>,
    room: Vec<u8>,
    limit: usize,
) -> State
    ensures { IsKnown F.remaining limit opened (known result) }
{
    match opened {
        Ok(Some(file)) => match read_front(room, file, limit) {
            Ok(bytes) => State::Read(bytes),
            Err(_) => State::Unread,
        },
        Ok(None) => State::Absent(room),
        Err(_) => State::Listed(room),
    }
}

/// Whether so many files were read ahead, the next of them under this name and up to this limit.
pub(crate) fn has_ahead(ahead: &[ReadAhead], name: &str, limit: usize, count: usize) -> bool {
    match ahead.last() {
        Some(next) => count <= ahead.len() && next.is_of(name, limit),
        None => false,
    }
}

/// What was read ahead of a file, where it is the next one that was read ahead. A read of another file ends the reading ahead, since what
/// comes then isn't known.
pub(crate) fn take_ahead(
    ahead: &mut Vec<ReadAhead>,
    name: &str,
    limit: usize,
) -> Option<Option<Vec<u8>>>
    ensures { IfSome result (λ found. (next : ReadAhead) × (ahead.old.items ≡ ahead.new.items ++ next ∷ [])
        × IsListedAs name.now limit next × (known next.state ≡ Some (option_map (λ b. b.items) found))) }
{
    let next = ahead.pop()?;
    if !next.is_of(name, limit) {
        ahead.clear();
        return None;
    }
    known_of(next.state)
}

/// What is known of a file by how far it is.
fn known_of(state: State) -> Option<Option<Vec<u8>>>
    ensures { option_map (option_map (λ b. b.items)) result ≡ known state }
{
    match state {
        State::Read(bytes) => Some(Some(bytes)),
        State::Absent(_room) => Some(None),
        State::Listed(_room) => None,
        State::Unread => None,
    }
}
