//! The fragments of a file, under temporary names, and the digests of both.
ghost use Rattle.std.specs.Prelude.{◌≡◌, [], IfOk, Some, length, vec_len};
ghost use Rattle.lrc_code.specs.Codes.{tables_of};
ghost use Rattle.store_folder.specs.Kept.{KeepsEach};
ghost use Rattle.store_folder.specs.Placed.{content_of};
ghost use Rattle.store_repair.specs.Mended.{AreEmpty};

use crate::encoding::Given;
use crate::encoding::discarding::{discard_files, discard_made};
use crate::encoding::failures::after_discarding;
use crate::encoding::placing::Made;
use folders::Folder;
use lrc_code::Place;
use std::alloc::{AllocError, Global};
use std::io::{self, ErrorKind};
use std::thread::{Threads, join};
use store_faults::{FileFault, device, source_fault};
use store_files::Target;
use store_folder::{
    Digest, FileFragment, Links, NewFile, SystemFolder, SystemOpen, create_new, digest_of,
    digests_of, folder_of, open_fragment, refuse_linked_folders,
};
use store_progress::{CountedSource, Progress};
use store_repair::{Fragment, MendFault, encode, fragment_length};

/// What is made of a file before anything gets a name: its digest, and its fragments.
#[derive(Drop)]
pub(crate) struct Encoded {
    pub(crate) digest: Digest,
    pub(crate) made: Vec<Made>,
}

/// Makes the fragments of a file under temporary names, and beside that, where a thread can be had, the file's digest, unless it is known.
pub(crate) fn make_encoded<R: Threads + Sync>(
    threads: &R,
    rt: &HostRuntime,
    target: &Target<'_>,
    name: &str,
    given: &Given<'_>,
) -> Result<Encoded, FileFault> {
    let (digest, made) = join(
        threads,
        || source_digest(rt, given),
        || make_fragments(rt, target, name, given),
    );
    let made = made?;
    match digest {
        Ok(digest) => Ok(Encoded { digest, made }),
        Err(fault) => {
            let removed = discard_made(rt, given.progress, made);
            Err(after_discarding(rt, given.progress, fault, removed))
        }
    }
}

/// The digest of a file that is encoded, which is read if it isn't known.
pub(crate) fn source_digest(rt: &HostRuntime, given: &Given<'_>) -> Result<Digest, FileFault> {
    if let Some(digest) = given.digest {
        return Ok(digest);
    }
    match read_digest(rt, given) {
        Ok(digest) => Ok(digest),
        Err(error) => Err(source_fault(rt.alloc(), given.path, error)),
    }
}

/// The digest of a file that is encoded, which has to have as many bytes as before.
fn read_digest(rt: &HostRuntime, given: &Given<'_>) -> io::Result<Digest> {
    let length = given.before.len();
    let file = CountedSource {
        file: open_fragment(rt, given.path, length, Links::Followed)?,
        rt,
        progress: given.progress,
    };
    digest_of(rt.alloc(), &file, length as usize)
}

/// Makes the fragments of a file, under temporary names.
fn make_fragments(
    rt: &HostRuntime,
    target: &Target<'_>,
    name: &str,
    given: &Given<'_>,
) -> Result<Vec<Made>, FileFault> {
    let alloc = rt.alloc();
    let path = given.path;
    let length = given.before.len();
    let file = match open_fragment(rt, path, length, Links::Followed) {
        Ok(file) => file,
        Err(error) => return Err(source_fault(alloc, path, error)),
    };
    let source = CountedSource {
        file,
        rt,
        progress: given.progress,
    };
    make_from(rt, target, name, given, &source)
}

/// Makes the fragments of a file that is open, under temporary names.
fn make_from<F: Fragment>(
    rt: &HostRuntime,
    target: &Target<'_>,
    name: &str,
    given: &Given<'_>,
    source: &F,
) -> Result<Vec<Made>, FileFault> {
    // Taken before there are files, so that none is left where memory is refused.
    let made = Vec::with_capacity(rt.alloc(), target.code.places().len())?;
    let mut files = new_files(rt, target, name, given.progress)?;
    match fill(rt, target, name, given, source, files.as_mut_slice()) {
        Ok(digests) => Ok(all_made(made, files, digests)?),
        Err(fault) => {
            let removed = discard_files(rt, given.progress, files);
            Err(after_discarding(rt, given.progress, fault, removed))
        }
    }
}

/// Adds each new file with the digest at its index.
fn all_made(
    made: Vec<Made>,
    files: Vec<NewFile>,
    digests: Vec<Digest>,
) -> Result<Vec<Made>, AllocError> {
    let mut made = made;
    for (file, digest) in files.into_iter().zip(digests) {
        made.push(Made { file, digest })?;
    }
    Ok(made)
}

/// Writes the fragments of a file into new files, and gives their digests.
fn fill<F: Fragment>(
    rt: &HostRuntime,
    target: &Target<'_>,
    name: &str,
    given: &Given<'_>,
    source: &F,
    files: &mut [NewFile],
) -> Result<Vec<Digest>, FileFault>
    requires length { length files.old ≡ length (tables_of target.now.code).places }
    requires empty { AreEmpty content_of files.old }
{
    let alloc = rt.alloc();
    let length = given.before.len() as usize;
    if let Err(fault) = encode(alloc, target.code, source, length, files) {
        let fragments = target.path(alloc, name)?;
        return Err(encode_fault(alloc, given.path, fragments.as_str(), fault));
    }
    digests_at(rt, target, files, fragment_length(target.code, length))
}

/// A new file for each fragment of a stripe, in the folder that the fragment is to be in. Where one is refused, the others are removed
/// again.
fn new_files(
    rt: &HostRuntime,
    target: &Target<'_>,
    stripe: &str,
    progress: &Progress,
) -> Result<Vec<NewFile>, FileFault>
    ensures length { IfOk result (λ v. vec_len v ≡ length (tables_of target.now.code).places) }
    ensures empty { IfOk result (λ v. AreEmpty content_of v.items) }
{
    let alloc = rt.alloc();
    let places = target.code.places();
    let mut files = Vec::with_capacity(alloc, places.len())?;
    'files: while files.len() < places.len() {
        match new_file_at(rt, target, stripe, places[files.len()]) {
            Ok(file) => files.push(file)?,
            Err(fault) => {
                let removed = discard_files(rt, progress, files);
                return Err(after_discarding(rt, progress, fault, removed));
            }
        }
    }
    Ok(files)
}

/// A new file for the fragment of a stripe at a place.
fn new_file_at(
    rt: &HostRuntime,
    target: &Target<'_>,
    stripe: &str,
    place: Place,
) -> Result<NewFile, FileFault>
    ensures { IfOk result (λ new. content_of new ≡ Some []) }
{
    let alloc = rt.alloc();
    let name = target.name_of(alloc, stripe, place)?;
    let path = target.path(alloc, name.as_str())?;
    let folder = folder_of(path.as_str());
    match new_file(
        rt,
        &mut SystemFolder::new(rt),
        target,
        name.as_str(),
        folder,
    ) {
        Ok(file) => Ok(file),
        Err(error) => Err(device(alloc, folder, unmade(error))),
    }
}

/// The digests of new files of so many bytes, which are read again.
fn digests_at(
    rt: &HostRuntime,
    target: &Target<'_>,
    files: &[NewFile],
    many: usize,
) -> Result<Vec<Digest>, FileFault> {
    match read_again(rt, files, many) {
        Ok(digests) => Ok(digests),
        Err(error) => Err(device(rt.alloc(), target.folder, error)),
    }
}

/// Reads new files of so many bytes again, and gives their digests.
fn read_again(rt: &HostRuntime, files: &[NewFile], many: usize) -> io::Result<Vec<Digest>> {
    let alloc = rt.alloc();
    let opened = opened(rt, files, many)?;
    let mut fragments = Vec::with_capacity(alloc, opened.len())?;
    for fragment in &opened {
        fragments.push(Some(fragment))?;
    }
    all_of(alloc, digests_of(alloc, fragments.as_slice(), many)?)
}

/// New files of so many bytes, open for reading.
fn opened(
    rt: &HostRuntime,
    files: &[NewFile],
    many: usize,
) -> io::Result<Vec<FileFragment<SystemOpen>>> {
    let mut opened = Vec::with_capacity(rt.alloc(), files.len())?;
    for file in files {
        opened.push(open_fragment(rt, file.path(), many as u64, Links::NotFollowed)?)?;
    }
    Ok(opened)
}

/// All digests that could be made, or why one couldn't.
fn all_of(alloc: Global, digests: Vec<Option<io::Result<Digest>>>) -> io::Result<Vec<Digest>> {
    let mut all = Vec::with_capacity(alloc, digests.len())?;
    for digest in digests.into_iter().flatten() {
        all.push(digest?)?;
    }
    Ok(all)
}

/// Why a file can't be made in a folder, with what to do if that isn't there.
pub(crate) fn unmade(error: io::Error) -> io::Error {
    if error.kind() != ErrorKind::NotFound {
        return error;
    }
    io::Error::new(
        ErrorKind::NotFound,
        "isn't there: make this folder, or give --make-folders",
    )
}

/// A new file for the fragment of a name in the store, in the folder that it is to be in.
pub(crate) fn new_file<F: Folder>(
    rt: &HostRuntime,
    files: &mut F,
    target: &Target<'_>,
    name: &str,
    folder: &str,
) -> io::Result<NewFile<F::New>>
    ensures whenever { KeepsEach (F.calls files.old) (F.calls files.new) }
    ensures empty { IfOk result (λ new. content_of new ≡ Some []) }
{
    refuse_linked_folders(rt, target.folder, name, target.links)?;
    create_new(rt, files, folder)
}

/// What the system refused of a file that is encoded from one path, or of its fragments, at the other.
fn encode_fault(alloc: Global, source: &str, fragments: &str, fault: MendFault) -> FileFault {
    match fault {
        MendFault::OutOfMemory | MendFault::Several { .. } => FileFault::OutOfMemory,
        MendFault::Unread { error, .. } => source_fault(alloc, source, error),
        MendFault::Unwritten { error, .. } => device(alloc, fragments, error),
    }
}
