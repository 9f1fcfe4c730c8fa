//! Giving what was made its name in the store, unless that is taken.
ghost use Rattle.std.specs.Prelude.{◌≡◌, ◌∷◌, ◌++◌, OnOk, false};
ghost use Rattle.store_folder.specs.Done.{HaveFoldersOf};
ghost use Rattle.store_folder.specs.Kept.{GivesOne, KeepsEach};
ghost use Rattle.store_folder.specs.Placed.{content_of};
ghost use Rattle.store_folder.specs.Temporary.{is_temporary};
ghost use Rattle.store_encoding.specs.Encoded.{AreDone, AreThere, GivesEach, IsDueAt, contents_of};

use crate::encoding::failures::after_discarding;
use crate::refusing::refused;
use folders::{Folder, SystemNew};
use std::io;
use store_faults::{FileFault, device, say};
use store_files::{Target, digest_at, is_lost, is_there};
use store_folder::{
    Digest, Links, NewFile, Placed, Touched, discard_new, folder_of, is_absent, place_new,
};
use store_progress::Progress;
use store_repair::NameFault;

/// In so many folders a stripe's fragments are at most.
const MOST_FOLDERS: usize = 16;

/// A new file, whole, and its digest.
#[derive(Drop)]
pub(crate) struct Made<N: folders::NewFile = SystemNew> {
    pub(crate) file: NewFile<N>,
    pub(crate) digest: Digest,
}

/// What is under a name.
#[derive(Clone, Copy)]
enum There {
    Nothing,
    TheSame,
    /// A link that is followed leads to nothing.
    LinkToNothing,
    Another,
}

/// That a name of the store is taken.
pub(crate) fn is_there_already(rt: &HostRuntime, name: &str) -> FileFault {
    refused(format!(in rt.alloc();
        "{name}: is there already, with other bytes: --replace replaces the file"
    ))
}

/// That a name of the store is that of a link which leads to nothing.
fn leads_to_nothing(rt: &HostRuntime, name: &str) -> FileFault {
    refused(format!(in rt.alloc();
        "{name}: is a link to nothing, and nothing is encoded where it leads"
    ))
}

/// Removes new files, all that can be removed.
fn discard_all<F: Folder>(
    rt: &HostRuntime,
    files: &mut F,
    folder: &str,
    made: Vec<Made<F::New>>,
) -> Result<(), FileFault>
    ensures { KeepsEach (F.calls files.old) (F.calls files.new) }
{
    let mut done: io::Result<()> = Ok(());
    'made: for one in made {
        done = discard_new(files, one.file).and(done);
    }
    match done {
        Ok(()) => Ok(()),
        Err(error) => Err(device(rt.alloc(), folder, error)),
    }
}

/// What is under the name at a path, beside a file of a length and a digest. What can't be read may be the same.
fn what_is_there(
    rt: &HostRuntime,
    path: &str,
    length: u64,
    digest: &Digest,
    links: Links,
) -> Result<There, FileFault> {
    if !is_there(rt, path)? {
        return Ok(There::Nothing);
    }
    match digest_at(rt, path, length, links) {
        Ok(found) if found == *digest => Ok(There::TheSame),
        Err(error) if is_absent(error.kind()) => Ok(There::LinkToNothing),
        Err(error) if !is_lost(error.kind()) => Err(device(rt.alloc(), path, error)),
        _ => Ok(There::Another),
    }
}

/// Gives each fragment the name at its index, unless it is there. Where another file has one of the names, none gets its own. Whenever that
/// ends, each path but temporary ones has what it had, or, if it had nothing and is that of one of the names, all the bytes of its file.
/// Once it is done, each name that didn't have its bytes before has them, and each crash leaves them there.
pub(crate) fn place_fragments<F: Folder>(
    rt: &HostRuntime,
    files: &mut F,
    target: &mut Target<'_>,
    progress: &Progress,
    names: &[String],
    length: usize,
    made: Vec<Made<F::New>>,
) -> Result<(), FileFault>
    ensures folder { target.new.folder ≡ target.old.folder }
    ensures whenever { GivesEach target.old.folder.now names.now (contents_of made.items) (F.calls files.old) (F.calls files.new) }
    ensures done { OnOk result (AreThere target.old.folder.now names.now (contents_of made.items) (F.calls files.new)) }
{
    match first_taken(rt, target, names, length, made.as_slice()) {
        Ok(None) => place_each(rt, files, target, progress, names, length, made),
        Ok(Some(taken)) => {
            let removed = discard_all(rt, files, target.folder, made);
            Err(after_discarding(rt, progress, taken, removed))
        }
        Err(fault) => Err(after_discarding(
            rt,
            progress,
            fault,
            discard_all(rt, files, target.folder, made),
        )),
    }
}

/// Gives each file the name at its index, unless it is there, and writes the names to the disk. After a failure the others are removed.
fn place_each<F: Folder>(
    rt: &HostRuntime,
    files: &mut F,
    target: &mut Target<'_>,
    progress: &Progress,
    names: &[String],
    length: usize,
    made: Vec<Made<F::New>>,
) -> Result<(), FileFault>
    ensures folder { target.new.folder ≡ target.old.folder }
    ensures whenever { GivesEach target.old.folder.now names.now (contents_of made.items) (F.calls files.old) (F.calls files.new) }
    ensures done { OnOk result (AreThere target.old.folder.now names.now (contents_of made.items) (F.calls files.new)) }
{
    let mut touched = Touched::new(rt.alloc());
    let mut refused = None;
    'names: for (name, one) in names.iter().zip(made) {
        if refused.is_some() {
            // The next run removes what can't be removed now.
            let _ = discard_new(files, one.file);
            continue;
        }
        refused = place_one(
            rt,
            files,
            target,
            &mut touched,
            name.as_str(),
            length as u64,
            one,
        )
        .err();
    }
    match refused {
        Some(fault) => Err(fault),
        None => sync_names(rt, files, Some(progress), touched),
    }
}

/// Writes names that were given to the disk. Of several folders that can't be written all but the one that is given are said, in place of
/// the line that shows how far the command is, if there is one.
pub(crate) fn sync_names<F: Folder>(
    rt: &HostRuntime,
    files: &mut F,
    progress: Option<&Progress>,
    touched: Touched,
) -> Result<(), FileFault>
    ensures whenever { KeepsEach (F.calls files.old) (F.calls files.new) }
    ensures done { OnOk result (AreDone touched.folders.items (F.calls files.old) (F.calls files.new)) }
{
    let mut touched = touched;
    match touched.sync(files) {
        Ok(()) => Ok(()),
        Err(fault) => {
            say_rest(rt, files, progress, &mut touched);
            Err(unsynced(rt, fault))
        }
    }
}

/// Says which other folders couldn't be written to the disk, once one couldn't.
fn say_rest<F: Folder>(
    rt: &HostRuntime,
    files: &mut F,
    progress: Option<&Progress>,
    touched: &mut Touched,
)
    ensures { KeepsEach (F.calls files.old) (F.calls files.new) }
{
    'folders: for _more in 0..MOST_FOLDERS {
        say_next(rt, files, progress, touched);
    }
}

/// Says the next of them, if there is one.
fn say_next<F: Folder>(
    rt: &HostRuntime,
    files: &mut F,
    progress: Option<&Progress>,
    touched: &mut Touched,
)
    ensures { KeepsEach (F.calls files.old) (F.calls files.new) }
{
    if let Err(fault) = touched.sync(files) {
        if let Some(progress) = progress {
            progress.clear(rt);
        }
        let fault = unsynced(rt, fault);
        let _ = say(rt, format!(in rt.alloc(); "rebuild-store: {fault}"));
        drop(fault);
    }
}

/// That a folder couldn't be written to the disk.
fn unsynced(rt: &HostRuntime, fault: NameFault) -> FileFault {
    let NameFault { name, error } = fault;
    device(rt.alloc(), name.as_str(), error)
}

/// That the first of the names is taken under which there is another file than the one at its index.
fn first_taken<N: folders::NewFile>(
    rt: &HostRuntime,
    target: &Target<'_>,
    names: &[String],
    length: usize,
    made: &[Made<N>],
) -> Result<Option<FileFault>, FileFault> {
    for (name, made_file) in names.iter().zip(made.iter()) {
        let path = target.path(rt.alloc(), name.as_str())?;
        let digest = made_file.digest;
        let there = what_is_there(rt, path.as_str(), length as u64, &digest, target.links)?;
        match there {
            There::Nothing | There::TheSame => {}
            There::LinkToNothing => return Ok(Some(leads_to_nothing(rt, name.as_str()))),
            There::Another => return Ok(Some(is_there_already(rt, name.as_str()))),
        }
    }
    Ok(None)
}

/// Gives a file its name, unless it is there, and notes its digest, and its folder, whose names are still to be written to the disk.
pub(crate) fn place_one<F: Folder>(
    rt: &HostRuntime,
    files: &mut F,
    target: &mut Target<'_>,
    touched: &mut Touched,
    name: &str,
    length: u64,
    made: Made<F::New>,
) -> Result<(), FileFault>
    ensures folder { target.new.folder ≡ target.old.folder }
    ensures whenever { GivesOne (target.old.folder.now ++ 47 ∷ name.now) (content_of made.file) (F.calls files.old) (F.calls files.new) }
    ensures had { HaveFoldersOf touched.old.folders.items touched.new.folders.items }
    ensures due { OnOk result (is_temporary (target.old.folder.now ++ 47 ∷ name.now) ≡ false
        → IsDueAt touched.new.folders.items (F.calls files.new) (target.old.folder.now ++ 47 ∷ name.now) (content_of made.file)) }
{
    let alloc = rt.alloc();
    let Ok(path) = target.path(alloc, name) else {
        let _ = discard_new(files, made.file);
        return Err(FileFault::OutOfMemory);
    };
    let digest = made.digest;
    match place_new(files, made.file, path.as_str()) {
        Ok(placed) => {
            touched.note(alloc, folder_of(path.as_str()))?;
            note_placed(rt, target, name, length, digest, placed)
        }
        Err(error) => Err(device(alloc, path.as_str(), error)),
    }
}

/// Notes the digest of a file that was to get a name, if the name has it or a file of the same bytes.
fn note_placed(
    rt: &HostRuntime,
    target: &mut Target<'_>,
    name: &str,
    length: u64,
    digest: Digest,
    placed: Placed,
) -> Result<(), FileFault>
    ensures { target.new.folder ≡ target.old.folder }
{
    let alloc = rt.alloc();
    if placed == Placed::IsThere {
        let path = target.path(alloc, name)?;
        let there = what_is_there(rt, path.as_str(), length, &digest, target.links)?;
        if !matches!(there, There::TheSame) {
            return Err(is_there_already(rt, name));
        }
    }
    if target.sums.digest_of(name).copied() != Some(digest) {
        target.sums.set(alloc, name, digest)?;
        target.is_changed = true;
    }
    Ok(())
}
