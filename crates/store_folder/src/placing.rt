//! Putting new files in their places. A file has no name that a fragment can have until it is whole and on the disk.
ghost use Rattle.std.specs.Prelude.{◌≡◌, [], IfOk, IsOkAnd, IsSome, IsSomeAnd, MatchResult, OnOk, Some, false, true, string_bytes};
ghost use Rattle.folders.specs.Disk.{HasWhole};
ghost use Rattle.folders.specs.Placed.{HasPath, WasRefused};
ghost use Rattle.folders.specs.Removed.{EndsByRemoving};
ghost use Rattle.store_folder.specs.Kept.{GivesOne, KeepsEach};
ghost use Rattle.store_folder.specs.Placed.{IsPlacedAt, content_of, outcome_by, path_of};
ghost use Rattle.store_folder.specs.Written.{PutsOne};
ghost use Rattle.store_folder.specs.Temporary.{is_temporary};

use crate::unfinished::{Unfinished, create_unfinished};
use folders::{
    Folder, NewFile as _, Rights, SystemFolder, SystemNew, place, place_over, remove_temporary,
};
use std::fs::{self, Metadata};
use std::io::{self, ErrorKind};
use stores::{NewFragment, Placed};

/// The rights of a new file that nobody but its user may read.
pub(crate) const PRIVATE: u32 = 0o600;

/// The rights of a new file where the user's mask takes none.
pub(crate) const OPEN: u32 = 0o666;

/// A file of a store gets no rights but these: none to run it, and none that its owner's or group's identity would go with.
const MOST_RIGHTS: u32 = 0o666;

/// A file that replaces one of its user's gets those to run it too.
const MOST_OF_REPLACED: u32 = 0o777;

/// A new file that gets a name in a store, or beside one.
#[derive(Drop)]
pub struct NewFile<N: folders::NewFile = SystemNew> {
    pub(crate) unfinished: Unfinished<N>,
}

/// Gives a file the owner and the group of another one, by what is said of that, and then its rights to read and write. Who may not give it
/// away keeps it, with the rights that it was made with. Says whether it was given.
pub(crate) fn take_after<N: folders::NewFile>(file: &N, rights: &Rights) -> io::Result<bool> {
    take_some(file, rights, MOST_RIGHTS)
}

/// The same with its rights that are among some.
fn take_some<N: folders::NewFile>(file: &N, rights: &Rights, most: u32) -> io::Result<bool> {
    match file.set_owner(rights) {
        Ok(()) => {}
        Err(error) if error.kind() == ErrorKind::PermissionDenied => return Ok(false),
        Err(error) => return Err(error),
    }
    file.set_mode(rights.mode & most)?;
    Ok(true)
}

impl<N: folders::NewFile> NewFragment for NewFile<N> {
    ghost shown = { λ f. N.written f.unfinished.file };

    fn append(&mut self, bytes: &[u8]) -> io::Result<()> {
        self.unfinished.append(bytes)
    }
}

impl NewFile {
    /// Gives the file the owner, the group and the rights of another one that it replaces, but none that its owner's or group's identity
    /// would go with. Who may not give it away keeps it as it is. Says whether it was given.
    pub fn take_after(&self, other: &Metadata) -> io::Result<bool> {
        take_some(&self.unfinished.file, &Rights::of(other), MOST_OF_REPLACED)
    }

    /// Gives the file an owner, a group and the rights to read and write. Who may not give it away keeps it as it is. Says whether it was
    /// given.
    pub fn take_rights(&self, rights: &Rights) -> io::Result<bool> {
        take_after(&self.unfinished.file, rights)
    }

    /// The path at which it is until it gets its name.
    pub fn path(&self) -> &str {
        self.unfinished.made_at.as_str()
    }

    /// Removes the file.
    pub fn discard(self, rt: &HostRuntime) -> io::Result<()> {
        discard_new(&mut SystemFolder::new(rt), self)
    }
}

/// A new file in a folder, with the rights that the user's mask leaves it.
pub fn create_new<F: Folder>(
    rt: &HostRuntime,
    files: &mut F,
    folder: &str,
) -> io::Result<NewFile<F::New>>
    ensures whenever { KeepsEach (F.calls files.old) (F.calls files.new) }
    ensures empty { IfOk result (λ new. content_of new ≡ Some []) }
{
    Ok(NewFile {
        unfinished: create_unfinished(rt, files, folder, "", OPEN)?,
    })
}

/// A new file in a folder, which nobody but its user may read.
pub fn create_private<F: Folder>(
    rt: &HostRuntime,
    files: &mut F,
    folder: &str,
) -> io::Result<NewFile<F::New>>
    ensures whenever { KeepsEach (F.calls files.old) (F.calls files.new) }
    ensures empty { IfOk result (λ new. content_of new ≡ Some []) }
{
    create_tagged(rt, files, folder, "")
}

/// The same with a tag in its temporary name, by which the next run of the same part of a store knows it.
pub fn create_tagged<F: Folder>(
    rt: &HostRuntime,
    files: &mut F,
    folder: &str,
    tag: &str,
) -> io::Result<NewFile<F::New>>
    ensures whenever { KeepsEach (F.calls files.old) (F.calls files.new) }
    ensures empty { IfOk result (λ new. content_of new ≡ Some []) }
{
    Ok(NewFile {
        unfinished: create_unfinished(rt, files, folder, tag, PRIVATE)?,
    })
}

/// Removes a new file, which gets no name.
pub fn discard_new<F: Folder>(files: &mut F, new: NewFile<F::New>) -> io::Result<()>
    ensures whenever { KeepsEach (F.calls files.old) (F.calls files.new) }
    ensures removed { OnOk result (EndsByRemoving (path_of new) (F.calls files.new)) }
{
    remove_temporary(files, new.unfinished.made_at.as_str())
}

/// Writes a file to the disk and gives it the name at a path, if nothing is there. Whenever that ends, each path but temporary ones has
/// what it had, or, if it had nothing and is this one, all the bytes of the file. The name may still have to be written to the disk. After
/// Ok the path at which the file was made is taken away.
///
/// # Errors
///
/// Bytes of the file are missing, or it couldn't be written to the disk, get the name, or lose the one that it was made at.
pub fn place_new<F: Folder>(files: &mut F, new: NewFile<F::New>, path: &str) -> io::Result<Placed>
    ensures whenever { GivesOne path.now (content_of new) (F.calls files.old) (F.calls files.new) }
    ensures placed { is_temporary path.now ≡ false
        → IfOk result (IsPlacedAt path.now (content_of new) (F.calls files.new)) }
    ensures removed { OnOk result (EndsByRemoving (path_of new) (F.calls files.new)) }
{
    let Tried { made_at, placed } = try_path(files, new.unfinished, path);
    match remove_temporary(files, made_at.as_str()) {
        Ok(()) => outcome_of(placed),
        Err(error) => Err(error),
    }
}

/// What became of a file that was to get a path, by what the system answered.
fn outcome_of<W: Drop>(tried: io::Result<folders::Placed<W>>) -> io::Result<Placed>
    ensures { IfOk result (λ outcome. IsOkAnd tried (λ placed. outcome ≡ outcome_by placed.answer)) }
{
    match tried?.answer {
        Ok(()) => Ok(Placed::Placed),
        Err(error) if error.kind() == ErrorKind::AlreadyExists => Ok(Placed::IsThere),
        Err(error) => Err(error),
    }
}

/// What became of an unfinished file that was to get a path. It still has the one that it was made at.
#[derive(Drop)]
pub(crate) struct Tried<W> {
    pub(crate) made_at: String,
    pub(crate) placed: io::Result<folders::Placed<W>>,
    ghost temporary: { is_temporary (string_bytes made_at) ≡ true },
}

/// Writes a file to the disk and gives it a path at which nothing is, if no bytes of it are missing.
pub(crate) fn try_path<F: Folder>(
    files: &mut F,
    new: Unfinished<F::New>,
    path: &str,
) -> Tried<F::Whole>
    ensures whenever { GivesOne path.now (F.New.written new.file) (F.calls files.old) (F.calls files.new) }
    ensures given { IfOk result.placed (λ placed. MatchResult placed.answer (λ _. HasPath path.now (F.New.written new.file)
        (F.calls files.new)) (λ _. WasRefused path.now (F.calls files.new))) }
    ensures some { IfOk result.placed (λ _. IsSome (F.New.written new.file)) }
    ensures same { string_bytes result.made_at ≡ string_bytes new.made_at }
{
    let whole = new.refuse_part();
    let Unfinished { file, made_at, .. } = new;
    let placed = place_whole(files, whole, file, path);
    Tried { made_at, placed }
}

/// Gives a file a path if it was found to be whole.
fn place_whole<F: Folder>(
    files: &mut F,
    whole: io::Result<()>,
    file: F::New,
    path: &str,
) -> io::Result<folders::Placed<F::Whole>>
    requires { IfOk whole (λ _. IsSome (F.New.written file)) }
    ensures whenever { GivesOne path.now (F.New.written file) (F.calls files.old) (F.calls files.new) }
    ensures given { IfOk result (λ placed. MatchResult placed.answer (λ _. HasPath path.now (F.New.written file) (F.calls files.new))
        (λ _. WasRefused path.now (F.calls files.new))) }
    ensures some { IfOk result (λ _. IsSome (F.New.written file)) }
{
    match whole {
        Ok(()) => place(files, file, path),
        Err(error) => Err(error),
    }
}

/// Writes a file to the disk and gives it the name at a path, in place of the file that has it, if one does. Whenever that ends, the path
/// has what it had, or all the bytes of the file, and no other path changes but temporary ones. The name may still have to be written to
/// the disk.
///
/// # Errors
///
/// Bytes of the file are missing, or it couldn't be written to the disk or get the name. Then it is removed.
pub fn place_again<F: Folder>(files: &mut F, new: NewFile<F::New>, path: &str) -> io::Result<()>
    ensures whenever { PutsOne path.now (content_of new) (F.calls files.old) (F.calls files.new) }
    ensures given { OnOk result (IsSomeAnd (content_of new) (λ bytes. HasWhole path.now bytes (F.calls files.new))) }
{
    match new.unfinished.refuse_part() {
        Ok(()) => place_whole_over(files, new.unfinished, path),
        Err(error) => {
            discard_new(files, new)?;
            Err(error)
        }
    }
}

/// Writes a whole file to the disk and gives it a path in place of what is there. A file that doesn't get the path is taken away.
pub(crate) fn place_whole_over<F: Folder>(
    files: &mut F,
    new: Unfinished<F::New>,
    path: &str,
) -> io::Result<()>
    requires { IsSome (F.New.written new.file) }
    ensures whenever { PutsOne path.now (F.New.written new.file) (F.calls files.old) (F.calls files.new) }
    ensures given { OnOk result (HasPath path.now (F.New.written new.file) (F.calls files.new)) }
{
    let Unfinished { file, made_at, .. } = new;
    match place_over(files, file, path) {
        Ok(()) => Ok(()),
        Err(error) => {
            files.remove(made_at.as_str())?;
            Err(error)
        }
    }
}

/// Writes the names of a folder to the disk.
pub fn sync_folder(rt: &HostRuntime, folder: &str) -> io::Result<()> {
    fs::open(rt, folder)?.sync_all()
}
