//! A store in a folder. A fragment has no name that another one can have until it is whole and on the disk.
ghost use Rattle.std.specs.Prelude.{◌≡◌, ◌⊎◌, [], true, false, ℕ, List, IfOk, IfSome, OnOk, IsSome, Some, string_bytes};
ghost use Rattle.folders.specs.Disk.{IsOnDisk};
ghost use Rattle.folders.specs.Files.{IsIn};
ghost use Rattle.folders.specs.Placed.{WasRefused};
ghost use Rattle.store_folder.specs.Apart.{AreApart, apart_changed, apart_kept};
ghost use Rattle.store_folder.specs.Changed.{IsChangedIn};
ghost use Rattle.store_folder.specs.ChangedOver.{changed_over, none_changed_in};
ghost use Rattle.store_folder.specs.Digests.{HasSum, IsAsListed};
ghost use Rattle.store_folder.specs.Done.{HasFolderOf, HaveFoldersOf, IsDue, IsNamed, IsSettled};
ghost use Rattle.store_folder.specs.Kept.{GivesIn, GivesOne, IsKeptIn, IsPathOf, KeepsEach, none_kept};
ghost use Rattle.store_folder.specs.Stays.{settled_over};
ghost use Rattle.store_folder.specs.Temporary.{is_temporary};
ghost use Rattle.stores.specs.Store.{never};

use crate::links::{Links, followed_in, refuse_linked_in};
use crate::placing::{Tried, take_after, try_path};
use crate::site::Site;
use crate::surviving::{FileFragment, open_fragment_in};
use crate::syncing::Touched;
use crate::unfinished::Unfinished;
use crate::unfinished_file::{UnfinishedFile, create_file};
use folders::{Folder, SystemFolder, folder_of, remove_temporary};
use lrc_code::Place;
use std::alloc::{AllocError, Global};
use std::io::{self, ErrorKind};
use store_names::{is_free, path_in};
use stores::{NameFault, Placed, Refused, Store};

/// A store in a folder, as one thread works in it. Whenever one of its calls ends, by a crash or by itself, each path of the folder has
/// what it had, or all the bytes of a file that was put on the disk.
pub struct FolderStore<'a, F: Folder> {
    pub(crate) rt: &'a HostRuntime,
    pub(crate) files: F,
    pub(crate) site: Site<'a>,
    touched: Touched,
    /// An unfinished file that could not be removed, and why.
    leftover: Option<NameFault>,
}

impl<F: Folder + Drop> Drop for FolderStore<'_, F> {
    fn drop(self) {
        let FolderStore {
            rt: _,
            files: _,
            site: _,
            touched: _,
            leftover: _,
        } = self;
    }
}

impl<'a> FolderStore<'a, SystemFolder<'a>> {
    /// A store at a site of the system's file system.
    pub fn new(rt: &'a HostRuntime, site: Site<'a>) -> FolderStore<'a, SystemFolder<'a>>
        ensures { result.site ≡ site.entry }
    {
        FolderStore::over(rt, SystemFolder::new(rt), site)
    }
}

impl<'a, F: Folder> FolderStore<'a, F> {
    /// A store at a site of a file system.
    pub fn over(rt: &'a HostRuntime, files: F, site: Site<'a>) -> FolderStore<'a, F>
        ensures site { result.site ≡ site.entry }
        ensures files { result.files ≡ files }
    {
        FolderStore {
            rt,
            files,
            site,
            touched: Touched::new(rt.alloc()),
            leftover: None,
        }
    }

    /// The file system that it worked on.
    pub fn into_files(self) -> F
        ensures { result ≡ self.entry.files }
    {
        let FolderStore {
            rt: _,
            files,
            site: _,
            touched: _,
            leftover: _,
        } = self;
        files
    }

    /// The path of a fragment in a folder, if it has a name.
    pub(crate) fn path_of(&self, folder: &str, stripe: &str, place: Place) -> io::Result<String> {
        let name = self.site.name_of(self.rt.alloc(), stripe, place)?;
        Ok(path_in(self.rt.alloc(), folder, name.as_str())?)
    }

    /// A new fragment for a place of a stripe, in a file under a temporary name.
    pub fn new_fragment(&mut self, stripe: &str, place: Place) -> io::Result<UnfinishedFile<F::New>>
        ensures site { self.new.site ≡ self.old.site }
        ensures touched { self.new.touched ≡ self.old.touched }
        ensures whenever { KeepsEach (F.calls self.old.files) (F.calls self.new.files) }
        ensures empty { IfOk result (λ new. F.New.written new.unfinished.file ≡ Some []) }
    {
        let sum = self.site.sum_of(self.rt.alloc(), stripe, place)?;
        let path = self.new_path(stripe, place)?;
        let tag = self.site.tag;
        create_file(
            self.rt,
            &mut self.files,
            folder_of(path.as_str()),
            tag,
            sum.is_some(),
        )
    }

    /// The path that a new fragment is to have.
    fn new_path(&self, stripe: &str, place: Place) -> io::Result<String>
        ensures path { IfOk result (λ path. IsPathOf self.now.site stripe.now place (string_bytes path)) }
        ensures lasting { IfOk result (λ path. is_temporary (string_bytes path) ≡ false) }
    {
        let path = self.named_path(stripe, place)?;
        if is_free(path.as_str()) {
            return Ok(path);
        }
        Err(io::Error::from(ErrorKind::InvalidInput))
    }

    /// The path of a fragment that is to be made.
    fn named_path(&self, stripe: &str, place: Place) -> io::Result<String>
        ensures { IfOk result (λ path. IsPathOf self.now.site stripe.now place (string_bytes path)) }
    {
        let alloc = self.rt.alloc();
        let site = self.site;
        let name = self.site.name_of(self.rt.alloc(), stripe, place)?;
        site.refuse_name(alloc, name.as_str(), false)?;
        refuse_linked_in(alloc, &self.files, site.target, name.as_str(), site.links)?;
        let named = path_in(alloc, site.target, name.as_str())?;
        match site.links {
            Links::NotFollowed => Ok(named),
            Links::Followed => followed_in(alloc, &self.files, named),
        }
    }

    /// Gives a fragment its name, if nothing is there, and else discards it. Whenever that ends, each path but temporary ones has what it
    /// had, or, if it had nothing and is the fragment's, all the bytes of the file, which is on the disk; `sync_names` puts the name there.
    pub fn place_fragment(
        &mut self,
        file: UnfinishedFile<F::New>,
        stripe: &str,
        place: Place,
    ) -> io::Result<Placed>
        ensures site { self.new.site ≡ self.old.site }
        ensures whenever { GivesIn self.old.site stripe.now place (F.New.written file.unfinished.file) (F.calls self.old.files)
            (F.calls self.new.files) }
        ensures touched { HaveFoldersOf self.old.touched.folders.items self.new.touched.folders.items }
        ensures named { IfOk result (λ placed. placed ≡ Placed.Placed → IsNamed self.old.site stripe.now place
            (F.New.written file.unfinished.file) self.new.touched.folders.items (F.calls self.new.files)) }
    {
        let mut file = file;
        let finished = self.finish(&mut file, stripe, place);
        let UnfinishedFile { unfinished, .. } = file;
        match finished {
            Ok(path) => self.link(unfinished, path.as_str()),
            Err(error) => Err(self.given_up(unfinished, error)),
        }
    }

    /// Removes a fragment that has no name. What can't be removed is said by `sync_names`.
    pub fn discard_fragment(&mut self, file: UnfinishedFile<F::New>)
        ensures site { self.new.site ≡ self.old.site }
        ensures touched { self.new.touched ≡ self.old.touched }
        ensures whenever { KeepsEach (F.calls self.old.files) (F.calls self.new.files) }
    {
        let UnfinishedFile { unfinished, .. } = file;
        let Unfinished { made_at, .. } = unfinished;
        self.remove(made_at);
    }

    /// Writes the names that were given to the disk, and says what was left over since it was called last.
    pub fn sync_names(&mut self) -> Result<(), NameFault>
        ensures site { self.new.site ≡ self.old.site }
        ensures whenever { KeepsEach (F.calls self.old.files) (F.calls self.new.files) }
        ensures done { OnOk result ((path bytes : List ℕ) → is_temporary path ≡ false
            → IsDue self.old.touched.folders.items (F.calls self.old.files) path bytes → IsOnDisk path bytes (F.calls self.new.files)) }
    {
        self.touched.sync(&mut self.files)?;
        match self.leftover.take() {
            Some(fault) => Err(fault),
            None => Ok(()),
        }
    }

    /// Makes a whole file ready for its name, which it says: it has the bytes that it has to have, and the owner and rights of its stripe's
    /// other files.
    pub(crate) fn finish(
        &self,
        file: &mut UnfinishedFile<F::New>,
        stripe: &str,
        place: Place,
    ) -> io::Result<String>
        ensures same { file.new.unfinished ≡ file.old.unfinished }
        ensures whole { IfOk result (λ _. IsSome (F.New.written file.new.unfinished.file)) }
        ensures listed { IfOk result (λ _. IsAsListed self.now.site stripe.now place (F.New.written file.new.unfinished.file)) }
        ensures path { IfOk result (λ path. IsPathOf self.now.site stripe.now place (string_bytes path)) }
        ensures lasting { IfOk result (λ path. is_temporary (string_bytes path) ≡ false) }
    {
        let sum = self.site.sum_of(self.rt.alloc(), stripe, place)?;
        file.refuse_part(sum)?;
        if let Some(rights) = self.rights_of(stripe, place)? {
            take_after(&file.unfinished.file, &rights)?;
        }
        self.new_path(stripe, place)
    }

    /// Gives a whole file its name, if nothing is there, and takes away the one that it was made at.
    fn link(&mut self, new: Unfinished<F::New>, path: &str) -> io::Result<Placed>
        ensures site { self.new.site ≡ self.old.site }
        ensures whenever { GivesOne path.now (F.New.written new.file) (F.calls self.old.files) (F.calls self.new.files) }
        ensures touched { HaveFoldersOf self.old.touched.folders.items self.new.touched.folders.items }
        ensures due { IfOk result (λ placed. placed ≡ Placed.Placed → is_temporary path.now ≡ false
            → WasRefused path.now (F.calls self.new.files)
            ⊎ IfSome (F.New.written new.file) (IsDue self.new.touched.folders.items (F.calls self.new.files) path.now)) }
    {
        let Tried { made_at, placed } = try_path(&mut self.files, new, path);
        match placed {
            Ok(
                folders::Placed {
                    file: _held,
                    answer,
                },
            ) => {
                let placed = self.outcome(answer, made_at.as_str(), path);
                self.remove(made_at);
                placed
            }
            Err(error) => {
                self.remove(made_at);
                Err(error)
            }
        }
    }

    /// What became of a file that was to get a name, by what the system answered.
    fn outcome(&mut self, answer: io::Result<()>, made_at: &str, path: &str) -> io::Result<Placed>
        ensures site { self.new.site ≡ self.old.site }
        ensures calls { F.calls self.new.files ≡ F.calls self.old.files }
        ensures touched { HaveFoldersOf self.old.touched.folders.items self.new.touched.folders.items }
        ensures noted { IfOk result (λ placed. placed ≡ Placed.Placed → HasFolderOf path.now self.new.touched.folders.items) }
    {
        if !self.has_name(answer, made_at, path)? {
            return Ok(Placed::IsThere);
        }
        self.touch(folder_of(path))?;
        Ok(Placed::Placed)
    }

    /// Notes that a name was given in a folder.
    pub(crate) fn touch(&mut self, folder: &str) -> Result<(), AllocError>
        ensures site { self.new.site ≡ self.old.site }
        ensures calls { F.calls self.new.files ≡ F.calls self.old.files }
        ensures touched { HaveFoldersOf self.old.touched.folders.items self.new.touched.folders.items }
        ensures noted { IfOk result (λ _. (path : List ℕ) → IsIn folder.now path → HasFolderOf path self.new.touched.folders.items) }
    {
        self.touched.note(self.rt.alloc(), folder)
    }

    /// Removes an unfinished file after a failure.
    pub(crate) fn given_up(&mut self, new: Unfinished<F::New>, error: io::Error) -> io::Error
        ensures site { self.new.site ≡ self.old.site }
        ensures touched { self.new.touched ≡ self.old.touched }
        ensures whenever { KeepsEach (F.calls self.old.files) (F.calls self.new.files) }
    {
        let Unfinished { made_at, .. } = new;
        self.remove(made_at);
        error
    }

    /// Removes an unfinished file. What could not be removed is said when names are written to the disk.
    pub(crate) fn remove(&mut self, name: String)
        requires { is_temporary (string_bytes name) ≡ true }
        ensures site { self.new.site ≡ self.old.site }
        ensures touched { self.new.touched ≡ self.old.touched }
        ensures whenever { KeepsEach (F.calls self.old.files) (F.calls self.new.files) }
    {
        if let Err(error) = remove_temporary(&mut self.files, name.as_str()) {
            self.leftover = Some(NameFault { name, error });
        }
    }
}

impl<F: Folder> Store for FolderStore<'_, F> {
    type Survivor = FileFragment<F::Open>;

    type New = UnfinishedFile<F::New>;

    ghost kept = { λ stripe given old new. IsKeptIn stripe given old.site new.site (F.calls old.files) (F.calls new.files) };

    ghost kept_same = { λ stripe given s. none_kept stripe given s.site (F.calls s.files) };

    ghost changed = { λ stripe given old new. IsChangedIn stripe given old.site new.site (F.calls old.files)
        (F.calls new.files) };

    ghost changed_same = { λ stripe s. none_changed_in stripe s.site (F.calls s.files) };

    ghost got_name = { λ s stripe place written. IsNamed s.site stripe place written s.touched.folders.items (F.calls s.files) };

    ghost settled = { λ s stripe place written. IsSettled s.site stripe place written (F.calls s.files) };

    ghost apart = { λ s. AreApart s.site };

    ghost new_shown = { λ s f h. never h };

    ghost changed_then = { λ stripe given more all old mid new leads widens changes keeps. changed_over stripe given more all old.site
        mid.site new.site (F.calls old.files) (F.calls mid.files) (F.calls new.files) leads widens changes keeps };

    ghost kept_apart = { λ stripe given old new kept. apart_kept stripe given old.site new.site (F.calls old.files) (F.calls new.files)
        kept };

    ghost changed_apart = { λ stripe given old new changed. apart_changed stripe given old.site new.site (F.calls old.files)
        (F.calls new.files) changed };

    ghost settled_stays = { λ stripe given old new kept. settled_over stripe given old.site new.site (F.calls old.files)
        (F.calls new.files) kept };

    ghost listed = { λ s stripe place. HasSum s.site stripe place };

    fn open(&self, stripe: &str, place: Place, length: usize) -> io::Result<FileFragment<F::Open>> {
        let path = self.path_of(self.site.folder, stripe, place)?;
        open_fragment_in(&self.files, path.as_str(), length as u64, self.site.links)
    }

    fn refused(
        &self,
        alloc: Global,
        stripe: &str,
        length: usize,
        fragments: &[Option<FileFragment<F::Open>>],
    ) -> Result<Vec<Refused>, AllocError> {
        self.refused_fragments(alloc, stripe, length, fragments)
    }

    fn is_listed(&self, stripe: &str, place: Place) -> Result<bool, AllocError> {
        self.has_digest_of(stripe, place)
    }

    fn is_as_listed(
        &self,
        file: &UnfinishedFile<F::New>,
        stripe: &str,
        place: Place,
    ) -> Result<bool, AllocError> {
        self.is_fragment_as_listed(file, stripe, place)
    }

    fn create(&mut self, stripe: &str, place: Place) -> io::Result<UnfinishedFile<F::New>> {
        self.new_fragment(stripe, place)
    }

    fn place(
        &mut self,
        file: UnfinishedFile<F::New>,
        stripe: &str,
        place: Place,
    ) -> io::Result<Placed> {
        self.place_fragment(file, stripe, place)
    }

    fn replace(
        &mut self,
        file: UnfinishedFile<F::New>,
        stripe: &str,
        place: Place,
    ) -> io::Result<Placed> {
        self.replace_fragment(file, stripe, place)
    }

    fn discard(&mut self, file: UnfinishedFile<F::New>) -> io::Result<()> {
        self.discard_fragment(file);
        Ok(())
    }

    fn settle(&mut self) -> Result<(), NameFault> {
        self.sync_names()
    }
}
