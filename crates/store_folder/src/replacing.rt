//! Replacing a fragment, which is kept under its second name.
ghost use Rattle.std.specs.Prelude.{◌≡◌, ◌⊎◌, true, false, IfOk, IfSome, IsSome, string_bytes};
ghost use Rattle.folders.specs.Placed.{HasPath};
ghost use Rattle.store_folder.specs.Digests.{IsAsListed};
ghost use Rattle.store_folder.specs.Done.{HaveFoldersOf, IsDue, IsNamed};
ghost use Rattle.store_folder.specs.Kept.{IsPathOf, KeepsEach};
ghost use Rattle.store_folder.specs.Replaced.{ReplacesIn, ReplacesOne, second_path};
ghost use Rattle.store_folder.specs.Temporary.{is_temporary};

use crate::folder_store::FolderStore;
use crate::unfinished::Unfinished;
use crate::unfinished_file::UnfinishedFile;
use folders::{Exchanged, Folder, exchange, folder_of};
use lrc_code::Place;
use std::alloc::Global;
use std::io::{self, ErrorKind};
use store_names::{KEPT, is_free};
use stores::Placed;

impl<F: Folder> FolderStore<'_, F> {
    /// Gives a fragment the name of one that is there, which is kept under its second name; if one is kept there already, the new one is
    /// discarded. Whenever that ends, the fragment's path has what it had, or all the bytes of the new file, and then what was there is
    /// at its second path. Whole files at other paths but temporary ones stay there. If it got its name, `sync_names` puts that on the
    /// disk.
    pub fn replace_fragment(
        &mut self,
        file: UnfinishedFile<F::New>,
        stripe: &str,
        place: Place,
    ) -> io::Result<Placed>
        ensures site { self.new.site ≡ self.old.site }
        ensures whenever { ReplacesIn self.old.site stripe.now place (F.New.written file.unfinished.file) (F.calls self.old.files)
            (F.calls self.new.files) }
        ensures touched { HaveFoldersOf self.old.touched.folders.items self.new.touched.folders.items }
        ensures named { IfOk result (λ placed. placed ≡ Placed.Placed → IsNamed self.old.site stripe.now place
            (F.New.written file.unfinished.file) self.new.touched.folders.items (F.calls self.new.files)) }
    {
        let mut file = file;
        let finished = self.finish_over(&mut file, stripe, place);
        let UnfinishedFile { unfinished, .. } = file;
        match finished {
            Ok(path) => self.exchange(unfinished, path.as_str()),
            Err(error) => Err(self.given_up(unfinished, error)),
        }
    }

    /// Makes a whole file ready for the name of one that is there, which it says, unless another name leads to that too.
    fn finish_over(
        &self,
        file: &mut UnfinishedFile<F::New>,
        stripe: &str,
        place: Place,
    ) -> io::Result<String>
        ensures same { file.new.unfinished ≡ file.old.unfinished }
        ensures whole { IfOk result (λ _. IsSome (F.New.written file.new.unfinished.file)) }
        ensures listed { IfOk result (λ _. IsAsListed self.now.site stripe.now place (F.New.written file.new.unfinished.file)) }
        ensures path { IfOk result (λ path. IsPathOf self.now.site stripe.now place (string_bytes path)) }
        ensures lasting { IfOk result (λ path. is_temporary (string_bytes path) ≡ false) }
    {
        match self.site.refusal(self.rt.alloc(), stripe, place, true)? {
            Some(error) => Err(error),
            None => self.finish(file, stripe, place),
        }
    }

    /// Gives a whole file the path of another one, which its second path keeps.
    fn exchange(&mut self, new: Unfinished<F::New>, path: &str) -> io::Result<Placed>
        requires { is_temporary path.now ≡ false }
        ensures site { self.new.site ≡ self.old.site }
        ensures whenever { KeepsEach (F.calls self.old.files) (F.calls self.new.files)
            ⊎ ReplacesOne path.now (F.New.written new.file) (F.calls self.old.files) (F.calls self.new.files) }
        ensures touched { HaveFoldersOf self.old.touched.folders.items self.new.touched.folders.items }
        ensures due { IfOk result (λ placed. placed ≡ Placed.Placed
            → IfSome (F.New.written new.file) (IsDue self.new.touched.folders.items (F.calls self.new.files) path.now)) }
    {
        match second_of(self.rt.alloc(), path) {
            Ok(second) => self.exchange_at(new, path, second.as_str()),
            Err(error) => Err(self.given_up(new, error)),
        }
    }

    /// The same with the second path, and takes away the one that the file was made at.
    fn exchange_at(
        &mut self,
        new: Unfinished<F::New>,
        path: &str,
        second: &str,
    ) -> io::Result<Placed>
        requires path { is_temporary path.now ≡ false }
        requires second { (second.now ≡ second_path path.now) × (is_temporary second.now ≡ false) }
        ensures site { self.new.site ≡ self.old.site }
        ensures whenever { ReplacesOne path.now (F.New.written new.file) (F.calls self.old.files) (F.calls self.new.files) }
        ensures touched { HaveFoldersOf self.old.touched.folders.items self.new.touched.folders.items }
        ensures due { IfOk result (λ placed. placed ≡ Placed.Placed
            → IfSome (F.New.written new.file) (IsDue self.new.touched.folders.items (F.calls self.new.files) path.now)) }
    {
        let Tried { made_at, exchanged } = try_exchange(&mut self.files, new, path, second);
        match exchanged {
            Ok(exchanged) if exchanged.is_done => {
                self.touch(folder_of(path))?;
                Ok(Placed::Placed)
            }
            Ok(_) => {
                self.remove(made_at);
                Ok(Placed::IsThere)
            }
            Err(error) => {
                self.remove(made_at);
                Err(error)
            }
        }
    }
}

/// What became of an unfinished file that was to get the path of another one. If it didn't, it still has the one that it was made at.
#[derive(Drop)]
pub(crate) struct Tried<W> {
    pub(crate) made_at: String,
    pub(crate) exchanged: io::Result<Exchanged<W>>,
    ghost temporary: { is_temporary (string_bytes made_at) ≡ true },
}

/// Writes a file to the disk and gives it the path of another one, if no bytes of it are missing.
pub(crate) fn try_exchange<F: Folder>(
    files: &mut F,
    new: Unfinished<F::New>,
    path: &str,
    second: &str,
) -> Tried<F::Whole>
    requires path { is_temporary path.now ≡ false }
    requires second { (second.now ≡ second_path path.now) × (is_temporary second.now ≡ false) }
    ensures whenever { ReplacesOne path.now (F.New.written new.file) (F.calls files.old) (F.calls files.new) }
    ensures given { IfOk result.exchanged (λ exchanged. exchanged.is_done ≡ true
        → HasPath path.now (F.New.written new.file) (F.calls files.new)) }
{
    let whole = new.refuse_part();
    let Unfinished { file, made_at, .. } = new;
    let exchanged = exchange_whole(files, whole, file, path, second);
    Tried { made_at, exchanged }
}

/// Gives a file the path of another one if it was found to be whole.
fn exchange_whole<F: Folder>(
    files: &mut F,
    whole: io::Result<()>,
    file: F::New,
    path: &str,
    second: &str,
) -> io::Result<Exchanged<F::Whole>>
    requires whole { IfOk whole (λ _. IsSome (F.New.written file)) }
    requires temporary { is_temporary (F.New.path file) ≡ true }
    requires path { is_temporary path.now ≡ false }
    requires second { (second.now ≡ second_path path.now) × (is_temporary second.now ≡ false) }
    ensures whenever { ReplacesOne path.now (F.New.written file) (F.calls files.old) (F.calls files.new) }
    ensures given { IfOk result (λ exchanged. exchanged.is_done ≡ true → HasPath path.now (F.New.written file) (F.calls files.new)) }
{
    match whole {
        Ok(()) => exchange(files, file, path, second),
        Err(error) => Err(error),
    }
}

/// The second path of a fragment, of which is seen that it is no unfinished file's.
pub(crate) fn second_of(alloc: Global, path: &str) -> io::Result<String>
    ensures { IfOk result (λ s. (string_bytes s ≡ second_path path.now) × (is_temporary (string_bytes s) ≡ false)) }
{
    let mut second = String::from_str(alloc, path)?;
    second.push_str(KEPT)?;
    if is_free(second.as_str()) {
        return Ok(second);
    }
    Err(io::Error::from(ErrorKind::InvalidInput))
}
