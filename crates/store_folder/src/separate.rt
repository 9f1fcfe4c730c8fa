//! A store in a folder in which each new fragment fails by itself: one that can't be made or written is refused when it is to get its name,
//! so that the others of its stripe get theirs.
ghost use Rattle.std.specs.Prelude.{◌≡◌, IfSome};
ghost use Rattle.store_folder.specs.Apart.{AreApart, apart_changed, apart_kept};
ghost use Rattle.store_folder.specs.Changed.{IsChangedIn};
ghost use Rattle.store_folder.specs.ChangedOver.{changed_over, none_changed_in};
ghost use Rattle.store_folder.specs.Digests.{HasSum};
ghost use Rattle.store_folder.specs.Done.{IsNamed, IsSettled};
ghost use Rattle.store_folder.specs.Kept.{IsKeptIn, KeepsEach, none_kept};
ghost use Rattle.store_folder.specs.Stays.{settled_over};
ghost use Rattle.std.proofs.Props.{props};
ghost use Rattle.stores.specs.Store.{never};

use crate::folder_store::FolderStore;
use crate::surviving::FileFragment;
use crate::unfinished_file::UnfinishedFile;
use folders::{Folder, NewFile, Written};
use lrc_code::Place;
use std::alloc::{AllocError, Global};
use std::io;
use stores::{NameFault, NewFragment, Placed, Refused, Store};

/// A store whose new fragments fail each by itself.
#[derive(Drop)]
pub struct SeparateStore<'a, F: Folder> {
    store: FolderStore<'a, F>,
}

/// A new fragment of such a store.
#[derive(Drop)]
pub struct SeparateFile<N: NewFile> {
    /// Where it met no fault.
    whole: Option<UnfinishedFile<N>>,
    faulty: Option<Faulty<N>>,
    /// What was to be written, also what isn't since it met a fault.
    meant: Written,
    ghost written: { IfSome whole (λ file. N.written file.unfinished.file ≡ meant.bytes) } by { Prim.hlevel props },
}

/// The first fault that a fragment met, and the file, if it was made.
#[derive(Drop)]
struct Faulty<N: NewFile> {
    error: io::Error,
    file: Option<UnfinishedFile<N>>,
}

impl<'a, F: Folder> SeparateStore<'a, F> {
    /// A store whose fragments are those of this one.
    pub fn new(store: FolderStore<'a, F>) -> SeparateStore<'a, F>
        ensures { result.store ≡ store.entry }
    {
        SeparateStore { store }
    }

    /// The file system that it worked on.
    pub fn into_files(self) -> F
        ensures { result ≡ self.entry.store.files }
    {
        self.store.into_files()
    }
}

impl<N: NewFile + Drop> NewFragment for SeparateFile<N> {
    ghost shown = { λ new. new.meant.bytes };

    fn append(&mut self, bytes: &[u8]) -> io::Result<()> {
        let whole = self.whole.take();
        self.meant = Written::with(&self.meant, bytes, true);
        let Some(file) = whole else {
            return Ok(());
        };
        let mut file = file;
        match file.append(bytes) {
            Ok(()) => self.whole = Some(file),
            Err(error) => {
                self.faulty = Some(Faulty {
                    error,
                    file: Some(file),
                });
            }
        }
        Ok(())
    }
}

impl<F: Folder> SeparateStore<'_, F> {
    /// Discards what there is of a file that met a fault, and gives this.
    fn given_up(&mut self, faulty: Option<Faulty<F::New>>) -> io::Error
        ensures site { self.new.store.site ≡ self.old.store.site }
        ensures touched { self.new.store.touched ≡ self.old.store.touched }
        ensures whenever { KeepsEach (F.calls self.old.store.files) (F.calls self.new.store.files) }
    {
        let Some(Faulty { error, file }) = faulty else {
            return io::Error::other("it wasn't made");
        };
        if let Some(file) = file {
            self.store.discard_fragment(file);
        }
        error
    }
}

impl<F: Folder> Store for SeparateStore<'_, F> {
    type Survivor = FileFragment<F::Open>;

    type New = SeparateFile<F::New>;

    ghost kept = { λ stripe given old new. IsKeptIn stripe given old.store.site new.store.site (F.calls old.store.files)
        (F.calls new.store.files) };

    ghost kept_same = { λ stripe given s. none_kept stripe given s.store.site (F.calls s.store.files) };

    ghost changed = { λ stripe given old new. IsChangedIn stripe given old.store.site new.store.site (F.calls old.store.files)
        (F.calls new.store.files) };

    ghost changed_same = { λ stripe s. none_changed_in stripe s.store.site (F.calls s.store.files) };

    ghost got_name = { λ s stripe place written. IsNamed s.store.site stripe place written s.store.touched.folders.items
        (F.calls s.store.files) };

    ghost settled = { λ s stripe place written. IsSettled s.store.site stripe place written (F.calls s.store.files) };

    ghost apart = { λ s. AreApart s.store.site };

    ghost new_shown = { λ s f h. never h };

    ghost changed_then = { λ stripe given more all old mid new leads widens changes keeps. changed_over stripe given more all
        old.store.site mid.store.site new.store.site (F.calls old.store.files) (F.calls mid.store.files) (F.calls new.store.files)
        leads widens changes keeps };

    ghost kept_apart = { λ stripe given old new kept. apart_kept stripe given old.store.site new.store.site (F.calls old.store.files)
        (F.calls new.store.files) kept };

    ghost changed_apart = { λ stripe given old new changed. apart_changed stripe given old.store.site new.store.site
        (F.calls old.store.files) (F.calls new.store.files) changed };

    ghost settled_stays = { λ stripe given old new kept. settled_over stripe given old.store.site new.store.site (F.calls old.store.files)
        (F.calls new.store.files) kept };

    ghost listed = { λ s stripe place. HasSum s.store.site stripe place };

    fn open(&self, stripe: &str, place: Place, length: usize) -> io::Result<FileFragment<F::Open>> {
        self.store.open(stripe, place, length)
    }

    fn refused(
        &self,
        alloc: Global,
        stripe: &str,
        length: usize,
        fragments: &[Option<FileFragment<F::Open>>],
    ) -> Result<Vec<Refused>, AllocError> {
        self.store.refused(alloc, stripe, length, fragments)
    }

    fn is_listed(&self, stripe: &str, place: Place) -> Result<bool, AllocError> {
        self.store.has_digest_of(stripe, place)
    }

    fn is_as_listed(
        &self,
        file: &SeparateFile<F::New>,
        stripe: &str,
        place: Place,
    ) -> Result<bool, AllocError> {
        match &file.whole {
            Some(file) => self.store.is_fragment_as_listed(file, stripe, place),
            None => Ok(true),
        }
    }

    fn create(&mut self, stripe: &str, place: Place) -> io::Result<SeparateFile<F::New>> {
        match self.store.new_fragment(stripe, place) {
            Ok(file) => Ok(SeparateFile {
                whole: Some(file),
                faulty: None,
                meant: Written::new(),
            }),
            Err(error) => Ok(SeparateFile {
                whole: None,
                faulty: Some(Faulty { error, file: None }),
                meant: Written::new(),
            }),
        }
    }

    fn place(
        &mut self,
        file: SeparateFile<F::New>,
        stripe: &str,
        place: Place,
    ) -> io::Result<Placed> {
        let SeparateFile { whole, faulty, .. } = file;
        match whole {
            Some(file) => self.store.place_fragment(file, stripe, place),
            None => Err(self.given_up(faulty)),
        }
    }

    fn replace(
        &mut self,
        file: SeparateFile<F::New>,
        stripe: &str,
        place: Place,
    ) -> io::Result<Placed> {
        let SeparateFile { whole, faulty, .. } = file;
        match whole {
            Some(file) => self.store.replace_fragment(file, stripe, place),
            None => Err(self.given_up(faulty)),
        }
    }

    fn discard(&mut self, file: SeparateFile<F::New>) -> io::Result<()> {
        let SeparateFile { whole, faulty, .. } = file;
        match whole {
            Some(file) => self.store.discard_fragment(file),
            None => {
                let _ = self.given_up(faulty);
            }
        }
        Ok(())
    }

    fn settle(&mut self) -> Result<(), NameFault> {
        self.store.sync_names()
    }
}
