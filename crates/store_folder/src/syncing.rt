//! Writing names to the disk.
ghost use Rattle.std.specs.Prelude.{◌≡◌, ◌∷◌, true, false, ℕ, List, OnOk, IfOk, string_bytes};
ghost use Rattle.std.specs.List.{list_any};
ghost use Rattle.folders.specs.Calls.{sync_folder};
ghost use Rattle.folders.specs.Disk.{IsOnDisk};
ghost use Rattle.folders.specs.Files.{IsIn};
ghost use Rattle.store_folder.specs.Done.{HasFolderOf, IsDue};
ghost use Rattle.store_folder.specs.Kept.{KeepsEach};
ghost use Rattle.store_folder.specs.Temporary.{is_temporary};
ghost use Rattle.std.specs.Str.{bytes_eq};

use folders::Folder;
use std::alloc::{AllocError, Global};
use stores::NameFault;

/// The folders in which names were given since the last time that these were written to the disk.
#[derive(Drop)]
pub struct Touched {
    pub folders: Vec<String>,
    /// Of the last time, what is still to be said of folders that couldn't be written.
    unsaid: Vec<NameFault>,
}

impl Touched {
    /// No folders.
    pub fn new(alloc: Global) -> Touched {
        Touched {
            folders: Vec::new(alloc),
            unsaid: Vec::new(alloc),
        }
    }

    /// Notes that a name was given in a folder.
    pub fn note(&mut self, alloc: Global, folder: &str) -> Result<(), AllocError>
        ensures had { (path : List ℕ) → HasFolderOf path self.old.folders.items → HasFolderOf path self.new.folders.items }
        ensures noted { IfOk result (λ _. (path : List ℕ) → IsIn folder.now path → HasFolderOf path self.new.folders.items) }
    {
        if !has(self.folders.as_slice(), folder) {
            self.folders.push(String::from_str(alloc, folder)?)?;
        }
        Ok(())
    }

    /// Writes the names in these folders to the disk. One that can't be written keeps no other from being written; each further one is said
    /// by a call more.
    pub fn sync<F: Folder>(&mut self, files: &mut F) -> Result<(), NameFault>
        ensures whenever { KeepsEach (F.calls files.old) (F.calls files.new) }
        ensures done { OnOk result ((path bytes : List ℕ) → is_temporary path ≡ false
            → IsDue self.old.folders.items (F.calls files.old) path bytes → IsOnDisk path bytes (F.calls files.new)) }
    {
        match self.sync_until_fault(files) {
            Ok(()) => match self.unsaid.pop() {
                Some(fault) => Err(fault),
                None => Ok(()),
            },
            Err(fault) => {
                self.sync_rest(files);
                Err(fault)
            }
        }
    }

    /// The same up to the first folder that can't be written.
    fn sync_until_fault<F: Folder>(&mut self, files: &mut F) -> Result<(), NameFault>
        ensures whenever { KeepsEach (F.calls files.old) (F.calls files.new) }
        ensures done { OnOk result ((path bytes : List ℕ) → is_temporary path ≡ false
            → IsDue self.old.folders.items (F.calls files.old) path bytes → IsOnDisk path bytes (F.calls files.new)) }
    {
        'folders: while let Some(name) = self.folders.pop() {
            sync_names_of(files, name)?;
        }
        Ok(())
    }

    /// Writes what is left after a fault, which is said first. Where there is no memory to keep another one, that isn't said.
    fn sync_rest<F: Folder>(&mut self, files: &mut F)
        ensures { KeepsEach (F.calls files.old) (F.calls files.new) }
    {
        'folders: while let Some(name) = self.folders.pop() {
            if let Err(fault) = sync_names_of(files, name) {
                let _ = self.unsaid.push(fault);
            }
        }
    }
}

/// Whether a folder is among some.
fn has(folders: &[String], folder: &str) -> bool
    ensures { result ≡ list_any (λ other. bytes_eq (string_bytes other) folder.now) folders.now }
{
    folders.iter().any(|other| other.as_str() == folder)
}

/// Writes the names in a folder to the disk.
fn sync_names_of<F: Folder>(files: &mut F, name: String) -> Result<(), NameFault>
    ensures whenever { KeepsEach (F.calls files.old) (F.calls files.new) }
    ensures done { OnOk result (F.calls files.new ≡ (sync_folder (string_bytes name), true) ∷ F.calls files.old) }
{
    match files.sync_folder(name.as_str()) {
        Ok(()) => Ok(()),
        Err(error) => Err(NameFault { name, error }),
    }
}
