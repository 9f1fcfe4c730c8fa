//! The copies of a file's description, which say that all of its stripe is there.
ghost use Rattle.std.specs.Prelude.{◌≡◌, ◌∷◌, ◌++◌, IfOk, OnOk, Some, false};
ghost use Rattle.sha2.specs.Sha256.{sha256};
ghost use Rattle.store_folder.specs.Kept.{GivesOne, KeepsEach};
ghost use Rattle.store_folder.specs.Placed.{content_of};
ghost use Rattle.store_folder.specs.Temporary.{is_temporary};
ghost use Rattle.store_encoding.specs.Encoded.{AreThere, GivesEach, IsThereAt, each_has};

use crate::encoding::fragments::new_file;
use crate::encoding::placing::{Made, place_one, sync_names};
use folders::Folder;
use sha2::{Digest as _, Sha256};
use std::io;
use store_faults::{FileFault, device};
use store_files::Target;
use store_folder::{Digest, NewFile, Touched, discard_new, folder_of};
use store_repair::NewFragment;

/// Writes the copies of a file's description, last of all that is of its stripe.
pub(crate) fn place_descriptions<F: Folder>(
    rt: &HostRuntime,
    files: &mut F,
    target: &mut Target<'_>,
    names: &[String],
    text: &str,
) -> Result<(), FileFault>
    ensures folder { target.new.folder ≡ target.old.folder }
    ensures whenever { GivesEach target.old.folder.now names.now (each_has names.now text.now) (F.calls files.old) (F.calls files.new) }
    ensures done { OnOk result (AreThere target.old.folder.now names.now (each_has names.now text.now) (F.calls files.new)) }
{
    'names: for name in names {
        place_description(rt, files, target, name.as_str(), text)?;
    }
    Ok(())
}

/// Writes a copy of a description.
fn place_description<F: Folder>(
    rt: &HostRuntime,
    files: &mut F,
    target: &mut Target<'_>,
    name: &str,
    text: &str,
) -> Result<(), FileFault>
    ensures folder { target.new.folder ≡ target.old.folder }
    ensures whenever { GivesOne (target.old.folder.now ++ 47 ∷ name.now) (Some text.now) (F.calls files.old) (F.calls files.new) }
    ensures done { OnOk result (is_temporary (target.old.folder.now ++ 47 ∷ name.now) ≡ false
        → IsThereAt (F.calls files.new) (target.old.folder.now ++ 47 ∷ name.now) (Some text.now)) }
{
    let made = make_description(rt, files, target, name, text)?;
    let mut touched = Touched::new(rt.alloc());
    place_one(
        rt,
        files,
        target,
        &mut touched,
        name,
        text.len() as u64,
        made,
    )?;
    sync_names(rt, files, None, touched)
}

/// A new file with a text, which isn't there after a failure.
fn make_description<F: Folder>(
    rt: &HostRuntime,
    files: &mut F,
    target: &Target<'_>,
    name: &str,
    text: &str,
) -> Result<Made<F::New>, FileFault>
    ensures whenever { KeepsEach (F.calls files.old) (F.calls files.new) }
    ensures content { IfOk result (λ made. content_of made.file ≡ Some text.now) }
{
    let alloc = rt.alloc();
    let path = target.path(alloc, name)?;
    let folder = folder_of(path.as_str());
    match filled(rt, files, target, name, folder, text) {
        Ok(file) => Ok(Made {
            file,
            digest: digest_of_text(text),
        }),
        Err(error) => Err(device(alloc, folder, error)),
    }
}

/// A new file in a folder with a text, which isn't there after a failure.
fn filled<F: Folder>(
    rt: &HostRuntime,
    files: &mut F,
    target: &Target<'_>,
    name: &str,
    folder: &str,
    text: &str,
) -> io::Result<NewFile<F::New>>
    ensures whenever { KeepsEach (F.calls files.old) (F.calls files.new) }
    ensures content { IfOk result (λ new. content_of new ≡ Some text.now) }
{
    let mut file = new_file(rt, files, target, name, folder)?;
    match file.append(text.as_bytes()) {
        Ok(()) => Ok(file),
        Err(error) => {
            discard_new(files, file)?;
            Err(error)
        }
    }
}

/// The digest of a text.
pub(crate) fn digest_of_text(text: &str) -> Digest
    ensures { result ≡ sha256 text.now }
{
    Sha256::digest(text.as_bytes())
}
