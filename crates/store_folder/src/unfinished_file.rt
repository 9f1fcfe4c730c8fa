//! A fragment that is being written.
ghost use Rattle.std.specs.Prelude.{◌≡◌, ◌++◌, ℕ, List, [], true, IfOk, IfSome, IsSome, Some};
ghost use Rattle.sha2.specs.Hashers.{Holds256};
ghost use Rattle.sha2.specs.Sha256.{sha256};
ghost use Rattle.store_folder.specs.Digests.{HasDigest, IsDigested};
ghost use Rattle.store_folder.specs.Kept.{KeepsEach};

use crate::placing::PRIVATE;
use crate::unfinished::{Unfinished, create_unfinished};
use folders::{Folder, NewFile, folder_of};
use sha2::{Digest as _, Sha256};
use std::alloc::AllocError;
use std::io::{self, ErrorKind};
use store_records::Digest;
use stores::NewFragment;

/// A fragment that has no name yet.
#[derive(Drop)]
pub struct UnfinishedFile<N: NewFile> {
    pub(crate) unfinished: Unfinished<N>,
    /// What is digested of it, if it is to have a digest.
    digest: Option<Sha256>,
    ghost digested: { ∥ IsDigested digest (N.written unfinished.file) ∥₁ },
}

impl<N: NewFile> NewFragment for UnfinishedFile<N> {
    ghost shown = { λ new. N.written new.unfinished.file };

    fn append(&mut self, bytes: &[u8]) -> io::Result<()> {
        let digest = self.digest.take();
        let appended = self.unfinished.append(bytes);
        self.digest = with_more(digest, bytes);
        appended
    }
}

impl<N: NewFile> UnfinishedFile<N> {
    /// Whether a fragment has the bytes of a digest, if there is one.
    pub(crate) fn has_digest(&self, sum: Option<Digest>) -> Result<bool, AllocError>
        ensures { IfOk result (λ has. has ≡ true → HasDigest sum (N.written self.now.unfinished.file)) }
    {
        let digest = copy_of(&self.digest)?;
        Ok(is_as_wanted(digest, sum))
    }

    /// Refuses a fragment that lacks bytes, or has others than those of a digest, if there is one.
    pub(crate) fn refuse_part(&mut self, sum: Option<Digest>) -> io::Result<()>
        ensures same { self.new.unfinished ≡ self.old.unfinished }
        ensures whole { IfOk result (λ _. IsSome (N.written self.new.unfinished.file)) }
        ensures digest { IfOk result (λ _. HasDigest sum (N.written self.new.unfinished.file)) }
    {
        let digest = self.digest.take();
        if !is_as_wanted(digest, sum) {
            return Err(io::Error::from(ErrorKind::InvalidData));
        }
        self.unfinished.refuse_part()
    }
}

/// What is digested of a new file.
fn new_digest(is_wanted: bool) -> Option<Sha256>
    ensures { IfSome result (λ d. Holds256 d []) }
{
    if is_wanted { Some(Sha256::new()) } else { None }
}

/// What was digested, and these bytes after it.
fn with_more(digest: Option<Sha256>, bytes: &[u8]) -> Option<Sha256>
    ensures { (before : List ℕ) → IfSome digest (λ d. Holds256 d before) → IfSome result (λ d. Holds256 d (before ++ bytes.now)) }
{
    let Some(digest) = digest else {
        return None;
    };
    let mut digest = digest;
    digest.update(bytes);
    Some(digest)
}

/// What was digested so far.
fn copy_of(digest: &Option<Sha256>) -> Result<Option<Sha256>, AllocError>
    ensures { IfOk result (λ copy. copy ≡ digest.now) }
{
    match digest {
        Some(digest) => Ok(Some(digest.clone()?)),
        None => Ok(None),
    }
}

/// Whether what was digested has a digest, if there is one.
fn is_as_wanted(digest: Option<Sha256>, sum: Option<Digest>) -> bool
    ensures { result ≡ true → (bytes : List ℕ) → IfSome digest (λ d. Holds256 d bytes) → IfSome sum (λ wanted. sha256 bytes ≡ wanted) }
{
    let Some(wanted) = sum else {
        return true;
    };
    match digest {
        Some(digest) => has_digest(digest, &wanted),
        None => false,
    }
}

/// Whether a digest of all that was written is the one that is wanted.
fn has_digest(digest: Sha256, wanted: &Digest) -> bool
    ensures { result ≡ true → (bytes : List ℕ) → Holds256 digest bytes → sha256 bytes ≡ wanted.now }
{
    let made = digest.finalize();
    made.as_slice() == wanted.as_slice()
}

/// A new fragment in a folder, which is digested as it is written if it is to have a digest. Nobody but its user may read it.
pub(crate) fn create_file<F: Folder>(
    rt: &HostRuntime,
    files: &mut F,
    folder: &str,
    tag: &str,
    is_listed: bool,
) -> io::Result<UnfinishedFile<F::New>>
    ensures whenever { KeepsEach (F.calls files.old) (F.calls files.new) }
    ensures empty { IfOk result (λ new. F.New.written new.unfinished.file ≡ Some []) }
{
    let unfinished = create_unfinished(rt, files, folder, tag, PRIVATE)?;
    let digest = new_digest(is_listed);
    Ok(UnfinishedFile { unfinished, digest })
}
