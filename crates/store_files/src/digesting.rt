//! SHA-256 digests of files: of what is written, as it is written, and of what is there.
ghost use Rattle.std.specs.Prelude.{◌≡◌, ◌++◌, ℕ, List, [], true, IfSome, IsSomeAnd, Some};
ghost use Rattle.sha2.specs.Hashers.{Holds256};
ghost use Rattle.sha2.specs.Sha256.{sha256};
ghost use Rattle.store_files.specs.Digests.{HasDigest, IsDigestOf};

use folders::Written;
use sha2::{Digest as _, Sha256};
use std::io;
use store_folder::{Digest, Links, digest_of, open_fragment};
use store_repair::NewFragment;

/// A new file that is digested as it is written.
pub struct Digested<N: NewFragment> {
    file: N,
    /// None once bytes couldn't be appended.
    digest: Option<Sha256>,
    ghost digested: { ∥ IsDigestOf digest (N.shown file) ∥₁ },
}

impl<N: NewFragment + Drop> Drop for Digested<N> {
    fn drop(self) {
        let Digested { file: _, digest: _ } = self;
    }
}

impl<N: NewFragment> Digested<N> {
    /// An empty file.
    pub fn new(file: N) -> Digested<N>
        requires { N.shown file ≡ Some [] }
    {
        Digested {
            file,
            digest: Some(Sha256::new()),
        }
    }

    /// The file, and whether all that was written to it has a digest. It hasn't if bytes are missing.
    pub fn finish(self, wanted: &Digest) -> (N, bool)
        ensures { result.1 ≡ true → HasDigest wanted.now (N.shown result.0) }
    {
        let Digested { file, digest } = self;
        (file, is_as_wanted(digest, wanted))
    }
}

impl<N: NewFragment> NewFragment for Digested<N> {
    ghost shown = { λ digested. N.shown digested.file };

    fn append(&mut self, bytes: &[u8]) -> io::Result<()> {
        let digest = self.digest.take();
        self.file.append(bytes)?;
        self.digest = with_more(digest, bytes);
        Ok(())
    }
}

/// What was digested, and these bytes after it.
fn with_more(digest: Option<Sha256>, bytes: &[u8]) -> Option<Sha256>
    ensures { IfSome result (λ more. IsSomeAnd digest (λ d. (before : List ℕ) → Holds256 d before → Holds256 more (before ++ bytes.now))) }
{
    let mut digest = digest?;
    digest.update(bytes);
    Some(digest)
}

/// Whether what was digested, if anything was, has a digest.
fn is_as_wanted(digest: Option<Sha256>, wanted: &Digest) -> bool
    ensures { result ≡ true → IsSomeAnd digest (λ d. (bytes : List ℕ) → Holds256 d bytes → sha256 bytes ≡ wanted.now) }
{
    let Some(digest) = digest else {
        return false;
    };
    let made = digest.finalize();
    made.as_slice() == wanted.as_slice()
}

/// A file of which nothing is kept, for its digest alone.
#[derive(Drop)]
pub struct Unkept {
    written: Written,
}

impl Unkept {
    /// With nothing written yet.
    pub fn new() -> Unkept
        ensures { result.written.bytes ≡ Some [] }
    {
        Unkept {
            written: Written::new(),
        }
    }
}

impl NewFragment for Unkept {
    ghost shown = { λ file. file.written.bytes };

    fn append(&mut self, bytes: &[u8]) -> io::Result<()> {
        self.written = Written::with(&self.written, bytes, true);
        Ok(())
    }
}

/// The digest of the regular file at a path, which has to have so many bytes.
pub fn digest_at(rt: &HostRuntime, path: &str, length: u64, links: Links) -> io::Result<Digest> {
    let fragment = open_fragment(rt, path, length, links)?;
    digest_of(rt.alloc(), &fragment, length as usize)
}
