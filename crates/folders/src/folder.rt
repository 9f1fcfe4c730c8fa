//! What a store asks of a file system: each method is one of its calls.
ghost use Rattle.std.specs.Prelude.{◌≡◌, ◌∷◌, ◌++◌, [], ℕ, List, length, Option, Some, None, true, false, option_map, IfOk, OnOk, OnErr};
ghost use Rattle.folders.specs.Calls.{Answered, make, sync, link, link_again, rename, rename_again, remove, sync_folder, same_file, absent};

use crate::status::{Rights, Status};
use std::io;

/// A file that is open for reading.
pub trait OpenFile {
    /// What is said of it now.
    fn status(&self) -> io::Result<Status>;

    /// Fills `bytes` with the file's own from this position on.
    fn read_exact_at(&self, from: u64, bytes: &mut [u8]) -> io::Result<()>;
}

/// A file that was made and isn't on the disk yet.
pub trait NewFile {
    /// The bytes that were appended, if no append failed.
    ghost written: { Self → Option (List ℕ) };

    /// Which file it is: the number of calls with the one that made it.
    ghost number: { Self → ℕ };

    /// The path at which it was made.
    ghost path: { Self → List ℕ };

    /// The path at which it was made.
    fn made_at(&self) -> &str
        ensures { result.now ≡ path self.now };

    /// Writes bytes at its end.
    fn append(&mut self, bytes: &[u8]) -> io::Result<()>
        ensures ok { OnOk result (written self.new ≡ option_map (λ before. before ++ bytes.now) (written self.old)) }
        ensures err { OnErr result (written self.new ≡ None) }
        ensures number { number self.new ≡ number self.old }
        ensures path { path self.new ≡ path self.old };

    /// What is said of it now.
    fn status(&self) -> io::Result<Status>;

    /// Locks it until it is closed. False if somebody else holds a lock on it.
    fn try_lock(&self) -> io::Result<bool>;

    /// Gives it a user and a group.
    fn set_owner(&self, rights: &Rights) -> io::Result<()>;

    /// Gives it a mode.
    fn set_mode(&self, mode: u32) -> io::Result<()>;
}

/// A file that was made and is on the disk. Nothing can be appended to it any more.
pub trait WholeFile {
    /// Which file it is.
    ghost number: { Self → ℕ };

    /// The path at which it was made.
    ghost path: { Self → List ℕ };

    /// The path at which it was made.
    fn made_at(&self) -> &str
        ensures { result.now ≡ path self.now };
}

/// A file system. Contracts see the calls that change names or put something on the disk, with their answers; what these say of files and
/// of crashes is `IsLawful` (specs/Worlds.antt), which is assumed of the file system and not proved.
pub trait Folder {
    type Open: OpenFile + Drop;

    type New: NewFile + Drop;

    type Whole: WholeFile + Drop;

    /// The calls so far, the newest first.
    ghost calls: { Self → List Answered };

    /// What is said of what is at a path: of a link, itself.
    fn status(&self, path: &str) -> io::Result<Status>;

    /// What is said of what is at a path: of a link, what it leads to.
    fn status_followed(&self, path: &str) -> io::Result<Status>;

    /// The text of a link.
    fn read_link(&self, path: &str) -> io::Result<String>;

    /// Opens what is at a path for reading.
    fn open(&self, path: &str) -> io::Result<Self::Open>;

    /// Makes an empty file at a path at which nothing is, with this mode as far as the user's mask leaves it.
    fn create_new(&mut self, path: &str, mode: u32) -> io::Result<Self::New>
        ensures ok { OnOk result (calls self.new ≡ (make path.now, true) ∷ calls self.old) }
        ensures err { OnErr result (calls self.new ≡ (make path.now, false) ∷ calls self.old) }
        ensures number { IfOk result (λ file. Self.New.number file ≡ length (calls self.new)) }
        ensures path { IfOk result (λ file. Self.New.path file ≡ path.now) }
        ensures empty { IfOk result (λ file. Self.New.written file ≡ Some []) };

    /// Writes a file's bytes to the disk, after which no more can be appended. A file that can't be written to the disk is closed.
    fn sync(&mut self, file: Self::New) -> io::Result<Self::Whole>
        ensures ok { OnOk result (calls self.new ≡ (sync (Self.New.number file) (Self.New.written file), true) ∷ calls self.old) }
        ensures err { OnErr result (calls self.new ≡ (sync (Self.New.number file) (Self.New.written file), false) ∷ calls self.old) }
        ensures number { IfOk result (λ whole. Self.Whole.number whole ≡ Self.New.number file) }
        ensures path { IfOk result (λ whole. Self.Whole.path whole ≡ Self.New.path file) };

    /// Gives a file one more path, at which nothing is.
    fn link(&mut self, file: &Self::Whole, to: &str) -> io::Result<()>
        ensures ok { OnOk result (calls self.new ≡ (link (Self.Whole.number file.now) to.now, true) ∷ calls self.old) }
        ensures err { OnErr result (calls self.new ≡ (link (Self.Whole.number file.now) to.now, false) ∷ calls self.old) };

    /// Gives the file at a path one more path, at which nothing is.
    fn link_again(&mut self, from: &str, to: &str) -> io::Result<()>
        ensures ok { OnOk result (calls self.new ≡ (link_again from.now to.now, true) ∷ calls self.old) }
        ensures err { OnErr result (calls self.new ≡ (link_again from.now to.now, false) ∷ calls self.old) };

    /// Gives a file another path than the one at which it was made, in place of what is there.
    fn rename(&mut self, file: &Self::Whole, to: &str) -> io::Result<()>
        ensures ok { OnOk result (calls self.new
            ≡ (rename (Self.Whole.number file.now) (Self.Whole.path file.now) to.now, true) ∷ calls self.old) }
        ensures err { OnErr result (calls self.new
            ≡ (rename (Self.Whole.number file.now) (Self.Whole.path file.now) to.now, false) ∷ calls self.old) };

    /// Gives the file at a path another one, in place of what is there. If both paths lead to it already, nothing changes.
    fn rename_again(&mut self, from: &str, to: &str) -> io::Result<()>
        ensures ok { OnOk result (calls self.new ≡ (rename_again from.now to.now, true) ∷ calls self.old) }
        ensures err { OnErr result (calls self.new ≡ (rename_again from.now to.now, false) ∷ calls self.old) };

    /// Takes a path away from its file.
    fn remove(&mut self, path: &str) -> io::Result<()>
        ensures ok { OnOk result (calls self.new ≡ (remove path.now, true) ∷ calls self.old) }
        ensures err { OnErr result (calls self.new ≡ (remove path.now, false) ∷ calls self.old) };

    /// Writes the names in a folder to the disk.
    fn sync_folder(&mut self, path: &str) -> io::Result<()>
        ensures ok { OnOk result (calls self.new ≡ (sync_folder path.now, true) ∷ calls self.old) }
        ensures err { OnErr result (calls self.new ≡ (sync_folder path.now, false) ∷ calls self.old) };

    /// Whether two paths lead to one file, which is not asked of what links lead to.
    fn is_same_file(&mut self, path: &str, other: &str) -> io::Result<bool>
        ensures ok { IfOk result (λ is. calls self.new ≡ (same_file path.now other.now, is) ∷ calls self.old) }
        ensures err { OnErr result (calls self.new ≡ (same_file path.now other.now, false) ∷ calls self.old) };

    /// Whether nothing is at a path: no file and no link.
    fn is_absent(&mut self, path: &str) -> io::Result<bool>
        ensures ok { IfOk result (λ is. calls self.new ≡ (absent path.now, is) ∷ calls self.old) }
        ensures err { OnErr result (calls self.new ≡ (absent path.now, false) ∷ calls self.old) };
}
