//! That what is assumed of a file system can be so.
ghost use Rattle.std.specs.Prelude.{List};
ghost use Rattle.folders.specs.Calls.{Answered};
ghost use Rattle.folders.specs.Worlds.{IsLawful};
ghost use Rattle.memory_folder.specs.Synchronous.{AreAnswered, synchronous};

/// A file system that has each change on the disk at once does what its calls answer, whatever the calls: so what is proved of stores under
/// that assumption isn't empty. A law, with nothing to be done.
pub fn synchronous_is_lawful()
    ensures { (calls : List Answered) → AreAnswered calls → IsLawful synchronous calls }
{}
