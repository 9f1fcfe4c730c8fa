//! Laws of files and their stripes: each function's contract is one, over the definitions alone.
ghost use Rattle.store_repair.specs.Files.{FragmentsAreOfFile};

/// Survivors that are each a file's fragment at its place, as `encode` writes it, are those of one stripe of the file, as `read_file` reads
/// it.
pub fn fragments_are_of_file()
    ensures { FragmentsAreOfFile }
{}
