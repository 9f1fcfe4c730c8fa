//! What holds of the lines of sums, of whichever names and digests: calls that do nothing, for their contracts.
ghost use Rattle.store_records.specs.Laws.{LinesAreWhole, LinesReadBack};

/// What is written of a file is read as the same: its name, however many of its bytes are escaped, and its digest. An empty name can't be
/// read, and of a name that begins with `./` this is left out.
pub fn lines_read_back()
    ensures { LinesReadBack }
{}

/// What is written of a file is one line: a line feed of its name is escaped.
pub fn lines_are_whole()
    ensures { LinesAreWhole }
{}
