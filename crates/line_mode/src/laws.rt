//! Laws of line mode: each function's contract is one, over the definitions alone.
ghost use Rattle.line_mode.specs.Laws.{RepliesAreUnique};

/// An input has at most one list of replies, so that its text and its counts are determined.
pub fn replies_are_unique()
    ensures { RepliesAreUnique }
{}
