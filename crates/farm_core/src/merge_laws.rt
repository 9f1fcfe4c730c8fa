//! Laws of merges of feeds: each function's contract is one, over the definitions alone.
ghost use Rattle.farm_threads.specs.Merge.{MergeOfOneIsIt, AnswersOfOneAreIts, CloseEndsAll, PiecesJoin};

/// A merge of one feed is what is before its close.
pub fn merge_of_one_is_it()
    ensures { MergeOfOneIsIt }
{}

/// The answers of a rack with one feed are the answers to its list.
pub fn answers_of_one_are_its()
    ensures { AnswersOfOneAreIts }
{}

/// Lawful merges of consecutive pieces of feeds, up to the first piece with a close, are a lawful merge of the feeds.
pub fn pieces_join()
    ensures { PiecesJoin }
{}

/// A piece that has a close ends a lawful merge: what is after it changes nothing.
pub fn close_ends_all()
    ensures { CloseEndsAll }
{}
