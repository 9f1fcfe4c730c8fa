//! What holds of repairs one after another: a call that does nothing, for its contract.
ghost use Rattle.store_folder.specs.GoingOn.{GoesOn};

/// A repair that replaces nothing and is stopped by a crash, and the same again, of what the crash left: each path of the store has what it
/// had before both, or, if it had nothing, all the bytes that one of them gave a fragment.
pub fn goes_on()
    ensures { GoesOn }
{}
