//! How stripes are repaired.
use lrc_code::Code;

/// Which survivors of a stripe are read.
#[derive(Clone, Copy, Debug, PartialEq, Eq)]
pub enum Reads {
    /// All, so that damage among them shows.
    All,
    /// As few as determine what is lost, if the store knows digests to which what is rebuilt is held; else as few as cover what is lost, if
    /// all do. Where these can't be read or contradict each other, what is made of them differs from its digest, or a file has another
    /// length, all.
    Checked,
    /// As few as determine what is lost. Where one of these can't be read, all.
    Few,
}

/// How stripes are repaired.
#[derive(Clone, Copy, Debug)]
pub struct Repair {
    pub code: Code,
    pub reads: Reads,
    /// Whether fragments that are damaged or of another length are replaced by rebuilt ones that a check covers. What was there is kept.
    pub replace_damaged: bool,
    /// Whether, of survivors that contradict each other, the only one without which the others belong together is taken for the damaged
    /// one, also where two damaged ones may make it look so. What is rebuilt from such a guess isn't checked.
    pub assume_one_damaged: bool,
    /// Whether rebuilt fragments go elsewhere than to the store's own, so that nothing of these is in their way.
    pub elsewhere: bool,
}
