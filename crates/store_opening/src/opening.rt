//! What a store is opened for.
use lrc_code::Code;
use store_folder::{Links, Part, Pattern};

/// A store that is to be opened, and for what.
#[derive(Clone, Copy)]
pub struct Opening<'a> {
    /// The path of its folder.
    pub folder: &'a str,
    /// The code that is given; none where the places of the files are to say it.
    pub code: Option<Code>,
    /// The pattern of names as it was given.
    pub names: &'a str,
    pub pattern: Pattern<'a>,
    pub links: Links,
    /// The path of a file of stripes' names.
    pub stripes: Option<&'a str>,
    pub part: Option<Part>,
    /// The path of a file of checksums.
    pub sums: Option<&'a str>,
    /// The path of the file that rows are to be written to.
    pub report: Option<&'a str>,
    /// The path of the file that counters are to be written to.
    pub progress: Option<&'a str>,
    /// The folder that rebuilt fragments are written to, if that isn't the store's.
    pub to: Option<&'a str>,
    pub access: Access,
    pub unmounted: Unmounted,
    /// Whether a folder is refused that has no stripe.
    pub needs_stripes: bool,
}

impl<'a> Opening<'a> {
    /// A store in a folder that is to be read, whose names have a pattern, as it was given and as it was read.
    pub fn to_read(
        folder: &'a str,
        code: Option<Code>,
        names: &'a str,
        pattern: Pattern<'a>,
        links: Links,
    ) -> Opening<'a> {
        Opening {
            folder,
            code,
            names,
            pattern,
            links,
            stripes: None,
            part: None,
            sums: None,
            report: None,
            progress: None,
            to: None,
            access: Access::Reads,
            unmounted: Unmounted::Named,
            needs_stripes: true,
        }
    }
}

/// What is done with folders of disks at which none is mounted.
#[derive(Clone, Copy, PartialEq, Eq)]
pub enum Unmounted {
    /// They are named.
    Named,
    /// They are named, and nothing is written into them.
    LeftAlone,
    /// They are like others.
    Allowed,
}

/// Whether a store, or the folder that rebuilt fragments are written to, is written into.
#[derive(Clone, Copy, PartialEq, Eq)]
pub enum Access {
    Reads,
    /// It is, so that other runs are kept out. As root, a folder that others may write into is refused unless they are trusted.
    Writes { trusts_writers: bool },
}
