//! The lengths of a stripe's files, where these differ.
use crate::damage::write_places;
use lrc_code::PlaceSet;
use std::fmt::{self, Display, Formatter, Write};

/// The lengths of a stripe's files, each listed once.
#[derive(Drop)]
pub struct Lengths {
    pub groups: Vec<LengthGroup>,
}

/// The files of a length.
#[derive(Clone, Copy)]
pub struct LengthGroup {
    /// How many bytes each has.
    pub length: u64,
    /// Their places.
    pub places: PlaceSet,
}

impl Lengths {
    /// Whether none is greater than this.
    pub(crate) fn are_at_most(&self, length: usize) -> bool {
        self.groups
            .iter()
            .all(|group| group.length <= length as u64)
    }
}

impl Display for Lengths {
    fn fmt<W: Write>(&self, f: &mut Formatter<W>) -> fmt::Result {
        let mut is_first = true;
        for group in &self.groups {
            if !is_first {
                f.write_str(", ")?;
            }
            write!(f, "{group}")?;
            is_first = false;
        }
        Ok(())
    }
}

impl Display for LengthGroup {
    fn fmt<W: Write>(&self, f: &mut Formatter<W>) -> fmt::Result {
        write_places(f, self.places)?;
        let length = self.length;
        let noun = if length == 1 { "byte" } else { "bytes" };
        write!(f, " with {length} {noun}")
    }
}
