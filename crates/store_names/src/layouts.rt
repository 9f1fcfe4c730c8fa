//! How a stripe's places are named: by their names, or by the numbers of shards, in each order that they may have.
ghost use Rattle.std.specs.Prelude.{◌≡◌};
ghost use Rattle.store_names.specs.Layouts.{shard_of};

use lrc_code::{Code, Place};

/// How a pattern names a place.
#[derive(Clone, Copy, Debug, PartialEq, Eq)]
pub(crate) enum Naming {
    /// By its name, as `x0`.
    ByPlace,
    /// By its number in a layout of the shards.
    ByShard,
}

/// The order of a stripe's shards.
#[derive(Clone, Copy, Debug, PartialEq, Eq)]
pub enum Layout {
    /// The data, then px, py, p0, p1.
    Plain,
    /// x0.., px, y0.., py, p0, p1.
    Groups,
}

/// The order of the places of the layouts, which leave out those that a code hasn't.
const PLAIN: [Place; 16] = [
    Place::X0,
    Place::X1,
    Place::X2,
    Place::X3,
    Place::X4,
    Place::X5,
    Place::Y0,
    Place::Y1,
    Place::Y2,
    Place::Y3,
    Place::Y4,
    Place::Y5,
    Place::Px,
    Place::Py,
    Place::P0,
    Place::P1,
];

const GROUPS: [Place; 16] = [
    Place::X0,
    Place::X1,
    Place::X2,
    Place::X3,
    Place::X4,
    Place::X5,
    Place::Px,
    Place::Y0,
    Place::Y1,
    Place::Y2,
    Place::Y3,
    Place::Y4,
    Place::Y5,
    Place::Py,
    Place::P0,
    Place::P1,
];

impl Layout {
    /// The number of a code's shard at a place; none where the code hasn't the place.
    pub fn shard(self, code: Code, place: Place) -> Option<usize>
        ensures { result ≡ shard_of self code place }
    {
        let order = match self {
            Layout::Plain => &PLAIN,
            Layout::Groups => &GROUPS,
        };
        order
            .iter()
            .filter(|other| code.has(**other))
            .position(|other| other.index() == place.index())
    }
}
