//! The tables of both codes: their places, the coefficients of their parities, and their equations.
use crate::places::Place;

/// The (6,2,2) code has the places of the indexes below this number.
pub(crate) const NARROW_COUNT: usize = 10;

/// The places of the (12,2,2) code, in its order.
pub(crate) static WIDE_PLACES: [Place; 16] = [
    Place::X0,
    Place::X1,
    Place::X2,
    Place::X3,
    Place::X4,
    Place::X5,
    Place::Y0,
    Place::Y1,
    Place::Y2,
    Place::Y3,
    Place::Y4,
    Place::Y5,
    Place::Px,
    Place::Py,
    Place::P0,
    Place::P1,
];

/// The coefficients of the (6,2,2) code's data fragments, in its order, in each of the parities px, py, p0 and p1.
pub(crate) const NARROW_PARITIES: [[u8; 6]; 4] = [
    [0x01, 0x01, 0x01, 0x00, 0x00, 0x00],
    [0x00, 0x00, 0x00, 0x01, 0x01, 0x01],
    [0x04, 0x08, 0x0c, 0x01, 0x02, 0x03],
    [0x10, 0x40, 0x50, 0x01, 0x04, 0x05],
];

/// The coefficients of the (12,2,2) code's data fragments, in its order, in each of these parities. Those of p1 are the squares of those
/// of p0.
pub(crate) const WIDE_PARITIES: [[u8; 12]; 4] = [
    [1, 1, 1, 1, 1, 1, 0, 0, 0, 0, 0, 0],
    [0, 0, 0, 0, 0, 0, 1, 1, 1, 1, 1, 1],
    [
        0x10, 0x20, 0x30, 0x40, 0x50, 0x60, 0x01, 0x02, 0x03, 0x04, 0x05, 0x06,
    ],
    [
        0x1d, 0x74, 0x69, 0xcd, 0xd0, 0xb9, 0x01, 0x04, 0x05, 0x10, 0x11, 0x14,
    ],
];

// A row of coefficients, of the data and of the parities, by the places' indexes.
macro_rules! narrow_equation {
    ($row:expr, $px:expr, $py:expr, $p0:expr, $p1:expr) => {
        [
            $row[0], $row[1], $row[2], $row[3], $row[4], $row[5], $px, $py, $p0, $p1, 0, 0, 0, 0,
            0, 0,
        ]
    };
}

macro_rules! wide_equation {
    ($row:expr, $px:expr, $py:expr, $p0:expr, $p1:expr) => {
        [
            $row[0], $row[1], $row[2], $row[6], $row[7], $row[8], $px, $py, $p0, $p1, $row[3],
            $row[4], $row[5], $row[9], $row[10], $row[11],
        ]
    };
}

/// The coefficients of the (6,2,2) code's equations, by the places' indexes.
pub(crate) const NARROW_EQUATIONS: [[u8; 16]; 4] = [
    narrow_equation!(NARROW_PARITIES[0], 1, 0, 0, 0),
    narrow_equation!(NARROW_PARITIES[1], 0, 1, 0, 0),
    narrow_equation!(NARROW_PARITIES[2], 0, 0, 1, 0),
    narrow_equation!(NARROW_PARITIES[3], 0, 0, 0, 1),
];

/// The coefficients of the (12,2,2) code's equations, by the places' indexes.
pub(crate) const WIDE_EQUATIONS: [[u8; 16]; 4] = [
    wide_equation!(WIDE_PARITIES[0], 1, 0, 0, 0),
    wide_equation!(WIDE_PARITIES[1], 0, 1, 0, 0),
    wide_equation!(WIDE_PARITIES[2], 0, 0, 1, 0),
    wide_equation!(WIDE_PARITIES[3], 0, 0, 0, 1),
];
