//! Whole stripes.
use lrc_code::{Code, Place};

/// Fragments, each with its place.
pub(crate) type Fragments<'a> = &'a [(Place, &'a [u8])];

/// A whole stripe.
#[derive(Clone, Copy)]
pub(crate) struct Sample {
    pub name: &'static str,
    pub code: Code,
    pub fragments: Fragments<'static>,
}

/// The stripe of the (6,2,2) code whose data are 01 to 06, by hand.
pub(crate) const SHORT: Sample = Sample {
    name: "a",
    code: Code::Narrow,
    fragments: &[
        (Place::X0, b"\x01"),
        (Place::X1, b"\x02"),
        (Place::X2, b"\x03"),
        (Place::Y0, b"\x04"),
        (Place::Y1, b"\x05"),
        (Place::Y2, b"\x06"),
        (Place::Px, b"\x00"),
        (Place::Py, b"\x07"),
        (Place::P0, b"\x04"),
        (Place::P1, b"\x6e"),
    ],
};

/// A stripe of the (6,2,2) code, with the parities that `tools/reference.py` gives.
pub(crate) const NARROW: Sample = Sample {
    name: "narrow",
    code: Code::Narrow,
    fragments: &[
        (Place::X0, b"\x28\xc3\xa6\x84\x1c"),
        (Place::X1, b"\x9a\x9a\x78\x06\x94"),
        (Place::X2, b"\xc0\x70\x4d\xa6\xca"),
        (Place::Y0, b"\xa8\xac\x06\x76\x9e"),
        (Place::Y1, b"\x48\x97\xac\xc5\x6f"),
        (Place::Y2, b"\x34\xdb\xa9\x90\x6d"),
        (Place::Px, b"\x72\x29\x93\x24\x42"),
        (Place::Py, b"\xd4\xe0\x03\x23\x9c"),
        (Place::P0, b"\x09\x1a\x9b\xad\x42"),
        (Place::P1, b"\x54\xbd\x6c\xda\x04"),
    ],
};

/// A stripe of the (12,2,2) code, with the parities that `tools/reference.py` gives.
pub(crate) const WIDE: Sample = Sample {
    name: "wide",
    code: Code::Wide,
    fragments: &[
        (Place::X0, b"\x12\x55\xfa\x7b\x54"),
        (Place::X1, b"\xd4\x6b\xce\x4f\xc4"),
        (Place::X2, b"\x50\xbc\xd1\x61\xbc"),
        (Place::X3, b"\xe0\x6f\x9d\x21\xfa"),
        (Place::X4, b"\x0a\xec\xed\xe4\x3e"),
        (Place::X5, b"\x0a\xf0\x62\x50\x59"),
        (Place::Y0, b"\xe5\xb1\x01\xa1\x1c"),
        (Place::Y1, b"\x78\x43\x79\x1b\x42"),
        (Place::Y2, b"\x57\xdb\x59\x0d\xd9"),
        (Place::Y3, b"\x7f\xdb\xde\x27\x20"),
        (Place::Y4, b"\xaa\x92\xe6\x12\x21"),
        (Place::Y5, b"\x85\x7c\x1b\x4e\x0b"),
        (Place::Px, b"\x76\xf1\xf7\xc0\xb1"),
        (Place::Py, b"\x9a\x1c\x02\xcc\x8d"),
        (Place::P0, b"\x4a\xac\x57\x71\xd0"),
        (Place::P1, b"\xcd\x95\xaf\xea\x34"),
    ],
};

/// A stripe of each code.
pub(crate) static BOTH: [Sample; 2] = [NARROW, WIDE];

/// The bytes at a place, of some that are given with their places.
pub(crate) fn bytes_at<'a>(fragments: &[(Place, &'a [u8])], place: Place) -> Option<&'a [u8]> {
    for (at, bytes) in fragments {
        if *at == place {
            return Some(*bytes);
        }
    }
    None
}
