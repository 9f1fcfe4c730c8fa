//! The places, refusals and outcomes of `lrc_code`: there are no others. Its calls and the fields of a fragment are named in the tests of
//! codes and plans.
use crate::assertions::assert_so;
use lrc_code::{Code, Outcome, Place, PlaceSet, RequestFault, reduce, reduce_in};

/// The number of a refusal: there are no others.
fn number_of(fault: RequestFault) -> u8 {
    match fault {
        RequestFault::BadStripe => 1,
        RequestFault::BadLength => 2,
        RequestFault::Repeated => 3,
        RequestFault::NotLost => 4,
        RequestFault::WrongLength => 5,
        RequestFault::WrongCode => 29,
    }
}

/// Whether an outcome is one that isn't rebuilt.
fn has_no_bytes(outcome: &Outcome) -> bool {
    match outcome {
        Outcome::Rebuilt(_) => false,
        Outcome::Contradiction | Outcome::Several => true,
    }
}

/// The index of a place: there are no others.
fn index_of(place: Place) -> usize {
    match place {
        Place::X0 => 0,
        Place::X1 => 1,
        Place::X2 => 2,
        Place::Y0 => 3,
        Place::Y1 => 4,
        Place::Y2 => 5,
        Place::Px => 6,
        Place::Py => 7,
        Place::P0 => 8,
        Place::P1 => 9,
        Place::X3 => 10,
        Place::X4 => 11,
        Place::X5 => 12,
        Place::Y3 => 13,
        Place::Y4 => 14,
        Place::Y5 => 15,
    }
}

/// Whether an index is that of the place which it gives.
fn is_index(index: usize) -> bool {
    match Place::from_index(index) {
        Some(place) => index_of(place) == index,
        None => false,
    }
}

/// Whether a set without a code is reduced as in the (6,2,2) code.
fn is_narrow() -> bool {
    let set = PlaceSet::empty().with(Place::X0);
    reduce(set).pivot(0) == reduce_in(Code::Narrow, set).pivot(0)
}

#[test]
fn code_has_its_names(rt: HostRuntime) {
    for index in 0..16usize {
        assert_so(&rt, is_index(index));
    }
    assert_so(&rt, number_of(RequestFault::WrongCode) == 29);
    assert_so(&rt, has_no_bytes(&Outcome::Several));
    assert_so(&rt, is_narrow());
}
