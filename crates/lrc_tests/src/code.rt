//! Codes, places, numbers and requests, by tests that show what calls give, which gate/codes.py compares with values from outside; and
//! stripes, which no program makes by `encode`.
ghost use Rattle.std.specs.Prelude.{◌≡◌, All, length, true};

use super::assertions::{are_same_bytes, assert_so};
use super::given::request_of;
use lrc_code::text::parse_number;
use lrc_code::{
    AskedPlaces, Code, Place, PlaceSet, Request, RequestFault, encode, encode_wide, first_refusal,
    reduce_in,
};
use std::alloc::{AllocError, Global};
use std::array;
use std::process::Abort;

/// Shows the places of a code, and which of them are left out of a set of a place of both codes and one of the wide code alone.
fn show_places(rt: &impl Print, code: Code) {
    let others = code.others(PlaceSet::empty().with(Place::X0).with(Place::X3));
    let count = others.len();
    let _ = println!(rt;
        "{:?} {} {count} {others:?}",
        code.places(),
        code.data_count()
    );
}

/// Shows the rows of a code where x5 is lost alone: the pivot of each, and its coefficient of x5.
fn show_reduced(rt: &impl Print, code: Code) {
    let reduced = reduce_in(code, PlaceSet::empty().with(Place::X5));
    for row in 0..4usize {
        let coefficient = reduced.coefficient(row, Place::X5);
        let _ = println!(rt; "{:?} {coefficient:?}", reduced.pivot(row));
    }
}

#[test]
fn shown_of_each_code(rt: HostRuntime) {
    for code in [Code::Narrow, Code::Wide] {
        show_places(&rt, code);
        show_reduced(&rt, code);
    }
}

/// Shows the place of each index; no index after the last has one, and then none is shown of a name that is no text.
#[test]
fn shown_of_each_place(rt: HostRuntime) {
    for index in 0..17usize {
        let _ = match Place::from_index(index) {
            Some(place) => {
                println!(&rt; "{} {} {:?}", place.index(), place.name(), place.group())
            }
            None => println!(&rt; "{:?}", Place::named(b"\xffp")),
        };
    }
}

/// Shows the number, the place and the code that a text writes, if it writes one.
pub fn show_written(rt: &impl Print, text: &str) {
    let number = parse_number(text.as_bytes());
    let _ = println!(rt;
        "{:?}",
        (number, Place::parse(text), Code::parse(text.as_bytes()))
    );
}

/// Shows what the readers of a request give.
fn show_readers(rt: &impl Print, request: &Request) {
    let (stripe, target) = (request.stripe(), request.target());
    let _ = println!(rt;
        "{:?} {stripe} {target:?} {}",
        request.code(),
        request.length()
    );
    let survivors = request.survivors();
    let _ = println!(rt; "{} {survivors:?} {:?}", survivors.len(), request.sources());
    let (first, second) = (request.bytes_at(Place::X0), request.bytes_at(Place::X1));
    let _ = println!(rt; "{first:?} {second:?}");
}

/// Shows what a request gives of what it was made of.
fn show_given(rt: &impl Print, request: Request) {
    show_readers(rt, &request);
    let fragments = request.into_survivors();
    let _ = println!(rt; "{fragments:?}");
}

/// Shows what a request gives, or its refusal. Given are the name of its stripe, and after a comma the request.
pub fn show_request(rt: &(impl Abort + AllocGlobal + Print), text: &str) {
    let (stripe, request) = text.split_once(',').unwrap_or(("", ""));
    match request_of(rt, stripe, request.split_whitespace()) {
        Ok(request) => show_given(rt, request),
        Err(fault) => {
            let _ = println!(rt; "{fault:?} {}", fault.code());
        }
    }
}

/// Whether places are repeated and whether the target is among them, why lengths are refused, if they are, and the number of the first
/// refusal; 0 stands for none.
static EARLIER: [(bool, bool, Option<RequestFault>, u8); 3] = [
    (false, false, None, 0),
    (false, false, Some(RequestFault::WrongLength), 5),
    (true, true, Some(RequestFault::WrongLength), 3),
];

/// The number of the first refusal of a row; 0 stands for none.
fn first_of(row: &(bool, bool, Option<RequestFault>, u8)) -> u8 {
    let places = AskedPlaces {
        are_of_the_code: true,
        has_repeated: row.0,
        has_target: row.1,
    };
    match first_refusal("a", 1, places, row.2) {
        Some(fault) => fault.code(),
        None => 0,
    }
}

/// The refusals before E5 ask for no bytes.
#[test]
fn earlier_refusals_ask_for_no_bytes(rt: HostRuntime) {
    for index in 0..EARLIER.len() {
        let row = &EARLIER[index];
        assert_so(&rt, first_of(row) == row.3);
    }
}

/// Whether these fragments have these bytes.
fn are_fragments(fragments: &[Vec<u8>], expected: &[&[u8]]) -> bool {
    let mut are = fragments.len() == expected.len();
    for number in 0..fragments.len().min(expected.len()) {
        are &= are_same_bytes(&fragments[number], expected[number]);
    }
    are
}

static STRIPE: &[&[u8]; 10] = &[
    b"\x61\x62\x63",
    b"\0\0\0",
    b"\0\0\0",
    b"\0\0\0",
    b"\0\0\0",
    b"\0\0\0",
    b"\x61\x62\x63",
    b"\0\0\0",
    b"\x99\x95\x91",
    b"\x5e\x6e\x7e",
];

/// Whether each of these has so many bytes.
fn have_length(sources: &[Vec<u8>], len: usize) -> bool
    ensures { result ≡ true → All (λ s. length s.items ≡ len) sources.now }
{
    sources.iter().all(|source| source.len() == len)
}

/// Whether the data of the stripe, of one length, are encoded as the stripe.
fn is_encoded(alloc: Global) -> Result<bool, AllocError> {
    let sources: [Vec<u8>; 6] = array::try_from_fn(|k| STRIPE[k].to_vec(alloc))?;
    if !have_length(&sources, 3) {
        return Ok(false);
    }
    Ok(are_fragments(&encode(alloc, &sources)?, STRIPE))
}

static WIDE_STRIPE: &[&[u8]; 16] = &[
    b"\x01", b"\0", b"\0", b"\0", b"\0", b"\x01", b"\x02", b"\0", b"\0", b"\0", b"\0", b"\0",
    b"\x00", b"\x02", b"\x72", b"\xa6",
];

/// Whether the data of the wide stripe are encoded as it.
fn is_encoded_wide(alloc: Global) -> Result<bool, AllocError> {
    let sources: [Vec<u8>; 12] = array::try_from_fn(|k| WIDE_STRIPE[k].to_vec(alloc))?;
    if !have_length(&sources, 1) {
        return Ok(false);
    }
    Ok(are_fragments(&encode_wide(alloc, &sources)?, WIDE_STRIPE))
}

/// The parities of 61 62 63 and five data of zeros, and of x0 = x5 = 01, y0 = 02 and no other data of the (12,2,2) code.
#[test]
fn stripes_have_the_known_parities(rt: HostRuntime) {
    assert_so(&rt, is_encoded(rt.alloc()) == Ok(true));
    assert_so(&rt, is_encoded_wide(rt.alloc()) == Ok(true));
}
