//! Lists, record by record and fault by fault. gate/lists.py runs the first test over lists, and tests what it shows; without an input it
//! shows the fault of an empty list.
use crate::asserting::{assert_holds, given};
use farm_lists::{Listed, Record, count_requests, read_list};
use lrc_code::{Code, Place, RequestFault};
use std::io::Read;
use std::process::Abort;

/// Shows how many requests of a list are before its first close, and each record.
fn show_records(rt: &impl Print, list: &[Record]) {
    let _ = println!(rt; "{} requests", count_requests(list));
    for record in list {
        let _ = match record {
            Record::Rebuild(listed) => println!(rt;
                "{:?} {} {:?} {} {:?}",
                listed.code(),
                listed.stripe(),
                listed.target(),
                listed.length(),
                listed.survivors()
            ),
            Record::Close => println!(rt; "close"),
        };
    }
}

/// Shows what is read of the list on standard input, or its fault.
#[test]
fn read_of_standard_input(rt: HostRuntime) {
    let mut bytes = Vec::new(rt.alloc());
    let is_read = rt.stdin().read_to_end(&mut bytes).is_ok();
    assert_holds(&rt, is_read, bytes.len());
    match &read_list(rt.alloc(), &bytes) {
        Ok(list) => show_records(&rt, list.as_slice()),
        Err(fault) => {
            let _ = println!(rt; "{fault:?}");
        }
    }
}

/// The fault of a listed request over (6,2,2) for a fragment of three bytes at a place.
fn refusal_of(
    rt: &(impl Abort + AllocGlobal),
    target: Place,
    survivors: &[Place],
) -> Option<RequestFault> {
    let survivors = given(rt, Vec::from_slice(rt.alloc(), survivors));
    let stripe = given(rt, String::from_str(rt.alloc(), "abc"));
    Listed::new(Code::Narrow, stripe, target, 3, survivors).err()
}

/// The places of such requests and of their survivors, and why they are refused.
static REFUSED: [(Place, &[Place], RequestFault); 4] = [
    (Place::X3, &[Place::X1], RequestFault::WrongCode),
    (Place::X0, &[Place::X1, Place::X3], RequestFault::WrongCode),
    (Place::X0, &[Place::X1, Place::X1], RequestFault::Repeated),
    (Place::X0, &[Place::X1, Place::X0], RequestFault::NotLost),
];

#[test]
fn listed_requests_are_refused_for_their_places(rt: HostRuntime) {
    for number in 0..REFUSED.len() {
        let row = &REFUSED[number];
        let found = refusal_of(&rt, row.0, row.1);
        assert_holds(&rt, found == Some(row.2), number);
    }
}
