//! Reports, by the calls that make them alone.
use crate::asserting::{are_same_bytes, assert_holds, given};
use crate::samples::{EMPTY_REPORT, LIST, REPORT, REPORT_WITHOUT_PX};
use farm_lists::{Record, count_requests, read_list};
use farm_reports::{ReportRow, ReportShape, merged_report_text, report_text};
use lrc_code::{Bytes, Outcome, Place};
use std::process::Abort;
use std::slice;

/// One request of the (12,2,2) code.
const WIDE_LIST: &[u8] = b"order,stripe,target,length,survivors,code
rebuild,abc,x0,3,x1 x2 x3 x4 x5 px,12-2-2
";

const WIDE_REPORT: &[u8] = b"number,stripe,target,length,outcome,digest,unread,code
0,abc,x0,3,rebuilt,ba7816bf8f01cfea414140de5dae2223b00361a396177a9cb410ff61f20015ad,,12-2-2
";

/// The fragment `abc`.
fn rebuilt(rt: &(impl Abort + AllocGlobal)) -> Outcome {
    Outcome::Rebuilt(Bytes::new(given(rt, Vec::from_slice(rt.alloc(), b"abc"))))
}

/// The records of a list.
fn records_of(rt: &(impl Abort + AllocGlobal), list: &[u8]) -> Vec<Record> {
    read_list(rt.alloc(), list).expect(rt, "a list")
}

/// Whether the report on a list of one request is this one.
fn has_report(
    rt: &(impl Abort + AllocGlobal),
    list: &[Record],
    outcome: &Outcome,
    unread: &Vec<Place>,
    report: &[u8],
) -> bool {
    if count_requests(list) != 1 {
        return false;
    }
    let outcomes = slice::from_ref(outcome);
    let text = report_text(rt.alloc(), list, outcomes, slice::from_ref(unread));
    are_same_bytes(&given(rt, text), report)
}

/// Whether it is that of a row. The fragment is rebuilt if none of its survivors is left out; else there are several.
fn is_reported(rt: &(impl Abort + AllocGlobal), row: &(&str, &[u8], &[Place], &[u8])) -> bool {
    let outcome = if row.2.is_empty() {
        rebuilt(rt)
    } else {
        Outcome::Several
    };
    let unread = given(rt, Vec::from_slice(rt.alloc(), row.2));
    has_report(rt, &records_of(rt, row.1), &outcome, &unread, row.3)
}

/// Names of cases, lists of one request, the survivors that are left out, and the report.
static REPORTS: [(&str, &[u8], &[Place], &[u8]); 3] = [
    ("rebuilt", LIST, &[], REPORT),
    ("several", LIST, &[Place::Px], REPORT_WITHOUT_PX),
    ("wide", WIDE_LIST, &[], WIDE_REPORT),
];

#[test]
fn a_request_has_its_row(rt: HostRuntime) {
    for number in 0..REPORTS.len() {
        let row = &REPORTS[number];
        assert_holds(&rt, is_reported(&rt, row), row.0);
    }
}

/// The requests of the rows, without survivors.
static LIST_OF_ROWS: &[u8] = b"order,stripe,target,length,survivors,code
rebuild,def,y4,65536,,12-2-2
rebuild,abc,x0,3,,6-2-2
rebuild,def,p1,1,,12-2-2
";

/// The rows on these three requests, with their outcomes.
fn rows_on<'a>(
    rt: &impl Abort,
    list: &'a [Record],
    outcomes: &'a [Outcome; 3],
) -> [ReportRow<'a>; 3] {
    match list {
        [
            Record::Rebuild(wide),
            Record::Rebuild(narrow),
            Record::Rebuild(last),
        ] => [
            ReportRow {
                feed: 3,
                listed: wide,
                outcome: &outcomes[0],
                unread: &[],
            },
            ReportRow {
                feed: 0,
                listed: narrow,
                outcome: &outcomes[1],
                unread: &[],
            },
            ReportRow {
                feed: 3,
                listed: last,
                outcome: &outcomes[2],
                unread: &[Place::Y3, Place::Px],
            },
        ],
        _ => rt.panic("other requests"),
    }
}

/// Whether the report of a row's shape on its rows is its report.
fn is_merged(
    rt: &(impl Abort + AllocGlobal),
    rows: &[ReportRow],
    row: &(bool, bool, usize, usize, &[u8]),
) -> bool {
    let shape = ReportShape {
        feeds: row.0,
        codes: row.1,
    };
    let rows = rows.get(row.2..row.3).unwrap_or(&[]);
    let text = merged_report_text(rt.alloc(), shape, rows);
    are_same_bytes(&given(rt, text), row.4)
}

/// Whether there is a column of feeds, and one of codes; the first row, and the one after the last; and the report: without rows, on a
/// rack of two feeds of which the second has no request, and with all rows.
static MERGED: [(bool, bool, usize, usize, &[u8]); 6] = [
    (false, false, 0, 0, EMPTY_REPORT),
    (
        false,
        true,
        0,
        0,
        b"number,stripe,target,length,outcome,digest,unread,code\n",
    ),
    (
        true,
        false,
        0,
        0,
        b"number,feed,stripe,target,length,outcome,digest,unread\n",
    ),
    (
        true,
        true,
        0,
        0,
        b"number,feed,stripe,target,length,outcome,digest,unread,code\n",
    ),
    (
        true,
        false,
        1,
        2,
        b"number,feed,stripe,target,length,outcome,digest,unread
0,0,abc,x0,3,rebuilt,ba7816bf8f01cfea414140de5dae2223b00361a396177a9cb410ff61f20015ad,
",
    ),
    (
        true,
        true,
        0,
        3,
        b"number,feed,stripe,target,length,outcome,digest,unread,code
0,3,def,y4,65536,contradiction,,,12-2-2
1,0,abc,x0,3,rebuilt,ba7816bf8f01cfea414140de5dae2223b00361a396177a9cb410ff61f20015ad,,6-2-2
2,3,def,p1,1,several,,y3 px,12-2-2
",
    ),
];

#[test]
fn rows_name_their_feeds_and_codes(rt: HostRuntime) {
    let outcomes = [Outcome::Contradiction, rebuilt(&rt), Outcome::Several];
    let list = records_of(&rt, LIST_OF_ROWS);
    let rows = rows_on(&rt, &list, &outcomes);
    for number in 0..MERGED.len() {
        assert_holds(&rt, is_merged(&rt, &rows, &MERGED[number]), number);
    }
}
