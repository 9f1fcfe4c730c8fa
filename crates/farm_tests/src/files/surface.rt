//! Each name that callers of `farm_files` are promised, at this crate: one that moves, or a field more, doesn't compile.
use crate::files::given::given_bytes;
use farm_files::{
    Listed, Record, ReportRow, ReportShape, count_requests, merged_report_text, read_list,
    report_text,
};
use lrc_code::Outcome;
use std::process::Abort;
use std::str;

/// Shows the reports on a list of one request, whose fragment isn't determined.
fn show_reports(rt: &(impl Abort + AllocGlobal + Print), list: &[Record], listed: &Listed) {
    let outcomes = [Outcome::Several];
    let row = ReportRow {
        feed: 0,
        listed,
        outcome: &outcomes[0],
        unread: &[],
    };
    let shape = ReportShape {
        feeds: false,
        codes: false,
    };
    let merged = merged_report_text(rt.alloc(), shape, &[row]).expect(rt, "a report");
    let _ = print!(rt; "{}", str::from_utf8(&merged).unwrap_or(""));
    if count_requests(list) == 1 {
        let unread = [Vec::new(rt.alloc())];
        let report = report_text(rt.alloc(), list, &outcomes, &unread).expect(rt, "a report");
        let _ = print!(rt; "{}", str::from_utf8(&report).unwrap_or(""));
    }
}

#[test]
fn reports_on_a_list(rt: HostRuntime) {
    let bytes = given_bytes(&rt, rt.alloc(), rt.stdin());
    let Ok(list) = read_list(rt.alloc(), &bytes) else {
        return;
    };
    if let [Record::Rebuild(listed), ..] = list.as_slice() {
        show_reports(&rt, list.as_slice(), listed);
    }
}
