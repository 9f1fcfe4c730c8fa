//! The rows of a rack's report, from the answers to a merge of its feeds.
ghost use Rattle.std.specs.Prelude.{◌≡◌, ◌<◌, [], IfOk, Some, length, map, slice_index_or};
ghost use Rattle.std.specs.List.{list_any};
ghost use Rattle.farm_lists.specs.Requests.{read_of};
ghost use Rattle.farm_reports.specs.Report.{is_wide_read, row_of};
ghost use Rattle.farm_reports.specs.Rows.{FitsFeeds, rack_rows as rows_of_rack, rack_shape as shape_of_requests, row_at};

use crate::report::{ReportRow, ReportShape, is_wide_request};
use farm_lists::ReadRequest;
use farm_orders::FeedAnswer;
use lrc_code::Outcome;
use std::alloc::{AllocError, Global};

/// Whether one of a feed's requests is of the (12,2,2) code.
fn has_wide(requests: &[ReadRequest]) -> bool
    ensures { result ≡ list_any is_wide_read (map read_of requests.now) }
{
    for index in 0..requests.len() {
        if is_wide_request(requests[index].listed) {
            return true;
        }
    }
    false
}

/// Whether a request of some feed is of the (12,2,2) code.
fn any_wide(requests: &[Vec<ReadRequest>]) -> bool
    ensures { result ≡ list_any (λ rs. list_any is_wide_read rs) (map (λ rs. map read_of rs.items) requests.now) }
{
    for index in 0..requests.len() {
        if has_wide(requests[index].as_slice()) {
            return true;
        }
    }
    false
}

/// The shape of the report on a rack with these requests, feed by feed.
pub(crate) fn rack_shape(requests: &[Vec<ReadRequest>]) -> ReportShape
    ensures { result ≡ shape_of_requests (map (λ rs. map read_of rs.items) requests.now) }
{
    ReportShape {
        feeds: requests.len() > 1,
        codes: any_wide(requests),
    }
}

/// The row of an answer to the request at a position of a feed.
fn answer_row<'a>(
    requests: &'a [Vec<ReadRequest>],
    feed: usize,
    position: usize,
    outcome: &'a Outcome,
) -> ReportRow<'a>
    requires feed { feed < length requests.now }
    requires position { position < length (slice_index_or (map (λ rs. rs.items) requests.now) feed []) }
    ensures row { row_at (map (λ rs. map read_of rs.items) requests.now) (feed, outcome.now) position ≡ Some (row_of result) }
    ensures outcome { result.outcome.now ≡ outcome.now }
{
    let request = &requests[feed][position];
    ReportRow {
        feed,
        listed: request.listed,
        outcome,
        unread: request.unread.as_slice(),
    }
}

/// The rows of the report on a rack with these requests, feed by feed: one for each answer, in order.
pub(crate) fn rack_rows<'a>(
    alloc: Global,
    requests: &'a [Vec<ReadRequest>],
    answers: &'a [FeedAnswer],
) -> Result<Vec<ReportRow<'a>>, AllocError>
    requires { FitsFeeds (map (λ rs. length rs.items) requests.now) (map (λ a. a.0) answers.now) }
    ensures rows { IfOk result (λ v. map row_of v.items ≡ rows_of_rack (map (λ rs. map read_of rs.items) requests.now) answers.now) }
    ensures outcomes { IfOk result (λ v. map (λ r. r.outcome.now) v.items ≡ map (λ a. a.1) answers.now) }
{
    let mut counts = vec![in alloc; 0usize; requests.len()]?;
    let mut rows = Vec::new(alloc);
    for number in 0..answers.len() {
        let answer = &answers[number];
        let feed = answer.0;
        let position = counts[feed];
        counts[feed] = position + 1;
        rows.push(answer_row(requests, feed, position, &answer.1))?;
    }
    Ok(rows)
}
