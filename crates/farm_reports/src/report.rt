//! Reports, by csv's own writing.
ghost use Rattle.std.specs.Prelude.{◌≡◌, ◌++◌, ◌∷◌, [], ℕ, List, IfOk, OnOk, decimal, length, map, string_bytes};
ghost use Rattle.std.specs.List.{join_with_byte, list_any};
ghost use Rattle.csv.specs.Writing.{default_writer, row_text};
ghost use Rattle.lrc_code.specs.Places.{name_of};
ghost use Rattle.farm_lists.specs.Requests.{listed_before_close};
ghost use Rattle.farm_reports.specs.Report.{digest_text, field_if, fragment_digest, is_wide, merged_report};
ghost use Rattle.farm_reports.specs.Report.{outcome_name, report, report_fields, report_header, report_line, row_of, rows_of_list};
ghost use Rattle.farm_reports.specs.Writing.{HasWritten};

use crate::digests::digest_of;
use csv::{Writer, WriterBuilder};
use farm_lists::{Listed, Record, requests_before_close};
use lrc_code::{Code, Outcome, Place};
use sha256_lanes::Digest;
use std::alloc::{AllocError, Global};

/// Which fields a report has beside the seven of every report.
#[derive(Clone, Copy, Debug, PartialEq, Eq)]
pub struct ReportShape {
    /// Whether the feed's number is after the row's.
    pub feeds: bool,
    /// Whether the code's name is last.
    pub codes: bool,
}

/// A row of a report.
#[derive(Clone, Copy)]
pub struct ReportRow<'a> {
    /// The number of the feed that lists the request.
    pub feed: usize,
    /// The request as listed.
    pub listed: &'a Listed,
    /// Its outcome.
    pub outcome: &'a Outcome,
    /// The listed survivors that were left out, in the list's order.
    pub unread: &'a [Place],
}

/// The report on a list, with the outcomes of the requests before its first close and the survivors of each
/// that were left out. It says the codes if one of these requests is of the (12,2,2) code, and no feeds.
pub fn report_text(
    alloc: Global,
    list: &[Record],
    outcomes: &[Outcome],
    unread: &[Vec<Place>],
) -> Result<Vec<u8>, AllocError>
    requires outcomes { length outcomes.now ≡ length (listed_before_close list.now) }
    requires unread { length unread.now ≡ length (listed_before_close list.now) }
    ensures { IfOk result (λ v. v.items ≡ report (listed_before_close list.now) outcomes.now (map (λ u. u.items) unread.now)) }
{
    let requests = requests_before_close(alloc, list)?;
    let rows = list_rows(alloc, requests.as_slice(), outcomes, unread)?;
    let shape = ReportShape {
        feeds: false,
        codes: has_wide(requests.as_slice()),
    };
    merged_report_text(alloc, shape, rows.as_slice())
}

/// The report of a shape on rows, which are numbered in their order.
pub fn merged_report_text(
    alloc: Global,
    shape: ReportShape,
    rows: &[ReportRow],
) -> Result<Vec<u8>, AllocError>
    ensures { IfOk result (λ v. v.items ≡ merged_report shape (map row_of rows.now)) }
{
    let digests = digests_of(alloc, rows)?;
    merged_report_on(alloc, shape, rows, digests.as_slice())
}

/// The report of a shape on rows, which are numbered in their order, with the digests of their outcomes, which are made already.
pub(crate) fn merged_report_on(
    alloc: Global,
    shape: ReportShape,
    rows: &[ReportRow],
    digests: &[Option<Digest>],
) -> Result<Vec<u8>, AllocError>
    requires { digests.now ≡ map (λ r. fragment_digest r.outcome.now) rows.now }
    ensures { IfOk result (λ v. v.items ≡ merged_report shape (map row_of rows.now)) }
{
    let mut writer = WriterBuilder::new().from_writer(Vec::from_slice(alloc, header(shape))?);
    for number in 0..rows.len() {
        write_row(
            alloc,
            &mut writer,
            shape,
            number,
            &rows[number],
            digests[number],
        )?;
    }
    match writer.into_inner() {
        Ok(text) => Ok(text),
        Err(_) => Err(AllocError),
    }
}

/// Whether a request is of the (12,2,2) code.
pub(crate) fn is_wide_request(listed: &Listed) -> bool
    ensures { result ≡ is_wide listed.now }
{
    listed.code() != Code::UNNAMED
}

/// Whether one of the requests is of the (12,2,2) code.
fn has_wide(requests: &[&Listed]) -> bool
    ensures { result ≡ list_any is_wide (map (λ r. r.now) requests.now) }
{
    for index in 0..requests.len() {
        if is_wide_request(requests[index]) {
            return true;
        }
    }
    false
}

/// The rows of one list's requests.
fn list_rows<'a>(
    alloc: Global,
    requests: &[&'a Listed],
    outcomes: &'a [Outcome],
    unread: &'a [Vec<Place>],
) -> Result<Vec<ReportRow<'a>>, AllocError>
    requires outcomes { length outcomes.now ≡ length requests.now }
    requires unread { length unread.now ≡ length requests.now }
    ensures { IfOk result (λ v. map row_of v.items ≡ rows_of_list (map (λ r. r.now) requests.now) outcomes.now
        (map (λ u. u.items) unread.now)) }
{
    let mut rows = Vec::new(alloc);
    for index in 0..requests.len() {
        rows.push(ReportRow {
            feed: 0,
            listed: requests[index],
            outcome: &outcomes[index],
            unread: unread[index].as_slice(),
        })?;
    }
    Ok(rows)
}

/// The first line.
fn header(shape: ReportShape) -> &'static [u8]
    ensures { result.now ≡ report_line (report_header shape) }
{
    match (shape.feeds, shape.codes) {
        (false, false) => b"number,stripe,target,length,outcome,digest,unread\n",
        (false, true) => b"number,stripe,target,length,outcome,digest,unread,code\n",
        (true, false) => b"number,feed,stripe,target,length,outcome,digest,unread\n",
        (true, true) => b"number,feed,stripe,target,length,outcome,digest,unread,code\n",
    }
}

/// Writes the line of a row.
fn write_row(
    alloc: Global,
    writer: &mut Writer<Vec<u8>>,
    shape: ReportShape,
    number: usize,
    row: &ReportRow,
    digest: Option<Digest>,
) -> Result<(), AllocError>
    requires { digest ≡ fragment_digest row.now.outcome.now }
    ensures { OnOk result ((text : List ℕ) → HasWritten text writer.old
        → HasWritten (text ++ report_line (report_fields shape number (row_of row.now))) writer.new) }
{
    let number = decimal_text(alloc, number as u64)?;
    let feed = decimal_text(alloc, row.feed as u64)?;
    let length = decimal_text(alloc, u64::from(row.listed.length()))?;
    let digest = hexadecimal(alloc, digest)?;
    let unread = spaced_names(alloc, row.unread)?;
    let texts = RowTexts {
        number: number.as_bytes(),
        feed: feed.as_bytes(),
        stripe: row.listed.stripe().as_bytes(),
        target: row.listed.target().name().as_bytes(),
        length: length.as_bytes(),
        outcome: outcome_word(row.outcome),
        digest: digest.as_bytes(),
        unread: unread.as_slice(),
        code: row.listed.code().text().as_bytes(),
    };
    write_texts(writer, shape, &texts)
}

/// A number in decimal.
fn decimal_text(alloc: Global, number: u64) -> Result<String, AllocError>
    ensures { IfOk result (λ s. string_bytes s ≡ decimal number) }
{
    number.to_string(alloc)
}

/// The texts of a row's fields, in the order of a report that has them all.
#[derive(Clone, Copy)]
struct RowTexts<'a> {
    number: &'a [u8],
    feed: &'a [u8],
    stripe: &'a [u8],
    target: &'a [u8],
    length: &'a [u8],
    outcome: &'a [u8],
    digest: &'a [u8],
    unread: &'a [u8],
    code: &'a [u8],
}

/// Writes the fields of a row: those of the feed and of the code are among them if they are asked for.
fn write_texts(
    writer: &mut Writer<Vec<u8>>,
    shape: ReportShape,
    row: &RowTexts<'_>,
) -> Result<(), AllocError>
    ensures { OnOk result ((text : List ℕ) → HasWritten text writer.old → HasWritten (text ++ row_text default_writer
        (row.now.number.now ∷ (field_if shape.feeds row.now.feed.now ++ row.now.stripe.now ∷ row.now.target.now ∷ row.now.length.now
        ∷ row.now.outcome.now ∷ row.now.digest.now ∷ row.now.unread.now ∷ field_if shape.codes row.now.code.now))) writer.new) }
{
    let RowTexts {
        number,
        feed,
        stripe,
        target,
        length,
        outcome,
        digest,
        unread,
        code,
    } = *row;
    match (shape.feeds, shape.codes) {
        (false, false) => write_record(
            writer,
            &[number, stripe, target, length, outcome, digest, unread],
        ),
        (false, true) => write_record(
            writer,
            &[
                number, stripe, target, length, outcome, digest, unread, code,
            ],
        ),
        (true, false) => write_record(
            writer,
            &[
                number, feed, stripe, target, length, outcome, digest, unread,
            ],
        ),
        (true, true) => write_record(
            writer,
            &[
                number, feed, stripe, target, length, outcome, digest, unread, code,
            ],
        ),
    }
}

/// Writes a record.
fn write_record(writer: &mut Writer<Vec<u8>>, fields: &[&[u8]]) -> Result<(), AllocError>
    ensures { OnOk result ((text : List ℕ) → HasWritten text writer.old
        → HasWritten (text ++ row_text default_writer (map (λ f. f.now) fields.now)) writer.new) }
{
    match writer.write_fields(fields) {
        Ok(()) => Ok(()),
        Err(_) => Err(AllocError),
    }
}

/// What a report says of an outcome.
fn outcome_word(outcome: &Outcome) -> &'static [u8]
    ensures { result.now ≡ outcome_name outcome.now }
{
    match outcome {
        Outcome::Rebuilt(_) => b"rebuilt",
        Outcome::Contradiction => b"contradiction",
        Outcome::Several => b"several",
    }
}

/// A digest in hexadecimal; nothing where there is none.
fn hexadecimal(alloc: Global, digest: Option<Digest>) -> Result<String, AllocError>
    ensures { IfOk result (λ s. string_bytes s ≡ digest_text digest) }
{
    match digest {
        Some(digest) => hex::encode(alloc, digest.as_slice()),
        None => Ok(String::new(alloc)),
    }
}

/// The names of places with one space between two.
fn spaced_names(alloc: Global, places: &[Place]) -> Result<Vec<u8>, AllocError>
    ensures { IfOk result (λ v. v.items ≡ join_with_byte 32 (map name_of places.now)) }
{
    let mut text = Vec::new(alloc);
    for index in 0..places.len() {
        if index > 0 {
            text.push(b' ')?;
        }
        text.extend_from_slice(places[index].name().as_bytes())?;
    }
    Ok(text)
}

/// The digests of the outcomes of rows, made one after the other.
fn digests_of(alloc: Global, rows: &[ReportRow]) -> Result<Vec<Option<Digest>>, AllocError>
    ensures { IfOk result (λ v. v.items ≡ map (λ r. fragment_digest r.outcome.now) rows.now) }
{
    let mut digests = Vec::new(alloc);
    for index in 0..rows.len() {
        digests.push(digest_of(rows[index].outcome))?;
    }
    Ok(digests)
}
