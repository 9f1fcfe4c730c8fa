//! The files of racks: the rebuilt fragments, each under its name, and the reports.
ghost use Rattle.std.specs.Prelude.{◌≡◌, ◌++◌, ◌<◌, IfOk, OnOk, length, map};
ghost use Rattle.std.specs.List.{AllZip};
ghost use Rattle.farm_lists.specs.Requests.{read_of};
ghost use Rattle.farm_reports.specs.Report.{fragment_digest, row_of};
ghost use Rattle.farm_reports.specs.Rows.{FitsFeeds};
ghost use Rattle.farm_reports.specs.Named.{named};
ghost use Rattle.farm_reports.specs.Written.{answered_files, files_from, rack_files, rebuilt_file};

use crate::digests::digests_of_racks;
use crate::report::{ReportRow, ReportShape, merged_report_on};
use crate::rows::{rack_rows, rack_shape};
use farm_lists::{ReadRequest, names};
use farm_orders::FeedAnswer;
use lrc_code::Outcome;
use sha256_lanes::Digest;
use std::alloc::{AllocError, Global};
use std::borrow::CowSlice;
use std::thread::Threads;

/// A file that is to be written: a rebuilt fragment, borrowed from the answers, or a report of its own.
pub struct NamedFile<'a> {
    pub name: String,
    pub bytes: CowSlice<'a, u8>,
}

impl Drop for NamedFile<'_> {
    fn drop(self) {
        let NamedFile { name: _, bytes: _ } = self;
    }
}

/// Adds the fragment of a row's request, where it was rebuilt.
fn push_rebuilt<'a>(
    alloc: Global,
    files: &mut Vec<NamedFile<'a>>,
    rack: usize,
    number: usize,
    row: &ReportRow<'a>,
) -> Result<(), AllocError>
    ensures { OnOk result (map named files.new.items ≡ map named files.old.items
        ++ rebuilt_file rack number row.now.listed.now row.now.outcome.now) }
{
    match row.outcome {
        Outcome::Rebuilt(bytes) => {
            let listed = row.listed;
            let name = names::rebuilt_file(alloc, rack, number, listed.stripe(), listed.target())?;
            let bytes = CowSlice::Borrowed(bytes.as_slice());
            files.push(NamedFile { name, bytes })?;
            Ok(())
        }
        Outcome::Contradiction => Ok(()),
        Outcome::Several => Ok(()),
    }
}

/// Adds the rebuilt fragments of a rack's rows, then its report.
fn push_rows<'a>(
    alloc: Global,
    files: &mut Vec<NamedFile<'a>>,
    rack: usize,
    shape: ReportShape,
    rows: &[ReportRow<'a>],
    digests: &[Option<Digest>],
) -> Result<(), AllocError>
    requires { digests.now ≡ map (λ r. fragment_digest r.outcome.now) rows.now }
    ensures { OnOk result (map named files.new.items ≡ map named files.old.items ++ rack_files rack shape (map row_of rows.now)) }
{
    let report = merged_report_on(alloc, shape, rows, digests)?;
    for number in 0..rows.len() {
        push_rebuilt(alloc, files, rack, number, &rows[number])?;
    }
    let name = names::report_file(alloc, rack)?;
    let bytes = CowSlice::Owned(report);
    files.push(NamedFile { name, bytes })?;
    Ok(())
}

/// Adds the files of a rack with these requests, feed by feed.
fn push_rack<'a>(
    alloc: Global,
    files: &mut Vec<NamedFile<'a>>,
    rack: usize,
    requests: &'a [Vec<ReadRequest>],
    answers: &'a [FeedAnswer],
    digests: &[Option<Digest>],
) -> Result<(), AllocError>
    requires answers { FitsFeeds (map (λ rs. length rs.items) requests.now) (map (λ a. a.0) answers.now) }
    requires digests { digests.now ≡ map (λ a. fragment_digest a.1) answers.now }
    ensures { OnOk result (map named files.new.items
        ≡ map named files.old.items ++ answered_files rack (map (λ rs. map read_of rs.items) requests.now) answers.now) }
{
    let shape = rack_shape(requests);
    let rows = rack_rows(alloc, requests, answers)?;
    push_rows(alloc, files, rack, shape, rows.as_slice(), digests)
}

/// The files of all racks, in the order in which they are written: for each rack the rebuilt fragments in the order of its
/// numbers, then its report. The requests before each list's close are feed by feed. The digests are made in at most this many
/// threads.
pub fn make_files<'a, R: Threads + Sync>(
    rt: &R,
    alloc: Global,
    threads: usize,
    racks: &'a [Vec<Vec<ReadRequest>>],
    answers: &'a [Vec<FeedAnswer>],
) -> Result<Vec<NamedFile<'a>>, AllocError>
    requires threads { 0 < threads }
    requires answers { AllZip (λ feeds os. FitsFeeds (map (λ rs. length rs.items) feeds.items)
        (map (λ a. a.0) os.items)) racks.now answers.now }
    ensures { IfOk result (λ v. map named v.items
        ≡ files_from 0 (map (λ feeds. map (λ rs. map read_of rs.items) feeds.items) racks.now) (map (λ os. os.items) answers.now)) }
{
    let digests = digests_of_racks(rt, alloc, answers, threads)?;
    let mut digests_left = digests.as_slice();
    let mut files = Vec::new(alloc);
    for rack in 0..racks.len() {
        let outcomes = answers[rack].as_slice();
        let (rack_digests, further) = digests_left.split_at(outcomes.len());
        digests_left = further;
        push_rack(
            alloc,
            &mut files,
            rack,
            racks[rack].as_slice(),
            outcomes,
            rack_digests,
        )?;
    }
    Ok(files)
}
