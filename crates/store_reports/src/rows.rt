//! The rows of a report, as values between commas (CSV) or as objects (JSON).
use crate::done::Done;
use crate::findings::{ALONE, reason_text};
use crate::results::{Results, RowSource};
use crate::totals::{rebuilt_places, unchecked_places};
use csv::WriterBuilder;
use serde_json::Value;
use std::alloc::{AllocError, Global};
use std::io::{self, ErrorKind};
use store_faults::{Descriptions, REPORT_HEADER, ROW_BEGIN};
use store_listing::Alone;
use store_repair::StripeOutcome;

/// The form of a report's rows.
#[derive(Clone, Copy, PartialEq, Eq)]
pub enum Rows {
    /// A header, and values between commas.
    Csv,
    /// An object on each line.
    Json,
}

/// A row: the stripe, the place if it is of a fragment, what became of it, and a detail.
#[derive(Drop)]
struct Row<'a> {
    stripe: &'a str,
    place: &'a str,
    outcome: &'a str,
    detail: String,
}

/// The rows of a report: one for each fragment that was rebuilt, one for each finding, and one for each file that is of no stripe.
pub fn rows_of(alloc: Global, results: &Results<'_>, rows: Rows) -> io::Result<String> {
    let mut text = String::new(alloc);
    if rows == Rows::Csv {
        text.push_str(REPORT_HEADER)?;
    }
    for done in results.all {
        if let Some(stripe) = results.stripes.get(done.index) {
            add_stripe(alloc, results.source(), stripe.name, done, rows, &mut text)?;
        }
    }
    add_alone(alloc, results.alone, rows, &mut text)?;
    Ok(text)
}

/// Adds the rows of a stripe.
pub fn add_stripe(
    alloc: Global,
    source: RowSource<'_>,
    stripe: &str,
    done: &Done,
    rows: Rows,
    text: &mut String,
) -> io::Result<()> {
    add_rows(alloc, source, stripe, &done.outcome, rows, text)?;
    match &done.descriptions {
        Some(descriptions) => add_descriptions(alloc, source, stripe, descriptions, rows, text),
        None => Ok(()),
    }
}

/// Adds the rows of files that are of no stripe.
pub fn add_alone(alloc: Global, alone: &[Alone], rows: Rows, text: &mut String) -> io::Result<()> {
    for Alone { stripe, place } in alone {
        let row = Row {
            stripe: stripe.as_str(),
            place: place.name(),
            outcome: "alone",
            detail: String::from_str(alloc, ALONE)?,
        };
        add_row(alloc, &row, rows, text)?;
    }
    Ok(())
}

/// Adds the rows of a stripe's fragments.
fn add_rows(
    alloc: Global,
    source: RowSource<'_>,
    stripe: &str,
    outcome: &StripeOutcome,
    rows: Rows,
    text: &mut String,
) -> io::Result<()> {
    let unchecked = unchecked_places(alloc, source.site, stripe, outcome)?;
    for place in rebuilt_places(alloc, outcome)? {
        let is_unchecked = unchecked.iter().any(|other| *other == place);
        let detail = if is_unchecked { "unchecked" } else { "" };
        let row = Row {
            stripe,
            place: place.name(),
            outcome: source.word,
            detail: String::from_str(alloc, detail)?,
        };
        add_row(alloc, &row, rows, text)?;
    }
    for finding in &outcome.findings {
        let row = Row {
            stripe,
            place: match finding.place {
                Some(place) => place.name(),
                None => "",
            },
            outcome: if outcome.is_mended(finding) {
                "was"
            } else {
                "left"
            },
            detail: reason_text(alloc, &finding.reason)?,
        };
        add_row(alloc, &row, rows, text)?;
    }
    Ok(())
}

/// Adds the rows of a stripe's descriptions.
fn add_descriptions(
    alloc: Global,
    source: RowSource<'_>,
    stripe: &str,
    descriptions: &Descriptions,
    rows: Rows,
    text: &mut String,
) -> io::Result<()> {
    for name in &descriptions.made {
        let row = Row {
            stripe,
            place: "file",
            outcome: source.word,
            detail: String::from_str(alloc, name.as_str())?,
        };
        add_row(alloc, &row, rows, text)?;
    }
    for finding in &descriptions.findings {
        let row = Row {
            stripe,
            place: "file",
            outcome: "left",
            detail: finding.text(alloc)?,
        };
        add_row(alloc, &row, rows, text)?;
    }
    Ok(())
}

/// Adds a row in the form that is wanted.
fn add_row(alloc: Global, row: &Row<'_>, rows: Rows, text: &mut String) -> io::Result<()> {
    match rows {
        Rows::Csv => add_values(alloc, row, text),
        Rows::Json => add_object(alloc, row, text),
    }
}

/// Adds a row's values between commas.
fn add_values(alloc: Global, row: &Row<'_>, text: &mut String) -> io::Result<()> {
    let mut values = Vec::new(alloc);
    values.push(row.stripe.as_bytes())?;
    values.push(row.place.as_bytes())?;
    values.push(row.outcome.as_bytes())?;
    values.push(row.detail.as_bytes())?;
    match values_text(alloc, values.as_slice()) {
        Ok(bytes) => {
            text.push_str(str::from_utf8(bytes.as_slice()).unwrap_or(""))?;
            Ok(())
        }
        Err(_) => Err(io::Error::from(ErrorKind::OutOfMemory)),
    }
}

/// Values between commas. Only memory can be refused.
fn values_text(alloc: Global, values: &[&[u8]]) -> Result<Vec<u8>, csv::Error> {
    let mut writer = WriterBuilder::new().from_writer(Vec::new(alloc));
    writer.write_fields(values)?;
    match writer.into_inner() {
        Ok(text) => Ok(text),
        Err(error) => Err(error.into_error()),
    }
}

/// Adds a row as an object.
fn add_object(alloc: Global, row: &Row<'_>, text: &mut String) -> io::Result<()> {
    let stripe = quoted(alloc, row.stripe)?;
    let place = quoted(alloc, row.place)?;
    let outcome = quoted(alloc, row.outcome)?;
    let detail = quoted(alloc, row.detail.as_str())?;
    let line = format!(in alloc;
        "{ROW_BEGIN}{stripe},\"place\":{place},\"outcome\":{outcome},\"detail\":{detail}}}\n"
    )?;
    text.push_str(line.as_str())?;
    Ok(())
}

/// A text as JSON has it.
pub(crate) fn quoted(alloc: Global, text: &str) -> Result<String, AllocError> {
    Value::String(String::from_str(alloc, text)?).to_string(alloc)
}
