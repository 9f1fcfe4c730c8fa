//! The lines that say what isn't as it should be.
use crate::done::Done;
use crate::requests::MOST_BYTES;
use crate::results::Results;
use crate::totals::{unchecked_places, why_unchecked};
use lrc_code::{Code, Place, is_stripe_name};
use std::alloc::{AllocError, Global};
use std::io::ErrorKind;
use store_faults::{fragment_name, without_number};
use store_folder::{Pattern, Site};
use store_listing::Alone;
use store_repair::{Finding, Found, Reason, Refused, Stripe};

/// What is said of a file that is named as a fragment and is of no stripe.
pub(crate) const ALONE: &str = "is named as a fragment, and of no stripe";

/// The name of a fragment's file in the store.
pub(crate) fn file_of(
    alloc: Global,
    site: &Site<'_>,
    stripe: &Stripe<'_>,
    place: Place,
) -> Result<String, AllocError> {
    fragment_name(alloc, &site.pattern, site.code, stripe.name, place)
}

/// The line of a finding.
fn line_of(
    alloc: Global,
    site: &Site<'_>,
    stripe: &Stripe<'_>,
    finding: &Finding,
) -> Result<String, AllocError> {
    let name = match finding.place {
        Some(place) => file_of(alloc, site, stripe, place)?,
        None => String::from_str(alloc, stripe.name)?,
    };
    let reason = reason_text(alloc, &finding.reason)?;
    format!(in alloc; "{name}: {reason}")
}

/// What is said of a fragment or a stripe. A folder may take no names as long as those of unfinished files and of fragments that are kept.
pub(crate) fn reason_text(alloc: Global, reason: &Reason) -> Result<String, AllocError> {
    match reason {
        Reason::Unwritten(error) if error.kind() == ErrorKind::InvalidFilename => String::from_str(
            alloc,
            "can't be put in its place: its folder takes no name as long as that of a fragment which is kept, or of an unfinished file",
        ),
        reason => {
            let text = format!(in alloc; "{reason}")?;
            String::from_str(alloc, without_number(text.as_str()))
        }
    }
}

/// The lines of what a command found of a stripe's fragments and of the copies of its description.
pub fn finding_lines(
    alloc: Global,
    results: &Results<'_>,
    done: &Done,
) -> Result<Vec<String>, AllocError> {
    let mut lines = Vec::new(alloc);
    let Some(stripe) = results.stripes.get(done.index) else {
        return Ok(lines);
    };
    for finding in &done.outcome.findings {
        lines.push(line_of(alloc, results.site, stripe, finding)?)?;
    }
    if let Some(descriptions) = &done.descriptions {
        for finding in &descriptions.findings {
            lines.push(finding.text(alloc)?)?;
        }
    }
    Ok(lines)
}

/// The lines of the fragments of a stripe that were rebuilt, or would be, and that no check covers.
pub fn unchecked_lines(
    alloc: Global,
    results: &Results<'_>,
    done: &Done,
) -> Result<Vec<String>, AllocError> {
    let mut lines = Vec::new(alloc);
    let Some(stripe) = results.stripes.get(done.index) else {
        return Ok(lines);
    };
    let why = why_unchecked(&done.outcome);
    let word = results.word;
    for place in unchecked_places(alloc, results.site, stripe.name, &done.outcome)? {
        let name = file_of(alloc, results.site, stripe, place)?;
        lines.push(format!(in alloc; "{name}: {word} unchecked: {why}")?)?;
    }
    Ok(lines)
}

/// The lines that say which files are named as fragments and are of no stripe: one with the first one's name, or one for each.
pub fn alone_lines(
    alloc: Global,
    pattern: &Pattern<'_>,
    code: Code,
    files: &[Alone],
    all: bool,
) -> Result<Vec<String>, AllocError> {
    let mut lines = Vec::new(alloc);
    let count = files.len();
    for Alone { stripe, place } in files {
        let name = fragment_name(alloc, pattern, code, stripe.as_str(), *place)?;
        let line = if all {
            format!(in alloc; "{name}: {ALONE}")?
        } else if count == 1 {
            format!(in alloc; "rebuild-store: {name}: {ALONE}")?
        } else {
            format!(in alloc;
                "rebuild-store: {count} files are named as fragments, and of no stripe: {name} and others"
            )?
        };
        lines.push(line)?;
        if !all {
            break;
        }
    }
    Ok(lines)
}

/// The lines that say which of the lost fragments of a stripe can't be looked at.
pub fn unknown_lines(
    alloc: Global,
    site: &Site<'_>,
    stripe: &Stripe<'_>,
    places: &[Place],
) -> Result<Vec<String>, AllocError> {
    let mut lines = Vec::new(alloc);
    for place in places {
        let found = stripe.files.at(*place);
        if matches!(found, Found::Unknown { .. }) {
            let name = file_of(alloc, site, stripe, *place)?;
            let reason = reason_text(alloc, &Reason::of(found))?;
            lines.push(format!(in alloc; "rebuild-store: {name}: {reason}")?)?;
        }
    }
    Ok(lines)
}

/// The lines that say which fragments of a stripe can't be read.
pub fn unread_lines(
    alloc: Global,
    site: &Site<'_>,
    stripe: &Stripe<'_>,
    unread: &[Refused],
) -> Result<Vec<String>, AllocError> {
    let mut lines = Vec::new(alloc);
    for Refused { place, error } in unread {
        let name = file_of(alloc, site, stripe, *place)?;
        let reason = reason_text(alloc, &Reason::Unread(*error))?;
        lines.push(format!(in alloc; "rebuild-store: {name}: {reason}")?)?;
    }
    Ok(lines)
}

/// The lines that say why a list can't ask for the lost fragments of a stripe, each of so many bytes: one for a stripe of which nothing
/// survives.
pub fn unlisted_lines(
    alloc: Global,
    site: &Site<'_>,
    stripe: &Stripe<'_>,
    length: u64,
    places: &[Place],
) -> Result<Vec<String>, AllocError> {
    let mut lines = Vec::new(alloc);
    if places.len() == site.code.places().len() {
        let name = stripe.name;
        let reason = Reason::NoSurvivor;
        lines.push(format!(in alloc; "rebuild-store: {name}: {reason}")?)?;
        return Ok(lines);
    }
    for place in places {
        let name = file_of(alloc, site, stripe, *place)?;
        let line = if is_stripe_name(stripe.name) {
            format!(in alloc;
                "rebuild-store: {name}: a list can't ask for it: it has {length} bytes, and lists take 1 to {MOST_BYTES}"
            )?
        } else {
            format!(in alloc;
                "rebuild-store: {name}: a list can't ask for it: lists take other names of stripes"
            )?
        };
        lines.push(line)?;
    }
    Ok(lines)
}
