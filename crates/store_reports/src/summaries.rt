//! The last line of a command: what was done, or would be, and what is left.
use crate::done::Done;
use crate::findings::file_of;
use crate::results::Results;
use crate::totals::{Totals, unchecked_places};
use lrc_code::Place;
use std::alloc::{AllocError, Global};
use store_folder::Site;
use store_repair::{Finding, Reason, Stripe};

/// As many names are in a summary; rows and lines have all.
const MOST_NAMES: usize = 3;

/// Units, each 1,024 times the one before it; the first is 1,024 bytes.
const UNITS: [&str; 4] = ["KiB", "MiB", "GiB", "TiB"];

/// The first names of some fragments.
#[derive(Drop)]
struct Names {
    text: String,
    count: usize,
}

impl Names {
    /// No names.
    fn new(alloc: Global) -> Names {
        Names {
            text: String::new(alloc),
            count: 0,
        }
    }

    /// Adds the name of a fragment: the first few are written, and of the rest that there are more.
    fn add(
        &mut self,
        alloc: Global,
        site: &Site<'_>,
        stripe: &Stripe<'_>,
        place: Place,
    ) -> Result<(), AllocError> {
        if self.count < MOST_NAMES {
            let name = file_of(alloc, site, stripe, place)?;
            self.text
                .push_str(if self.count == 0 { ": " } else { " " })?;
            self.text.push_str(name.as_str())?;
        } else if self.count == MOST_NAMES {
            self.text.push_str(" ..")?;
        }
        self.count = self.count.saturating_add(1);
        Ok(())
    }
}

/// What a repair did.
pub fn repaired(alloc: Global, results: &Results<'_>) -> Result<String, AllocError> {
    let totals = results.totals;
    let mut unchecked = Names::new(alloc);
    let mut damaged = Names::new(alloc);
    add_names(alloc, results, &mut unchecked, &mut damaged)?;
    let rebuilt = counted(alloc, totals.rebuilt, "fragment")?;
    let bytes = size_of(alloc, totals.bytes)?;
    let Names { text, count } = unchecked;
    let Names {
        text: damaged_names,
        count: damaged_count,
    } = damaged;
    let replaceable = replaceable_text(
        alloc,
        totals.replaceable,
        "; left without --replace-damaged: ",
    )?;
    let left = totals.left.saturating_sub(totals.replaceable);
    let described = described_text(alloc, totals.described, "made")?;
    let damaged = format!(in alloc; "{damaged_count}{damaged_names}{replaceable}")?;
    format!(in alloc;
        "repaired {rebuilt}, {bytes} ({count} unchecked{text}); damaged: {damaged}; not possible: {left}{described}"
    )
}

/// Adds the names of what no check covers of what was rebuilt, and of what is damaged.
fn add_names(
    alloc: Global,
    results: &Results<'_>,
    unchecked: &mut Names,
    damaged: &mut Names,
) -> Result<(), AllocError> {
    let site = results.site;
    for done in results.all {
        let Some(stripe) = results.stripes.get(done.index) else {
            continue;
        };
        for place in unchecked_places(alloc, site, stripe.name, &done.outcome)? {
            unchecked.add(alloc, site, stripe, place)?;
        }
        for finding in &done.outcome.findings {
            if let (Some(place), true) = (finding.place, finding.reason.is_damage()) {
                damaged.add(alloc, site, stripe, place)?;
            }
        }
    }
    Ok(())
}

/// What is said of what would be replaced if that were asked for, if there is anything.
fn replaceable_text(alloc: Global, count: u64, what: &str) -> Result<String, AllocError> {
    if count == 0 {
        return Ok(String::new(alloc));
    }
    format!(in alloc; "{what}{count}")
}

/// What is said of copies of descriptions, if there are any.
fn described_text(alloc: Global, count: u64, what: &str) -> Result<String, AllocError> {
    if count == 0 {
        return Ok(String::new(alloc));
    }
    let copies = counted(alloc, count, "description")?;
    format!(in alloc; "; {copies} {what}")
}

/// The sizes of the stripes that a repair would work on.
#[derive(Clone, Copy)]
struct Sizes {
    /// How many fragments are lost, and in how many stripes.
    lost: u64,
    lossy: u64,
    /// The bytes of the survivors that would be read.
    read: u64,
    /// The lengths of the shortest and the longest fragments.
    least: u64,
    most: u64,
}

/// The sizes of what a repair would do, over the stripes whose fragments have one length.
fn sizes_of(alloc: Global, results: &Results<'_>) -> Result<Sizes, AllocError> {
    let mut sizes = Sizes {
        lost: 0,
        lossy: 0,
        read: 0,
        least: u64::MAX,
        most: 0,
    };
    for done in results.all {
        let Some(stripe) = results.stripes.get(done.index) else {
            continue;
        };
        let has_length = |finding: &Finding| {
            !matches!(finding.reason, Reason::LengthsDiffer(_))
        };
        if !done.outcome.findings.iter().all(has_length) {
            continue;
        }
        let length = done.outcome.length as u64;
        let lost = stripe.files.lost(alloc, results.site.code, length)?;
        let survivors = done.outcome.survivors.len() as u64;
        sizes.lost = sizes.lost.saturating_add(lost.len() as u64);
        sizes.lossy = sizes.lossy.saturating_add(u64::from(!lost.is_empty()));
        sizes.read = sizes.read.saturating_add(survivors.saturating_mul(length));
        sizes.least = sizes.least.min(length);
        sizes.most = sizes.most.max(length);
    }
    Ok(sizes)
}

/// What a repair would do.
pub fn planned(alloc: Global, results: &Results<'_>) -> Result<String, AllocError> {
    let Sizes {
        lost,
        lossy,
        read,
        least,
        most,
    } = sizes_of(alloc, results)?;
    let Totals {
        rebuilt,
        bytes,
        unchecked,
        left,
        replaceable,
        described,
        ..
    } = results.totals;
    let left = left.saturating_sub(replaceable);
    let more = replaceable_text(alloc, replaceable, ", with --replace-damaged ")?;
    let described = described_text(alloc, described, "can be made")?;
    let count = counted(alloc, results.stripes.len() as u64, "stripe")?;
    let code = results.site.code.text();
    let lengths = lengths_of(alloc, least, most)?;
    let reads = size_of(alloc, read)?;
    let writes = size_of(alloc, bytes)?;
    let first = format!(in alloc; "{count} of {code}, {lengths}; {lost} lost in {lossy}")?;
    format!(in alloc;
        "{first}; {rebuilt} can be rebuilt ({unchecked} unchecked){more}, {left} can't; reads {reads}, writes {writes}{described}"
    )
}

/// What a scrub found, and of how many stripes no check covers the fragments.
pub fn scrubbed(alloc: Global, results: &Results<'_>) -> Result<String, AllocError> {
    let count = counted(alloc, results.stripes.len() as u64, "stripe")?;
    let is_unchecked = |done: &&Done| { !done.outcome.is_checked };
    let unchecked = results.all.iter().filter(is_unchecked).count() as u64;
    let unchecked = counted(alloc, unchecked, "stripe")?;
    let Totals { damaged, left, .. } = results.totals;
    let left = left.saturating_sub(damaged);
    format!(in alloc;
        "scrubbed {count}: {damaged} damaged, {left} lost or contradictory, {unchecked} without any check"
    )
}

/// How many stripes a list of requests is of, and how many fragments are lost and not in the list.
pub fn listed(alloc: Global, stripes: u64, lost: u64, unlisted: u64) -> Result<String, AllocError> {
    let stripes = counted(alloc, stripes, "stripe")?;
    let fragments = counted(alloc, lost, "fragment")?;
    format!(in alloc; "{stripes}; {fragments} lost, {unlisted} of them not in the list")
}

/// How many files were encoded, and how many were not.
pub fn encoded(alloc: Global, encoded: u64, left: u64) -> Result<String, AllocError> {
    let encoded = counted(alloc, encoded, "file")?;
    format!(in alloc; "encoded {encoded}; not encoded: {left}")
}

/// How many files are in a store, and how many of them aren't whole.
pub fn files_listed(alloc: Global, files: u64, broken: u64) -> Result<String, AllocError> {
    let files = counted(alloc, files, "file")?;
    format!(in alloc; "{files}; not whole: {broken}")
}

/// How many files have their digests, and how many don't.
pub fn verified(alloc: Global, verified: u64, left: u64) -> Result<String, AllocError> {
    let verified = counted(alloc, verified, "file")?;
    format!(in alloc; "verified {verified}; not as described: {left}")
}

/// How many files were taken out of a store, and how many were not.
pub fn removed(alloc: Global, removed: u64, left: u64) -> Result<String, AllocError> {
    let removed = counted(alloc, removed, "file")?;
    format!(in alloc; "removed {removed}; not removed: {left}")
}

/// A count of things.
fn counted(alloc: Global, count: u64, thing: &str) -> Result<String, AllocError> {
    let ending = if count == 1 { "" } else { "s" };
    format!(in alloc; "{count} {thing}{ending}")
}

/// The lengths of fragments, from the least to the most.
fn lengths_of(alloc: Global, least: u64, most: u64) -> Result<String, AllocError> {
    if least >= most {
        return size_of(alloc, most);
    }
    let least = size_of(alloc, least)?;
    let most = size_of(alloc, most)?;
    format!(in alloc; "{least} to {most}")
}

/// So many bytes, in the greatest unit that they fill, with tenths where they don't fill whole ones.
fn size_of(alloc: Global, bytes: u64) -> Result<String, AllocError> {
    let mut unit = 1u64;
    let mut name = if bytes == 1 { "byte" } else { "bytes" };
    for greater in &UNITS {
        if bytes / 1024 < unit {
            break;
        }
        unit = unit.saturating_mul(1024);
        name = greater;
    }
    let whole = bytes / unit.max(1);
    let tenths = (bytes % unit.max(1)) / (unit / 10).max(1);
    let tenths = tenths.min(9);
    if tenths == 0 {
        return format!(in alloc; "{whole} {name}");
    }
    format!(in alloc; "{whole}.{tenths} {name}")
}
