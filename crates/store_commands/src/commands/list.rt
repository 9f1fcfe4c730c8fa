//! The command `list`.
use crate::commands::opening_of;
use crate::output::{say_all, say_alone};
use lrc_code::{Code, PlaceSet};
use std::alloc::{AllocError, Global};
use store_arguments::ListOptions;
use store_faults::{CopyFinding, DEVICE, DONE, FileFault, device, say, write};
use store_folder::{Found, Site};
use store_opening::{OpenStore, Opening, open_store};
use store_reading::{CopyWork, DescribedStripe, tend_descriptions};
use store_repair::{Stripe, fragment_length, have_checks, lost_places};
use store_reports::{FileState, ListedFile, Rows, file_line, files_listed, unknown_lines};

/// Says which files are in a store, and gives the exit status.
pub fn list(rt: &HostRuntime, options: &ListOptions<'_>) -> Result<u8, FileFault> {
    let opening = opening_of(&options.store);
    let store = open_store(rt, &opening)?;
    let form = if options.json { Rows::Json } else { Rows::Csv };
    list_files(rt, &opening, &store, form)
}

/// Says which files are in an open store, and which of their fragments can't be looked at.
fn list_files(
    rt: &HostRuntime,
    opening: &Opening<'_>,
    store: &OpenStore,
    form: Rows,
) -> Result<u8, FileFault> {
    let alloc = rt.alloc();
    let site = store.site_of(opening);
    let stripes = store.stripes(rt)?;
    let mut broken = 0u64;
    let mut is_device = store.has_unlisted;
    for stripe in &stripes {
        let known = known_of(rt, store, &site, stripe)?;
        let unknown = unknown_lines(alloc, &site, stripe, store.code.places())?;
        is_device = is_device || known.is_unread || !unknown.is_empty();
        say_all(rt, unknown)?;
        let file = file_of(alloc, store, stripe, &known)?;
        broken = broken.saturating_add(u64::from(file.state != FileState::Whole));
        let line = file_line(alloc, &file, form)?;
        // An object has escapes of its own.
        let written = match form {
            Rows::Csv => write(rt, Ok(line)),
            Rows::Json => println!(rt; "{line}"),
        };
        if let Err(error) = written {
            return Err(device(alloc, "standard output", error));
        }
    }
    say_alone(rt, store, opening, false);
    say(rt, files_listed(alloc, stripes.len() as u64, broken))?;
    Ok(if is_device { DEVICE } else { DONE })
}

/// What the descriptions of a file say.
#[derive(Clone, Copy)]
struct Known {
    bytes: Option<u64>,
    /// Whether all that there should be are as they should be, and whether one can't be read.
    are_whole: bool,
    is_unread: bool,
}

/// What is there of a stripe and of its descriptions.
fn file_of<'a>(
    alloc: Global,
    store: &OpenStore,
    stripe: &Stripe<'a>,
    known: &Known,
) -> Result<ListedFile<'a>, AllocError> {
    let code = store.code;
    let bytes = known.bytes;
    let length = match bytes {
        Some(bytes) => Some(fragment_length(code, bytes as usize) as u64),
        None => length_of(code, stripe),
    };
    let survivors = match length {
        Some(length) => stripe.files.survivors(code, length),
        None => PlaceSet::empty(),
    };
    let lost = code.places().len().saturating_sub(survivors.len());
    let are_determined = are_determined(alloc, store, survivors)?;
    Ok(ListedFile {
        name: stripe.name,
        bytes,
        code,
        there: survivors.len(),
        state: FileState::of(lost, are_determined, known.are_whole),
    })
}

/// How many bytes each fragment of a stripe has that nothing describes, as far as lengths show it: if its files have several, the greatest,
/// if those of that length have checks. A scrub reads them, which may show another one, or none.
fn length_of(code: Code, stripe: &Stripe<'_>) -> Option<u64> {
    if let Some(length) = stripe.files.length() {
        return Some(length);
    }
    let mut greatest = None;
    for found in &stripe.files.found {
        if let Found::File { length } = *found {
            greatest = Some(length.max(greatest.unwrap_or(length)));
        }
    }
    let length = greatest?;
    if have_checks(code, stripe.files.survivors(code, length)) {
        Some(length)
    } else {
        None
    }
}

/// What the descriptions of a stripe say. Those that can't be read are named.
fn known_of(
    rt: &HostRuntime,
    store: &OpenStore,
    site: &Site<'_>,
    stripe: &Stripe<'_>,
) -> Result<Known, AllocError> {
    if !store.found.described.contains(stripe.name) {
        return Ok(Known {
            bytes: None,
            are_whole: true,
            is_unread: false,
        });
    }
    let stripe = DescribedStripe {
        name: stripe.name,
        length: 0,
        said: PlaceSet::empty(),
    };
    let found = tend_descriptions(rt, site, &stripe, CopyWork::Name)?;
    let is_unread = say_unread(rt, found.findings.as_slice())?;
    Ok(Known {
        bytes: found.described.map(|described| described.length),
        are_whole: found.findings.is_empty(),
        is_unread,
    })
}

/// Says which descriptions can't be read, and whether there is such a one.
fn say_unread(rt: &HostRuntime, findings: &[CopyFinding]) -> Result<bool, AllocError> {
    let mut is_unread = false;
    for finding in findings {
        if finding.reason.is_of_device() {
            let text = finding.text(rt.alloc())?;
            say(rt, format!(in rt.alloc(); "rebuild-store: {text}"))?;
            is_unread = true;
        }
    }
    Ok(is_unread)
}

/// Whether some survivors determine all fragments.
fn are_determined(
    alloc: Global,
    store: &OpenStore,
    survivors: PlaceSet,
) -> Result<bool, AllocError> {
    let lost = lost_places(alloc, store.code, survivors, store.code.others(survivors))?;
    Ok(lost.several.is_empty())
}
