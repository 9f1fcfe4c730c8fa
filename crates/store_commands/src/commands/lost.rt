//! The command `lost`: the request list of what is lost.
ghost use Rattle.std.specs.Prelude.{◌≡◌, ◌<◌, ◌⊎◌, false, true};

use crate::commands::opening_of;
use crate::output::{say_all, say_alone};
use lrc_code::{Place, PlaceSet};
use std::alloc::AllocError;
use std::io::{self, BufWriter, Write};
use store_arguments::LostOptions;
use store_faults::{DEVICE, DONE, FileFault, LEFT, device, say};
use store_folder::{FolderStore, Site, SystemFolder};
use store_opening::{OpenStore, Opening, open_store};
use store_reading::{CopyWork, DescribedStripe, tend_descriptions};
use store_repair::{Reason, Refused, Stripe, StripeLength, stripe_length};
use store_reports::{
    Rows, header_of, listed, request_lines, unknown_lines, unlisted_lines, unread_lines,
};

/// What was found of all stripes.
#[derive(Clone, Copy)]
struct Counts {
    lost: u64,
    /// How many of the lost fragments can't be asked for.
    unlisted: u64,
    /// Whether something isn't as it should be that no count has.
    is_left: bool,
    /// Whether the system refused to show something.
    is_device: bool,
}

/// Writes the request list of what is lost to standard output, and counts to standard error; gives the exit status.
pub fn lost(rt: &HostRuntime, options: &LostOptions<'_>) -> Result<u8, FileFault> {
    let opening = opening_of(&options.store);
    let store = open_store(rt, &opening)?;
    let form = if options.json { Rows::Json } else { Rows::Csv };
    write_requests(rt, &store, &opening, form)
}

/// Writes the request list of an open store.
fn write_requests<'a>(
    rt: &'a HostRuntime,
    store: &'a OpenStore,
    opening: &Opening<'a>,
    form: Rows,
) -> Result<u8, FileFault> {
    let stripes = store.stripes(rt)?;
    // Only memory can be refused.
    let Ok(mut output) = BufWriter::new(rt.alloc(), io::writer(rt)) else {
        return Err(FileFault::OutOfMemory);
    };
    if form == Rows::Csv {
        print_to(rt, &mut output, header_of(store.code))?;
    }
    say_alone(rt, store, opening, false);
    let site = store.site_of(opening);
    let counts = write_each(rt, store, &site, stripes.as_slice(), form, &mut output);
    drop(output);
    let counts = counts?;
    let Counts { lost, unlisted, .. } = counts;
    say(rt, listed(rt.alloc(), stripes.len() as u64, lost, unlisted))?;
    Ok(status_of(&counts))
}

/// Writes the requests of one stripe after the other, and counts what was found.
fn write_each<'a, W: Write>(
    rt: &'a HostRuntime,
    store: &OpenStore,
    site: &Site<'a>,
    stripes: &[Stripe<'_>],
    form: Rows,
    output: &mut W,
) -> Result<Counts, FileFault> {
    let mut counts = Counts {
        lost: 0,
        unlisted: 0,
        is_left: false,
        is_device: store.has_unlisted,
    };
    for stripe in stripes {
        let requests = match requests_for(rt, store, site, stripe, form, &mut counts) {
            Ok(requests) => requests,
            Err(error) => return Err(device(rt.alloc(), site.folder, error)),
        };
        print_to(rt, output, requests.as_str())?;
    }
    match output.flush() {
        Ok(()) => Ok(counts),
        Err(error) => Err(device(rt.alloc(), "standard output", error)),
    }
}

/// Writes a text to what standard output gets.
fn print_to<W: Write>(rt: &HostRuntime, output: &mut W, text: &str) -> Result<(), FileFault> {
    match output.write_all(text.as_bytes()) {
        Ok(()) => Ok(()),
        Err(error) => Err(device(rt.alloc(), "standard output", error)),
    }
}

/// The requests for what is lost of a stripe, if its length is known. What was found of it and of its description is said and counted.
fn requests_for<'a>(
    rt: &'a HostRuntime,
    store: &OpenStore,
    site: &Site<'a>,
    stripe: &Stripe<'_>,
    form: Rows,
    counts: &mut Counts,
) -> io::Result<String> {
    if store.found.described.contains(stripe.name) {
        say_descriptions(rt, site, stripe, counts)?;
    }
    let mut unread = Vec::new(rt.alloc());
    let length = length_of(rt, &FolderStore::new(rt, *site), site, stripe, &mut unread)?;
    let unread = unread_lines(rt.alloc(), site, stripe, unread.as_slice())?;
    counts.is_device = counts.is_device || !unread.is_empty();
    say_all(rt, unread)?;
    match length {
        Some(length) => requests_of(rt, site, stripe, length, form, counts),
        None => {
            counts.is_left = true;
            say_unknown(rt, site, stripe, site.code.places(), counts)?;
            Ok(String::new(rt.alloc()))
        }
    }
}

/// Says which of a stripe's fragments at some places can't be looked at, and notes that there are some.
fn say_unknown(
    rt: &HostRuntime,
    site: &Site<'_>,
    stripe: &Stripe<'_>,
    places: &[Place],
    counts: &mut Counts,
) -> Result<(), AllocError> {
    let unknown = unknown_lines(rt.alloc(), site, stripe, places)?;
    counts.is_device = counts.is_device || !unknown.is_empty();
    say_all(rt, unknown)
}

/// The exit status.
fn status_of(counts: &Counts) -> u8
    ensures device { counts.now.is_device ≡ true → result ≡ 3 }
    ensures left { counts.now.is_device ≡ false → (0 < counts.now.lost) ⊎ (counts.now.is_left ≡ true) → result ≡ 1 }
    ensures done { counts.now.is_device ≡ false → counts.now.lost ≡ 0 → counts.now.is_left ≡ false → result ≡ 0 }
{
    if counts.is_device {
        DEVICE
    } else if counts.lost > 0 || counts.is_left {
        LEFT
    } else {
        DONE
    }
}

/// The requests for what is lost of a stripe, which is counted. What can't be asked for, or looked at, is said.
fn requests_of(
    rt: &HostRuntime,
    site: &Site<'_>,
    stripe: &Stripe<'_>,
    length: u64,
    form: Rows,
    counts: &mut Counts,
) -> io::Result<String> {
    let alloc = rt.alloc();
    let places = stripe.files.lost(alloc, site.code, length)?;
    let places = places.as_slice();
    let count = places.len() as u64;
    counts.lost = counts.lost.saturating_add(count);
    say_unknown(rt, site, stripe, places, counts)?;
    match request_lines(alloc, site.code, stripe, length, places, form)? {
        Some(lines) => Ok(lines),
        None => {
            counts.unlisted = counts.unlisted.saturating_add(count);
            say_all(rt, unlisted_lines(alloc, site, stripe, length, places)?)?;
            Ok(String::new(alloc))
        }
    }
}

/// Says which copies of a stripe's description aren't as they should be, and notes that there are some.
fn say_descriptions(
    rt: &HostRuntime,
    site: &Site<'_>,
    stripe: &Stripe<'_>,
    counts: &mut Counts,
) -> io::Result<()> {
    let described = DescribedStripe {
        name: stripe.name,
        length: 0,
        said: PlaceSet::empty(),
    };
    let descriptions = tend_descriptions(rt, site, &described, CopyWork::Name)?;
    for finding in &descriptions.findings {
        let text = finding.text(rt.alloc())?;
        say(rt, format!(in rt.alloc(); "rebuild-store: {text}"))?;
        counts.is_left = true;
        counts.is_device = counts.is_device || finding.reason.is_of_device();
    }
    Ok(())
}

/// How many bytes each fragment of a stripe has, 0 where none is there; none where the files' lengths differ and no check says which is
/// right, which is said. Those that can't be read to see that are noted.
fn length_of(
    rt: &HostRuntime,
    files: &FolderStore<'_, SystemFolder<'_>>,
    site: &Site<'_>,
    stripe: &Stripe<'_>,
    unread: &mut Vec<Refused>,
) -> io::Result<Option<u64>> {
    match stripe_length(rt.alloc(), files, site.code, stripe, unread)? {
        StripeLength::Known(length) => Ok(Some(length as u64)),
        StripeLength::NoFiles => Ok(Some(0)),
        StripeLength::Undecided(lengths) => {
            let name = stripe.name;
            let reason = Reason::LengthsDiffer(lengths);
            say(
                rt,
                format!(in rt.alloc(); "rebuild-store: {name}: {reason}"),
            )?;
            Ok(None)
        }
    }
}
