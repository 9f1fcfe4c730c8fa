//! The names of files.
ghost use Rattle.std.specs.Prelude.{◌≡◌, IfOk, OnOk, string_bytes};
ghost use Rattle.farm_lists.specs.Names.{fragment_name, list_name, rebuilt_name, report_name};

use lrc_code::Place;
use std::alloc::{AllocError, Global};

/// The name of the file that lists the requests of a rack's feed: `rack0.csv` for feed 0 of rack 0, `rack0.feed1.csv` for feed 1.
pub fn list_file(alloc: Global, rack: usize, feed: usize) -> Result<String, AllocError>
    ensures { IfOk result (λ s. string_bytes s ≡ list_name rack feed) }
{
    if feed == 0 {
        format!(in alloc; "rack{rack}.csv")
    } else {
        format!(in alloc; "rack{rack}.feed{feed}.csv")
    }
}

/// The name of the report on a rack.
pub fn report_file(alloc: Global, rack: usize) -> Result<String, AllocError>
    ensures { IfOk result (λ s. string_bytes s ≡ report_name rack) }
{
    format!(in alloc; "rack{rack}.report.csv")
}

/// The name of the file that has the fragment of a stripe at a place.
pub fn fragment_file(alloc: Global, stripe: &str, place: Place) -> Result<String, AllocError>
    ensures { IfOk result (λ s. string_bytes s ≡ fragment_name stripe.now place) }
{
    // Made for each survivor, so its memory is taken once.
    let room = stripe
        .len()
        .saturating_add(1)
        .saturating_add(place.name().len());
    let mut name = String::with_capacity(alloc, room)?;
    write_fragment_file(&mut name, stripe, place)?;
    Ok(name)
}

/// The name of the file that has the fragment of a stripe at a place, in place of what the text had.
pub fn write_fragment_file(name: &mut String, stripe: &str, place: Place) -> Result<(), AllocError>
    ensures { OnOk result (string_bytes name.new ≡ fragment_name stripe.now place) }
{
    name.clear();
    name.push_str(stripe)?;
    name.push_str(".")?;
    name.push_str(place.name())
}

/// The name of the fragment that a request of a rack rebuilds.
pub fn rebuilt_file(
    alloc: Global,
    rack: usize,
    number: usize,
    stripe: &str,
    place: Place,
) -> Result<String, AllocError>
    ensures { IfOk result (λ s. string_bytes s ≡ rebuilt_name rack number stripe.now place) }
{
    let place = place.name();
    format!(in alloc; "rack{rack}-{number}.{stripe}.{place}")
}
