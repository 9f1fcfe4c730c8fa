//! Rebuilds a lost fragment from three that survive, and prints it: a request in memory, and its answer.
use lrc_code::{Fragment, Outcome, Place, Request};
use lrc_plan::solve;
use std::alloc::{AllocError, Global};
use std::str;

/// The fragments of a stripe that survive, each of ten bytes. The sum of x0, x1 and x2 is px.
const SURVIVORS: &[(Place, &[u8])] = &[
    (Place::X1, b"0123456789"),
    (Place::X2, b"0123456789"),
    (Place::Px, b"good news."),
];

/// Prints the answer; `None` if the output doesn't take it.
pub(crate) fn show(rt: &HostRuntime) -> Option<()> {
    let shown = match answer(rt.alloc()) {
        Ok(Outcome::Rebuilt(bytes)) => {
            println!(rt;
                "x0: {}",
                str::from_utf8(bytes.as_slice()).unwrap_or("no text")
            )
        }
        Ok(Outcome::Contradiction) => println!(rt; "no stripe of the code has these bytes"),
        Ok(Outcome::Several) => println!(rt; "these fragments don't determine x0"),
        Err(AllocError) => println!(rt; "out of memory"),
    };
    shown.ok()
}

/// The answer to a request for x0. A request that is refused, as one with a name in capital letters, has none.
fn answer(alloc: Global) -> Result<Outcome, AllocError> {
    let mut survivors = Vec::with_capacity(alloc, SURVIVORS.len())?;
    for (place, bytes) in SURVIVORS {
        survivors.push(Fragment {
            place: *place,
            bytes: bytes.to_vec(alloc)?,
        })?;
    }
    let stripe = String::from_str(alloc, "note")?;
    match Request::new(stripe, Place::X0, 10, survivors) {
        Ok(request) => solve(alloc, alloc, &request),
        Err(_) => Ok(Outcome::Several),
    }
}
