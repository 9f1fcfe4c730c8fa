//! Answers the requests of two racks, held in memory, by two workers, and prints each answer.
use farm_core::{FarmError, NoPause, Order, RackList, Racks, Settings, run};
use lrc_code::{Fragment, Outcome, Place, Request};
use std::alloc::{AllocError, Global};
use std::io::Print;
use std::sync::Wait;
use std::thread::Threads;

/// The targets of each rack's requests.
const TARGETS: &[&[Place]] = &[&[Place::X0, Place::Y0], &[Place::X0]];

/// Prints the answers of all racks; `None` if there are none, or the output doesn't take them.
pub(crate) fn show<R: Threads + Wait + Sync + Print>(rt: &R, alloc: Global) -> Option<()> {
    let racks = answer_all(rt, alloc).ok()?;
    for (rack, answers) in racks.iter().enumerate() {
        for (number, outcome) in answers.iter().enumerate() {
            let word = match outcome {
                Outcome::Rebuilt(_) => "rebuilt",
                Outcome::Contradiction => "contradiction",
                Outcome::Several => "several",
            };
            println!(rt; "rack {rack}, request {number}: {word}").ok()?;
        }
    }
    Some(())
}

/// The answers to the requests of all racks, of each rack in the order of its list.
fn answer_all<R: Threads + Wait + Sync>(
    rt: &R,
    alloc: Global,
) -> Result<Vec<Vec<Outcome>>, FarmError> {
    let mut lists = Vec::new(alloc);
    for targets in TARGETS {
        let list = list_of(alloc, targets)?;
        if lists.push(list).is_err() {
            return Err(FarmError::OutOfMemory);
        }
    }
    // Neither is refused: at most 16 racks, 1 to 16 workers and a queue of 1 to 1,024 are within the limits.
    let (Ok(racks), Ok(settings)) = (Racks::new(lists), Settings::new(2, 16)) else {
        return Err(FarmError::OutOfMemory);
    };
    run(rt, alloc, &racks, settings, &NoPause)
}

/// A rack's list: a request for each target, from x1, x2 and px.
fn list_of(alloc: Global, targets: &[Place]) -> Result<RackList, AllocError> {
    let mut orders = Vec::new(alloc);
    for target in targets {
        let mut survivors = Vec::new(alloc);
        for place in [Place::X1, Place::X2, Place::Px] {
            let bytes = vec![in alloc; 7u8; 3]?;
            survivors.push(Fragment { place, bytes })?;
        }
        let stripe = String::from_str(alloc, "note")?;
        if let Ok(request) = Request::new(stripe, *target, 3, survivors) {
            orders.push(Order::Rebuild(request))?;
        }
    }
    match RackList::new(orders) {
        Ok(list) => Ok(list),
        Err(_) => Err(AllocError),
    }
}
