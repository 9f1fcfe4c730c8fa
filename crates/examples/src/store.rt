//! Repairs a stripe of a store in memory: what is lost is rebuilt from what survives, and gets its name.
use lrc_code::{Code, Place};
use std::alloc::{AllocError, Global};
use store_repair::{
    Found, MemoryStore, Reads, Repair, Stripe, StripeFiles, StripeOutcome, repair_stripe,
};

/// The fragments of the stripe of 01 02 03 04 05 06, each of one byte, but for x0 and p1, which are lost.
const SURVIVORS: &[(Place, u8)] = &[
    (Place::X1, 0x02),
    (Place::X2, 0x03),
    (Place::Y0, 0x04),
    (Place::Y1, 0x05),
    (Place::Y2, 0x06),
    (Place::Px, 0x00),
    (Place::Py, 0x07),
    (Place::P0, 0x04),
];

/// Repairs the stripe, and prints what was rebuilt; `None` if there is no memory for it, or the output doesn't take it.
pub(crate) fn show(rt: &HostRuntime) -> Option<()> {
    let mut store = MemoryStore::new(rt.alloc());
    let outcome = repair(rt.alloc(), &mut store).ok()?;
    for place in &outcome.rebuilt {
        let bytes = store.fragment("note", *place);
        println!(rt; "{}: {bytes:?}", place.name()).ok()?;
    }
    Some(())
}

/// Puts what survives into a store, and repairs the stripe.
fn repair(alloc: Global, store: &mut MemoryStore) -> Result<StripeOutcome, AllocError> {
    let mut files = StripeFiles::new();
    for (place, byte) in SURVIVORS {
        store.put("note", *place, &[*byte])?;
        files.found[place.index()] = Found::File { length: 1 };
    }
    let repair = Repair {
        code: Code::Narrow,
        reads: Reads::All,
        replace_damaged: false,
        assume_one_damaged: false,
        elsewhere: false,
    };
    let stripe = Stripe {
        name: "note",
        files,
    };
    repair_stripe(alloc, store, &repair, &stripe)
}
