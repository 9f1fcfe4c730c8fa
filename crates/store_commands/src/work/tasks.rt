//! How much there is to do of stripes, as the line on a terminal counts it: in bytes that are read.
use lrc_code::Code;
use std::alloc::{AllocError, Global};
use store_opening::OpenStore;
use store_progress::{Operation, Task};
use store_repair::{Reads, Repair, Stripe, survivors_read};

/// The repair of these stripes.
pub(crate) fn repair_task(
    alloc: Global,
    store: &OpenStore,
    repair: &Repair,
    stripes: &[Stripe<'_>],
) -> Result<Task, AllocError> {
    let mut fragments = 0u64;
    let mut bytes = 0u64;
    for stripe in stripes {
        if let Some(length) = stripe.files.length() {
            let lost = stripe.files.lost(alloc, store.code, length)?.len() as u64;
            fragments = fragments.saturating_add(lost);
        }
        let read = bytes_read(alloc, repair, store.sums.is_some(), stripe)?;
        bytes = bytes.saturating_add(read);
    }
    Ok(Task {
        operation: Operation::Repair,
        units: fragments,
        bytes,
        passes: if matches!(repair.reads, Reads::Checked) {
            1
        } else {
            passes_over(store)
        },
    })
}

/// The scrub of these stripes.
pub(crate) fn scrub_task(store: &OpenStore, stripes: &[Stripe<'_>]) -> Task {
    let mut bytes = 0u64;
    for stripe in stripes {
        bytes = bytes.saturating_add(survivor_bytes(store.code, stripe));
    }
    Task {
        operation: Operation::Scrub,
        units: stripes.len() as u64,
        bytes,
        passes: passes_over(store),
    }
}

/// How often each fragment is read: where there are digests once more, for its own.
fn passes_over(store: &OpenStore) -> u64 {
    if store.sums.is_some() { 2 } else { 1 }
}

/// How many bytes of a stripe a repair reads if none of them is damaged. Sums are taken to have a digest of each fragment.
pub(crate) fn bytes_read(
    alloc: Global,
    repair: &Repair,
    has_sums: bool,
    stripe: &Stripe<'_>,
) -> Result<u64, AllocError> {
    let Some(length) = stripe.length() else {
        return Ok(0);
    };
    let survivors = survivors_read(alloc, repair, stripe, length, has_sums)?;
    Ok((survivors.len() as u64).saturating_mul(length as u64))
}

/// How many bytes the surviving fragments of a stripe have together.
pub(crate) fn survivor_bytes(code: Code, stripe: &Stripe<'_>) -> u64 {
    let Some(length) = stripe.files.length() else {
        return 0;
    };
    let files = stripe.files.survivors(code, length).len() as u64;
    files.saturating_mul(length)
}
