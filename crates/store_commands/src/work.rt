//! Threads that work on stripes side by side, in the order of their losses: those that have lost most first.
ghost use Rattle.std.specs.Prelude.{◌≡◌, IfOk};

pub(crate) mod tasks;

use crate::output::counters_file::CountersFile;
use crate::output::row_stream::RowStream;
use lrc_code::{Code, PlaceSet};
use std::alloc::{AllocError, Global};
use std::sync::Arc;
use std::sync::atomic::{AtomicUsize, Ordering};
use std::thread;
use std::thread::Threads;
use store_faults::Descriptions;
use store_folder::{FolderStore, SeparateStore, Site, SystemFolder};
use store_opening::{OpenStore, Opening};
use store_progress::{CountedReads, CountingFolder};
use store_reading::{CopyWork, DescribedStripe, tend_descriptions};
use store_repair::{
    Finding, Found, Reason, Repair, Stripe, StripeOutcome, plan_stripe, repair_stripe, scrub_stripe,
};
use store_reports::{Contents, Done, without_left, without_refused, without_repeated};
use tasks::{bytes_read, survivor_bytes};

/// The memory that is taken and given back before the work. The C library gives free memory back to the system after each stripe, unless
/// it has seen a block come back that is as large: it then keeps twice as much. It looks at no block of more than 32 MiB.
const HELD: usize = 25_165_824;

/// What is done with each stripe.
#[derive(Clone, Copy)]
pub(crate) enum Work {
    Repair(Repair),
    Plan(Repair),
    Scrub(Code),
}

/// A store that is open for a command, with the stripes that are worked on, and where its counters go.
#[derive(Clone, Copy)]
pub(crate) struct Opened<'a> {
    pub(crate) store: &'a OpenStore,
    pub(crate) opening: &'a Opening<'a>,
    pub(crate) stripes: &'a [Stripe<'a>],
    pub(crate) counters: &'a CountersFile<'a>,
}

/// The stripes that a command works on, where the store is, and where rows are printed as they are known, if that is wanted.
#[derive(Clone, Copy)]
pub(crate) struct Stripes<'a> {
    pub(crate) opened: Opened<'a>,
    pub(crate) site: &'a Site<'a>,
    pub(crate) rows: Option<&'a RowStream<'a>>,
}

impl<'a> Opened<'a> {
    /// What is in the store.
    pub(crate) fn contents(&self) -> Contents<'a> {
        Contents {
            stripes: self.stripes,
            alone: self.store.found.alone.as_slice(),
            has_unlisted: self.store.has_unlisted,
        }
    }
}

/// What was done with stripes, and the rows that are still to be printed.
#[derive(Drop)]
pub(crate) struct Worked {
    pub(crate) all: Vec<Done>,
    pub(crate) held: String,
}

impl Worked {
    /// Nothing yet, with room for what is done with so many stripes.
    fn with_capacity(alloc: Global, count: usize) -> Result<Worked, AllocError> {
        Ok(Worked {
            all: Vec::with_capacity(alloc, count)?,
            held: String::new(alloc),
        })
    }

    /// Adds what another thread has done.
    fn add(&mut self, other: Worked) -> Result<(), AllocError> {
        let Worked { all, held } = other;
        self.held.push_str(held.as_str())?;
        for done in all {
            self.all.push(done)?;
        }
        Ok(())
    }
}

impl Work {
    /// What is done with the copies of descriptions.
    fn with_copies(&self) -> CopyWork {
        match self {
            Work::Repair(repair) => CopyWork::Make {
                replaces: repair.replace_damaged,
            },
            Work::Plan(repair) => CopyWork::Plan {
                replaces: repair.replace_damaged,
            },
            Work::Scrub(_) => CopyWork::Name,
        }
    }

    /// How many bytes of a stripe are read.
    fn bytes_of(
        &self,
        alloc: Global,
        has_sums: bool,
        stripe: &Stripe<'_>,
    ) -> Result<u64, AllocError> {
        match self {
            Work::Repair(repair) | Work::Plan(repair) => {
                bytes_read(alloc, repair, has_sums, stripe)
            }
            Work::Scrub(code) => Ok(survivor_bytes(*code, stripe)),
        }
    }

    /// How many units are done with a stripe that came to this outcome: the fragments that were rebuilt, or the stripe itself.
    fn units_of(&self, outcome: &StripeOutcome) -> u64 {
        match self {
            Work::Repair(_) | Work::Plan(_) => outcome.rebuilt.len() as u64,
            Work::Scrub(_) => 1,
        }
    }
}

/// Does some work with each stripe, in so many threads at most, those that have lost most first, and gives the outcomes in the order of the
/// stripes. Rows are printed and counters written meanwhile.
pub(crate) fn work_on<R: Threads + Sync>(
    rt: &R,
    system: &HostRuntime,
    stripes: &Stripes<'_>,
    work: Work,
    workers: usize,
) -> Result<Worked, AllocError> {
    // Without that memory the work goes on as well.
    drop(Vec::<u8>::with_capacity(system.alloc(), HELD));
    let order = by_losses(system.alloc(), stripes.opened.stripes)?;
    let order = order.as_slice();
    let next = AtomicUsize::new(0);
    let worker = |_worker: usize| { take_stripes(system, stripes, work, order, &next) };
    let parts = thread::map_indices(rt, system.alloc(), workers, &worker)?;
    joined(system.alloc(), parts, order.len())
}

/// What the threads have done together with so many stripes, in the order of these.
fn joined(
    alloc: Global,
    parts: Vec<Result<Worked, AllocError>>,
    count: usize,
) -> Result<Worked, AllocError> {
    let mut worked = Worked::with_capacity(alloc, count)?;
    for part in parts {
        worked.add(part?)?;
    }
    worked.all.sort_by_key(|done| done.index)?;
    Ok(worked)
}

/// The indexes of the stripes in the order in which they are worked on: those of which fewest fragments are there first.
fn by_losses(alloc: Global, stripes: &[Stripe<'_>]) -> Result<Vec<usize>, AllocError> {
    let mut counted = Vec::with_capacity(alloc, stripes.len())?;
    for (index, stripe) in stripes.iter().enumerate() {
        let files = stripe.files.found.iter();
        let there = files
            .filter(|found| matches!(found, Found::File { .. }))
            .count();
        counted.push((there, index))?;
    }
    counted.sort_by_key(|entry| *entry)?;
    let mut order = Vec::with_capacity(alloc, stripes.len())?;
    for (_, index) in counted {
        order.push(index)?;
    }
    Ok(order)
}

/// The work of one thread: it does it with one stripe after the other, each the next that no thread has taken. Only refused memory ends it
/// early.
fn take_stripes(
    system: &HostRuntime,
    stripes: &Stripes<'_>,
    work: Work,
    order: &[usize],
    next: &AtomicUsize,
) -> Result<Worked, AllocError> {
    let mut worked = Worked {
        all: Vec::new(system.alloc()),
        held: String::new(system.alloc()),
    };
    let reads = CountedReads::new(system, &stripes.opened.counters.progress)?;
    let reads = Arc::new(system.alloc(), reads)?;
    let counted = Arc::try_clone(&reads)?;
    let files = CountingFolder::new(SystemFolder::new(system), counted);
    let mut store = SeparateStore::new(FolderStore::over(system, files, *stripes.site));
    for _turn in 0..order.len() {
        let Some(index) = order.get(next.fetch_add(1, Ordering::SeqCst)).copied() else {
            break;
        };
        take_stripe(
            system,
            stripes,
            work,
            index,
            &mut store,
            &reads,
            &mut worked,
        )?;
    }
    Ok(worked)
}

/// Does the work with the stripe at an index.
fn take_stripe(
    system: &HostRuntime,
    stripes: &Stripes<'_>,
    work: Work,
    index: usize,
    store: &mut SeparateStore<'_, CountingFolder<SystemFolder<'_>>>,
    reads: &CountedReads,
    worked: &mut Worked,
) -> Result<(), AllocError> {
    let Some(stripe) = stripes.opened.stripes.get(index) else {
        return Ok(());
    };
    let counters = stripes.opened.counters;
    let bytes = work.bytes_of(system.alloc(), stripes.site.sums.is_some(), stripe)?;
    reads.begin(bytes);
    let outcome = outcome_of(system.alloc(), store, stripes.site, work, stripe)?;
    counters.progress.note(&outcome);
    reads.end(work.units_of(&outcome), bytes);
    let descriptions = descriptions_of(system, stripes, work, stripe, &outcome)?;
    if let Some(descriptions) = &descriptions {
        counters
            .progress
            .note_left(descriptions.findings.len() as u64);
    }
    let done = Done {
        index,
        outcome,
        descriptions,
    };
    if let Some(rows) = stripes.rows {
        rows.add(system, &mut worked.held, stripe.name, &done)?;
    }
    counters.write_in_time(system);
    worked.all.push(done)?;
    Ok(())
}

/// Does the work with the descriptions of a stripe of whose fragments this became, if it has any.
fn descriptions_of(
    system: &HostRuntime,
    stripes: &Stripes<'_>,
    work: Work,
    stripe: &Stripe<'_>,
    outcome: &StripeOutcome,
) -> Result<Option<Descriptions>, AllocError> {
    let store = stripes.opened.store;
    if !store.found.described.contains(stripe.name) {
        return Ok(None);
    }
    let mut said = PlaceSet::empty();
    for finding in &outcome.findings {
        if let Some(place) = finding.place {
            said = said.with(place);
        }
    }
    let described = DescribedStripe {
        name: stripe.name,
        length: outcome.length,
        said,
    };
    let copies = work.with_copies();
    let done = tend_descriptions(system, stripes.site, &described, copies)?;
    Ok(Some(done))
}

/// Does the work with the fragments of a stripe.
fn outcome_of(
    alloc: Global,
    store: &mut SeparateStore<'_, CountingFolder<SystemFolder<'_>>>,
    site: &Site<'_>,
    work: Work,
    stripe: &Stripe<'_>,
) -> Result<StripeOutcome, AllocError> {
    match work {
        Work::Repair(repair) => {
            let outcome = repair_stripe(alloc, store, &repair, stripe)?;
            with_unknown(stripe, outcome)
        }
        Work::Plan(repair) => {
            let plan = plan_stripe(alloc, store, &repair, stripe)?;
            let said = plan.findings.len();
            let plan = without_left(alloc, &repair, stripe, plan)?;
            let plan = without_repeated(alloc, plan, said)?;
            let plan = without_refused(alloc, &repair, site, stripe, plan)?;
            with_unknown(stripe, plan)
        }
        Work::Scrub(code) => scrub_stripe(alloc, store, code, stripe),
    }
}

/// What became of a stripe, and which of the fragments that were rebuilt, or would be, can't be looked at: only in another folder than the
/// store's are these rebuilt.
fn with_unknown(stripe: &Stripe<'_>, outcome: StripeOutcome) -> Result<StripeOutcome, AllocError>
    ensures { IfOk result (λ o. o.rebuilt ≡ outcome.rebuilt) }
{
    let StripeOutcome {
        length,
        survivors,
        is_checked,
        rebuilt,
        findings,
    } = outcome;
    let mut findings = findings;
    for place in &rebuilt {
        let found = stripe.files.at(*place);
        if matches!(found, Found::Unknown { .. }) {
            let reason = Reason::of(found);
            let place = Some(*place);
            findings.push(Finding { place, reason })?;
        }
    }
    Ok(StripeOutcome {
        length,
        survivors,
        is_checked,
        rebuilt,
        findings,
    })
}
