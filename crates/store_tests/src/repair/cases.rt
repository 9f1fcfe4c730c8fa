//! Stripes that have lost fragments or have damaged ones, with what is to become of them, and what does.
use crate::repair::samples::{Fragments, SHORT, Sample, bytes_at};
use lrc_code::{Code, Place};
use std::alloc::{AllocError, Global};
use std::process::Abort;
use store_repair::{
    Found, MemoryStore, Reads, Repair, Stripe, StripeFiles, StripeOutcome, plan_stripe,
    repair_stripe, scrub_stripe,
};

/// A stripe of which fragments are lost or damaged, how it is repaired, and what is then to be said and left.
#[derive(Clone, Copy)]
pub(crate) struct Case<'a> {
    /// What holds of it.
    pub name: &'a str,
    pub sample: &'static Sample,
    pub lost: &'a [Place],
    /// What is under names in place of the sample's bytes.
    pub changes: Fragments<'a>,
    /// The code is the sample's, whatever is here.
    pub repair: Repair,
    pub rebuilt: &'a [Place],
    /// Whether what is rebuilt is as the sample has it.
    pub is_right: bool,
    /// How many survivors are read.
    pub survivors: usize,
    pub is_checked: bool,
    /// Whether each that is rebuilt is right though two others are damaged.
    pub is_covered: bool,
    /// Each finding: the place, and the line.
    pub said: &'a [(Option<Place>, &'a str)],
    /// Where all stays as it was.
    pub left: &'a [Place],
}

/// A repair from all survivors.
pub(crate) const FROM_ALL: Repair = Repair {
    code: Code::Narrow,
    reads: Reads::All,
    replace_damaged: false,
    assume_one_damaged: false,
    elsewhere: false,
};

/// One that replaces what is damaged.
pub(crate) const REPLACING: Repair = Repair {
    code: Code::Narrow,
    reads: Reads::All,
    replace_damaged: true,
    assume_one_damaged: false,
    elsewhere: false,
};

/// One from as few survivors as show damage.
pub(crate) const CHECKED: Repair = Repair {
    code: Code::Narrow,
    reads: Reads::Checked,
    replace_damaged: false,
    assume_one_damaged: false,
    elsewhere: false,
};

/// One from as few survivors as determine what is lost.
pub(crate) const FEW: Repair = Repair {
    code: Code::Narrow,
    reads: Reads::Few,
    replace_damaged: false,
    assume_one_damaged: false,
    elsewhere: false,
};

/// A stripe that has lost nothing, and of which all is read.
pub(crate) const WHOLE: Case<'static> = Case {
    name: "a whole stripe",
    sample: &SHORT,
    lost: &[],
    changes: &[],
    repair: FROM_ALL,
    rebuilt: &[],
    is_right: true,
    survivors: 10,
    is_checked: true,
    is_covered: true,
    said: &[],
    left: &[],
};

/// What is done with a stripe.
#[derive(Clone, Copy)]
pub(crate) enum Act {
    Scrub,
    Plan,
    Repair,
}

/// What a case's stripe has under a name before its repair.
pub(crate) fn had<'a>(case: &Case<'a>, place: Place) -> Option<&'a [u8]> {
    if case.lost.contains(&place) {
        return None;
    }
    match bytes_at(case.changes, place) {
        Some(bytes) => Some(bytes),
        None => bytes_at(case.sample.fragments, place),
    }
}

/// Puts what a case's stripe has before its repair into a store.
pub(crate) fn put_case(store: &mut MemoryStore, case: &Case<'_>) -> Result<(), AllocError> {
    for place in case.sample.code.places() {
        if let Some(bytes) = had(case, *place) {
            store.put(case.sample.name, *place, bytes)?;
        }
    }
    Ok(())
}

/// A store with that alone.
pub(crate) fn store_of(rt: &impl Abort, alloc: Global, case: &Case<'_>) -> MemoryStore {
    let mut store = MemoryStore::new(alloc);
    put_case(&mut store, case).expect(rt, "room for a case");
    store
}

/// What is said of a case's stripe in a store where it is scrubbed, its repair planned, or it is repaired.
pub(crate) fn outcome_of(
    alloc: Global,
    store: &mut MemoryStore,
    case: &Case<'_>,
    act: Act,
) -> Result<StripeOutcome, AllocError> {
    let code = case.sample.code;
    let mut files = StripeFiles::new();
    for place in code.places() {
        if let Some(bytes) = store.fragment(case.sample.name, *place) {
            files.found[place.index()] = Found::File {
                length: bytes.len() as u64,
            };
        }
    }
    let stripe = Stripe {
        name: case.sample.name,
        files,
    };
    let repair = Repair {
        code,
        ..case.repair
    };
    match act {
        Act::Scrub => scrub_stripe(alloc, store, code, &stripe),
        Act::Plan => plan_stripe(alloc, store, &repair, &stripe),
        Act::Repair => repair_stripe(alloc, store, &repair, &stripe),
    }
}

/// Whether the findings are a case's.
pub(crate) fn are_findings(
    rt: &impl Abort,
    alloc: Global,
    outcome: &StripeOutcome,
    case: &Case<'_>,
) -> bool {
    for (finding, (place, line)) in outcome.findings.iter().zip(case.said) {
        let said = format!(in alloc; "{}", finding.reason).expect(rt, "a text");
        if finding.place != *place || said.as_str() != *line {
            return false;
        }
    }
    outcome.findings.len() == case.said.len()
}

/// Whether an outcome says what a case is to say.
pub(crate) fn is_as_said(
    rt: &impl Abort,
    alloc: Global,
    outcome: &StripeOutcome,
    case: &Case<'_>,
) -> bool {
    for place in case.rebuilt {
        if !outcome.rebuilt.as_slice().contains(place)
            || outcome.is_checked_at(case.sample.code, *place) != case.is_covered
        {
            return false;
        }
    }
    if outcome.rebuilt.len() != case.rebuilt.len()
        || outcome.survivors.len() != case.survivors
        || outcome.is_checked != case.is_checked
    {
        return false;
    }
    are_findings(rt, alloc, outcome, case)
}

/// Whether a case leaves this under a fragment's name and its second name.
pub(crate) fn is_left(
    case: &Case<'_>,
    place: Place,
    bytes: Option<&[u8]>,
    kept: Option<&[u8]>,
) -> bool {
    if case.left.contains(&place) {
        return kept.is_none() && bytes == had(case, place);
    }
    let is_whole = bytes == bytes_at(case.sample.fragments, place);
    if case.is_right || !case.rebuilt.contains(&place) {
        is_whole && kept == bytes_at(case.changes, place)
    } else {
        bytes.is_some() && !is_whole
    }
}

/// Whether a store has what a case leaves.
pub(crate) fn is_left_in(store: &MemoryStore, case: &Case<'_>) -> bool {
    let stripe = case.sample.name;
    for place in case.sample.code.places() {
        let bytes = store.fragment(stripe, *place);
        if !is_left(case, *place, bytes, store.kept(stripe, *place)) {
            return false;
        }
    }
    true
}

/// Whether a case's repair says what it is to say, and leaves what it is to leave.
pub(crate) fn is_repaired(rt: &impl Abort, alloc: Global, case: &Case<'_>) -> bool {
    let mut store = store_of(rt, alloc, case);
    let outcome = outcome_of(alloc, &mut store, case, Act::Repair).expect(rt, "an outcome");
    is_left_in(&store, case) && is_as_said(rt, alloc, &outcome, case)
}

/// Whether the repair's plan says the same.
pub(crate) fn is_planned(rt: &impl Abort, alloc: Global, case: &Case<'_>) -> bool {
    let mut store = store_of(rt, alloc, case);
    let outcome = outcome_of(alloc, &mut store, case, Act::Plan).expect(rt, "an outcome");
    is_as_said(rt, alloc, &outcome, case)
}
