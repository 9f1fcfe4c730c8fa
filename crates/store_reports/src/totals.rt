//! Counts over all stripes, and what no check covers.
use crate::done::Done;
use lrc_code::{Code, Place};
use std::alloc::{AllocError, Global};
use store_faults::{Descriptions, fragment_name};
use store_folder::Site;
use store_repair::{Finding, Reason, Stripe, StripeOutcome};

/// Counts over all stripes.
#[derive(Clone, Copy, Default)]
pub struct Totals {
    /// How many fragments were rebuilt, and how many bytes they have.
    pub rebuilt: u64,
    pub bytes: u64,
    /// How many of them no check covered.
    pub unchecked: u64,
    /// How many survivors are known to be damaged.
    pub damaged: u64,
    /// How many copies of descriptions were made.
    pub described: u64,
    /// How many findings are not mended, and how many of these would be if damaged fragments and descriptions were replaced.
    pub left: u64,
    pub replaceable: u64,
    /// Whether the system refused to read or write something.
    pub device: bool,
}

/// The counts over what became of stripes.
pub(crate) fn totals_of(
    alloc: Global,
    site: &Site<'_>,
    stripes: &[Stripe<'_>],
    all: &[Done],
) -> Result<Totals, AllocError> {
    let mut totals = Totals::default();
    for done in all {
        let unchecked = match stripes.get(done.index) {
            Some(stripe) => unchecked_places(alloc, site, stripe.name, &done.outcome)?.len(),
            None => 0,
        };
        totals.unchecked = totals.unchecked.saturating_add(unchecked as u64);
        totals.add(site.code, &done.outcome);
        if let Some(descriptions) = &done.descriptions {
            totals.add_descriptions(descriptions);
        }
    }
    Ok(totals)
}

/// The places whose fragments were rebuilt, in the order of all places.
pub(crate) fn rebuilt_places(
    alloc: Global,
    outcome: &StripeOutcome,
) -> Result<Vec<Place>, AllocError> {
    let mut places = Vec::new(alloc);
    for place in &Place::ALL {
        if outcome.rebuilt.iter().any(|rebuilt| *rebuilt == *place) {
            places.push(*place)?;
        }
    }
    Ok(places)
}

/// The places of a stripe whose rebuilt fragments are covered by no check and no digest.
pub(crate) fn unchecked_places(
    alloc: Global,
    site: &Site<'_>,
    stripe: &str,
    outcome: &StripeOutcome,
) -> Result<Vec<Place>, AllocError> {
    let mut places = Vec::new(alloc);
    for place in rebuilt_places(alloc, outcome)? {
        if outcome.is_checked_at(site.code, place) {
            continue;
        }
        let name = fragment_name(alloc, &site.pattern, site.code, stripe, place)?;
        let is_covered = match site.sums {
            Some(sums) => sums.digest_of(name.as_str()).is_some(),
            None => false,
        };
        if !is_covered {
            places.push(place)?;
        }
    }
    Ok(places)
}

/// Why no check covers what was rebuilt of a stripe, where none does.
pub(crate) fn why_unchecked(outcome: &StripeOutcome) -> &'static str {
    let is_guess = |finding: &Finding| { matches!(finding.reason, Reason::TakenForDamaged) };
    if outcome.findings.iter().any(is_guess) {
        "which fragment is damaged was a guess"
    } else if outcome.length == 0 {
        "fragments without bytes show nothing"
    } else if outcome.is_checked {
        "so many are lost that damage among the others may not show"
    } else {
        "as many fragments survive as it takes, so damage among them can't show"
    }
}

/// Whether a fragment is left that would be replaced if that were asked for: it is damaged or has another length, a check covers what would
/// replace it, and nothing else is said of it.
fn is_replaceable(code: Code, outcome: &StripeOutcome, finding: &Finding) -> bool {
    let Some(place) = finding.place else {
        return false;
    };
    let is_of_place = |other: &&Finding| other.place == Some(place);
    let is_other = matches!(
        finding.reason,
        Reason::Damaged | Reason::Differs | Reason::OtherLength
    );
    let is_alone = outcome.findings.iter().filter(is_of_place).count() == 1;
    let differs = matches!(finding.reason, Reason::Differs);
    let is_sure = outcome.is_checked && (differs || outcome.is_checked_at(code, place));
    is_other && is_alone && is_sure && !outcome.is_mended(finding)
}

impl Totals {
    /// Counts what became of a stripe's fragments.
    fn add(&mut self, code: Code, outcome: &StripeOutcome) {
        let rebuilt = outcome.rebuilt.len() as u64;
        let bytes = rebuilt.saturating_mul(outcome.length as u64);
        self.rebuilt = self.rebuilt.saturating_add(rebuilt);
        self.bytes = self.bytes.saturating_add(bytes);
        for finding in &outcome.findings {
            if finding.reason.is_damage() {
                self.damaged = self.damaged.saturating_add(1);
            }
            if !outcome.is_mended(finding) {
                self.left = self.left.saturating_add(1);
            }
            if is_replaceable(code, outcome, finding) {
                self.replaceable = self.replaceable.saturating_add(1);
            }
            self.device = self.device || finding.reason.is_of_device();
        }
    }

    /// Counts what became of a stripe's descriptions.
    fn add_descriptions(&mut self, descriptions: &Descriptions) {
        let made = descriptions.made.len() as u64;
        let left = descriptions.findings.len() as u64;
        self.described = self.described.saturating_add(made);
        self.left = self.left.saturating_add(left);
        self.replaceable = self.replaceable.saturating_add(descriptions.replaceable);
        for finding in &descriptions.findings {
            self.device = self.device || finding.reason.is_of_device();
        }
    }
}
