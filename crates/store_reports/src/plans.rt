//! What a repair would leave, of what it could rebuild.
ghost use Rattle.std.specs.Prelude.{◌≡◌, ◌+◌, IfOk, vec_len};

use lrc_code::Place;
use std::alloc::{AllocError, Global};
use store_folder::{Found, Site};
use store_repair::{Finding, Reason, Repair, Stripe, StripeOutcome, is_covered};

/// A plan without the fragments that a repair would leave, since something is under their names that it wouldn't replace: each of these is
/// a finding instead.
pub fn without_left(
    alloc: Global,
    repair: &Repair,
    stripe: &Stripe<'_>,
    plan: StripeOutcome,
) -> Result<StripeOutcome, AllocError>
    ensures once { IfOk result (λ p. vec_len p.rebuilt + vec_len p.findings ≡ vec_len plan.rebuilt + vec_len plan.findings) }
{
    let StripeOutcome {
        length,
        survivors,
        is_checked,
        rebuilt: planned,
        findings,
    } = plan;
    let mut findings = findings;
    let mut rebuilt = Vec::new(alloc);
    'places: for place in &planned {
        let found = stripe.files.at(*place);
        // A file of the right length that can't be read isn't known to be damaged.
        let is_other = stripe.files.has_other(*place, length as u64);
        let is_sure = differs(findings.as_slice(), *place)
            || (is_other && is_covered(repair.code, survivors, *place));
        if is_left(repair, found, is_checked && is_sure) {
            let place = Some(*place);
            let reason = Reason::of(found);
            findings.push(Finding { place, reason })?;
        } else {
            rebuilt.push(*place)?;
        }
    }
    Ok(StripeOutcome {
        length,
        survivors,
        is_checked,
        rebuilt,
        findings,
    })
}

/// A plan without the fragments that a repair would refuse to put in their places: each of these is a finding instead.
pub fn without_refused(
    alloc: Global,
    repair: &Repair,
    site: &Site<'_>,
    stripe: &Stripe<'_>,
    plan: StripeOutcome,
) -> Result<StripeOutcome, AllocError>
    ensures once { IfOk result (λ p. vec_len p.rebuilt + vec_len p.findings ≡ vec_len plan.rebuilt + vec_len plan.findings) }
{
    let StripeOutcome {
        length,
        survivors,
        is_checked,
        rebuilt: planned,
        findings,
    } = plan;
    let mut findings = findings;
    let mut rebuilt = Vec::new(alloc);
    'places: for place in &planned {
        let is_file = matches!(stripe.files.at(*place), Found::File { .. });
        let is_replaced = is_file && !repair.elsewhere;
        match site.refusal(alloc, stripe.name, *place, is_replaced)? {
            Some(error) => {
                let place = Some(*place);
                let reason = Reason::Unwritten(error);
                findings.push(Finding { place, reason })?;
            }
            None => rebuilt.push(*place)?,
        }
    }
    Ok(StripeOutcome {
        length,
        survivors,
        is_checked,
        rebuilt,
        findings,
    })
}

/// A plan without findings, from an index on, of fragments of which an earlier one is: what is said first is why a fragment is left.
pub fn without_repeated(
    alloc: Global,
    plan: StripeOutcome,
    from: usize,
) -> Result<StripeOutcome, AllocError>
    ensures { IfOk result (λ p. p.rebuilt ≡ plan.rebuilt) }
{
    let StripeOutcome {
        length,
        survivors,
        is_checked,
        rebuilt,
        findings: all,
    } = plan;
    let mut findings = Vec::new(alloc);
    let mut index = 0usize;
    for finding in all {
        let is_said = is_said(findings.as_slice(), &finding);
        if index < from || !is_said {
            findings.push(finding)?;
        }
        index = index.saturating_add(1);
    }
    Ok(StripeOutcome {
        length,
        survivors,
        is_checked,
        rebuilt,
        findings,
    })
}

/// Whether something is said of the fragment that a finding is of.
fn is_said(findings: &[Finding], finding: &Finding) -> bool {
    finding.place.is_some() && findings.iter().any(|other| other.place == finding.place)
}

/// Whether a repair leaves what is under the name of a fragment that it could rebuild.
fn is_left(repair: &Repair, found: Found, is_checked: bool) -> bool {
    match found {
        Found::Absent | Found::Dangling => false,
        Found::File { .. } => !repair.elsewhere && !(repair.replace_damaged && is_checked),
        Found::Other | Found::Unknown { .. } => !repair.elsewhere,
    }
}

/// Whether a finding says that the fragment at a place differs from the checksums, to which the store then holds what replaces it.
fn differs(findings: &[Finding], place: Place) -> bool {
    findings.iter().any(|finding| finding.place == Some(place)
        && matches!(finding.reason, Reason::Differs))
}
