//! What has to be in a store by what its sums name.
use crate::stripe_names::StripeNames;
use lrc_code::Code;
use std::alloc::{AllocError, Global};
use store_names::{Pattern, described_stripe, folder_in, is_folder_of, last_of};
use store_records::Sums;

/// Notes that the stripes have to be there of which sums name fragments or descriptions. Says how many of these are named, of all parts.
pub fn expect_listed(
    alloc: Global,
    sums: &Sums,
    pattern: &Pattern<'_>,
    code: Code,
    names: &mut StripeNames,
) -> Result<u64, AllocError> {
    let mut count = 0u64;
    let mut descriptions = Vec::new(alloc);
    for name in sums.names(alloc)? {
        if described_stripe(last_of(name)).is_some() {
            descriptions.push(name)?;
        } else if let Some((stripe, place)) = pattern.read(code, name) {
            names.expect_fragment(alloc, stripe, place)?;
            count = count.saturating_add(1);
        }
    }
    for name in descriptions {
        let is_of_store = expect_described(alloc, sums, pattern, code, name, names)?;
        count = count.saturating_add(u64::from(is_of_store));
    }
    Ok(count)
}

/// Notes what has to be there by a name that ends as a description's. It is a fragment's where a pattern takes it for one and nothing is
/// known of the stripe that it would describe. Says whether it is the store's.
fn expect_described(
    alloc: Global,
    sums: &Sums,
    pattern: &Pattern<'_>,
    code: Code,
    name: &str,
    names: &mut StripeNames,
) -> Result<bool, AllocError> {
    let Some(stripe) = described_stripe(last_of(name)) else {
        return Ok(false);
    };
    let folder = folder_in(name);
    let is_of_stripe = folder.is_empty() || is_folder_of(alloc, pattern, code, stripe, folder)?;
    if let Some((other, place)) = pattern.read(code, name) {
        // What is noted of stripes of other parts isn't known here, but the sums name their fragments.
        if !is_of_stripe
            || !names.is_expected(stripe) && !is_listed(alloc, sums, pattern, code, stripe)?
        {
            names.expect_fragment(alloc, other, place)?;
            return Ok(true);
        }
    }
    if is_of_stripe {
        names.expect_description(alloc, stripe)?;
    }
    Ok(is_of_stripe)
}

/// Whether sums name a fragment of a stripe.
fn is_listed(
    alloc: Global,
    sums: &Sums,
    pattern: &Pattern<'_>,
    code: Code,
    stripe: &str,
) -> Result<bool, AllocError> {
    for place in code.places() {
        if let Some(name) = pattern.name_of(alloc, code, stripe, *place)? {
            if sums.digest_of(name.as_str()).is_some() {
                return Ok(true);
            }
        }
    }
    Ok(false)
}
