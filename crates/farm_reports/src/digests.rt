//! The digests of rebuilt fragments: of one, or of all racks in several threads.
ghost use Rattle.std.specs.Prelude.{◌≡◌, ◌++◌, ◌<◌, ℕ, List, IfOk, OnOk, map};
ghost use Rattle.std.specs.List.{flat_map};
ghost use Rattle.sha2.specs.Sha256.{sha256};
ghost use Rattle.farm_reports.specs.Report.{fragment_digest, rebuilt_fragment};

use crate::grains;
use farm_orders::FeedAnswer;
use lrc_code::Outcome;
use sha2::{Digest as _, Sha256};
use sha256_lanes::Digest;
use std::alloc::{AllocError, Global};
use std::thread::Threads;

/// The SHA-256 digest of an outcome's fragment, where it was rebuilt. Takes no memory.
pub(crate) fn digest_of(outcome: &Outcome) -> Option<Digest>
    ensures { result ≡ fragment_digest outcome.now }
{
    match outcome {
        Outcome::Rebuilt(bytes) => Some(Sha256::digest(bytes.as_slice())),
        Outcome::Contradiction => None,
        Outcome::Several => None,
    }
}

/// The digests of the outcomes of all racks, rack after rack, made in at most this many threads, and in one where there is little to do.
/// A thread that is refused leaves its part to the others.
pub fn digests_of_racks<R: Threads + Sync>(
    rt: &R,
    alloc: Global,
    racks: &[Vec<FeedAnswer>],
    threads: usize,
) -> Result<Vec<Option<Digest>>, AllocError>
    requires { 0 < threads }
    ensures { IfOk result (λ v. v.items ≡ flat_map (λ rack. map (λ a. fragment_digest a.1) rack.items) racks.now) }
{
    let outcomes = outcomes_of_racks(alloc, racks)?;
    let fragments = rebuilt_fragments(alloc, outcomes.as_slice())?;
    let digests = grains::digests_in_grains(rt, alloc, fragments.as_slice(), threads)?;
    hand_out(alloc, outcomes.as_slice(), digests.as_slice())
}

/// The outcomes of all racks, rack after rack.
fn outcomes_of_racks(alloc: Global, racks: &[Vec<FeedAnswer>]) -> Result<Vec<&Outcome>, AllocError>
    ensures { IfOk result (λ v. map (λ o. o.now) v.items ≡ flat_map (λ rack. map (λ a. a.1) rack.items) racks.now) }
{
    let mut outcomes = Vec::new(alloc);
    for rack in racks {
        push_outcomes(&mut outcomes, rack.as_slice())?;
    }
    Ok(outcomes)
}

/// Adds the outcomes of a rack's answers, in order.
fn push_outcomes<'a>(
    outcomes: &mut Vec<&'a Outcome>,
    rack: &'a [FeedAnswer],
) -> Result<(), AllocError>
    ensures { OnOk result (map (λ o. o.now) outcomes.new.items ≡ map (λ o. o.now) outcomes.old.items ++ map (λ a. a.1) rack.now) }
{
    for index in 0..rack.len() {
        outcomes.push(&rack[index].1)?;
    }
    Ok(())
}

/// The bytes of the outcomes that are rebuilt fragments, in order.
fn rebuilt_fragments<'a>(
    alloc: Global,
    outcomes: &[&'a Outcome],
) -> Result<Vec<&'a [u8]>, AllocError>
    ensures { IfOk result (λ v. map (λ f. f.now) v.items ≡ flat_map (λ o. rebuilt_fragment o.now) outcomes.now) }
{
    let mut fragments = Vec::new(alloc);
    for index in 0..outcomes.len() {
        push_fragment(&mut fragments, outcomes[index])?;
    }
    Ok(fragments)
}

/// Adds the bytes of an outcome, if it is a rebuilt fragment.
fn push_fragment<'a>(fragments: &mut Vec<&'a [u8]>, outcome: &'a Outcome) -> Result<(), AllocError>
    ensures { OnOk result (map (λ f. f.now) fragments.new.items ≡ map (λ f. f.now) fragments.old.items ++ rebuilt_fragment outcome.now) }
{
    match outcome {
        Outcome::Rebuilt(bytes) => {
            fragments.push(bytes.as_slice())?;
            Ok(())
        }
        Outcome::Contradiction => Ok(()),
        Outcome::Several => Ok(()),
    }
}

/// The digest of each outcome, from those of the rebuilt fragments among them in order.
fn hand_out(
    alloc: Global,
    outcomes: &[&Outcome],
    digests: &[Digest],
) -> Result<Vec<Option<Digest>>, AllocError>
    requires { digests.now ≡ map sha256 (flat_map (λ o. rebuilt_fragment o.now) outcomes.now) }
    ensures { IfOk result (λ v. v.items ≡ map (λ o. fragment_digest o.now) outcomes.now) }
{
    let mut handed = Vec::new(alloc);
    let mut left = digests;
    for index in 0..outcomes.len() {
        let (digest, further) = first_digest(outcomes[index], left);
        handed.push(digest)?;
        left = further;
    }
    Ok(handed)
}

/// The digest of an outcome, the first of those left where it is a rebuilt fragment, and those left after it.
fn first_digest<'a>(outcome: &Outcome, left: &'a [Digest]) -> (Option<Digest>, &'a [Digest])
    ensures digest { (rest : List (List ℕ)) → left.now ≡ map sha256 (rebuilt_fragment outcome.now ++ rest)
        → result.0 ≡ fragment_digest outcome.now }
    ensures further { (rest : List (List ℕ)) → left.now ≡ map sha256 (rebuilt_fragment outcome.now ++ rest)
        → result.1.now ≡ map sha256 rest }
{
    match outcome {
        Outcome::Rebuilt(_) => match left {
            [digest, further @ ..] => (Some(*digest), further),
            [] => (None, left),
        },
        Outcome::Contradiction => (None, left),
        Outcome::Several => (None, left),
    }
}
