//! The digests of fragments, the longest first, in grains of sixteen, each taken by the thread that is free next.
ghost use Rattle.std.specs.Prelude.{◌≡◌, ◌+◌, ◌<◌, ◌≤◌, ℕ, List, [], None, Some, IfOk, IfSome, length, map, max, set, slice_index_or, All};
ghost use Rattle.sha2.specs.Sha256.{sha256};
ghost use Rattle.farm_reports.specs.Grains.{AreGrains, AreRight, IsGrain, at_each};

pub use farm_shelves::LEAST_PART;
use farm_shelves::worthwhile;
use sha2::{Digest as _, Sha256};
use sha256_lanes::Digest;
use std::alloc::{AllocError, Global};
use std::cmp::Reverse;
use std::sync::atomic::{AtomicUsize, Ordering};
use std::thread;
use std::thread::Threads;

/// How many fragments a grain has: twice as many as are digested at once.
const GRAIN: usize = 16;

/// What a fragment takes beside its bytes: a block of padding.
pub const BLOCK: u64 = 64;

/// How many times its share of the grains a thread has room for.
const SHARES: usize = 2;

/// The digests of neighbours: the place of the first, and the digest of each. Those after the last fragment don't matter.
#[derive(Clone, Copy)]
struct Grain {
    at: usize,
    digests: [Digest; GRAIN],
}

/// The digest of each fragment, made in at most so many threads. Each takes a grain whenever it is free, so that a thread that comes late
/// or shares its processor leaves more to the others, and one that is refused leaves all to them.
pub(crate) fn digests_in_grains<R: Threads + Sync>(
    rt: &R,
    alloc: Global,
    fragments: &[&[u8]],
    threads: usize,
) -> Result<Vec<Digest>, AllocError>
    ensures { IfOk result (λ v. v.items ≡ map (λ f. sha256 f.now) fragments.now) }
{
    let made = made_in_threads(rt, alloc, fragments, threads)?;
    complete(alloc, fragments, made.as_slice())
}

/// The digests that at most so many threads make, each at the place of its fragment. All are made, which no contract says.
pub fn made_in_threads<R: Threads + Sync>(
    rt: &R,
    alloc: Global,
    fragments: &[&[u8]],
    threads: usize,
) -> Result<Vec<Option<Digest>>, AllocError>
    ensures places { IfOk result (λ v. length v.items ≡ length fragments.now) }
    ensures right { IfOk result (λ v. AreRight (map (λ f. sha256 f.now) fragments.now) v.items) }
{
    let places = places_by_length(alloc, fragments)?;
    let ordered = at_places(alloc, fragments, places.as_slice())?;
    let slots = grains_in_threads(rt, alloc, ordered.as_slice(), threads)?;
    let mut digests = vec![in alloc; None; fragments.len()]?;
    place_grains(slots.as_slice(), places.as_slice(), digests.as_mut_slice());
    Ok(digests)
}

/// The places of the fragments, those of the longest first: neighbours in this order mostly have one length, so that eight of them are
/// digested at once, and the last grains are the shortest.
pub fn places_by_length(alloc: Global, fragments: &[&[u8]]) -> Result<Vec<usize>, AllocError>
    ensures { IfOk result (λ v. All (λ place. place < length fragments.now) v.items) }
{
    let mut places = Vec::with_capacity(alloc, fragments.len())?;
    for place in 0..fragments.len() {
        places.push(place)?;
    }
    places.sort_unstable_by_key(|place| Reverse(length_at(fragments, *place)));
    Ok(places)
}

/// The length of the fragment at a place, 0 if there is no such place.
fn length_at(fragments: &[&[u8]], place: usize) -> usize {
    match fragments.get(place) {
        Some(fragment) => fragment.len(),
        None => 0,
    }
}

/// The fragments at places, in the order of these.
fn at_places<'a>(
    alloc: Global,
    fragments: &[&'a [u8]],
    places: &[usize],
) -> Result<Vec<&'a [u8]>, AllocError>
    requires { All (λ place. place < length fragments.now) places.now }
    ensures { IfOk result (λ v. map (λ f. sha256 f.now) v.items ≡ at_each places.now (map (λ f. sha256 f.now) fragments.now)) }
{
    let mut chosen = Vec::with_capacity(alloc, places.len())?;
    for index in 0..places.len() {
        chosen.push(fragments[places[index]])?;
    }
    Ok(chosen)
}

/// The grains of fragments, made in threads that take no memory: each puts its grains into slots of its own, and some slots stay empty.
fn grains_in_threads<R: Threads + Sync>(
    rt: &R,
    alloc: Global,
    fragments: &[&[u8]],
    threads: usize,
) -> Result<Vec<Option<Grain>>, AllocError>
    ensures { IfOk result (λ v. AreGrains (map (λ f. sha256 f.now) fragments.now) v.items) }
{
    let grains = fragments.len().div_ceil(GRAIN);
    let threads = threads_for(fragments, threads.min(grains));
    let room = grains
        .div_ceil(threads)
        .saturating_mul(SHARES)
        .min(grains)
        .max(1);
    let mut slots = vec![in alloc; None; threads.saturating_mul(room)]?;
    make_grains(rt, fragments, slots.as_mut_slice(), room);
    Ok(slots)
}

/// How many threads are worth their start for these fragments, of so many at most.
fn threads_for(fragments: &[&[u8]], threads: usize) -> usize
    ensures some { 0 < result }
    ensures few { result ≤ max 1 threads }
{
    let mut bytes = 0u64;
    for fragment in fragments {
        bytes = bytes
            .saturating_add(BLOCK)
            .saturating_add(fragment.len() as u64);
    }
    worthwhile(bytes, threads)
}

/// Makes grains in threads, each with so many of the slots.
fn make_grains<R: Threads + Sync>(
    rt: &R,
    fragments: &[&[u8]],
    slots: &mut [Option<Grain>],
    room: usize,
)
    requires { 0 < room }
    ensures { AreGrains (map (λ f. sha256 f.now) fragments.now) slots.new }
{
    let next = AtomicUsize::new(0);
    let part = |_start: usize, slots: &mut [Option<Grain>]|
        ensures { (k : ℕ) → k < length slots.entry.now
            → IfSome (slice_index_or slots.exit.now k None) (IsGrain (map (λ f. sha256 f.now) fragments.entry.now)) }
    { fill(fragments, &next, slots) };
    thread::for_each_chunk_mut(rt, slots, room, &part);
}

/// Makes a grain for each slot, as long as there are fragments that no thread has taken.
fn fill(fragments: &[&[u8]], next: &AtomicUsize, slots: &mut [Option<Grain>])
    ensures { AreGrains (map (λ f. sha256 f.now) fragments.now) slots.new }
{
    for index in 0..slots.len() {
        slots[index] = next_grain(fragments, next);
    }
}

/// The next grain that no thread has taken.
fn next_grain(fragments: &[&[u8]], next: &AtomicUsize) -> Option<Grain>
    ensures { IfSome result (IsGrain (map (λ f. sha256 f.now) fragments.now)) }
{
    let at = next.fetch_add(GRAIN, Ordering::SeqCst);
    if at >= fragments.len() {
        return None;
    }
    Some(grain_at(fragments, at))
}

/// The grain of the fragments from one on.
fn grain_at(fragments: &[&[u8]], at: usize) -> Grain
    requires { at < length fragments.now }
    ensures { IsGrain (map (λ f. sha256 f.now) fragments.now) result }
{
    let count = GRAIN.min(fragments.len() - at);
    let mut digests = [[0u8; 32]; GRAIN];
    digests_from(fragments, at, &mut digests[..count]);
    Grain { at, digests }
}

/// Makes the digests of the fragments from one on, as many as there are places.
fn digests_from(fragments: &[&[u8]], start: usize, digests: &mut [Digest])
    requires { start + length digests.old ≤ length fragments.now }
    ensures { (k : ℕ) → k < length digests.old → slice_index_or digests.new k []
        ≡ slice_index_or (map (λ f. sha256 f.now) fragments.now) (start + k) [] }
{
    sha256_lanes::digests(&fragments[start..start + digests.len()], digests);
}

/// Puts the digests of the grains of fragments at these places.
fn place_grains(slots: &[Option<Grain>], places: &[usize], digests: &mut [Option<Digest>])
    ensures len { length digests.new ≡ length digests.old }
    ensures right { (right : List (List ℕ)) → AreGrains (at_each places.now right) slots.now → AreRight right digests.old
        → AreRight right digests.new }
{
    for index in 0..slots.len() {
        if let Some(grain) = &slots[index] {
            place_grain(grain, places, digests);
        }
    }
}

/// Puts the digests of a grain at the places of its fragments.
fn place_grain(grain: &Grain, places: &[usize], digests: &mut [Option<Digest>])
    ensures { (right : List (List ℕ)) → IsGrain (at_each places.now right) grain.now → AreRight right digests.old
        → AreRight right digests.new }
{
    let count = GRAIN.min(places.len().saturating_sub(grain.at));
    for k in 0..count {
        put(digests, places[grain.at + k], grain.digests[k]);
    }
}

/// Puts a digest at its place, if there is such a place.
fn put(digests: &mut [Option<Digest>], place: usize, digest: Digest)
    ensures { digests.new ≡ set digests.old place (Some digest) }
{
    if place < digests.len() {
        digests[place] = Some(digest);
    }
}

/// All digests. Those that no thread made are made here: there are none, since the slots have room for all grains, but no contract says
/// that places differ and grains are all taken.
fn complete(
    alloc: Global,
    fragments: &[&[u8]],
    digests: &[Option<Digest>],
) -> Result<Vec<Digest>, AllocError>
    requires places { length digests.now ≡ length fragments.now }
    requires right { AreRight (map (λ f. sha256 f.now) fragments.now) digests.now }
    ensures { IfOk result (λ v. v.items ≡ map (λ f. sha256 f.now) fragments.now) }
{
    let mut all = Vec::with_capacity(alloc, fragments.len())?;
    for index in 0..fragments.len() {
        all.push(digest_or_made(digests[index], fragments[index]))?;
    }
    Ok(all)
}

/// A digest that was made, or else that of the fragment, made now.
fn digest_or_made(digest: Option<Digest>, fragment: &[u8]) -> Digest
    requires { IfSome digest (λ d. d ≡ sha256 fragment.now) }
    ensures { result ≡ sha256 fragment.now }
{
    match digest {
        Some(made) => made,
        None => Sha256::digest(fragment),
    }
}
