//! When a thread is worth its start, for whoever reads files or makes digests in several.
ghost use Rattle.std.specs.Prelude.{◌≡◌, ◌<◌, ◌≤◌, ◌/◌, max, min};

/// The least number of bytes for which a thread is started.
pub const LEAST_PART: u64 = 1_048_576;

/// How many threads are worth their start for so many bytes, of so many at most: each has the least part.
pub fn worthwhile(bytes: u64, threads: usize) -> usize
    ensures least { result ≡ max (min (bytes / 1048576) threads) 1 }
    ensures some { 0 < result }
    ensures few { result ≤ max 1 threads }
{
    let parts = usize::try_from(bytes / LEAST_PART).unwrap_or(usize::MAX);
    parts.min(threads).max(1)
}
