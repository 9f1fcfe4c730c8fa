//! Tests of the public calls of `farm_lanes`, `sha256_lanes`, `farm_lists` and `farm_reports`, and of how `farm_reading` reports faults,
//! with the bytes and digests of the formats; and those that show scripts of gate/ what line mode and `farm_lists` do. They are in a
//! crate of their own, so that a check of those crates proves each once and not a second time with its tests, and without the farm, so
//! that they don't wait for its proof.
#![tactic(auto)]

#[cfg(test)]
mod asserting;
#[cfg(test)]
mod between_threads;
#[cfg(test)]
mod digests;
#[cfg(test)]
mod faults;
#[cfg(test)]
mod grains;
#[cfg(test)]
mod lanes;
#[cfg(test)]
mod lines;
#[cfg(test)]
mod lists;
#[cfg(test)]
mod reports;
#[cfg(test)]
mod samples;
