//! Tests of the public calls of `farm_lanes`.
mod asserting;
mod gates;
mod lanes;
mod memory;
mod surface;
mod tally;
