//! Tests of a stripe's repair over a store in memory and over a folder in memory, with stripes that an independent computation gives.
mod asserting;
mod cases;
mod crashes;
mod damages;
mod folder_cases;
mod lengths;
mod losses;
mod memory_store;
mod ranks;
mod repairs;
mod samples;
