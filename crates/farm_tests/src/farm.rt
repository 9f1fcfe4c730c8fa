//! The limits of racks and settings, the collector, and runs, with answers from outside.
mod asserting;
mod collecting;
mod fed;
mod feeding;
mod held;
mod holding;
mod jobs;
mod limits;
mod pausing;
mod refusals;
mod requests;
mod running;
mod surface;
