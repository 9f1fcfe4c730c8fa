//! Tests of the public calls of `farm_core`, and of those of `farm_shelves` and `farm_files`, which show scripts of gate/ what the program
//! doesn't; what it does the scripts see of the program. They are in a crate of their own, so that a check of those crates proves each once
//! and not a second time with its tests.
#![tactic(auto)]

#[cfg(test)]
mod farm;
#[cfg(test)]
mod files;
