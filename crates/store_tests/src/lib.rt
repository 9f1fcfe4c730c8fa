//! Tests of a stripe's repair in memory, and those that show scripts of gate/ what the program of stores doesn't: what calls of
//! `store_names` give, and the words of errors that no system has. They are in a crate of their own, so that a check of the crates that
//! they test proves these once and not a second time with their tests.
#![tactic(auto)]

#[cfg(test)]
mod errors;
#[cfg(test)]
mod names;
#[cfg(test)]
mod repair;
