//! Tests of the public calls of `lrc_field`, `lrc_code` and `lrc_plan`. Most show what calls give that standard input asks for, and scripts
//! of gate/ test what they show. They are in a crate of their own, so that a check of those crates proves them once and not a second time
//! with their tests.
#![tactic(auto)]

#[cfg(test)]
mod assertions;
#[cfg(test)]
mod code;
#[cfg(test)]
mod field;
#[cfg(test)]
mod given;
#[cfg(test)]
mod lines;
#[cfg(test)]
mod plan;
#[cfg(test)]
mod surface;
