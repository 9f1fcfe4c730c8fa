//! What the farm's crates say of each member of a list: definitions and lemmas alone, with nothing to call.
#![tactic(auto)]
