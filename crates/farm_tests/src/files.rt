//! What shelves of `farm_shelves` do and what the calls of `farm_files` give, for scripts of gate/.
mod batches;
mod calls;
mod given;
mod shelves;
mod surface;
