//! The numbers that calls give C, as its header names them.

/// `LRC_OK`: what was asked for is done.
pub(crate) const DONE: u32 = 0;

/// `LRC_CONTRADICTION`: no stripe has these survivors.
pub(crate) const CONTRADICTION: u32 = 1;

/// `LRC_SEVERAL`: stripes with these survivors differ at a wanted place.
pub(crate) const SEVERAL: u32 = 2;

/// `LRC_BAD_ARGUMENT`: the arguments are not of the kind that the call asks for, and nothing is written.
pub(crate) const BAD_ARGUMENT: u32 = 3;
