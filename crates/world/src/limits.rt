//! Limits of a world.

/// The number of the one seat that calls the books of a world.
pub(crate) const SEAT: u32 = 0;
