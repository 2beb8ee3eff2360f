//! Limits of channels.

/// The number of the last commitment that is signed, 2^48 - 2: a side's point for the number after it, 2^48 - 1, is its last one.
pub const LAST_NUMBER: u64 = 281_474_976_710_654;
