//! The numbers of commitments.

/// The greatest number of a commitment, 2^48 - 1: its transaction carries 48 bits of it (BOLT 3, "Commitment Transaction").
pub const MAX_NUMBER: u64 = 281_474_976_710_655;
