//! Units of value.

/// Millisatoshis in a satoshi (BOLT 2).
pub const MSAT_PER_SAT: u64 = 1000;
