//! The limits of updates.

/// How many HTLCs of one direction may be live (BOLT 2, `max_accepted_htlcs`).
pub const MAX_HTLCS: usize = 483;

/// Expiries are block heights, which are below this (BIP 65).
pub const EXPIRY_HEIGHT_END: u32 = 500_000_000;
