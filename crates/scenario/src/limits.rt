//! The limits of scenarios.

/// The greatest number of channels of a scenario.
pub const MAX_CHANNELS: usize = 8;

/// The greatest number of events of a scenario.
pub const MAX_EVENTS: usize = 10_000;

/// The greatest number of blocks of one event.
pub const MAX_BLOCKS: u64 = 10_000;
