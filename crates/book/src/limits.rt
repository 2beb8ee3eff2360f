//! Limits of books.

/// The most channels that a book has.
pub const MAX_CHANNELS: usize = 65_536;
