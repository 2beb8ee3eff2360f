//! The limits of transactions.

/// The greatest value of an output in satoshis: 21,000,000 bitcoins.
pub const MAX_VALUE: u64 = 2_100_000_000_000_000;

/// The greatest number of inputs of a transaction.
pub const MAX_INPUTS: usize = 4_000;

/// The greatest number of outputs of a transaction.
pub const MAX_OUTPUTS: usize = 4_000;

/// The greatest number of items of an input's witness.
pub const MAX_ITEMS: usize = 1_001;

/// The greatest number of bytes of a witness item, and of an output's script.
pub const MAX_BYTES: usize = 10_000;
