//! How many events of a channel were played.

/// How many events of a channel were played, and how many were refused.
#[derive(Clone, Copy, Debug, Drop, PartialEq, Eq)]
pub struct Counts {
    pub played: u64,
    pub refused: u64,
}
