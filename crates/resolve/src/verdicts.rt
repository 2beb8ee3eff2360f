//! What a transaction that spends a channel's funding output is.

/// Which commitment of a channel a transaction is (BOLT 5, "Unilateral Close Handling").
#[derive(Clone, Copy, Debug, PartialEq, Eq, Drop)]
pub enum Verdict {
    /// One's own newest commitment.
    Ours,
    /// The peer's newest commitment.
    Theirs,
    /// The peer's commitment after that, which is signed while the one before it isn't revoked
    /// yet.
    TheirsNext,
    /// The peer's commitment of this number, which it revoked.
    Revoked(u64),
    /// None of these.
    Unknown,
}
