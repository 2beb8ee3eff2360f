//! What a side's outputs of a commitment are worth: laws over definitions, and no code that runs. Whichever of both sides' commitments closes a channel, the outputs on which a side counts are worth what it counts
//! on, less four deductions that are said exactly: the fee, dust, HTLCs without an output, and what was rounded off. All outputs of a revoked one are worth the whole capacity, less those of both sides. Where the
//! feerate and the dust limits have a bound, the deductions have one too.
//!
//! `commit` has the commitments, `penalty` and `resolve` the claims on them, and `channel` the commitments that may close a channel.
#![tactic(auto)]

pub mod laws;
