//! Chains of one node with two channels, worked to the last byte: facts alone, and no code that runs. On each of them what `safety` and `balance_laws` ask of one node against everybody is met or fails by computation, and
//! no two strings have one hash, so that their laws say there what happened and nothing else. Each of the four commitments that may close a channel does so on one of them.
//!
//! Beside them stand thefts, for which each case of what becomes of an output is refuted, and chains on which a rule that a node has to keep is broken and money is lost: a revocation after a close, an HTLC that expires
//! at 0, two channels of one seed. Two channels are in `safety`, and two of one seed here.
#![tactic(auto)]
