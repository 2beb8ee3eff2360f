//! Laws over the definitions alone.

ghost use Rattle.revoked.specs.Telling.{EachOutputIsTold, EachIsToldOnce, EachClaimIsOnItsOutput, SharingCollides, ReadsCommitments, ReadsHtlcTransactions};

/// Nothing is left out, and nothing is told twice. Each output of a transaction is claimed at its place, or named. Claims and names together are as many as the
/// outputs. Each claim is on an output that has the commitment's program, with its value.
pub fn nothing_is_left_out()
    ensures told { EachOutputIsTold }
    ensures once { EachIsToldOnce }
    ensures on_outputs { EachClaimIsOnItsOutput }
{}

/// On the commitment of a revoked state, which has no anchors, these are the penalty's claims on its outputs, and on each of its HTLC transactions the penalty's claim on its output. No
/// output is named. Of the commitment this holds unless two different scripts have one program, which by `sharing_collides` is a collision of SHA-256.
pub fn reads_commitments()
    ensures commitments { ReadsCommitments }
    ensures htlc_transactions { ReadsHtlcTransactions }
{}

/// Outputs of a commitment that have one program have one script and one form, or else SHA-256 collides on their scripts. So the premise of `reads_commitments` that
/// no two scripts have one program fails in no other way.
pub fn sharing_collides()
    ensures { SharingCollides }
{}
