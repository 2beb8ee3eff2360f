//! Laws over the definitions alone.

ghost use Rattle.unilateral.specs.Due.{ReadsTheirs, ReadsOurs, ReadsOurHtlcTransactions};
ghost use Rattle.unilateral.specs.Telling.{EachOutputIsTold, EachClaimIsOnItsOutput, OthersAreWithoutClaims};

/// Nothing is left out. Each claim that an output of a transaction lets one make is among the claims, and an output that lets one make none is among the others. Each claim is on an
/// output that has the commitment's program, with its value, and no other output lets one claim it.
pub fn nothing_is_left_out()
    ensures told { EachOutputIsTold }
    ensures on_outputs { EachClaimIsOnItsOutput }
    ensures others { OthersAreWithoutClaims }
{}

/// On the commitment of a view, which has no anchors, these are the claims that are due (`resolve`): of the peer's exactly those, of one's own those on its outputs, and on each of its
/// HTLC transactions the one on its output. This holds where no two outputs have one program, as they have by a collision of hashes, or where offered HTLCs with one hash expire apart.
pub fn reads_commitments()
    ensures theirs { ReadsTheirs }
    ensures ours { ReadsOurs }
    ensures htlc_transactions { ReadsOurHtlcTransactions }
{}
