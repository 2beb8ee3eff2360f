//! Laws over the definitions alone.

ghost use Rattle.publish.specs.Opening.{CommitmentsSpend, HtlcTxsSpend};

/// A commitment with both signatures spends the funding output on any chain on which that output is unspent. Its input passes all tests of the chain, in a block of any height.
pub fn commitments_spend()
    ensures { CommitmentsSpend }
{}

/// An HTLC transaction with both signatures spends the HTLC's output on any chain on which that output is unspent: its input passes all tests of the chain. HTLC-timeout passes in each
/// block above the expiry, and HTLC-success in each block. The one exception: the item above its signatures, which is the preimage or the empty item, must not have the HASH160 of the
/// revocation key.
pub fn htlc_txs_spend()
    ensures { HtlcTxsSpend }
{}
