//! Laws over the definitions alone.

ghost use Rattle.commit.specs.Building.{SharedViewsHaveCommitments};
ghost use Rattle.commit.specs.Order.{ThereIsOneOrder};
ghost use Rattle.commit.specs.Sums.{EachIsPlaced, NothingIsCreated};

/// A commitment creates nothing. Each millisatoshi of a view is in an output, pays the fee, is left out with a trimmed HTLC or a balance below the
/// dust limit, or is rounded off. So outputs and fee are at most the capacity, if balances and HTLCs together are 1,000 times it.
pub fn nothing_is_created()
    ensures placed { EachIsPlaced }
    ensures limited { NothingIsCreated }
{}

/// The outputs of a commitment have one order: by value, then by the bytes of the program, then by expiry. Outputs that are equal in all three stay
/// as they stood.
pub fn there_is_one_order()
    ensures { ThereIsOneOrder }
{}

/// A view that shares out the capacity of the terms, with at most 3,998 HTLCs, has a commitment. For such a view the only error of `build` is
/// NoMemory.
pub fn shared_views_have_commitments()
    ensures { SharedViewsHaveCommitments }
{}
