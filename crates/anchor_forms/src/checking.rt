// Checks the patterns of the scripts with anchors.

ghost use Rattle.std.specs.Prelude.{◌≡◌, ◌++◌, true, IfOk};
ghost use Rattle.forms.specs.Pieces.{htlc_beginning_pieces};
ghost use Rattle.anchor_forms.specs.Pieces.{block_pieces, offered_with_anchors_pieces, received_with_anchors_pieces};

use crate::pattern_set::ChannelPatterns;
use forms::{htlc_beginning, listed_pattern, patterns};
use paths::Piece::{HashHole, KeyHole, NumHole, Op as Code};
use paths::{CheckedPattern, Piece};
use script::Op;
use std::alloc::{AllocError, Global};

/// Checks the patterns of the scripts of both types of channels. The only error is that memory ran out.
pub fn channel_patterns(alloc: Global) -> Result<ChannelPatterns, AllocError> {
    let offered_with_anchors = checked_offered(alloc)?;
    let received_with_anchors = checked_received(alloc)?;
    Ok(ChannelPatterns {
        forms: patterns(alloc)?,
        offered_with_anchors,
        received_with_anchors,
    })
}

// The pattern of `offered`. The only error is that memory ran out.
#[tactic(auto, using(crate::proofs::Forms::offered_is_listed))]
fn checked_offered(alloc: Global) -> Result<CheckedPattern, AllocError>
    ensures { IfOk result (λ p. p.pieces ≡ offered_with_anchors_pieces) }
{
    listed_pattern(alloc, offered(alloc)?)
}

// The pattern of `received`. The only error is that memory ran out.
#[tactic(auto, using(crate::proofs::Forms::received_is_listed))]
fn checked_received(alloc: Global) -> Result<CheckedPattern, AllocError>
    ensures { IfOk result (λ p. p.pieces ≡ received_with_anchors_pieces) }
{
    listed_pattern(alloc, received(alloc)?)
}

// The end of an HTLC's script: one block has to pass on all but the revocation key's branch. The only error is that memory ran out.
fn block(alloc: Global) -> Result<Vec<Piece>, AllocError>
    ensures { IfOk result (λ v. v.items ≡ block_pieces) }
{
    Ok(vec![in alloc;
        Code(Op::EndIf),
        Code(Op::Number(1)),
        Code(Op::CheckSequenceVerify),
        Code(Op::Drop),
        Code(Op::EndIf),
    ]?)
}

// A script with these branches behind the revocation key's. The only error is that memory ran out.
fn whole(alloc: Global, mut branches: Vec<Piece>) -> Result<Vec<Piece>, AllocError>
    ensures { IfOk result (λ v. v.items ≡ htlc_beginning_pieces ++ (branches.items ++ block_pieces)) }
{
    let mut end = block(alloc)?;
    branches.append(&mut end)?;
    let mut pieces = htlc_beginning(alloc)?;
    pieces.append(&mut branches)?;
    Ok(pieces)
}

// The revocation key; both HTLC keys, for the timeout; or the remote key with the preimage. The only error is that memory ran out.
fn offered(alloc: Global) -> Result<Vec<Piece>, AllocError>
    ensures { IfOk result (λ v. v.items ≡ offered_with_anchors_pieces) }
{
    let branches = vec![in alloc;
        Code(Op::NotIf),
        Code(Op::Drop),
        Code(Op::Number(2)),
        Code(Op::Swap),
        KeyHole,
        Code(Op::Number(2)),
        Code(Op::CheckMultiSig),
        Code(Op::Else),
        Code(Op::Hash160),
        HashHole,
        Code(Op::EqualVerify),
        Code(Op::CheckSig),
    ]?;
    whole(alloc, branches)
}

// The revocation key; both HTLC keys with the preimage; or the remote key from the expiry on. The only error is that memory ran out.
fn received(alloc: Global) -> Result<Vec<Piece>, AllocError>
    ensures { IfOk result (λ v. v.items ≡ received_with_anchors_pieces) }
{
    let branches = vec![in alloc;
        Code(Op::If),
        Code(Op::Hash160),
        HashHole,
        Code(Op::EqualVerify),
        Code(Op::Number(2)),
        Code(Op::Swap),
        KeyHole,
        Code(Op::Number(2)),
        Code(Op::CheckMultiSig),
        Code(Op::Else),
        Code(Op::Drop),
        NumHole,
        Code(Op::CheckLockTimeVerify),
        Code(Op::Drop),
        Code(Op::CheckSig),
    ]?;
    whole(alloc, branches)
}
