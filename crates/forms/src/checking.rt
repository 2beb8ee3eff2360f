// Checks the patterns of the scripts.

ghost use Rattle.std.specs.Prelude.{◌≡◌, true, IfOk};
ghost use Rattle.forms.specs.Pieces.{is_listed, two_of_two_pieces, to_local_pieces, key_hash_pieces, htlc_beginning_pieces, offered_pieces, received_pieces};

use crate::pattern_set::Patterns;
use lists::ByteString;
use paths::Piece::{HashHole, KeyHole, NumHole, Op as Code};
use paths::{CheckError, CheckedPattern, PatternError, Piece, check_pattern};
use script::Op;
use std::alloc::{AllocError, Global};

/// Checks the patterns of all scripts. The only error is that memory ran out.
pub fn patterns(alloc: Global) -> Result<Patterns, AllocError> {
    let paying = payment_patterns(alloc)?;
    let htlcs = htlc_patterns(alloc)?;
    Ok(Patterns {
        two_of_two: paying.two_of_two,
        to_local: paying.to_local,
        key_hash: paying.key_hash,
        offered: htlcs.offered,
        received: htlcs.received,
    })
}

// The patterns of the funding output's script, and of the outputs that pay one side.
#[derive(Drop)]
struct PaymentPatterns {
    two_of_two: CheckedPattern,
    to_local: CheckedPattern,
    key_hash: CheckedPattern,
    ghost of_two_of_two: { two_of_two.pieces ≡ two_of_two_pieces },
    ghost of_to_local: { to_local.pieces ≡ to_local_pieces },
    ghost of_key_hash: { key_hash.pieces ≡ key_hash_pieces },
}

// The patterns of the scripts of HTLCs.
#[derive(Drop)]
struct HtlcPatterns {
    offered: CheckedPattern,
    received: CheckedPattern,
    ghost of_offered: { offered.pieces ≡ offered_pieces },
    ghost of_received: { received.pieces ≡ received_pieces },
}

// Checks the patterns of payments. The only error is that memory ran out.
fn payment_patterns(alloc: Global) -> Result<PaymentPatterns, AllocError> {
    Ok(PaymentPatterns {
        two_of_two: checked_two_of_two(alloc)?,
        to_local: checked_to_local(alloc)?,
        key_hash: checked_key_hash(alloc)?,
    })
}

// Checks the patterns of HTLCs. The only error is that memory ran out.
fn htlc_patterns(alloc: Global) -> Result<HtlcPatterns, AllocError> {
    Ok(HtlcPatterns {
        offered: checked_offered(alloc)?,
        received: checked_received(alloc)?,
    })
}

// The pattern of `two_of_two`. The only error is that memory ran out.
#[tactic(auto, using(crate::proofs::Forms::two_of_two_is_listed))]
fn checked_two_of_two(alloc: Global) -> Result<CheckedPattern, AllocError>
    ensures { IfOk result (λ p. p.pieces ≡ two_of_two_pieces) }
{
    listed_pattern(alloc, two_of_two(alloc)?)
}

// The pattern of `to_local`. The only error is that memory ran out.
#[tactic(auto, using(crate::proofs::Forms::to_local_is_listed))]
fn checked_to_local(alloc: Global) -> Result<CheckedPattern, AllocError>
    ensures { IfOk result (λ p. p.pieces ≡ to_local_pieces) }
{
    listed_pattern(alloc, to_local(alloc)?)
}

// The pattern of `key_hash`. The only error is that memory ran out.
#[tactic(auto, using(crate::proofs::Forms::key_hash_is_listed))]
fn checked_key_hash(alloc: Global) -> Result<CheckedPattern, AllocError>
    ensures { IfOk result (λ p. p.pieces ≡ key_hash_pieces) }
{
    listed_pattern(alloc, key_hash(alloc)?)
}

// The pattern of `offered`. The only error is that memory ran out.
#[tactic(auto, using(crate::proofs::Forms::offered_is_listed))]
fn checked_offered(alloc: Global) -> Result<CheckedPattern, AllocError>
    ensures { IfOk result (λ p. p.pieces ≡ offered_pieces) }
{
    listed_pattern(alloc, offered(alloc)?)
}

// The pattern of `received`. The only error is that memory ran out.
#[tactic(auto, using(crate::proofs::Forms::received_is_listed))]
fn checked_received(alloc: Global) -> Result<CheckedPattern, AllocError>
    ensures { IfOk result (λ p. p.pieces ≡ received_pieces) }
{
    listed_pattern(alloc, received(alloc)?)
}

/// The pattern of pieces whose ways are listed. The only error is that memory ran out.
#[tactic(auto, using(crate::proofs::Forms::never_refused))]
pub fn listed_pattern(alloc: Global, pieces: Vec<Piece>) -> Result<CheckedPattern, AllocError>
    requires { is_listed pieces.items ≡ true }
    ensures { IfOk result (λ p. p.pieces ≡ pieces.items) }
{
    match check_pattern(alloc, pieces) {
        Ok(pattern) => Ok(pattern),
        Err(refusal) => match refusal {
            PatternError::Check(CheckError::NoMemory) => Err(AllocError),
            _ => unreachable!(),
        },
    }
}

// Both keys sign. The only error is that memory ran out.
fn two_of_two(alloc: Global) -> Result<Vec<Piece>, AllocError>
    ensures { IfOk result (λ v. v.items ≡ two_of_two_pieces) }
{
    Ok(vec![in alloc;
        Code(Op::Number(2)),
        KeyHole,
        KeyHole,
        Code(Op::Number(2)),
        Code(Op::CheckMultiSig),
    ]?)
}

// The revocation key, or the delayed key after the delay. The only error is that memory ran out.
fn to_local(alloc: Global) -> Result<Vec<Piece>, AllocError>
    ensures { IfOk result (λ v. v.items ≡ to_local_pieces) }
{
    Ok(vec![in alloc;
        Code(Op::If),
        KeyHole,
        Code(Op::Else),
        NumHole,
        Code(Op::CheckSequenceVerify),
        Code(Op::Drop),
        KeyHole,
        Code(Op::EndIf),
        Code(Op::CheckSig),
    ]?)
}

// The key of this hash. The only error is that memory ran out.
fn key_hash(alloc: Global) -> Result<Vec<Piece>, AllocError>
    ensures { IfOk result (λ v. v.items ≡ key_hash_pieces) }
{
    Ok(vec![in alloc;
        Code(Op::Dup),
        Code(Op::Hash160),
        HashHole,
        Code(Op::EqualVerify),
        Code(Op::CheckSig),
    ]?)
}

/// The beginning of an HTLC's script: the revocation key's branch, and in the other branch the remote key and the test for a preimage (BOLT 3,
/// "Offered HTLC Outputs" and "Received HTLC Outputs"). The only error is that memory ran out.
pub fn htlc_beginning(alloc: Global) -> Result<Vec<Piece>, AllocError>
    ensures { IfOk result (λ v. v.items ≡ htlc_beginning_pieces) }
{
    let preimage_size = ByteString::from_slice(alloc, &[32])?;
    Ok(vec![in alloc;
        Code(Op::Dup),
        Code(Op::Hash160),
        HashHole,
        Code(Op::Equal),
        Code(Op::If),
        Code(Op::CheckSig),
        Code(Op::Else),
        KeyHole,
        Code(Op::Swap),
        Code(Op::Size),
        Code(Op::Push(preimage_size)),
        Code(Op::Equal),
    ]?)
}

// The revocation key; both HTLC keys, for the timeout; or the remote key with the preimage. The only error is that memory ran out.
fn offered(alloc: Global) -> Result<Vec<Piece>, AllocError>
    ensures { IfOk result (λ v. v.items ≡ offered_pieces) }
{
    let mut pieces = htlc_beginning(alloc)?;
    let mut branches = vec![in alloc;
        Code(Op::NotIf),
        Code(Op::Drop),
        Code(Op::Number(2)),
        Code(Op::Swap),
        KeyHole,
        Code(Op::Number(2)),
        Code(Op::CheckMultiSig),
        Code(Op::Else),
        Code(Op::Hash160),
        HashHole,
        Code(Op::EqualVerify),
        Code(Op::CheckSig),
        Code(Op::EndIf),
        Code(Op::EndIf),
    ]?;
    pieces.append(&mut branches)?;
    Ok(pieces)
}

// The revocation key; both HTLC keys with the preimage; or the remote key from the expiry on. The only error is that memory ran out.
fn received(alloc: Global) -> Result<Vec<Piece>, AllocError>
    ensures { IfOk result (λ v. v.items ≡ received_pieces) }
{
    let mut pieces = htlc_beginning(alloc)?;
    let mut branches = vec![in alloc;
        Code(Op::If),
        Code(Op::Hash160),
        HashHole,
        Code(Op::EqualVerify),
        Code(Op::Number(2)),
        Code(Op::Swap),
        KeyHole,
        Code(Op::Number(2)),
        Code(Op::CheckMultiSig),
        Code(Op::Else),
        Code(Op::Drop),
        NumHole,
        Code(Op::CheckLockTimeVerify),
        Code(Op::Drop),
        Code(Op::CheckSig),
        Code(Op::EndIf),
        Code(Op::EndIf),
    ]?;
    pieces.append(&mut branches)?;
    Ok(pieces)
}
