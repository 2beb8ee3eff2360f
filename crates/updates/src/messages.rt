//! What comes of the peer in a channel's messages.

use crate::changes::Update;
use keys::Key;
use lists::List;
use sighash::Token;
use std::alloc::AllocError;

/// The tokens that stand for the signatures of a `commitment_signed` (BOLT 2).
#[derive(Clone, Debug, Drop)]
pub struct Tokens {
    /// On the commitment (`signature`).
    pub commitment: Token,
    /// On the HTLC transactions of its untrimmed HTLCs, in the order of its outputs (`htlc_signature`).
    pub htlcs: List<Token>,
}

impl Tokens {
    ghost use Rattle.std.specs.Prelude.{◌≡◌, IfOk};

    /// A copy. The only error is that memory ran out.
    pub fn copy(&self) -> Result<Tokens, AllocError>
        ensures { IfOk result (λ t. t ≡ self.now) }
    {
        self.clone()
    }
}

/// What a `revoke_and_ack` reveals (BOLT 2).
#[derive(Clone, Copy, Debug, Drop)]
pub struct Revocation {
    /// The secret of the commitment that is revoked (`per_commitment_secret`).
    pub secret: [u8; 32],
    /// The point for the second number after it (`next_per_commitment_point`).
    pub next_point: Key,
}

/// A message of the peer that takes its channel a step on: any but a `revoke_and_ack`, which only answers one.
#[derive(Clone, Debug, Drop)]
pub enum PeerStep {
    /// `update_add_htlc`, `update_fulfill_htlc`, `update_fail_htlc` or `update_fee` (BOLT 2).
    Update(Update),
    /// `commitment_signed`.
    CommitmentSigned(Tokens),
}

impl PeerStep {
    ghost use Rattle.std.specs.Prelude.{◌≡◌, IfOk};

    /// A copy. The only error is that memory ran out.
    pub fn copy(&self) -> Result<PeerStep, AllocError>
        ensures { IfOk result (λ s. s ≡ self.now) }
    {
        self.clone()
    }
}
