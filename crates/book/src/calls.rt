//! The calls of a book, as its history holds them.

ghost use Rattle.std.specs.Prelude.{◌≤◌, ◌↔◌, length, IsTrue};
ghost use Rattle.tx.specs.declared.limits.TheConstants.{MAX_INPUTS as max_inputs, MAX_OUTPUTS as max_outputs};
ghost use Rattle.terms.specs.Agreement.{party};
ghost use Rattle.terms.specs.Bases.{IsSeedOf};

use claim::Claim;
use keys::{Base, Key, Signer};
use lists::List;
use sighash::Token;
use std::alloc::Global;
use terms::{BaseKeys, Side, Terms};
use tx::{MAX_INPUTS, MAX_OUTPUTS, TxOut};
use updates::{OwnUpdate, PeerStep, Revocation};

/// How a side opens a channel: the terms, in which its own base keys are those of its seed, and what its peer sent before the channel was opened.
#[derive(Clone, Copy, Debug)]
pub struct Opening {
    pub terms: Terms,
    /// Which side of the channel this is.
    pub side: Side,
    /// The seed of this side's signer.
    pub seed: [u8; 32],
    /// The peer's per-commitment point for number 0.
    pub first_point: Key,
    /// The peer's per-commitment point for number 1.
    pub next_point: Key,
    /// The peer's token on this side's commitment 0.
    pub token: Token,
    pub ghost own: { IsSeedOf seed (party side terms).bases },
}

// Whether the base keys are those of a signer.
fn are_bases_of(signer: &Signer, bases: &BaseKeys) -> bool
    ensures { IsTrue result ↔ IsSeedOf signer.now.seed bases.now }
{
    bases.funding.bytes == signer.base(Base::Funding).bytes
        && bases.payment.bytes == signer.base(Base::Payment).bytes
        && bases.delayed.bytes == signer.base(Base::Delayed).bytes
        && bases.htlc.bytes == signer.base(Base::Htlc).bytes
        && bases.revocation.bytes == signer.base(Base::Revocation).bytes
}

// Whether the base keys are those of a seed.
fn is_seed_of(alloc: Global, seed: &[u8; 32], bases: &BaseKeys) -> bool
    ensures { IsTrue result ↔ IsSeedOf seed.now bases.now }
{
    let signer = Signer::new(alloc, seed);
    are_bases_of(&signer, bases)
}

impl Opening {
    ghost use Rattle.std.specs.Prelude.{◌↔◌, ◌≤◌, length, IsSome, IfSome};
    ghost use Rattle.book.specs.Calls.{IsOpenedBy};

    /// How a side opens a channel of these terms. `None` where one of its five base keys in the terms does not derive from the seed. Does not allocate.
    pub fn new(
        alloc: Global,
        terms: Terms,
        side: Side,
        seed: [u8; 32],
        first_point: Key,
        next_point: Key,
        token: Token,
    ) -> Option<Opening>
        ensures some { IsSome result ↔ IsSeedOf seed (party side terms).bases }
        ensures parts { IfSome result (IsOpenedBy terms side seed first_point next_point token) }
    {
        if !is_seed_of(alloc, &seed, &terms.party(side).bases) {
            return None;
        }
        Some(Opening {
            terms,
            side,
            seed,
            first_point,
            next_point,
            token,
        })
    }
}

/// Claims that one transaction takes, with its outputs.
#[derive(Drop)]
pub struct Batch {
    /// 1 to 4,000 claims.
    pub claims: List<Claim>,
    /// At most 4,000 outputs. They are ignored where a claim has a fixed transaction.
    pub outputs: List<TxOut>,
    /// The preimages that the claims need.
    pub preimages: List<[u8; 32]>,
    pub ghost some: { 1 ≤ length claims },
    pub ghost inputs: { length claims ≤ max_inputs },
    pub ghost given: { length outputs ≤ max_outputs },
}

impl Batch {
    ghost use Rattle.std.specs.Prelude.{◌↔◌, ◌≤◌, length, IsSome, IfSome};
    ghost use Rattle.book.specs.Bounds.{CanRelease};
    ghost use Rattle.book.specs.Calls.{IsBatchOf};

    /// Claims with the outputs of their transaction and the preimages. `None` where there
    /// is no claim, or there are more than 4,000 claims or outputs. Does not allocate.
    pub fn new(
        claims: List<Claim>,
        outputs: List<TxOut>,
        preimages: List<[u8; 32]>,
    ) -> Option<Batch>
        ensures some { IsSome result ↔ CanRelease claims outputs }
        ensures parts { IfSome result (IsBatchOf claims outputs preimages) }
    {
        if claims.is_empty() || claims.len() > MAX_INPUTS || outputs.len() > MAX_OUTPUTS {
            return None;
        }
        Some(Batch {
            claims,
            outputs,
            preimages,
        })
    }
}

/// A step of a channel: an update of this side, or a received message other than a revocation.
#[derive(Debug, Drop)]
pub enum Step {
    Own(OwnUpdate),
    Peer(PeerStep),
}

/// A call of a book. Channels are named by their index in the order in which they were opened.
#[derive(Drop)]
pub enum Call {
    /// Opens a channel.
    Open(Opening),
    /// Makes or receives an update, or receives a signature.
    Step {
        channel: u64,
        step: Step,
    },
    /// Signs the peer's next commitment.
    Sign {
        channel: u64,
    },
    /// Receives a `revoke_and_ack` (BOLT 2).
    Revoke {
        channel: u64,
        revocation: Revocation,
    },
    /// Keeps the penalties of the peer's revoked commitment of this number.
    Keep {
        channel: u64,
        number: u64,
        claims: List<Claim>,
    },
    /// Fills claims, with the channel's signer and the preimages.
    Release {
        channel: u64,
        batch: Batch,
    },
    /// Closes a channel with this side's newest commitment.
    Close {
        channel: u64,
    },
}

/// An accepted call, with the number of the seat that made it.
#[derive(Drop)]
pub struct Entry {
    pub seat: u32,
    pub call: Call,
}
