// The kinds of claims on the forms, and what fills their slots.

ghost use Rattle.std.specs.Prelude.{◌≡◌, ℕ, ◌≤◌, [], ◌∷◌, map, length, IfOk};
ghost use Rattle.script.specs.declared.limits.TheConstants.{MAX_SCRIPT_ELEMENT_SIZE as max_element_size};
ghost use Rattle.forms.specs.Fillings.{Signature, Bytes, filling_of, fillings_of};
ghost use Rattle.paths.specs.Listing.{CheckedScript};
ghost use Rattle.claim.specs.declared.parts.Place.{Place};
ghost use Rattle.claim.specs.declared.parts.Shell.{Shell};
ghost use Rattle.forms.specs.Claims.{Claims, AreAccepted, AreRefused, path_taken_by};

use claim::{Slot, WitnessItem};
use keys::Key;
use lists::ByteString;
use sighash::Token;
use std::alloc::{AllocError, Global};

/// A kind of claim on one of the forms, with what fills its slots. The two kinds with a token claim an HTLC output of one's own commitment, by
/// the HTLC transaction that both sides signed. Any transaction may make the other claims.
#[derive(Clone, Copy, Debug, PartialEq, Eq)]
pub enum ClaimKind {
    /// A revoked to_local output, by its revocation key: path 0.
    Penalty {
        revocation: Key,
    },
    /// One's own to_local output after its delay: path 1.
    Delayed {
        delayed: Key,
    },
    /// A revoked HTLC output, offered or received, by its revocation key: path 0.
    HtlcPenalty {
        revocation: Key,
    },
    /// An HTLC that the other side's commitment offers, by its preimage: path 2.
    DirectPreimage {
        payment_hash: [u8; 32],
        remote: Key,
    },
    /// An HTLC that the other side's commitment received, from its expiry on: path 2.
    DirectTimeout {
        remote: Key,
    },
    /// A P2WPKH output, such as to_remote: path 0.
    KeyHash {
        key: Key,
    },
    /// An offered HTLC of one's own commitment, by its HTLC-timeout transaction: path 1. The token is the remote key's over that transaction.
    HtlcTimeout {
        local: Key,
        remote_token: Token,
    },
    /// A received HTLC of one's own commitment, by its preimage and its HTLC-success transaction: path 1. The token is the remote key's over that
    /// transaction.
    HtlcSuccess {
        payment_hash: [u8; 32],
        local: Key,
        remote_token: Token,
    },
}

impl ClaimKind {
    /// The index of the path that a claim of this kind takes, among those of its form.
    pub fn path(&self) -> usize
        ensures value { result ≡ path_taken_by self.now }
        ensures claims { (form : CheckedScript) (index : ℕ) (place : Place) (shell : Shell)
            → Claims self.now form index place shell → result ≡ index }
    {
        match self {
            ClaimKind::Penalty { .. } | ClaimKind::HtlcPenalty { .. } | ClaimKind::KeyHash { .. } =>
                0,
            ClaimKind::Delayed { .. }
            | ClaimKind::HtlcTimeout { .. }
            | ClaimKind::HtlcSuccess { .. } => 1,
            ClaimKind::DirectPreimage { .. } | ClaimKind::DirectTimeout { .. } => 2,
        }
    }
}

// A slot of exactly these bytes.
fn exact(alloc: Global, bytes: &[u8]) -> Result<Slot, AllocError>
    requires { length bytes.now ≤ max_element_size }
    ensures { IfOk result (λ s. filling_of s ≡ Bytes bytes.now) }
{
    let item = ByteString::from_slice(alloc, bytes)?;
    Ok(Slot::Exact(WitnessItem { item }))
}

// Two slots, the one on top first.
fn pair(alloc: Global, top: Slot, below: Slot) -> Result<Vec<Slot>, AllocError>
    ensures { IfOk result (λ v. v.items ≡ top ∷ below ∷ []) }
{
    let mut slots = Vec::new(alloc);
    slots.push(top)?;
    slots.push(below)?;
    Ok(slots)
}

// The slots of a claim by both HTLC keys, with the given slot on top.
fn by_both(alloc: Global, top: Slot, local: &Key, token: &Token) -> Result<Vec<Slot>, AllocError>
    ensures { IfOk result (λ v. map filling_of v.items ≡ filling_of top ∷ Signature local.now.bytes
        ∷ Bytes token.now ∷ Bytes [] ∷ []) }
{
    let mut slots = pair(alloc, top, Slot::Sig(*local))?;
    slots.push(exact(alloc, token.bytes())?)?;
    slots.push(exact(alloc, &[])?)?;
    Ok(slots)
}

// What fills the slots of a claim.
fn fillings(alloc: Global, kind: &ClaimKind) -> Result<Vec<Slot>, AllocError>
    ensures { IfOk result (λ v. map filling_of v.items ≡ fillings_of kind.now) }
{
    match kind {
        ClaimKind::Penalty { revocation } => {
            pair(alloc, exact(alloc, &[1])?, Slot::Sig(*revocation))
        }
        ClaimKind::Delayed { delayed } => pair(alloc, exact(alloc, &[])?, Slot::Sig(*delayed)),
        ClaimKind::HtlcPenalty { revocation } => pair(
            alloc,
            exact(alloc, &revocation.bytes)?,
            Slot::Sig(*revocation),
        ),
        ClaimKind::DirectPreimage {
            payment_hash,
            remote,
        } => pair(alloc, Slot::Preimage(*payment_hash), Slot::Sig(*remote)),
        ClaimKind::DirectTimeout { remote } => pair(alloc, exact(alloc, &[])?, Slot::Sig(*remote)),
        ClaimKind::KeyHash { key } => pair(alloc, exact(alloc, &key.bytes)?, Slot::Sig(*key)),
        ClaimKind::HtlcTimeout {
            local,
            remote_token,
        } => by_both(alloc, exact(alloc, &[])?, local, remote_token),
        ClaimKind::HtlcSuccess {
            payment_hash,
            local,
            remote_token,
        } => by_both(alloc, Slot::Preimage(*payment_hash), local, remote_token),
    }
}

/// The slots with which a claim of this kind is accepted, the top of the stack first. The only error is that memory ran out.
pub fn accepted_slots(alloc: Global, kind: &ClaimKind) -> Result<Vec<Slot>, AllocError>
    ensures exact { IfOk result (λ v. map filling_of v.items ≡ fillings_of kind.now) }

    // They are accepted on each form that the kind claims, whatever its other parameters are, wherever its program stands.
    ensures accepted { IfOk result (λ v. AreAccepted kind.now v.items) }

    // The two cases left out are refused. One is a timeout where the revocation key's hash is HASH160 of the empty item. The other is a preimage
    // where it is RIPEMD-160 of the payment hash.
    ensures refused { IfOk result (λ v. AreRefused kind.now v.items) }
{
    fillings(alloc, kind)
}
