// The scripts of HTLCs.

ghost use Rattle.std.specs.Prelude.{◌≡◌, IfOk};
ghost use Rattle.forms.specs.Forms.{offered_htlc, received_htlc};

use crate::instances::instance_of;
use crate::parameters::{Expiry, HtlcKeys};
use crate::pattern_set::Patterns;
use digest::{hash160, ripemd160};
use paths::{Checked, Fill};
use std::alloc::{AllocError, Global};

/// The script of an HTLC that the commitment's owner offered (BOLT 3, "Offered HTLC Outputs"). Its paths, in this order: the revocation key; both
/// HTLC keys, for the timeout; the remote key with the preimage. The only error is that memory ran out.
pub fn offered(
    alloc: Global,
    patterns: &Patterns,
    keys: &HtlcKeys,
    payment_hash: &[u8; 32],
) -> Result<Checked, AllocError>
    ensures { IfOk result (λ c. c ≡ offered_htlc keys.now payment_hash.now) }
{
    let revocation = hash160(&keys.revocation.bytes);
    let payment = ripemd160(payment_hash);
    let fills = [
        Fill::Hash(revocation),
        Fill::Key(keys.remote.bytes),
        Fill::Key(keys.local.bytes),
        Fill::Hash(payment),
    ];
    instance_of(alloc, &patterns.offered, &fills)
}

/// The script of an HTLC that the commitment's owner received (BOLT 3, "Received HTLC Outputs"). Its paths, in this order: the revocation key; both
/// HTLC keys with the preimage; the remote key from the expiry on. The only error is that memory ran out.
pub fn received(
    alloc: Global,
    patterns: &Patterns,
    keys: &HtlcKeys,
    payment_hash: &[u8; 32],
    expiry: Expiry,
) -> Result<Checked, AllocError>
    ensures { IfOk result (λ c. c ≡ received_htlc keys.now payment_hash.now expiry.height) }
{
    let revocation = hash160(&keys.revocation.bytes);
    let payment = ripemd160(payment_hash);
    let fills = [
        Fill::Hash(revocation),
        Fill::Key(keys.remote.bytes),
        Fill::Hash(payment),
        Fill::Key(keys.local.bytes),
        Fill::Num(expiry.height),
    ];
    instance_of(alloc, &patterns.received, &fills)
}
