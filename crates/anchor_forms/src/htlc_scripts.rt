// The scripts of HTLCs by the type of the channel.

ghost use Rattle.std.specs.Prelude.{◌≡◌, IfOk};
ghost use Rattle.digest.specs.Hash.{hash160 as hash160_of};
ghost use Rattle.digest.specs.Ripemd160.{ripemd160 as ripemd160_of};
ghost use Rattle.anchor_forms.specs.Forms.{offered_with_anchors_form, received_with_anchors_form, offered_htlc_in, received_htlc_in};

use crate::channel_types::ChannelType;
use crate::pattern_set::ChannelPatterns;
use digest::{hash160, ripemd160};
use forms::{Expiry, HtlcKeys, instance_of};
use paths::{Checked, Fill};
use std::alloc::{AllocError, Global};

// The script of an offered HTLC in a channel with anchors.
fn offered_with_anchors(
    alloc: Global,
    patterns: &ChannelPatterns,
    keys: &HtlcKeys,
    payment_hash: &[u8; 32],
) -> Result<Checked, AllocError>
    ensures { IfOk result (λ c. c ≡ offered_with_anchors_form (hash160_of keys.now.revocation.bytes)
        keys.now.remote.bytes keys.now.local.bytes (ripemd160_of payment_hash.now)) }
{
    let revocation = hash160(&keys.revocation.bytes);
    let payment = ripemd160(payment_hash);
    let fills = [
        Fill::Hash(revocation),
        Fill::Key(keys.remote.bytes),
        Fill::Key(keys.local.bytes),
        Fill::Hash(payment),
    ];
    instance_of(alloc, &patterns.offered_with_anchors, &fills)
}

// The script of a received HTLC in a channel with anchors.
fn received_with_anchors(
    alloc: Global,
    patterns: &ChannelPatterns,
    keys: &HtlcKeys,
    payment_hash: &[u8; 32],
    expiry: Expiry,
) -> Result<Checked, AllocError>
    ensures { IfOk result (λ c. c ≡ received_with_anchors_form
        (hash160_of keys.now.revocation.bytes) keys.now.remote.bytes keys.now.local.bytes
        (ripemd160_of payment_hash.now) expiry.height) }
{
    let revocation = hash160(&keys.revocation.bytes);
    let payment = ripemd160(payment_hash);
    let fills = [
        Fill::Hash(revocation),
        Fill::Key(keys.remote.bytes),
        Fill::Hash(payment),
        Fill::Key(keys.local.bytes),
        Fill::Num(expiry.height),
    ];
    instance_of(alloc, &patterns.received_with_anchors, &fills)
}

/// The script of an HTLC that the commitment's owner offered, in a channel of a type (BOLT 3, "Offered HTLC Outputs"). Its paths, in this order: the revocation key;
/// both HTLC keys, for the timeout; the remote key with the preimage. The only error is that memory ran out.
pub fn offered(
    alloc: Global,
    patterns: &ChannelPatterns,
    channel_type: ChannelType,
    keys: &HtlcKeys,
    payment_hash: &[u8; 32],
) -> Result<Checked, AllocError>
    ensures { IfOk result (λ c. c ≡ offered_htlc_in channel_type keys.now payment_hash.now) }
{
    match channel_type {
        ChannelType::StaticRemoteKey => forms::offered(alloc, &patterns.forms, keys, payment_hash),
        ChannelType::Anchors => offered_with_anchors(alloc, patterns, keys, payment_hash),
    }
}

/// The script of an HTLC that the commitment's owner received, in a channel of a type (BOLT 3, "Received HTLC Outputs"). Its paths, in this order: the revocation
/// key; both HTLC keys with the preimage; the remote key from the expiry on. The only error is that memory ran out.
pub fn received(
    alloc: Global,
    patterns: &ChannelPatterns,
    channel_type: ChannelType,
    keys: &HtlcKeys,
    payment_hash: &[u8; 32],
    expiry: Expiry,
) -> Result<Checked, AllocError>
    ensures { IfOk result (λ c. c ≡ received_htlc_in channel_type keys.now payment_hash.now
        expiry.height) }
{
    match channel_type {
        ChannelType::StaticRemoteKey => {
            forms::received(alloc, &patterns.forms, keys, payment_hash, expiry)
        }
        ChannelType::Anchors => received_with_anchors(alloc, patterns, keys, payment_hash, expiry),
    }
}
