// The scripts of BOLT 3, from keys that the caller gives.

ghost use Rattle.std.specs.Prelude.{◌≡◌, nat_lt, MatchResult, Result, true, false, Err};
ghost use Rattle.paths.specs.Listing.{CheckedScript};
ghost use Rattle.script.specs.Token.{is_key};
ghost use Rattle.script.specs.declared.limits.TheConstants.{LOCKTIME_THRESHOLD};
ghost use Rattle.enforce_c.specs.declared.statuses.Refusal.{Refusal as RefusalOf};
ghost use Rattle.enforce_c.specs.declared.statuses.Refusal.TheVariants.{NotAKey, NotAHeight};
ghost use Rattle.enforce_c.specs.FormScripts.{funding_of, to_local_of, key_hash_of, htlc_keyed, offered_of, received_of, offered_with_anchors_of, received_with_anchors_of, form_of, IsSpelt};

use crate::script_bytes::{
    funding, key_hash, offered, offered_with_anchors, received, received_with_anchors, to_local,
};
use crate::statuses::Refusal;
use forms::Expiry;
use keys::Key;
use lists::ByteString;
use script::tokens::has_key_form;
use std::alloc::Global;

/// A funding output: both keys, `remote` and `local`, in whichever order.
pub const FORM_FUNDING: u32 = 1;
/// A to_local output: `revocation` revokes, or `local`, which is local_delayedpubkey, after `delay_blocks`.
pub const FORM_TO_LOCAL: u32 = 2;
/// A to_remote output, P2WPKH of `remote`: the script that it stands for.
pub const FORM_KEY_HASH: u32 = 3;
/// An HTLC that the commitment's owner offered: `revocation` revokes, `remote` is remote_htlcpubkey and `local` local_htlcpubkey.
pub const FORM_OFFERED: u32 = 4;
/// An HTLC that the commitment's owner received, with the same keys, and `expiry_height`.
pub const FORM_RECEIVED: u32 = 5;
/// As `FORM_OFFERED`, in a channel with `option_anchors`.
pub const FORM_OFFERED_WITH_ANCHORS: u32 = 6;
/// As `FORM_RECEIVED`, in a channel with `option_anchors`.
pub const FORM_RECEIVED_WITH_ANCHORS: u32 = 7;

/// A form of BOLT 3 with what its script has, where local is the commitment's owner and remote its peer. A field that the kind does not name is not read.
#[repr(C)]
#[derive(Clone, Copy)]
pub struct Form {
    /// One of the kinds of forms.
    pub kind: u32,
    /// cltv_expiry, below 500,000,000.
    pub expiry_height: u32,
    /// to_self_delay.
    pub delay_blocks: u16,
    /// revocationpubkey.
    pub revocation: [u8; 33],
    /// A key of the owner's peer.
    pub remote: [u8; 33],
    /// A key of the owner.
    pub local: [u8; 33],
    pub payment_hash: [u8; 32],
}

// The key with these bytes, if they have the form of one. A refusal has this number.
pub(crate) fn key_of(bytes: &[u8; 33], number: usize) -> Result<Key, Refusal>
    ensures { MatchResult result (λ k. (k.bytes ≡ bytes.now) × (is_key bytes.now ≡ true))
        (λ e. (e ≡ NotAKey number) × (is_key bytes.now ≡ false)) }
{
    match Key::read(bytes) {
        Some(key) => Ok(key),
        None => Err(Refusal::NotAKey(number)),
    }
}

// Whether bytes have the form of a key, else the refusal of this number.
fn keyed(bytes: &[u8; 33], number: usize) -> Result<(), Refusal>
    ensures { MatchResult result (λ _. is_key bytes.now ≡ true)
        (λ e. (e ≡ NotAKey number) × (is_key bytes.now ≡ false)) }
{
    if has_key_form(bytes) {
        Ok(())
    } else {
        Err(Refusal::NotAKey(number))
    }
}

// A funding output's script.
#[tactic(auto, using(crate::proofs::FormBytes::funding_spelt))]
fn funding_script(alloc: Global, form: &Form) -> Result<ByteString, Refusal>
    ensures { IsSpelt (funding_of form.now) result }
{
    keyed(&form.remote, 1)?;
    keyed(&form.local, 2)?;
    funding(alloc, &form.remote, &form.local)
}

// A to_local output's script.
#[tactic(auto, using(crate::proofs::FormBytes::to_local_spelt))]
fn to_local_script(alloc: Global, form: &Form) -> Result<ByteString, Refusal>
    ensures { IsSpelt (to_local_of form.now) result }
{
    keyed(&form.revocation, 0)?;
    keyed(&form.local, 2)?;
    to_local(alloc, &form.revocation, form.delay_blocks, &form.local)
}

// The script that P2WPKH of the key stands for.
#[tactic(auto, using(crate::proofs::FormBytes::key_hash_spelt))]
fn key_hash_script(alloc: Global, form: &Form) -> Result<ByteString, Refusal>
    ensures { IsSpelt (key_hash_of form.now) result }
{
    keyed(&form.remote, 1)?;
    key_hash(alloc, &form.remote)
}

// Whether an HTLC's form has three keys, else the refusal of the first that it has not.
#[tactic(auto, using(crate::proofs::FormBytes::first_unkeyed, crate::proofs::FormBytes::second_unkeyed, crate::proofs::FormBytes::third_unkeyed))]
fn htlc_keyed(form: &Form) -> Result<(), Refusal>
    ensures { MatchResult result
        (λ _. (is_key form.now.revocation ≡ true) × (is_key form.now.remote ≡ true) × (is_key form.now.local ≡ true))
        (λ e. (r : Result CheckedScript RefusalOf) → htlc_keyed form.now r ≡ Err e) }
{
    keyed(&form.revocation, 0)?;
    keyed(&form.remote, 1)?;
    keyed(&form.local, 2)?;
    Ok(())
}

// The expiry of an HTLC that the commitment's owner received.
fn expiry_of(form: &Form) -> Result<Expiry, Refusal>
    ensures { MatchResult result (λ t. t.height ≡ form.now.expiry_height)
        (λ e. (e ≡ NotAHeight) × (nat_lt form.now.expiry_height LOCKTIME_THRESHOLD ≡ false)) }
{
    match Expiry::new(form.expiry_height) {
        Some(expiry) => Ok(expiry),
        None => Err(Refusal::NotAHeight),
    }
}

// The script of an HTLC that the commitment's owner offered.
#[tactic(auto, using(crate::proofs::FormBytes::offered_unkeyed, crate::proofs::FormBytes::offered_spelt))]
fn offered_script(alloc: Global, form: &Form) -> Result<ByteString, Refusal>
    ensures { IsSpelt (offered_of form.now) result }
{
    htlc_keyed(form)?;
    offered(
        alloc,
        &form.revocation,
        &form.remote,
        &form.local,
        &form.payment_hash,
    )
}

// The same in a channel with anchors.
#[tactic(auto, using(crate::proofs::FormBytes::offered_with_anchors_unkeyed, crate::proofs::FormBytes::offered_with_anchors_spelt))]
fn offered_with_anchors_script(alloc: Global, form: &Form) -> Result<ByteString, Refusal>
    ensures { IsSpelt (offered_with_anchors_of form.now) result }
{
    htlc_keyed(form)?;
    offered_with_anchors(
        alloc,
        &form.revocation,
        &form.remote,
        &form.local,
        &form.payment_hash,
    )
}

// The script of an HTLC that the commitment's owner received.
#[tactic(auto, using(crate::proofs::FormBytes::received_unkeyed, crate::proofs::FormBytes::received_late, crate::proofs::FormBytes::received_spelt))]
fn received_script(alloc: Global, form: &Form) -> Result<ByteString, Refusal>
    ensures { IsSpelt (received_of form.now) result }
{
    htlc_keyed(form)?;
    let expiry = expiry_of(form)?;
    received(
        alloc,
        &form.revocation,
        &form.remote,
        &form.local,
        &form.payment_hash,
        expiry.height,
    )
}

// The same in a channel with anchors.
#[tactic(auto, using(crate::proofs::FormBytes::received_with_anchors_unkeyed, crate::proofs::FormBytes::received_with_anchors_late, crate::proofs::FormBytes::received_with_anchors_spelt))]
fn received_with_anchors_script(alloc: Global, form: &Form) -> Result<ByteString, Refusal>
    ensures { IsSpelt (received_with_anchors_of form.now) result }
{
    htlc_keyed(form)?;
    let expiry = expiry_of(form)?;
    received_with_anchors(
        alloc,
        &form.revocation,
        &form.remote,
        &form.local,
        &form.payment_hash,
        expiry.height,
    )
}

/// The bytes of a form's script. Checked in this order: the kind, each key in the order of the fields, the expiry.
#[tactic(auto, using(crate::proofs::Answering::by_kind))]
pub(crate) fn form_bytes(alloc: Global, form: &Form) -> Result<ByteString, Refusal>
    ensures { IsSpelt (form_of form.now) result }
{
    match form.kind {
        FORM_FUNDING => funding_script(alloc, form),
        FORM_TO_LOCAL => to_local_script(alloc, form),
        FORM_KEY_HASH => key_hash_script(alloc, form),
        FORM_OFFERED => offered_script(alloc, form),
        FORM_RECEIVED => received_script(alloc, form),
        FORM_OFFERED_WITH_ANCHORS => offered_with_anchors_script(alloc, form),
        FORM_RECEIVED_WITH_ANCHORS => received_with_anchors_script(alloc, form),
        _ => Err(Refusal::NoSuchForm),
    }
}
