//! Writers of a book's calls and of the dump of its history.

ghost use Rattle.std.specs.Prelude.{◌≡◌, List, [], ◌∷◌, ◌++◌, map, codes, Some, IfOk};
ghost use Rattle.serde_json.specs.Data.{string};
ghost use Rattle.serde_json.specs.View.{view, items_view};
ghost use Rattle.texts.specs.declared.steps.PlainStep.TheVariants.{Own};
ghost use Rattle.texts.specs.declared.calls.PlainCall.{PlainCall};
ghost use Rattle.texts.specs.declared.calls.PlainCall.TheVariants.{Step, Sign, Revoke, Keep, Close};
ghost use Rattle.texts.specs.declared.calls.PlainEntry.{PlainEntry};
ghost use Rattle.texts.specs.Values.{each_of};
ghost use Rattle.texts.specs.Calls.{call_of, entry_of, any_close, dump_of};
ghost use Rattle.texts.specs.ClaimWriting.{plain_claim};
ghost use Rattle.texts.specs.Compound.{items_in};
ghost use Rattle.texts.specs.CallWriting.{base_keys_data, call_front, own_data, receive_data, sign_data, revoke_data, keep_data, release_data, close_data, entry_data, dump_data, ReceivedComesBack, ReleaseComesBack};

use crate::calls::PlainOpening;
use crate::compound::{ArrayWriter, ObjectWriter};
use crate::writing::{WriteValue, write_bytes};
use claim::Claim;
use keys::Key;
use serde_json::Value;
use sighash::Token;
use std::alloc::{AllocError, Global};
use terms::BaseKeys;
use tx::TxOut;
use updates::{OwnUpdate, Revocation, Tokens};

/// A string of hexadecimal digits.
impl WriteValue for Key {
    ghost use Rattle.std.specs.Prelude.{◌≡◌, Some};
    ghost use Rattle.texts.specs.Keys.{key_of};
    ghost use Rattle.texts.specs.CallWriting.{key_data};

    ghost writes = { key_data };

    ghost comes_back = { λ k. key_of (key_data k) ≡ Some k };

    #[tactic(auto, using(crate::proofs::ClaimReturning::key_again))]
    fn write_value(&self, alloc: Global) -> Result<Value, AllocError> {
        write_bytes(alloc, &self.bytes)
    }
}

/// A string of hexadecimal digits.
impl WriteValue for Token {
    ghost use Rattle.std.specs.Prelude.{◌≡◌, Some, IsTrue};
    ghost use Rattle.script.specs.Token.{is_token};
    ghost use Rattle.texts.specs.Keys.{token_bytes_of};
    ghost use Rattle.texts.specs.Writing.{bytes_data};

    ghost writes = { bytes_data };

    ghost comes_back = { λ t. IsTrue (is_token t) → token_bytes_of (bytes_data t) ≡ Some t };

    #[tactic(auto, using(crate::proofs::CallReturning::token_again))]
    fn write_value(&self, alloc: Global) -> Result<Value, AllocError> {
        write_bytes(alloc, self.bytes())
    }
}

/// A `commitment_signed`: an array of `signed`, the token on the commitment and the array of those on its HTLC transactions.
impl WriteValue for Tokens {
    ghost use Rattle.std.specs.Prelude.{◌≡◌, Some};
    ghost use Rattle.updates.specs.declared.messages.PeerStep.TheVariants.{CommitmentSigned};
    ghost use Rattle.texts.specs.Steps.{received_of};
    ghost use Rattle.texts.specs.CallWriting.{signature_data, AreTokens};

    ghost writes = { signature_data };

    ghost comes_back = { λ s. AreTokens s → received_of (signature_data s) ≡ Some (CommitmentSigned s) };

    #[tactic(auto, unfolding(crate::specs::CallWriting::signature_data))]
    fn write_value(&self, alloc: Global) -> Result<Value, AllocError> {
        let message = ArrayWriter::named(alloc, "signed")?
            .item(&self.commitment)?
            .each(self.htlcs.values())?;
        Ok(message.finish())
    }
}

/// An array of `revoke`, the secret and the point.
impl WriteValue for Revocation {
    ghost use Rattle.std.specs.Prelude.{◌≡◌, Some};
    ghost use Rattle.texts.specs.Steps.{revocation_of};
    ghost use Rattle.texts.specs.CallWriting.{revocation_data};

    ghost writes = { revocation_data };

    ghost comes_back = { λ r. revocation_of (revocation_data r) ≡ Some r };

    #[tactic(auto, unfolding(crate::specs::CallWriting::revocation_data), using(crate::proofs::CallReturning::revocation_again))]
    fn write_value(&self, alloc: Global) -> Result<Value, AllocError> {
        let message = ArrayWriter::named(alloc, "revoke")?
            .item(&self.secret)?
            .item(&self.next_point)?;
        Ok(message.finish())
    }
}

/// An array of the five keys.
impl WriteValue for BaseKeys {
    ghost use Rattle.std.specs.Prelude.{◌≡◌, Some};
    ghost use Rattle.texts.specs.Keys.{base_keys_of};
    ghost use Rattle.texts.specs.CallWriting.{base_keys_data};

    ghost writes = { base_keys_data };

    ghost comes_back = { λ b. base_keys_of (base_keys_data b) ≡ Some b };

    #[tactic(auto, using(crate::proofs::CallReturning::bases_again))]
    fn write_value(&self, alloc: Global) -> Result<Value, AllocError> {
        let keys = ArrayWriter::new(alloc)
            .item(&self.funding)?
            .item(&self.payment)?
            .item(&self.delayed)?
            .item(&self.htlc)?
            .item(&self.revocation)?;
        Ok(keys.finish())
    }
}

/// The call that opens a channel.
impl WriteValue for PlainOpening {
    ghost use Rattle.std.specs.Prelude.{◌≡◌, Some};
    ghost use Rattle.texts.specs.declared.calls.PlainCall.TheVariants.{Open};
    ghost use Rattle.texts.specs.Calls.{call_of};
    ghost use Rattle.texts.specs.CallWriting.{open_data, CanOpen};

    ghost writes = { open_data };

    ghost comes_back = { λ o. CanOpen o → call_of (open_data o) ≡ Some (Open o) };

    #[tactic(auto, unfolding(crate::specs::CallWriting::open_data))]
    fn write_value(&self, alloc: Global) -> Result<Value, AllocError> {
        let call = ArrayWriter::named(alloc, "open")?
            .item(&self.terms)?
            .item(&self.funding)?
            .item(&self.side)?
            .item(&self.seed)?
            .item(&self.bases)?
            .item(&(self.first_point, self.next_point))?
            .item(&self.token)?;
        Ok(call.finish())
    }
}

// The first two items of a call: its name and its channel.
fn call(alloc: Global, name: &str, channel: u64) -> Result<ArrayWriter, AllocError>
    ensures { IfOk result (λ w. items_in w ≡ call_front name.now channel) }
{
    ArrayWriter::named(alloc, name)?.item(&channel)
}

// The first three items of a step: `step`, its channel and its own name.
fn step(alloc: Global, channel: u64, name: &str) -> Result<ArrayWriter, AllocError>
    ensures { IfOk result (λ w. items_in w ≡ call_front (codes "step") channel ++ string name.now
        ∷ []) }
{
    let name = Value::try_from_str(alloc, name)?;
    call(alloc, "step", channel)?.value(name)
}

/// Writes the step that makes an update.
#[tactic(auto, unfolding(crate::specs::CallWriting::own_data), using(crate::proofs::CallReturning::offer_again, crate::proofs::CallReturning::own_fulfil_again, crate::proofs::CallReturning::own_fail_again, crate::proofs::CallReturning::own_fee_again))]
pub fn write_own(alloc: Global, channel: u64, update: &OwnUpdate) -> Result<Value, AllocError>
    ensures form { IfOk result (λ v. view v ≡ own_data channel update.now) }
    ensures back { IfOk result (λ _. call_of (own_data channel update.now) ≡ Some
        (Step channel (Own update.now))) }
{
    match update {
        OwnUpdate::Offer {
            amount_msat,
            hash,
            expiry_height,
        } => {
            let call = step(alloc, channel, "offer")?
                .item(amount_msat)?
                .item(hash)?
                .item(expiry_height)?;
            Ok(call.finish())
        }
        OwnUpdate::Fulfil { id, preimage } => {
            let call = step(alloc, channel, "fulfil")?.item(id)?.item(preimage)?;
            Ok(call.finish())
        }
        OwnUpdate::Fail { id } => Ok(step(alloc, channel, "fail")?.item(id)?.finish()),
        OwnUpdate::SetFee { feerate_per_kw } => Ok(
            step(alloc, channel, "fee")?.item(feerate_per_kw)?.finish(),
        ),
    }
}

/// Writes the step that receives a message, given the message as it is written.
#[tactic(auto, unfolding(crate::specs::CallWriting::receive_data), using(crate::proofs::CallReturning::receive_again))]
pub fn write_receive(alloc: Global, channel: u64, message: Value) -> Result<Value, AllocError>
    ensures form { IfOk result (λ v. view v ≡ receive_data channel (view message)) }
    ensures back { IfOk result (λ _. ReceivedComesBack channel (view message)) }
{
    let call = step(alloc, channel, "receive")?.value(message)?;
    Ok(call.finish())
}

/// Writes the call that signs.
#[tactic(auto, unfolding(crate::specs::CallWriting::sign_data), using(crate::proofs::CallReturning::sign_again))]
pub fn write_sign(alloc: Global, channel: u64) -> Result<Value, AllocError>
    ensures form { IfOk result (λ v. view v ≡ sign_data channel) }
    ensures back { IfOk result (λ _. call_of (sign_data channel) ≡ Some (Sign channel)) }
{
    Ok(call(alloc, "sign", channel)?.finish())
}

/// Writes the call that receives a revocation.
#[tactic(auto, unfolding(crate::specs::CallWriting::revoke_data), using(crate::proofs::CallReturning::revoke_again))]
pub fn write_revoke(
    alloc: Global,
    channel: u64,
    revocation: &Revocation,
) -> Result<Value, AllocError>
    ensures form { IfOk result (λ v. view v ≡ revoke_data channel revocation.now) }
    ensures back { IfOk result (λ _. call_of (revoke_data channel revocation.now) ≡ Some
        (Revoke channel revocation.now)) }
{
    let call = call(alloc, "revoke", channel)?.item(revocation)?;
    Ok(call.finish())
}

/// Writes the call that keeps the penalties of a revoked commitment.
#[tactic(auto, unfolding(crate::specs::CallWriting::keep_data), using(crate::proofs::CallReturning::keep_again))]
pub fn write_keep(
    alloc: Global,
    channel: u64,
    number: u64,
    claims: &[Claim],
) -> Result<Value, AllocError>
    ensures form { IfOk result (λ v. view v ≡ keep_data channel number claims.now) }
    ensures back { IfOk result (λ _. call_of (keep_data channel number claims.now) ≡ Some
        (Keep channel number (map plain_claim claims.now))) }
{
    let call = call(alloc, "keep", channel)?.item(&number)?.each(claims)?;
    Ok(call.finish())
}

/// Writes the call that releases claims.
#[tactic(auto, unfolding(crate::specs::CallWriting::release_data), using(crate::proofs::CallReturning::release_again))]
pub fn write_release(
    alloc: Global,
    channel: u64,
    claims: &[Claim],
    outputs: &[TxOut],
    preimages: &[[u8; 32]],
) -> Result<Value, AllocError>
    ensures form { IfOk result (λ v. view v
        ≡ release_data channel claims.now outputs.now preimages.now) }
    ensures back { IfOk result (λ _. ReleaseComesBack channel claims.now outputs.now
        preimages.now) }
{
    let call = call(alloc, "release", channel)?
        .each(claims)?
        .each(outputs)?
        .each(preimages)?;
    Ok(call.finish())
}

/// Writes the call that closes a channel.
#[tactic(auto, unfolding(crate::specs::CallWriting::close_data), using(crate::proofs::CallReturning::close_again))]
pub fn write_close(alloc: Global, channel: u64) -> Result<Value, AllocError>
    ensures form { IfOk result (λ v. view v ≡ close_data channel) }
    ensures back { IfOk result (λ _. call_of (close_data channel) ≡ Some (Close channel)) }
{
    Ok(call(alloc, "close", channel)?.finish())
}

/// Writes an entry of a history, given its call as it is written.
#[tactic(auto, unfolding(crate::specs::CallWriting::entry_data), using(crate::proofs::CallReturning::entry_again))]
pub fn write_entry(alloc: Global, call: Value, seat: u32) -> Result<Value, AllocError>
    ensures form { IfOk result (λ v. view v ≡ entry_data (view call) seat) }
    ensures back { IfOk result (λ _. (c : PlainCall) → call_of (view call) ≡ Some c
        → entry_of (entry_data (view call) seat) ≡ Some (record { call = c; seat = seat })) }
{
    let entry = ObjectWriter::new(alloc)
        .value("call", call)?
        .member("seat", &seat)?;
    Ok(entry.finish())
}

/// Writes a dump, given its entries as they are written, the oldest first, and whether a call of them closes a channel. Its version is 3 then, and else 2.
#[tactic(auto, unfolding(crate::specs::CallWriting::dump_data), using(crate::proofs::CallReturning::dumps_come_back))]
pub fn write_dump(alloc: Global, entries: Vec<Value>, has_close: bool) -> Result<Value, AllocError>
    ensures form { IfOk result (λ v. view v ≡ dump_data has_close (map view entries.items)) }
    ensures back { IfOk result (λ _. (history : List PlainEntry)
        → each_of entry_of (items_view entries.items) ≡ Some history → any_close history ≡ has_close
        → dump_of (dump_data has_close (map view entries.items)) ≡ Some
        (record { history = history })) }
{
    let version = if has_close { 3u64 } else { 2 };
    let dump = ObjectWriter::new(alloc)
        .value("history", Value::Array(entries))?
        .member("version", &version)?;
    Ok(dump.finish())
}
