// The scripts of a commitment's outputs, as bytes.

ghost use Rattle.std.specs.Prelude.{◌≡◌, ◌≤◌, ◌++◌, ◌∷◌, [], length, IfOk, OnOk};
ghost use Rattle.digest.specs.Hash.{hash160 as hash160_of};
ghost use Rattle.script.specs.declared.opcode.Op.TheVariants.{Push};
ghost use Rattle.script.specs.Spelling.{spelling};
ghost use Rattle.terms.specs.Scripts.{number_push, two_of_two, to_local, key_hash};
ghost use Rattle.commit.specs.Keys.{bytes_of};
ghost use Rattle.commit.specs.Outputs.{to_local_script as to_local_script_of, to_remote_script as to_remote_script_of};

use crate::derived::CommitmentKeys;
use crate::fees::Direction;
use digest::{hash160, ripemd160};
use keys::Key;
use lists::ByteString;
use script::num::write;
use std::alloc::{AllocError, Global};
use terms::Htlc;

/// 2 and the push of a key.
const TWO_KEY: [u8; 2] = [0x52, 0x21];

/// The push of a key.
const KEY_PUSH: u8 = 0x21;

/// 2 CHECKMULTISIG.
const TWO_CHECK: [u8; 2] = [0x52, 0xae];

/// IF and the push of a key.
const IF_KEY: [u8; 2] = [0x63, 0x21];

/// ELSE.
const ELSE: u8 = 0x67;

/// CHECKSEQUENCEVERIFY DROP and the push of a key.
const AGE_KEY: [u8; 3] = [0xb2, 0x75, 0x21];

/// ENDIF CHECKSIG.
const END_CHECK: [u8; 2] = [0x68, 0xac];

/// DUP HASH160 and the push of a hash.
const KEY_HASH: [u8; 3] = [0x76, 0xa9, 0x14];

/// EQUALVERIFY CHECKSIG.
const EQUAL_CHECK: [u8; 2] = [0x88, 0xac];

/// EQUAL IF CHECKSIG ELSE and the push of a key.
const REVOKED_OR_KEY: [u8; 5] = [0x87, 0x63, 0xac, 0x67, 0x21];

/// SWAP SIZE 32 EQUAL.
const IS_PREIMAGE: [u8; 5] = [0x7c, 0x82, 0x01, 0x20, 0x87];

/// NOTIF DROP 2 SWAP and the push of a key.
const TIMEOUT_KEY: [u8; 5] = [0x64, 0x75, 0x52, 0x7c, 0x21];

/// 2 CHECKMULTISIG ELSE HASH160 and the push of a hash.
const OR_PREIMAGE: [u8; 5] = [0x52, 0xae, 0x67, 0xa9, 0x14];

/// EQUALVERIFY CHECKSIG ENDIF ENDIF.
const OFFERED_END: [u8; 4] = [0x88, 0xac, 0x68, 0x68];

/// IF HASH160 and the push of a hash.
const IF_PREIMAGE: [u8; 3] = [0x63, 0xa9, 0x14];

/// EQUALVERIFY 2 SWAP and the push of a key.
const SUCCESS_KEY: [u8; 4] = [0x88, 0x52, 0x7c, 0x21];

/// 2 CHECKMULTISIG ELSE DROP.
const OR_TIMEOUT: [u8; 4] = [0x52, 0xae, 0x67, 0x75];

/// CHECKLOCKTIMEVERIFY DROP CHECKSIG ENDIF ENDIF.
const RECEIVED_END: [u8; 5] = [0xb1, 0x75, 0xac, 0x68, 0x68];

/// The greatest length of an HTLC's script in bytes: that of a received HTLC whose expiry takes five bytes.
const HTLC_SCRIPT_SIZE: usize = 141;

// Appends the push of an item.
fn push_item(bytes: &mut Vec<u8>, item: &[u8]) -> Result<(), AllocError>
    requires { length item.now ≤ 75 }
    ensures { OnOk result (bytes.new.items ≡ bytes.old.items ++ spelling (Push item.now ∷ [])) }
{
    bytes.push(item.len() as u8)?;
    bytes.extend_from_slice(item)?;
    Ok(())
}

// Appends the push of a number, minimally encoded.
#[tactic(auto, using(crate::proofs::Pushes::push_of_zero, crate::proofs::Pushes::push_of_small, crate::proofs::Pushes::push_of_great, crate::proofs::Pushes::short_push))]
fn push_number(alloc: Global, bytes: &mut Vec<u8>, n: u32) -> Result<(), AllocError>
    ensures { OnOk result (bytes.new.items ≡ bytes.old.items ++ spelling (number_push n ∷ [])) }
{
    if n == 0 {
        return push_item(bytes, &[]);
    }
    if n <= 16 {
        bytes.push(0x50 + n as u8)?;
        return Ok(());
    }
    let item = write(alloc, u64::from(n))?;
    push_item(bytes, item.bytes())
}

/// The bytes of the 2-of-2 script of both keys, in this order. The only error is that memory ran out.
pub(crate) fn two_of_two(alloc: Global, first: &Key, second: &Key) -> Result<Vec<u8>, AllocError>
    ensures { IfOk result (λ v. v.items ≡ spelling (two_of_two first.now.bytes second.now.bytes)) }
{
    let mut bytes = Vec::with_capacity(alloc, 71)?;
    bytes.extend_from_slice(&TWO_KEY)?;
    bytes.extend_from_slice(&first.bytes)?;
    bytes.push(KEY_PUSH)?;
    bytes.extend_from_slice(&second.bytes)?;
    bytes.extend_from_slice(&TWO_CHECK)?;
    Ok(bytes)
}

// The bytes of to_local's script.
fn to_local_bytes(
    alloc: Global,
    revocation: &Key,
    delay_blocks: u16,
    delayed: &Key,
) -> Result<Vec<u8>, AllocError>
    ensures { IfOk result (λ v. v.items ≡ spelling
        (to_local revocation.now.bytes delay_blocks delayed.now.bytes)) }
{
    let mut bytes = Vec::with_capacity(alloc, 80)?;
    bytes.extend_from_slice(&IF_KEY)?;
    bytes.extend_from_slice(&revocation.bytes)?;
    bytes.push(ELSE)?;
    push_number(alloc, &mut bytes, u32::from(delay_blocks))?;
    bytes.extend_from_slice(&AGE_KEY)?;
    bytes.extend_from_slice(&delayed.bytes)?;
    bytes.extend_from_slice(&END_CHECK)?;
    Ok(bytes)
}

/// The script of to_local, and of the output of an HTLC transaction. The only error is that memory ran out.
#[tactic(auto, unfolding(crate::specs::Outputs::to_local_script))]
pub(crate) fn to_local_script(
    alloc: Global,
    delay_blocks: u16,
    keys: &CommitmentKeys,
) -> Result<ByteString, AllocError>
    ensures { IfOk result (λ s. s ≡ to_local_script_of delay_blocks (bytes_of keys.now)) }
{
    let bytes = to_local_bytes(alloc, &keys.revocation, delay_blocks, &keys.delayed)?;
    Ok(ByteString::from_vec(bytes))
}

// The bytes of the script of a key hash.
fn key_hash_bytes(alloc: Global, hash: &[u8; 20]) -> Result<Vec<u8>, AllocError>
    ensures { IfOk result (λ v. v.items ≡ spelling (key_hash hash.now)) }
{
    let mut bytes = Vec::with_capacity(alloc, 25)?;
    bytes.extend_from_slice(&KEY_HASH)?;
    bytes.extend_from_slice(hash)?;
    bytes.extend_from_slice(&EQUAL_CHECK)?;
    Ok(bytes)
}

/// The script of to_remote. The only error is that memory ran out.
#[tactic(auto, unfolding(crate::specs::Outputs::to_remote_script))]
pub(crate) fn to_remote_script(
    alloc: Global,
    keys: &CommitmentKeys,
) -> Result<ByteString, AllocError>
    ensures { IfOk result (λ s. s ≡ to_remote_script_of (bytes_of keys.now)) }
{
    let bytes = key_hash_bytes(alloc, &hash160(&keys.remote.bytes))?;
    Ok(ByteString::from_vec(bytes))
}

/// What the scripts of a commitment's HTLCs share.
#[derive(Clone, Copy)]
pub(crate) struct HtlcScripts {
    keys: CommitmentKeys,
    revocation_hash: [u8; 20],
    ghost hashed: { revocation_hash ≡ hash160_of keys.revocation.bytes },
}

impl HtlcScripts {
    ghost use Rattle.std.specs.Prelude.{◌≡◌, ◌++◌, IfOk, OnOk};
    ghost use Rattle.script.specs.Spelling.{spelling};
    ghost use Rattle.terms.specs.Scripts.{offered, received};
    ghost use Rattle.commit.specs.Keys.{bytes_of};
    ghost use Rattle.commit.specs.Outputs.{htlc_start, htlc_script as htlc_script_of};

    pub(crate) fn new(keys: &CommitmentKeys) -> HtlcScripts
        ensures { result.keys ≡ keys.now }
    {
        HtlcScripts {
            keys: *keys,
            revocation_hash: hash160(&keys.revocation.bytes),
        }
    }

    // The bytes that both directions begin with.
    fn begin(&self, alloc: Global) -> Result<Vec<u8>, AllocError>
        ensures { IfOk result (λ v. v.items
            ≡ htlc_start self.now.revocation_hash self.now.keys.remote_htlc.bytes) }
    {
        let mut bytes = Vec::with_capacity(alloc, HTLC_SCRIPT_SIZE)?;
        bytes.extend_from_slice(&KEY_HASH)?;
        bytes.extend_from_slice(&self.revocation_hash)?;
        bytes.extend_from_slice(&REVOKED_OR_KEY)?;
        bytes.extend_from_slice(&self.keys.remote_htlc.bytes)?;
        bytes.extend_from_slice(&IS_PREIMAGE)?;
        Ok(bytes)
    }

    // The bytes of an offered HTLC's script.
    fn offered(&self, alloc: Global, payment: &[u8; 20]) -> Result<Vec<u8>, AllocError>
        ensures { IfOk result (λ v. v.items ≡ spelling
            (offered self.now.revocation_hash self.now.keys.remote_htlc.bytes
            self.now.keys.local_htlc.bytes payment.now)) }
    {
        let mut bytes = self.begin(alloc)?;
        bytes.extend_from_slice(&TIMEOUT_KEY)?;
        bytes.extend_from_slice(&self.keys.local_htlc.bytes)?;
        bytes.extend_from_slice(&OR_PREIMAGE)?;
        bytes.extend_from_slice(payment)?;
        bytes.extend_from_slice(&OFFERED_END)?;
        Ok(bytes)
    }

    // The bytes of a received HTLC's script.
    fn received(
        &self,
        alloc: Global,
        payment: &[u8; 20],
        expiry_height: u32,
    ) -> Result<Vec<u8>, AllocError>
        ensures { IfOk result (λ v. v.items ≡ spelling
            (received self.now.revocation_hash self.now.keys.remote_htlc.bytes
            self.now.keys.local_htlc.bytes payment.now expiry_height)) }
    {
        let mut bytes = self.begin(alloc)?;
        bytes.extend_from_slice(&IF_PREIMAGE)?;
        bytes.extend_from_slice(payment)?;
        bytes.extend_from_slice(&SUCCESS_KEY)?;
        bytes.extend_from_slice(&self.keys.local_htlc.bytes)?;
        bytes.extend_from_slice(&OR_TIMEOUT)?;
        push_number(alloc, &mut bytes, expiry_height)?;
        bytes.extend_from_slice(&RECEIVED_END)?;
        Ok(bytes)
    }

    /// The script of an HTLC's output. The only error is that memory ran out.
    #[tactic(auto, unfolding(crate::specs::Outputs::htlc_script))]
    pub(crate) fn script(
        &self,
        alloc: Global,
        direction: Direction,
        htlc: &Htlc,
    ) -> Result<ByteString, AllocError>
        ensures { IfOk result (λ s. s ≡ htlc_script_of
            (bytes_of self.now.keys) direction htlc.now) }
    {
        let payment = ripemd160(&htlc.hash);
        let bytes = match direction {
            Direction::Offered => self.offered(alloc, &payment)?,
            Direction::Received => self.received(alloc, &payment, htlc.expiry_height)?,
        };
        Ok(ByteString::from_vec(bytes))
    }
}
