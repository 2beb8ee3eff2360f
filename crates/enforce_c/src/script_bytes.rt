// The scripts of BOLT 3 as bytes, one opcode after another. No way through them is listed here: `forms` lists them once, for all keys, hashes and numbers.

ghost use Rattle.std.specs.Prelude.{◌≡◌, [], ◌∷◌, map, MatchResult};
ghost use Rattle.std.specs.List.{concat};
ghost use Rattle.digest.specs.Hash.{hash160 as hash160_of};
ghost use Rattle.digest.specs.Ripemd160.{ripemd160 as ripemd160_of};
ghost use Rattle.script.specs.Spelling.{spelling};
ghost use Rattle.terms.specs.Scripts.{number_push, two_of_two as two_of_two_ops, funding as funding_ops, to_local as to_local_ops, key_hash as key_hash_ops, offered as offered_ops, received as received_ops};
ghost use Rattle.anchor_forms.specs.Scripts.{offered_with_anchors as offered_with_anchors_ops, received_with_anchors as received_with_anchors_ops};
ghost use Rattle.enforce_c.specs.declared.statuses.Refusal.TheVariants.{NoMemory};
ghost use Rattle.enforce_c.specs.FormScripts.{IsWritten};

use crate::statuses::Refusal;
use digest::{hash160, ripemd160};
use lists::ByteString;
use script::num;
use std::alloc::Global;
use std::cmp::Ordering;

// The bytes of opcodes. That of a push is the number of bytes that follow it.
const PUSH_HASH: u8 = 20;

const PUSH_KEY: u8 = 33;

const NUMBER_1: u8 = 0x51;

const NUMBER_2: u8 = 0x52;

const IF: u8 = 0x63;

const NOTIF: u8 = 0x64;

const ELSE: u8 = 0x67;

const ENDIF: u8 = 0x68;

const DROP: u8 = 0x75;

const DUP: u8 = 0x76;

const SWAP: u8 = 0x7c;

const SIZE: u8 = 0x82;

const EQUAL: u8 = 0x87;

const EQUALVERIFY: u8 = 0x88;

const HASH160: u8 = 0xa9;

const CHECKSIG: u8 = 0xac;

const CHECKMULTISIG: u8 = 0xae;

const CHECKLOCKTIMEVERIFY: u8 = 0xb1;

const CHECKSEQUENCEVERIFY: u8 = 0xb2;

// The bytes of the longest script here: a received HTLC's with anchors, whose expiry takes five with its push.
const LONGEST: usize = 143;

// The parts, one after another. The only refusal is that memory ran out.
fn joined(alloc: Global, parts: &[&[u8]]) -> Result<ByteString, Refusal>
    ensures { MatchResult result (λ b. b ≡ concat (map (λ part. part.now) parts.now)) (λ e. e ≡ NoMemory) }
{
    let mut bytes = Vec::with_capacity(alloc, LONGEST)?;
    for part in parts {
        bytes.extend_from_slice(part)?;
    }
    Ok(ByteString::from_vec(bytes))
}

// The push of a number. The only refusal is that memory ran out.
#[tactic(auto, using(crate::proofs::Spelled::none, crate::proofs::Spelled::small, crate::proofs::Spelled::short_item))]
fn number_push(alloc: Global, n: u32) -> Result<ByteString, Refusal>
    ensures { MatchResult result (λ b. b ≡ spelling (number_push n ∷ [])) (λ e. e ≡ NoMemory) }
{
    if n == 0 {
        return joined(alloc, &[&[0]]);
    }
    if n <= 16 {
        return joined(alloc, &[&[0x50 + n as u8]]);
    }
    let item = num::write(alloc, u64::from(n))?;
    joined(alloc, &[&[item.len() as u8], item.bytes()])
}

// The 2-of-2 script of both keys, in this order. The only refusal is that memory ran out.
fn two_of_two(alloc: Global, first: &[u8; 33], second: &[u8; 33]) -> Result<ByteString, Refusal>
    ensures { IsWritten (two_of_two_ops first.now second.now) result }
{
    joined(
        alloc,
        &[
            &[NUMBER_2, PUSH_KEY],
            first,
            &[PUSH_KEY],
            second,
            &[NUMBER_2, CHECKMULTISIG],
        ],
    )
}

/// A funding output's script (BOLT 3, "Funding Transaction Output"): the lexicographically lesser key comes first. The only refusal is that memory ran out.
pub(crate) fn funding(
    alloc: Global,
    key: &[u8; 33],
    other: &[u8; 33],
) -> Result<ByteString, Refusal>
    ensures { IsWritten (funding_ops key.now other.now) result }
{
    if other.cmp(key) == Ordering::Less {
        two_of_two(alloc, other, key)
    } else {
        two_of_two(alloc, key, other)
    }
}

/// A to_local output's script (BOLT 3): the revocation key, or the delayed key after `delay_blocks` blocks. The only refusal is that memory ran out.
pub(crate) fn to_local(
    alloc: Global,
    revocation: &[u8; 33],
    delay_blocks: u16,
    delayed: &[u8; 33],
) -> Result<ByteString, Refusal>
    ensures { IsWritten (to_local_ops revocation.now delay_blocks delayed.now) result }
{
    let delay = number_push(alloc, u32::from(delay_blocks))?;
    joined(
        alloc,
        &[
            &[IF, PUSH_KEY],
            revocation,
            &[ELSE],
            delay.bytes(),
            &[CHECKSEQUENCEVERIFY, DROP, PUSH_KEY],
            delayed,
            &[ENDIF, CHECKSIG],
        ],
    )
}

/// The script that P2WPKH of a key stands for (BIP 141). The only refusal is that memory ran out.
pub(crate) fn key_hash(alloc: Global, key: &[u8; 33]) -> Result<ByteString, Refusal>
    ensures { IsWritten (key_hash_ops (hash160_of key.now)) result }
{
    let hash = hash160(key);
    joined(
        alloc,
        &[&[DUP, HASH160, PUSH_HASH], &hash, &[EQUALVERIFY, CHECKSIG]],
    )
}

/// The script of an HTLC that the commitment's owner offered (BOLT 3, "Offered HTLC Outputs"). The only refusal is that memory ran out.
pub(crate) fn offered(
    alloc: Global,
    revocation: &[u8; 33],
    remote: &[u8; 33],
    local: &[u8; 33],
    payment_hash: &[u8; 32],
) -> Result<ByteString, Refusal>
    ensures { IsWritten (offered_ops (hash160_of revocation.now) remote.now local.now (ripemd160_of payment_hash.now)) result }
{
    let hash = hash160(revocation);
    let payment = ripemd160(payment_hash);
    joined(
        alloc,
        &[
            &[DUP, HASH160, PUSH_HASH],
            &hash,
            &[EQUAL, IF, CHECKSIG, ELSE, PUSH_KEY],
            remote,
            &[
                SWAP, SIZE, 1, 32, EQUAL, NOTIF, DROP, NUMBER_2, SWAP, PUSH_KEY,
            ],
            local,
            &[NUMBER_2, CHECKMULTISIG, ELSE, HASH160, PUSH_HASH],
            &payment,
            &[EQUALVERIFY, CHECKSIG, ENDIF, ENDIF],
        ],
    )
}

/// The script of an HTLC that the commitment's owner offered in a channel with anchors (BOLT 3, "Offered HTLC Outputs", `option_anchors`). The only refusal is that memory ran out.
pub(crate) fn offered_with_anchors(
    alloc: Global,
    revocation: &[u8; 33],
    remote: &[u8; 33],
    local: &[u8; 33],
    payment_hash: &[u8; 32],
) -> Result<ByteString, Refusal>
    ensures { IsWritten (offered_with_anchors_ops (hash160_of revocation.now) remote.now local.now (ripemd160_of payment_hash.now)) result }
{
    let hash = hash160(revocation);
    let payment = ripemd160(payment_hash);
    joined(
        alloc,
        &[
            &[DUP, HASH160, PUSH_HASH],
            &hash,
            &[EQUAL, IF, CHECKSIG, ELSE, PUSH_KEY],
            remote,
            &[
                SWAP, SIZE, 1, 32, EQUAL, NOTIF, DROP, NUMBER_2, SWAP, PUSH_KEY,
            ],
            local,
            &[NUMBER_2, CHECKMULTISIG, ELSE, HASH160, PUSH_HASH],
            &payment,
            &[
                EQUALVERIFY,
                CHECKSIG,
                ENDIF,
                NUMBER_1,
                CHECKSEQUENCEVERIFY,
                DROP,
                ENDIF,
            ],
        ],
    )
}

/// The script of an HTLC that the commitment's owner received (BOLT 3, "Received HTLC Outputs"). The only refusal is that memory ran out.
pub(crate) fn received(
    alloc: Global,
    revocation: &[u8; 33],
    remote: &[u8; 33],
    local: &[u8; 33],
    payment_hash: &[u8; 32],
    expiry_height: u32,
) -> Result<ByteString, Refusal>
    ensures { IsWritten (received_ops (hash160_of revocation.now) remote.now local.now (ripemd160_of payment_hash.now) expiry_height) result }
{
    let hash = hash160(revocation);
    let payment = ripemd160(payment_hash);
    let expiry = number_push(alloc, expiry_height)?;
    joined(
        alloc,
        &[
            &[DUP, HASH160, PUSH_HASH],
            &hash,
            &[EQUAL, IF, CHECKSIG, ELSE, PUSH_KEY],
            remote,
            &[SWAP, SIZE, 1, 32, EQUAL, IF, HASH160, PUSH_HASH],
            &payment,
            &[EQUALVERIFY, NUMBER_2, SWAP, PUSH_KEY],
            local,
            &[NUMBER_2, CHECKMULTISIG, ELSE, DROP],
            expiry.bytes(),
            &[CHECKLOCKTIMEVERIFY, DROP, CHECKSIG, ENDIF, ENDIF],
        ],
    )
}

/// The script of an HTLC that the commitment's owner received in a channel with anchors (BOLT 3, "Received HTLC Outputs", `option_anchors`). The only refusal is that memory ran out.
pub(crate) fn received_with_anchors(
    alloc: Global,
    revocation: &[u8; 33],
    remote: &[u8; 33],
    local: &[u8; 33],
    payment_hash: &[u8; 32],
    expiry_height: u32,
) -> Result<ByteString, Refusal>
    ensures { IsWritten (received_with_anchors_ops (hash160_of revocation.now) remote.now local.now (ripemd160_of payment_hash.now) expiry_height) result }
{
    let hash = hash160(revocation);
    let payment = ripemd160(payment_hash);
    let expiry = number_push(alloc, expiry_height)?;
    joined(
        alloc,
        &[
            &[DUP, HASH160, PUSH_HASH],
            &hash,
            &[EQUAL, IF, CHECKSIG, ELSE, PUSH_KEY],
            remote,
            &[SWAP, SIZE, 1, 32, EQUAL, IF, HASH160, PUSH_HASH],
            &payment,
            &[EQUALVERIFY, NUMBER_2, SWAP, PUSH_KEY],
            local,
            &[NUMBER_2, CHECKMULTISIG, ELSE, DROP],
            expiry.bytes(),
            &[
                CHECKLOCKTIMEVERIFY,
                DROP,
                CHECKSIG,
                ENDIF,
                NUMBER_1,
                CHECKSEQUENCEVERIFY,
                DROP,
                ENDIF,
            ],
        ],
    )
}
