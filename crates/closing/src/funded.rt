// An output of each form on a chain.

use crate::cases::Claimed;
use crate::parties::Parties;
use chain::{Chain, Coins};
use digest::sha256;
use forms::{Expiry, funding, key_hash, offered, received, to_local};
use keys::Base;
use lists::ByteString;
use paths::Checked;
use sighash::programs::{key_hash_program, script_hash_program};
use std::alloc::{AllocError, Global};
use tx::{OutPoint, TxOut};

/// The value of the output, in satoshis.
pub const VALUE: u64 = 100_000;

/// The preimage of the HTLCs, their expiry (a height), and the delay of
/// to_local in blocks.
pub const PREIMAGE: [u8; 32] = [5; 32];

pub const EXPIRY_HEIGHT: u32 = 500;

const DELAY_BLOCKS: u16 = 144;

/// The script of the claimed output.
pub fn script_of(
    alloc: Global,
    parties: &Parties,
    claimed: Claimed,
) -> Result<Checked, AllocError> {
    let (patterns, keys) = (&parties.patterns, parties.htlc_keys());
    let Some(expiry) = Expiry::new(EXPIRY_HEIGHT) else {
        return Err(AllocError);
    };
    match claimed {
        Claimed::Penalty | Claimed::Delayed => {
            to_local(
                alloc,
                patterns,
                &keys.revocation,
                DELAY_BLOCKS,
                &parties.delayed(),
            )
        }
        Claimed::OfferedPenalty | Claimed::DirectPreimage | Claimed::HtlcTimeout => {
            offered(alloc, patterns, &keys, &sha256(&PREIMAGE))
        }
        Claimed::ReceivedPenalty | Claimed::DirectTimeout | Claimed::HtlcSuccess => {
            received(alloc, patterns, &keys, &sha256(&PREIMAGE), expiry)
        }
        Claimed::KeyHash => key_hash(alloc, patterns, &parties.payment()),
        Claimed::Funding => {
            let own = parties.owner.base(Base::Funding);
            funding(alloc, patterns, &own, &parties.peer.base(Base::Funding))
        }
    }
}

/// The program of the claimed output (BIP
/// 141): that of the key, or of the script.
pub fn program_of(
    alloc: Global,
    parties: &Parties,
    claimed: Claimed,
    script: &[u8],
) -> Result<ByteString, AllocError> {
    match claimed {
        Claimed::KeyHash => key_hash_program(alloc, &parties.payment().bytes),
        _ => script_hash_program(alloc, script),
    }
}

/// Grants an output to a program on a chain.
pub fn grant(chain: &mut Chain, program: ByteString) -> Option<OutPoint> {
    chain.grant(TxOut::new(VALUE, program).ok()?).ok()
}
