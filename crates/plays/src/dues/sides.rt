// The two sides of the channel: their keys and secrets, and what each side learnt.

use digest::sha256;
use keys::{Key, Signer, point};
use secrets::from_seed;
use std::alloc::Global;
use terms::{Party, Side};

/// The number of commitments of each side.
const COMMITMENTS: u64 = 4;

/// The seed of a side's signer: SHA-256 of `channel`, 32 bytes of 0a or 0b, and the channel's number in four bytes.
fn seed_of(side: Side) -> [u8; 32] {
    let byte = match side {
        Side::A => 0x0a,
        Side::B => 0x0b,
    };
    let mut message = [byte; 43];
    message[..7].copy_from_slice(b"channel");
    message[39..].copy_from_slice(&[0; 4]);
    sha256(&message)
}

/// A side's signer, which has learnt nothing.
fn signer_of(alloc: Global, side: Side) -> Signer {
    Signer::new(alloc, &seed_of(side))
}

/// The per-commitment secret of a side's commitment. Its index is 2^48 - 1 minus the number (BOLT 3): the low 48 bits of the number's complement.
pub fn secret_of(alloc: Global, side: Side, number: u64) -> [u8; 32] {
    from_seed(&signer_of(alloc, side).commitment_seed(), !number)
}

/// The per-commitment point of a side's commitment.
pub fn point_of(alloc: Global, side: Side, number: u64) -> Key {
    point(&secret_of(alloc, side, number))
}

/// Teaches a signer the points of a side's commitments. Returns whether there was memory.
fn learn_points(alloc: Global, side: Side, signer: &mut Signer) -> bool {
    for number in 0..COMMITMENTS {
        if signer.learn_point(&point_of(alloc, side, number)).is_err() {
            return false;
        }
    }
    true
}

/// Teaches a signer the secrets of a side's first commitments. Returns whether there was memory.
fn learn_secrets(alloc: Global, side: Side, revoked: u64, signer: &mut Signer) -> bool {
    for number in 0..revoked {
        if signer
            .learn_secret(&secret_of(alloc, side, number))
            .is_err()
        {
            return false;
        }
    }
    true
}

/// Teaches a side's signer the points of both sides, and the secrets of the first `revoked` commitments that the peer revoked. Returns whether there was memory.
fn inform(alloc: Global, side: Side, revoked: u64, signer: &mut Signer) -> bool {
    learn_points(alloc, Side::A, signer)
        && learn_points(alloc, Side::B, signer)
        && learn_secrets(alloc, side.other(), revoked, signer)
}

/// A side's signer that has learnt the points of both sides, and the secrets of the first `revoked` commitments that the peer revoked.
pub fn informed_signer(alloc: Global, side: Side, revoked: u64) -> Option<Signer> {
    let mut signer = signer_of(alloc, side);
    if inform(alloc, side, revoked, &mut signer) {
        Some(signer)
    } else {
        None
    }
}

/// What a side brings to the terms: the millisatoshis that it begins with, and the delay of its to_local outputs, in blocks.
pub fn party(alloc: Global, side: Side, start_msat: u64, delay_blocks: u16) -> Party {
    Party {
        delay_blocks,
        ..parties::party(&signer_of(alloc, side), start_msat)
    }
}
