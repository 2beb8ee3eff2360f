//! The signers of the channels: a side has one for each channel, with a seed of its own.

ghost use Rattle.std.specs.Prelude.{◌≡◌};
ghost use Rattle.book.specs.Seeds.{bases_of};
ghost use Rattle.world.specs.Opening.{channel_seed as seed_for};

use keys::Signer;
use sha2::{Digest, Sha256};
use std::alloc::Global;
use terms::BaseKeys;

/// The seed of a side's signer in a channel: SHA-256 of the ASCII bytes `channel`,
/// the side's seed, and the channel's index in four bytes, little-endian.
#[tactic(auto, unfolding(crate::specs::Opening::channel_seed, tx::specs::Spelling::number))]
pub(crate) fn channel_seed(seed: &[u8; 32], channel: u32) -> [u8; 32]
    ensures { result ≡ seed_for seed.now channel }
{
    let mut hasher = Sha256::new();
    hasher.update(b"channel");
    hasher.update(seed);
    hasher.update(&channel.to_le_bytes());
    hasher.finalize()
}

/// The base keys of a side in a channel, which derive from the side's seed. Does not allocate.
pub(crate) fn bases_in(alloc: Global, seed: &[u8; 32], channel: u32) -> BaseKeys
    ensures { result ≡ bases_of (seed_for seed.now channel) }
{
    let signer = Signer::new(alloc, &channel_seed(seed, channel));
    BaseKeys::of(&signer)
}
