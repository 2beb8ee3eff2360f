// Worlds that begin.

use crate::worlds::{begin, begun};
use chain::Coins;
use std::alloc::Global;
use std::process::Abort;
use terms::Side;
use world::World;
use world::errors::WorldError;

// Whether each side has this number of channels, each with a grant of the chain that nobody spent.
fn has_channels(rt: &impl Abort, world: &World, channels: u64) -> bool {
    let unspent = world.chain().unspent().expect(rt, "memory");
    world.book(Side::A).channel_count() == channels
        && world.book(Side::B).channel_count() == channels
        && world.chain().height() == 0
        && unspent.count == channels
        && unspent.value == 800_000
}

#[test]
fn begins_with_8_channels_at_most(rt: HostRuntime) {
    assert!(rt; has_channels(&rt, &begun(&rt, rt.alloc(), 8), 8));
}

// Why a world does not begin in which the sides cannot agree.
fn refusal(rt: &impl Abort, alloc: Global, channels: usize) -> Option<WorldError> {
    begin(rt, alloc, channels, 20_000_001).err()
}

#[test]
fn begins_on_terms_that_can_be_agreed_on(rt: HostRuntime) {
    assert!(rt; matches!(refusal(&rt, rt.alloc(), 9), Some(WorldError::OverLimit)));
    assert!(rt; matches!(refusal(&rt, rt.alloc(), 2), Some(WorldError::BadTerms(0))));
}
