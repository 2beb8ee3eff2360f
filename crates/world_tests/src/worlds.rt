// Worlds of equal channels between the sides with the seeds 0a..0a and 0b..0b.

use scenario::Seeds;
use std::alloc::Global;
use std::process::Abort;
use terms::{ProposedParty, ProposedTerms, Side};
use world::World;
use world::errors::WorldError;

pub(crate) const SEEDS: Seeds = Seeds {
    a: [0x0a; 32],
    b: [0x0b; 32],
};

fn party(start_msat: u64) -> ProposedParty {
    ProposedParty {
        dust_sat: 546,
        delay_blocks: 144,
        minimum_msat: 1000,
        start_msat,
    }
}

// Terms of 100,000 satoshis, with the millisatoshis that the two sides begin with.
pub(crate) fn terms(a: u64, b: u64) -> ProposedTerms {
    ProposedTerms {
        capacity_sat: 100_000,
        opener: Side::A,
        feerate_per_kw: 1000,
        a: party(a),
        b: party(b),
    }
}

// A world of `channels` equal channels, in which B begins with
// `start_msat` millisatoshis. The sides can agree if these are 20,000,000.
pub(crate) fn begin(
    rt: &impl Abort,
    alloc: Global,
    channels: usize,
    start_msat: u64,
) -> Result<World, WorldError> {
    let mut all = Vec::new(alloc);
    for _channel in 0..channels {
        all.push(terms(80_000_000, start_msat)).expect(rt, "memory");
    }
    World::new(alloc, &SEEDS, &all)
}

// A world whose sides can agree.
pub(crate) fn begun(rt: &impl Abort, alloc: Global, channels: usize) -> World {
    begin(rt, alloc, channels, 20_000_000).expect(rt, "a world")
}
