//! The claims of a side.

use crate::names::side_name;
use crate::scenarios::coins::Told;
use claim::{Claim, Shell, Slot};
use page::Piece::{Count, Hash, Text};
use page::{Page, Piece};
use side::DueClaim;
use sighash::programs::is_key_hash_program;
use terms::Side;
use world::World;

/// By what a claim spends its output.
pub(crate) fn way_of(claim: &Claim) -> &'static str {
    let path = claim.path();
    let wants_preimage = claim
        .slots()
        .iter()
        .any(|slot| matches!(slot, Slot::Preimage(_)));
    if path.age.is_some() {
        "delay"
    } else if wants_preimage {
        "preimage"
    } else if path.lock.is_some() || matches!(claim.shell(), Shell::Fixed(_)) {
        "timeout"
    } else if is_key_hash_program(claim.place().program.bytes()) {
        "key"
    } else {
        "revocation"
    }
}

/// Writes an element with a claim of a side in a channel, but for its end, and with the first block that can take it.
pub(crate) fn begin_claim(page: &mut Page, side: Side, channel: u64, claim: &Claim, due: Piece) {
    let place = claim.place();
    page.element(
        r#"{"side":"%","channel":%,"outpoint":"%:%","value":%,"by":"%","due":%"#,
        &[
            side_name(side),
            Count(channel),
            Hash(place.outpoint.txid),
            Count(u64::from(place.outpoint.index)),
            Count(place.value),
            Text(way_of(claim)),
            due,
        ],
    );
}

// Writes a claim of a side. It is due in the first block that can take it, if the claimed output is on the chain.
fn tell_claim(line: &mut Page, told: &Told, side: Side, due: &DueClaim) {
    let claim = &due.claim;
    let height = match told.coin(&claim.outpoint()) {
        Some(coin) => {
            let aged = coin.height.saturating_add(u64::from(claim.needs_age()));
            match claim.needs_height() {
                0 => Count(aged),
                lock => Count(aged.max(lock.saturating_add(1))),
            }
        }
        None => Text("null"),
    };
    begin_claim(line, side, due.channel, claim, height);
    line.push("}");
}

/// Writes the claims that a look gave.
pub fn tell_claims(line: &mut Page, told: &Told, world: &World, side: Side, count: u64) {
    let jobs = world.jobs(side);
    let before = (jobs.len() as u64).saturating_sub(count);
    line.push(r#","claims":["#);
    for index in before as usize..jobs.len() {
        if let Some(due) = jobs.get(index) {
            tell_claim(line, told, side, due);
        }
    }
    line.push("]");
}

/// Writes how many jobs a side has, and how many claims it took and did not release yet.
pub fn tell_jobs(line: &mut Page, world: &World, side: Side) {
    line.write(
        r#","jobs":{"side":"%","jobs":%,"taken":%}"#,
        &[
            side_name(side),
            Count(world.jobs(side).len() as u64),
            Count(world.taken(side).len() as u64),
        ],
    );
}
