//! Sights of the blocks of a close.

use crate::lookouts::{PREIMAGE, close, funded};
use chain::{Block, Coins, Index};
use resolve::Known;
use sights::{Sights, Told};
use std::alloc::{AllocError, Global};
use std::process::Abort;

/// The example of the page of `sights`.
fn count_due(
    alloc: Global,
    sights: &mut Sights,
    height: u32,
    block: &Block,
    known: &Known,
) -> Result<usize, AllocError> {
    sights.block(height, block)?;
    Ok(sights.told(alloc, known)?.len())
}

// Whether this many claims are told after each block in turn.
fn counts(
    alloc: Global,
    sights: &mut Sights,
    blocks: &[Block],
    known: &Known,
    told: &[usize],
) -> bool {
    let mut height = 0u32;
    for (block, told) in blocks.iter().zip(told) {
        if count_due(alloc, sights, height, block, known) != Ok(*told) {
            return false;
        }
        height = height.saturating_add(1);
    }
    true
}

// Whether an output that the block of height 1 made stands, and can be taken at once, and by somebody else from this height on.
fn stands(told: &Told, deadline: Option<u64>) -> bool {
    told.made_height == Some(1)
        && !told.is_taken
        && told.least_height == Some(1)
        && told.deadline == deadline
}

// Whether both outputs that are due stand: that of the HTLC, which its owner takes back above its expiry, and to_remote.
fn both_stand(rt: &impl Abort, alloc: Global, sights: &Sights, known: &Known) -> bool {
    let told = sights.told(alloc, known).expect(rt, "memory");
    match told.as_slice() {
        [htlc, to_remote] => stands(htlc, Some(501)) && stands(to_remote, None),
        _ => false,
    }
}

// Whether nothing is told.
fn none_stands(rt: &impl Abort, alloc: Global, sights: &Sights, known: &Known) -> bool {
    let told = sights.told(alloc, known).expect(rt, "memory");
    told.is_empty() && sights.sighted().is_empty()
}

// to_remote is told after the close, and the HTLC's output too once its preimage is known. Nothing is told once the close is taken off.
#[test]
fn tells_what_is_due(rt: HostRuntime) {
    let mut chain = Index::new(rt.alloc()).expect(&rt, "memory");
    let mut known = funded(&rt, rt.alloc(), &mut chain);
    close(&rt, rt.alloc(), &mut chain, &known);
    let mut sights = Sights::new(rt.alloc()).expect(&rt, "memory");
    let opened = sights.open(known.terms.funding).is_ok();
    let counted = counts(rt.alloc(), &mut sights, chain.blocks(), &known, &[0, 1, 1]);
    let learnt = known.preimages.extend(&[PREIMAGE]).is_ok();
    let told = both_stand(&rt, rt.alloc(), &sights, &known);
    sights.disconnect(0);
    let gone = none_stands(&rt, rt.alloc(), &sights, &known);
    drop(known);
    assert!(rt; opened && counted && learnt && told && gone);
}
