//! A watch that reads a block.

use crate::fixtures::known;
use chain::{Block, Coins, Index};
use resolve::Known;
use std::alloc::{AllocError, Global};
use std::process::Abort;
use watch::Watch;

/// The example of the page of `watch`.
fn count(
    alloc: Global,
    watch: &mut Watch,
    height: u64,
    block: &Block,
    known: &Known,
) -> Result<usize, AllocError> {
    Ok(watch.look(alloc, height, block, known)?.claims.len())
}

// Whether a watch reads a block by what A knows, which makes nothing due.
fn reads(rt: &impl Abort, alloc: Global, watch: &mut Watch, block: &Block) -> bool {
    let known = known(rt, alloc);
    let counted = count(alloc, watch, 0, block, &known);
    drop(known);
    counted == Ok(0)
}

// Whether a watch reads a block without a spend, and can be copied then.
fn copies(rt: &impl Abort, alloc: Global, watch: &mut Watch, block: &Block) -> bool {
    reads(rt, alloc, watch, block) && !watch.has_spends() && watch.copy().err().is_none()
}

// Nothing is due by a block without transactions.
#[test]
fn copies_what_it_read(rt: HostRuntime) {
    let chain = Index::new(rt.alloc()).expect(&rt, "memory");
    let mut watch = Watch::new(rt.alloc());
    assert!(rt; copies(&rt, rt.alloc(), &mut watch, &chain.blocks()[0]));
}
