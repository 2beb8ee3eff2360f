//! A reader that reads a block.

ghost use Rattle.std.specs.Prelude.{◌≡◌, length, IfOk};

use crate::fixtures::known;
use crate::lookouts::{PREIMAGE, close, funded};
use chain::{Block, Coins, Index};
use parties::FUNDING;
use resolve::{Known, KnownPreimages};
use side::{DueClaim, Reader};
use std::alloc::{AllocError, Global};
use std::collections::VecDeque;
use std::process::Abort;
use tx::OutPoint;
use watch::Watch;

// A reader of channels with these funding outputs, which has learnt one preimage before.
fn reader_of(alloc: Global, fundings: Vec<OutPoint>) -> Result<Reader, AllocError>
    ensures { IfOk result (λ r. length r.seen ≡ length fundings.items) }
{
    let mut watches = Vec::new(alloc);
    for _channel in 0..fundings.len() {
        watches.push(Watch::new(alloc))?;
    }
    let learnt = Vec::from_slice(alloc, &[[7; 32]])?;
    Reader::new(alloc, fundings, watches, learnt)
}

// The same of one channel.
fn reader_of_one(alloc: Global) -> Result<Reader, AllocError>
    ensures { IfOk result (λ r. length r.seen ≡ 1) }
{
    reader_of(alloc, Vec::from_slice(alloc, &[FUNDING])?)
}

// The number of channels that a reader of these asks for.
fn count_asked(rt: &impl Abort, alloc: Global, fundings: &[OutPoint], block: &Block) -> usize {
    let fundings = Vec::from_slice(alloc, fundings).expect(rt, "memory");
    let reader = reader_of(alloc, fundings).expect(rt, "memory");
    reader.to_ask(alloc, block).expect(rt, "memory").len()
}

// The numbers of watches, of preimages and of claims in the parts of a reader that has read a block by what A knows.
fn counts_of(rt: &impl Abort, alloc: Global, block: &Block) -> [usize; 3] {
    let mut reader = reader_of_one(alloc).expect(rt, "memory");
    reader.answer(0, known(rt, alloc)).expect(rt, "memory");
    let read = reader.read(alloc, 0, block).expect(rt, "memory");
    let parts = read.into_parts().expect(rt, "memory");
    [parts.watches.len(), parts.learnt.len(), parts.due.len()]
}

// Whether readers of one channel and of many ask for none, and one that is answered finds nothing due.
fn finds_nothing(rt: &impl Abort, alloc: Global, block: &Block) -> bool {
    count_asked(rt, alloc, &[FUNDING], block) == 0
        && count_asked(rt, alloc, &[FUNDING; 20], block) == 0
        && counts_of(rt, alloc, block) == [1, 1, 0]
}

// Nothing is asked for a channel whose funding output is unspent, be it one of few or of many, and a block without transactions makes nothing
// due.
#[test]
fn reads_a_block(rt: HostRuntime) {
    let chain = Index::new(rt.alloc()).expect(&rt, "memory");
    assert!(rt; finds_nothing(&rt, rt.alloc(), &chain.blocks()[0]));
}

// What falls due by a block for a reader that knows this of its one channel.
fn due_in(rt: &impl Abort, alloc: Global, block: &Block, known: Known) -> VecDeque<DueClaim> {
    let fundings = Vec::from_slice(alloc, &[known.terms.funding]).expect(rt, "memory");
    let mut reader = reader_of(alloc, fundings).expect(rt, "memory");
    assert!(rt; reader.to_ask(alloc, block).expect(rt, "memory").as_slice() == [0].as_slice());
    reader.answer(0, known).expect(rt, "memory");
    let read = reader.read(alloc, 1, block).expect(rt, "memory");
    read.into_parts().expect(rt, "memory").due
}

// What falls due at the close of a channel with these known preimages.
fn due_at_close(rt: &impl Abort, alloc: Global, preimages: &[[u8; 32]]) -> VecDeque<DueClaim> {
    let mut chain = Index::new(alloc).expect(rt, "memory");
    let mut known = funded(rt, alloc, &mut chain);
    close(rt, alloc, &mut chain, &known);
    let preimages = Vec::from_slice(alloc, preimages).expect(rt, "memory");
    known.preimages = KnownPreimages::from_vec(preimages);
    let block = chain.blocks().get(1).expect(rt, "a block");
    due_in(rt, alloc, block, known)
}

// The number of claims, and that of the claims that have this preimage alone.
fn counted(due: &VecDeque<DueClaim>) -> [usize; 2] {
    let with = due
        .iter()
        .filter(|due| due.preimages.values() == [PREIMAGE].as_slice());
    [due.len(), with.count()]
}

// to_remote falls due at the close, and the HTLC with its preimage, where that is known among others.
#[test]
fn finds_the_preimage_of_a_claim(rt: HostRuntime) {
    let without = due_at_close(&rt, rt.alloc(), &[[9; 32]]);
    let with = due_at_close(&rt, rt.alloc(), &[[9; 32], PREIMAGE, PREIMAGE]);
    assert!(rt; counted(&without) == [1, 0] && counted(&with) == [2, 1]);
}
