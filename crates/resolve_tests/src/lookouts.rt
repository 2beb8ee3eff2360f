//! A lookout over the blocks of a close.

use crate::fixtures::{commitment_to, known_with, terms_on};
use chain::{Block, Coins, Index};
use digest::sha256;
use lists::ByteString;
use parties::view;
use resolve::{Known, KnownCommitment};
use sighash::programs::script_hash_program;
use std::alloc::Global;
use std::process::Abort;
use terms::{Htlc, Side, Terms};
use tx::{Tx, TxOut, Witness};
use watch::{Lookout, Watch};

// The script of the funding output, which anyone can spend: the opcode 1.
const SCRIPT: [u8; 1] = [0x51];

// The preimage of the HTLC.
pub(crate) const PREIMAGE: [u8; 32] = [3; 32];

// The funding output.
fn funding_output(rt: &impl Abort, alloc: Global) -> TxOut {
    let program = script_hash_program(alloc, &SCRIPT).expect(rt, "memory");
    TxOut::new(100_000, program).expect(rt, "an output")
}

// B's newest commitment, with an HTLC that B offered.
fn theirs(rt: &impl Abort, alloc: Global, terms: &Terms) -> KnownCommitment {
    let htlc = Htlc {
        id: 0,
        amount_msat: 10_000_000,
        hash: sha256(&PREIMAGE),
        expiry_height: 500,
    };
    let view = view(alloc, [80_000_000, 10_000_000], &[], &[htlc]).expect(rt, "memory");
    commitment_to(rt, alloc, terms, &view, Side::B, 2)
}

// What A knows of a channel whose funding output the chain creates by a grant.
pub(crate) fn funded(rt: &impl Abort, alloc: Global, chain: &mut Index) -> Known {
    let granted = chain.grant(funding_output(rt, alloc));
    let terms = terms_on(rt, granted.expect(rt, "a grant"));
    known_with(rt, alloc, &terms, theirs(rt, alloc, &terms))
}

// The witness that spends the funding output.
fn witness(rt: &impl Abort, alloc: Global) -> Witness {
    let mut witness = Witness::new(alloc);
    let script = ByteString::from_slice(alloc, &SCRIPT).expect(rt, "memory");
    witness.push(script).expect(rt, "an item");
    witness
}

// B's newest commitment as the chain takes it.
fn closing_tx(rt: &impl Abort, alloc: Global, known: &Known) -> Tx {
    let mut tx = known.theirs.commitment().tx().copy().expect(rt, "memory");
    assert!(rt; !tx.inputs().is_empty());
    tx.set_witness(0, witness(rt, alloc));
    tx
}

// The block after the first closes the channel, and the next one, which is the last, is empty.
pub(crate) fn close(rt: &impl Abort, alloc: Global, chain: &mut Index, known: &Known) {
    let mut txs = Vec::new(alloc);
    txs.push(closing_tx(rt, alloc, known)).expect(rt, "memory");
    let closed = chain.connect(txs).is_ok();
    let followed = chain.connect(Vec::new(alloc)).is_ok();
    assert!(rt; closed && followed && chain.blocks().len() == 3);
}

// What is done with the lookout, and what it answers.
#[derive(Clone, Copy)]
enum Row {
    // The number of claims that it gives at a height for the block of an index.
    Look(u64, usize, usize),
    // The number of claims that are due, whatever was given.
    Due(usize),
    // It learns a preimage.
    Learn([u8; 32]),
    // The number of preimages that it knows.
    Knows(usize),
    // The blocks above a height are taken off.
    Back(u64),
}

// to_remote is due at the close, and the HTLC once its preimage is known. Each is given once, and due from then on. Both are given again after the close is taken off and mined again.
const ROWS: [Row; 16] = [
    Row::Look(0, 0, 0),
    Row::Due(0),
    Row::Look(1, 1, 1),
    Row::Look(2, 2, 0),
    Row::Due(1),
    Row::Learn([4; 32]),
    Row::Look(3, 2, 0),
    Row::Learn(PREIMAGE),
    Row::Due(2),
    Row::Look(4, 2, 1),
    Row::Look(5, 2, 0),
    Row::Due(2),
    Row::Knows(2),
    Row::Back(0),
    Row::Due(0),
    Row::Look(1, 1, 2),
];

// Whether a block gives this number of claims, and shows no preimage.
fn gives(
    rt: &impl Abort,
    alloc: Global,
    lookout: &mut Lookout,
    height: u64,
    block: &Block,
    claims: usize,
) -> bool {
    let sight = lookout.look(alloc, height, block).expect(rt, "memory");
    sight.learnt.is_empty() && sight.claims.len() == claims
}

// Whether the lookout answers as the row says.
fn answers(
    rt: &impl Abort,
    alloc: Global,
    blocks: &[Block],
    lookout: &mut Lookout,
    row: &Row,
) -> bool {
    match *row {
        Row::Look(height, index, claims) => {
            let block = blocks.get(index).expect(rt, "a block");
            gives(rt, alloc, lookout, height, block, claims)
        }
        Row::Due(claims) => lookout.due(alloc).expect(rt, "memory").len() == claims,
        Row::Learn(preimage) => lookout.learn(&[preimage]).is_ok(),
        Row::Knows(preimages) => lookout.known().preimages.values().len() == preimages,
        Row::Back(height) => {
            lookout.back(height);
            true
        }
    }
}

// Plays the rows on the blocks of the close.
fn play(rt: &impl Abort, alloc: Global, blocks: &[Block], lookout: &mut Lookout) {
    for (index, row) in ROWS.iter().enumerate() {
        assert!(rt; answers(rt, alloc, blocks, lookout, row), "row {index}");
    }
}

// The watch that is left by a lookout over the close.
fn watched(rt: &impl Abort, alloc: Global, chain: &mut Index) -> Watch {
    let known = funded(rt, alloc, chain);
    close(rt, alloc, chain, &known);
    let known = Box::new(alloc, known).ok().expect(rt, "memory");
    let mut lookout = Lookout::new(Watch::new(alloc), known);
    play(rt, alloc, chain.blocks(), &mut lookout);
    lookout.into_watch()
}

#[test]
fn gives_what_falls_due(rt: HostRuntime) {
    let mut chain = Index::new(rt.alloc()).expect(&rt, "memory");
    let watch = watched(&rt, rt.alloc(), &mut chain);
    assert!(rt; watch.copy().err().is_none());
}
