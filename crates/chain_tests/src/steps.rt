//! Steps that are run on a chain, each with the chain's answer.

use crate::fixtures::{KEY, TRUE_PROGRAM, output, push_item, transaction};
use chain::{BlockError, ChainError, Coins};
use sighash::{Token, digest_of};
use std::alloc::Global;
use std::process::Abort;
use tx::{OutPoint, Tx, Witness, txid};

// An output, by the grant or the transaction that made it, both counted from 0 in the order of the steps, and its index.
#[derive(Clone, Copy)]
pub(crate) enum Source {
    Granted(usize),
    Made(usize, u32),
}

// A step, and its answer. Transactions are named by their position among those that were made.
#[derive(Clone, Copy)]
pub(crate) enum Step {
    // Grants this number of satoshis to TRUE_PROGRAM.
    Grant(u64),
    // Grants this number of satoshis to this script.
    GrantTo(u64, &'static [u8]),
    // A grant to this script, which is not a witness program and is refused.
    RefuseGrant(&'static [u8]),
    // Makes a transaction: its version, the sources and sequences of its inputs, its outputs to TRUE_PROGRAM in satoshis, and its lock time.
    // Each witness is TRUE.
    Make(u32, &'static [(Source, u32)], &'static [u64], u32),
    // Sets the witness of a transaction's first input to these items.
    Witness(usize, &'static [&'static [u8]]),
    // Signs the first input of a transaction with KEY, for this script and the value in satoshis that it spends. The witness is the token and
    // these items.
    Sign(usize, &'static [u8], u64, &'static [&'static [u8]]),
    // Adds empty blocks up to a height.
    Raise(u64),
    // Connects a block of these transactions, which gets this height.
    Connect(&'static [usize], u64),
    // A block of these transactions is refused: the one at fault, and why.
    Refuse(&'static [usize], usize, ChainError),
    // The check of a transaction's input for the next block gives this result.
    Check(usize, usize, Result<(), ChainError>),
    // Takes this number of blocks off, which hold these transactions.
    Disconnect(u64, &'static [usize]),
    // This number of blocks cannot be taken off.
    Deep(u64),
    // The number of unspent outputs, their value, and the fees of the chain.
    Hold(u64, u128, u128),
}

// What the steps made so far.
#[derive(Drop)]
pub(crate) struct Cast {
    alloc: Global,
    granted: Vec<OutPoint>,
    made: Vec<Tx>,
}

impl Cast {
    pub(crate) fn new(alloc: Global) -> Self {
        Cast {
            alloc,
            granted: Vec::new(alloc),
            made: Vec::new(alloc),
        }
    }

    pub(crate) fn made(&self, rt: &impl Abort, place: usize) -> &Tx {
        self.made.get(place).expect(rt, "a transaction")
    }

    fn outpoint(&self, rt: &impl Abort, source: Source) -> OutPoint {
        match source {
            Source::Granted(place) => *self.granted.get(place).expect(rt, "a grant"),
            Source::Made(place, index) => {
                let txid = txid(self.made(rt, place));
                OutPoint { txid, index }
            }
        }
    }

    fn make(
        &mut self,
        rt: &impl Abort,
        version: u32,
        from: &[(Source, u32)],
        to: &[u64],
        lock_time: u32,
    ) {
        let mut named = Vec::new(self.alloc);
        for (source, sequence) in from {
            let outpoint = self.outpoint(rt, *source);
            named.push((outpoint, *sequence)).expect(rt, "memory");
        }
        let tx = transaction(rt, self.alloc, version, &named, to, lock_time);
        self.made.push(tx).expect(rt, "memory");
    }

    // Sets the witness of a transaction's first input to these items, the first ones before the others.
    fn give(&mut self, rt: &impl Abort, place: usize, first: &[&[u8]], items: &[&[u8]]) {
        let mut witness = Witness::new(self.alloc);
        for item in first {
            push_item(rt, self.alloc, &mut witness, item);
        }
        for item in items {
            push_item(rt, self.alloc, &mut witness, item);
        }
        let tx = self.made.get_mut(place).expect(rt, "a transaction");
        assert!(rt; !tx.inputs().is_empty());
        tx.set_witness(0, witness);
    }

    fn sign(&mut self, rt: &impl Abort, place: usize, script: &[u8], value: u64, items: &[&[u8]]) {
        let digest = digest_of(self.made(rt, place), 0, script, value).expect(rt, "an input");
        let token = Token::new(&KEY, &digest);
        self.give(rt, place, &[token.bytes()], items);
    }

    // A block of these transactions.
    pub(crate) fn block(&self, rt: &impl Abort, places: &[usize]) -> Vec<Tx> {
        let mut txs = Vec::new(self.alloc);
        for place in places {
            let tx = self.made(rt, *place).copy().expect(rt, "memory");
            txs.push(tx).expect(rt, "memory");
        }
        txs
    }
}

fn grant<C: Coins>(rt: &impl Abort, cast: &mut Cast, chain: &mut C, value: u64, script: &[u8]) {
    let granted = chain.grant(output(rt, cast.alloc, value, script));
    let outpoint = granted.expect(rt, "a grant");
    cast.granted.push(outpoint).expect(rt, "memory");
}

// Adds empty blocks up to a height.
fn raise<C: Coins>(rt: &impl Abort, alloc: Global, chain: &mut C, height: u64) {
    for _ in chain.height()..height {
        chain.connect(Vec::new(alloc)).expect(rt, "a block");
    }
}

// What a chain shows of itself: its height, its unspent outputs and their value, and its fees.
fn summary_of<C: Coins>(rt: &impl Abort, chain: &C) -> (u64, u64, u128, u128) {
    let unspent = chain.unspent().expect(rt, "memory");
    let fees = chain.fees().expect(rt, "memory");
    (chain.height(), unspent.count, unspent.value, fees)
}

// Connects a block. Where memory runs out, the chain has to be as before, and the call is made once more.
fn connect<C: Coins>(
    rt: &impl Abort,
    cast: &Cast,
    chain: &mut C,
    places: &[usize],
) -> Result<u64, BlockError> {
    let before = summary_of(rt, chain);
    let answer = chain.connect(cast.block(rt, places));
    if !is_out_of_memory(&answer) {
        return answer;
    }
    assert!(rt; summary_of(rt, chain) == before);
    chain.connect(cast.block(rt, places))
}

fn is_out_of_memory(answer: &Result<u64, BlockError>) -> bool {
    match answer {
        Ok(_) => false,
        Err(error) => error.refusal == ChainError::NoMemory,
    }
}

// Takes blocks off. Where memory runs out, the chain has to be as before, and the call is made once more.
fn disconnect<C: Coins>(rt: &impl Abort, chain: &mut C, k: u64) -> Result<Vec<Tx>, ChainError> {
    let before = summary_of(rt, chain);
    let answer = chain.disconnect(k);
    if !matches!(&answer, Err(ChainError::NoMemory)) {
        return answer;
    }
    assert!(rt; summary_of(rt, chain) == before);
    chain.disconnect(k)
}

// Whether these are the transactions of a cast, in this order.
fn are_made(rt: &impl Abort, cast: &Cast, txs: &[Tx], places: &[usize]) -> bool {
    for (tx, place) in txs.iter().zip(places) {
        if txid(tx) != txid(cast.made(rt, *place)) {
            return false;
        }
    }
    txs.len() == places.len()
}

// Whether this number of blocks is taken off, which hold these transactions; `None` where there are too few blocks.
fn is_off<C: Coins>(
    rt: &impl Abort,
    cast: &Cast,
    chain: &mut C,
    k: u64,
    wanted: Option<&[usize]>,
) -> bool {
    match disconnect(rt, chain, k) {
        Ok(txs) => match wanted {
            Some(places) => are_made(rt, cast, &txs, places),
            None => false,
        },
        Err(refusal) => wanted.is_none() && refusal == ChainError::TooDeep,
    }
}

// Plays a step.
fn play<C: Coins>(rt: &impl Abort, cast: &mut Cast, chain: &mut C, step: &Step) {
    match *step {
        Step::Grant(value) => grant(rt, cast, chain, value, &TRUE_PROGRAM),
        Step::GrantTo(value, script) => grant(rt, cast, chain, value, script),
        Step::Make(version, from, to, lock_time) => cast.make(rt, version, from, to, lock_time),
        Step::Witness(place, items) => cast.give(rt, place, &[], items),
        Step::Sign(place, script, value, items) => cast.sign(rt, place, script, value, items),
        Step::Raise(height) => raise(rt, cast.alloc, chain, height),
        _ => assert!(rt; is_answered(rt, cast, chain, step)),
    }
}

// Whether a chain answers a step so.
fn is_answered<C: Coins>(rt: &impl Abort, cast: &Cast, chain: &mut C, step: &Step) -> bool {
    match *step {
        Step::RefuseGrant(script) => {
            chain.grant(output(rt, cast.alloc, 1, script)) == Err(ChainError::BadProgram)
        }
        Step::Connect(places, height) => connect(rt, cast, chain, places) == Ok(height),
        Step::Refuse(places, index, refusal) => {
            connect(rt, cast, chain, places) == Err(BlockError { index, refusal })
        }
        Step::Check(place, index, wanted) => {
            chain.check_input(cast.made(rt, place), index) == wanted
        }
        Step::Disconnect(k, places) => is_off(rt, cast, chain, k, Some(places)),
        Step::Deep(k) => is_off(rt, cast, chain, k, None),
        Step::Hold(count, value, fees) => {
            summary_of(rt, chain) == (chain.height(), count, value, fees)
        }
        _ => false,
    }
}

pub(crate) fn play_with<C: Coins>(rt: &impl Abort, cast: &mut Cast, chain: &mut C, steps: &[Step]) {
    for step in steps {
        play(rt, cast, chain, step);
    }
}

pub(crate) fn play_all<C: Coins>(rt: &impl Abort, alloc: Global, chain: &mut C, steps: &[Step]) {
    play_with(rt, &mut Cast::new(alloc), chain, steps);
}
