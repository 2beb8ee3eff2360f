//! Calls as values, and the example in the documentation of `chain`, on both ways to store a chain.

use crate::fixtures::{GRANTED, TRUE_PROGRAM, output, transaction};
use chain::{Answer, BlockError, Coins, Command, Index, Scan, replay_commands};
use std::alloc::Global;
use std::process::Abort;
use tx::{Tx, TxOut};

// A transaction that spends the first grant, into an output of 900 satoshis.
fn spend_of_grant(rt: &impl Abort, alloc: Global) -> Tx {
    transaction(rt, alloc, 2, &[(GRANTED[0], 0)], &[900], 0)
}

// A block of this one transaction.
fn block_of_grant(rt: &impl Abort, alloc: Global) -> Vec<Tx> {
    let tx = spend_of_grant(rt, alloc);
    vec![in alloc; tx].expect(rt, "memory")
}

// Each command once: it begins with a grant, and ends by taking off the block that spends it.
fn every_command(rt: &impl Abort, alloc: Global) -> Vec<Command> {
    let granted = output(rt, alloc, 1000, &TRUE_PROGRAM);
    let tx = spend_of_grant(rt, alloc);
    let txs = block_of_grant(rt, alloc);
    let commands = vec![in alloc;
        Command::Grant(granted),
        Command::CheckInput(tx, 0),
        Command::Connect(txs),
        Command::Unspent,
        Command::Height,
        Command::Fees,
        Command::Disconnect(1),
    ];
    commands.expect(rt, "memory")
}

// The answers of the commands between the first and the last one.
const ANSWERS: [&str; 5] = [
    "CheckInput(Ok(()))",
    "Connect(Ok(1))",
    "Unspent(Unspent { count: 1, value: 900 })",
    "Height(1)",
    "Fees(100)",
];

// Whether an answer is that the first grant was made.
fn is_first(answer: &Answer) -> bool {
    match answer {
        Answer::Grant(Ok(outpoint)) => *outpoint == GRANTED[0],
        _ => false,
    }
}

// Whether an answer is that a block with one transaction was taken off.
fn is_last(answer: &Answer) -> bool {
    match answer {
        Answer::Disconnect(Ok(txs)) => txs.len() == 1,
        _ => false,
    }
}

// Whether an answer is printed as this text.
fn is_shown(alloc: Global, answer: &Answer, text: &str) -> bool {
    match format!(in alloc; "{answer:?}") {
        Ok(printed) => printed.as_str() == text,
        Err(_) => false,
    }
}

// Makes each call on a new chain.
fn replay_on<C: Coins>(rt: &impl Abort, alloc: Global, chain: &mut C) {
    let commands = every_command(rt, alloc);
    let answers = replay_commands(alloc, chain, &commands).expect(rt, "memory");
    assert!(rt; answers.len() == 7);
    assert!(rt; is_first(&answers[0]));
    for (answer, text) in answers[1..6].iter().zip(&ANSWERS) {
        assert!(rt; is_shown(alloc, answer, text));
    }
    assert!(rt; is_last(&answers[6]));
}

#[test]
fn replays_every_command(rt: HostRuntime) {
    let alloc = rt.alloc();
    replay_on(&rt, alloc, &mut Scan::new(alloc).expect(&rt, "memory"));
    replay_on(&rt, alloc, &mut Index::new(alloc).expect(&rt, "memory"));
}

// The example in the documentation of `chain`.
fn spend<C: Coins>(chain: &mut C, output: TxOut, tx: Vec<Tx>) -> Result<u64, BlockError> {
    let _ = chain.grant(output);
    chain.connect(tx)
}

// Grants an output on a new chain, and spends it in the first block.
fn spend_on<C: Coins>(rt: &impl Abort, alloc: Global, chain: &mut C) {
    let output = output(rt, alloc, 1000, &TRUE_PROGRAM);
    let height = spend(chain, output, block_of_grant(rt, alloc));
    assert!(rt; height == Ok(1));
}

#[test]
fn spends_a_grant(rt: HostRuntime) {
    let alloc = rt.alloc();
    spend_on(&rt, alloc, &mut Scan::new(alloc).expect(&rt, "memory"));
    spend_on(&rt, alloc, &mut Index::new(alloc).expect(&rt, "memory"));
}
