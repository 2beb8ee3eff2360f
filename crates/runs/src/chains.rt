//! Rebuilds the chain of a scenario with calls of its own.

use chain::{Block, Coins, Command, Index, Scan, replay_commands};
use page::Page;
use scenario::Scenario;
use std::alloc::Global;
use tx::Tx;
use world::World;

/// Adds a call. Returns whether there was memory.
fn push(calls: &mut Vec<Command>, call: Command) -> bool {
    calls.push(call).is_ok()
}

/// Adds the calls that make a block's grants. Returns whether there was memory.
fn push_grants(calls: &mut Vec<Command>, block: &Block) -> bool {
    for output in block.granted() {
        let is_pushed = match output.copy() {
            Ok(output) => push(calls, Command::Grant(output)),
            Err(_) => false,
        };
        if !is_pushed {
            return false;
        }
    }
    true
}

/// Adds copies of a block's transactions. Returns whether there was memory.
fn push_txs(txs: &mut Vec<Tx>, block: &Block) -> bool {
    for confirmed in block.transactions() {
        let is_pushed = match confirmed.tx().copy() {
            Ok(tx) => txs.push(tx).is_ok(),
            Err(_) => false,
        };
        if !is_pushed {
            return false;
        }
    }
    true
}

/// Adds the call that makes a block with the same transactions. Returns whether there was memory.
fn push_block(calls: &mut Vec<Command>, block: &Block) -> bool {
    let mut txs = Vec::new(*calls.allocator());
    push_txs(&mut txs, block) && push(calls, Command::Connect(txs))
}

/// Adds the calls for the blocks after the first one, which every
/// chain begins with. Returns whether there was memory.
fn push_blocks(calls: &mut Vec<Command>, blocks: &[Block]) -> bool {
    for block in blocks {
        if !push_block(calls, block) || !push_grants(calls, block) {
            return false;
        }
    }
    true
}

/// Adds the calls that make these blocks, and the questions that are asked of
/// the chain at the end. Returns whether there was memory.
fn push_all(calls: &mut Vec<Command>, blocks: &[Block]) -> bool {
    let Some((first, others)) = blocks.split_first() else {
        return false;
    };
    push_grants(calls, first)
        && push_blocks(calls, others)
        && push(calls, Command::Height)
        && push(calls, Command::Unspent)
        && push(calls, Command::Fees)
}

/// Plays a scenario in its world, and adds those calls. Returns whether that can be done.
fn push_played(calls: &mut Vec<Command>, scenario: &Scenario, world: &mut World) -> bool {
    world.play(scenario.events.values()).is_ok() && push_all(calls, world.chain().blocks())
}

/// Adds the calls that make the chain with which a scenario ends. Returns whether that can be done.
fn push_scenario(alloc: Global, calls: &mut Vec<Command>, scenario: &Scenario) -> bool {
    match World::new(alloc, &scenario.seeds, scenario.channels.values()) {
        Ok(mut world) => push_played(calls, scenario, &mut world),
        Err(_) => false,
    }
}

/// Adds the calls for the scenario of a line. Returns whether that can be done.
fn push_line(alloc: Global, calls: &mut Vec<Command>, line: &str) -> bool {
    match Scenario::read(alloc, line.as_bytes()) {
        Ok(scenario) => push_scenario(alloc, calls, &scenario),
        Err(_) => false,
    }
}

/// Makes the calls on a new chain, and shows the answers.
fn show_on<C: Coins>(page: &mut Page, chain: &mut C, calls: &[Command]) {
    match replay_commands(page.alloc(), chain, calls) {
        Ok(answers) => {
            for answer in answers.as_slice() {
                page.debug(answer);
                page.push("\n");
            }
        }
        Err(_) => page.fail(),
    }
}

/// Shows the answers of a scan of the blocks.
fn show_scan(page: &mut Page, calls: &[Command]) {
    match Scan::new(page.alloc()) {
        Ok(mut chain) => show_on(page, &mut chain, calls),
        Err(_) => page.fail(),
    }
}

/// Shows the answers of an index.
fn show_index(page: &mut Page, calls: &[Command]) {
    match Index::new(page.alloc()) {
        Ok(mut chain) => show_on(page, &mut chain, calls),
        Err(_) => page.fail(),
    }
}

/// Shows the answers of both to the
/// calls that make a scenario's chain.
pub fn show(page: &mut Page, line: &str) {
    let mut calls = Vec::new(page.alloc());
    if !push_line(page.alloc(), &mut calls, line) {
        page.fail();
    }
    show_scan(page, calls.as_slice());
    show_index(page, calls.as_slice());
}
