//! The transactions of new blocks, and the kinds of their outputs.

use crate::names::{explorer_id, side_name};
use crate::scenarios::closing::tell_commitment;
use crate::scenarios::coins::{Change, Coin, Kind, Told};
use crate::scenarios::outputs::{tell_output, tell_spends};
use chain::{Block, Coins as _, Confirmed};
use page::Page;
use page::Piece::{Count, Hash, Text};
use sighash::programs::{is_script_hash_program, key_hash_program};
use std::alloc::Global;
use terms::Side;
use tx::{TxOut, total_value};
use world::World;

// The side whose payment key a claim in a channel pays.
fn payee(alloc: Global, world: &World, line: &mut Page, channel: u64, output: &TxOut) -> Side {
    let Some(own) = world.book(Side::A).channel(channel) else {
        return Side::B;
    };
    match key_hash_program(alloc, &own.terms().a.bases.payment.bytes) {
        Ok(program) => {
            if program.bytes() == output.script().bytes() {
                Side::A
            } else {
                Side::B
            }
        }
        Err(_) => {
            line.fail();
            Side::B
        }
    }
}

// The coin of an output whose transaction, in
// a block of this height, spends this coin.
fn output_coin(
    alloc: Global,
    world: &World,
    line: &mut Page,
    height: u64,
    spent: &Coin,
    output: &TxOut,
) -> Coin {
    let mut coin = *spent;
    coin.value = output.value();
    coin.height = height;
    coin.due = height;
    if is_script_hash_program(output.script().bytes()) {
        coin.kind = Kind::SecondStage;
        coin.owner = spent.holder;
        if let Some(own) = world.book(spent.holder).channel(spent.channel) {
            let delay_blocks = own.terms().party(spent.holder).delay_blocks;
            coin.due = height.saturating_add(u64::from(delay_blocks));
        }
    } else {
        coin.kind = Kind::Wallet;
        coin.owner = payee(alloc, world, line, spent.channel, output);
    }
    coin
}

// Writes an HTLC transaction or a claim: the side that made it, which owns its first output, and its outputs.
fn tell_follower(
    alloc: Global,
    world: &World,
    told: &mut Told,
    line: &mut Page,
    height: u64,
    spent: &Coin,
    confirmed: &Confirmed,
) {
    let outputs = confirmed.tx().outputs();
    if let Some(first) = outputs.first() {
        let coin = output_coin(alloc, world, line, height, spent, first);
        let kind = match coin.kind {
            Kind::SecondStage => "htlc",
            _ => "claim",
        };
        line.write(
            r#","kind":"%","channel":%,"owner":"%""#,
            &[Text(kind), Count(coin.channel), side_name(coin.owner)],
        );
    }
    line.push(r#","outputs":["#);
    let mut index = 0u32;
    for output in outputs {
        let coin = output_coin(alloc, world, line, height, spent, output);
        tell_output(line, told, confirmed, index, coin);
        index = index.saturating_add(1);
        line.push("}");
    }
    line.push("]");
}

// Writes a transaction in a block of this height, whose first input spends this coin: with its fee, and its outputs. What it spends goes.
fn tell_tx(
    alloc: Global,
    world: &World,
    told: &mut Told,
    line: &mut Page,
    height: u64,
    spent: &Coin,
    confirmed: &Confirmed,
) {
    let tx = confirmed.tx();
    let txid = *confirmed.id();
    line.element(
        r#"{"height":%,"txid":"%","explorer":"%","spends":["#,
        &[Count(height), Hash(txid), explorer_id(&txid)],
    );
    tell_spends(line, tx);
    let mut worth = 0u64;
    for input in tx.inputs() {
        worth = worth.saturating_add(told.go(line, &input.outpoint));
    }
    let paid = u64::try_from(total_value(tx.outputs())).unwrap_or(u64::MAX);
    line.write(r#"],"fee":%"#, &[Count(worth.saturating_sub(paid))]);
    match spent.kind {
        Kind::Funding => {
            tell_commitment(alloc, world, told, line, height, spent.channel, confirmed)
        }
        _ => tell_follower(alloc, world, told, line, height, spent, confirmed),
    }
    line.push("}");
    told.note(line, Change::Mined { height, txid });
}

// Writes the transactions of a block of this height.
fn tell_block(
    alloc: Global,
    world: &World,
    told: &mut Told,
    line: &mut Page,
    height: u64,
    block: &Block,
) {
    for confirmed in block.transactions() {
        if let Some(input) = confirmed.tx().inputs().first() {
            if let Some(spent) = told.coin(&input.outpoint) {
                tell_tx(alloc, world, told, line, height, &spent, confirmed);
            }
        }
    }
}

/// Writes the transactions of the blocks above a height.
pub fn tell_mined(alloc: Global, world: &World, told: &mut Told, line: &mut Page, above: u64) {
    let blocks = world.chain().blocks();
    line.push(r#","mined":["#);
    for height in above.saturating_add(1)..blocks.len() as u64 {
        if let Some(block) = blocks.get(height as usize) {
            tell_block(alloc, world, told, line, height, block);
        }
    }
    line.push("]");
    told.tell_alone(line);
}
