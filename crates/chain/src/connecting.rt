//! How a chain grows and shrinks by whole blocks.

ghost use Rattle.std.specs.Prelude.{◌≡◌, ℕ, ◌-◌, ◌≤◌, ◌%◌, ◌^◌, ◌++◌, [], false, length, take, drop, reverse, Option, Ok, Err, IfOk, OnOk, OnErr, MatchResult};
ghost use Rattle.std.specs.List.{list_any, cons_option};
ghost use Rattle.chain.specs.Blocks.{grant_outpoint, height_of, transactions_of};
ghost use Rattle.chain.specs.Connecting.{Connects, ConnectsSome, Disconnects, Grants, has_grant, is_too_deep};
ghost use Rattle.chain.specs.declared.refused.Refused.{Refused};
ghost use Rattle.chain.specs.Waiting.{OffersBack, AddsWaiting, ConnectsWaiting};
ghost use Rattle.chain.specs.Storing.{AddsOne, AddsAll, AddsPassing, ChangesNewest, MayTakeOff, Offers};

use crate::blocks::{Block, Confirmed};
use crate::checking::check_transaction;
use crate::errors::{BlockError, ChainError};
use crate::program::is_program;
use crate::refused::Refused;
use crate::store::Store;
use digest::sha256;
use sha2::{Digest, Sha256};
use std::alloc::{AllocError, Global};
use tx::hashing::absorb_u64;
use tx::{OutPoint, Tx, TxOut};

/// The outpoint of the grant that follows this number of earlier grants.
#[tactic(auto, unfolding(crate::specs::Blocks::grant_id))]
pub(crate) fn grant_outpoint(before: u64) -> OutPoint
    ensures { (g : ℕ) → before ≡ g % 2 ^ 64 → result ≡ grant_outpoint g }
{
    let mut hasher = Sha256::new();
    hasher.update(b"grant");
    absorb_u64(&mut hasher, before);
    OutPoint {
        txid: sha256(&hasher.finalize()),
        index: 0,
    }
}

/// Adds a granted output to the newest block.
pub(crate) fn grant<S: Store>(store: &mut S, output: TxOut) -> Result<OutPoint, ChainError>
    ensures { Grants (S.standing store.old) output result (S.standing store.new) }
{
    if !is_program(output.script().bytes()) {
        return Err(ChainError::BadProgram);
    }
    let outpoint = grant_outpoint(store.grants());
    store.add_grant(output)?;
    Ok(outpoint)
}

/// Adds one transaction to the newest block, if it passes its tests.
fn add_one<S: Store>(store: &mut S, tx: Tx) -> Result<(), ChainError>
    requires { MayTakeOff (S.standing store.old).blocks }
    ensures { AddsOne (S.standing store.old) tx result (S.standing store.new) }
{
    let confirmed = Confirmed::new(tx);
    check_transaction(&*store, &confirmed)?;
    store.add(confirmed)?;
    Ok(())
}

/// Adds transactions to the newest block, up to the first that is refused.
fn add_all<S: Store>(store: &mut S, txs: Vec<Tx>) -> Result<(), BlockError>
    requires { MayTakeOff (S.standing store.old).blocks }
    ensures { AddsAll (S.standing store.old) txs.items result (S.standing store.new) }
{
    let mut index = 0usize;
    for tx in txs {
        if let Err(refusal) = add_one(store, tx) {
            return Err(BlockError { index, refusal });
        }
        index += 1;
    }
    Ok(())
}

/// Adds the next block. A refusal changes nothing.
#[tactic(auto, using(crate::proofs::Growing::more_than_one))]
pub(crate) fn connect<S: Store>(store: &mut S, txs: Vec<Tx>) -> Result<u64, BlockError>
    ensures { Connects (S.standing store.old) txs.items result (S.standing store.new) }
{
    let height = store.blocks().len() as u64;
    if store.begin().is_err() {
        return Err(BlockError {
            index: 0,
            refusal: ChainError::NoMemory,
        });
    }
    if let Err(error) = add_all(store, txs) {
        store.take_off();
        return Err(error);
    }
    store.note_height();
    Ok(height)
}

/// Adds one transaction to the newest block if it passes its tests, and gives its refusal otherwise. The only error is that memory ran
/// out.
#[tactic(auto, using(crate::proofs::Offering::named))]
fn offer<S: Store>(store: &mut S, tx: Tx) -> Result<Option<ChainError>, AllocError>
    requires { MayTakeOff (S.standing store.old).blocks }
    ensures ok { IfOk result (λ refusal. Offers (S.standing store.old) tx refusal
        (S.standing store.new)) }
    ensures err { OnErr result (S.standing store.new ≡ S.standing store.old) }
{
    let Err(refusal) = add_one(store, tx) else {
        return Ok(None);
    };
    match refusal {
        ChainError::NoMemory => Err(AllocError),
        _ => Ok(Some(refusal)),
    }
}

/// Adds to the newest block those of the transactions that pass their tests after those before them, and gives the refusal of each.
fn add_passing<S: Store>(store: &mut S, txs: Vec<Tx>) -> Result<Vec<Option<ChainError>>, AllocError>
    requires { MayTakeOff (S.standing store.old).blocks }
    ensures newest { ChangesNewest (S.standing store.old) (S.standing store.new) }
    ensures ok { IfOk result (λ refusals. AddsPassing
        (S.standing store.old) txs.items refusals.items (S.standing store.new)) }
{
    let mut refusals = Vec::new(store.allocator());
    for tx in txs {
        refusals.push(offer(store, tx)?)?;
    }
    Ok(refusals)
}

/// Adds the next block, with those of the transactions that pass their tests after those before them. It gives the refusal of each;
/// `None` for one that is in the block. The only error is that memory ran out, which changes nothing.
#[tactic(auto, using(crate::proofs::Growing::more_than_one))]
pub(crate) fn connect_some<S: Store>(
    store: &mut S,
    txs: Vec<Tx>,
) -> Result<Vec<Option<ChainError>>, AllocError>
    ensures ok { IfOk result (λ refusals. ConnectsSome
        (S.standing store.old) txs.items refusals.items (S.standing store.new)) }
    ensures err { OnErr result (S.standing store.new ≡ S.standing store.old) }
{
    store.begin()?;
    match add_passing(store, txs) {
        Ok(refusals) => {
            store.note_height();
            Ok(refusals)
        }
        Err(error) => {
            store.take_off();
            Err(error)
        }
    }
}

/// Adds one transaction to the newest block if it passes its tests, and else appends it with its refusal to those that came back. The only
/// error is that memory ran out.
fn offer_back<S: Store>(
    store: &mut S,
    confirmed: Confirmed,
    refused: &mut Vec<Refused>,
) -> Result<(), AllocError>
    requires { MayTakeOff (S.standing store.old).blocks }
    ensures ok { OnOk result ((back : Option Refused) × (refused.new.items ≡ refused.old.items
        ++ cons_option back [])
        × OffersBack (S.standing store.old) confirmed back (S.standing store.new)) }
    ensures err { OnErr result (S.standing store.new ≡ S.standing store.old) }
{
    let Err(refusal) = check_transaction(&*store, &confirmed) else {
        return store.add(confirmed);
    };
    match refusal {
        ChainError::NoMemory => Err(AllocError),
        _ => {
            refused.push(Refused { confirmed, refusal })?;
            Ok(())
        }
    }
}

/// Adds to the newest block those of the transactions that pass their tests after those before them, and gives the others back.
fn add_waiting<S: Store>(store: &mut S, txs: Vec<Confirmed>) -> Result<Vec<Refused>, AllocError>
    requires { MayTakeOff (S.standing store.old).blocks }
    ensures newest { ChangesNewest (S.standing store.old) (S.standing store.new) }
    ensures ok { IfOk result (λ refused. AddsWaiting
        (S.standing store.old) txs.items refused.items (S.standing store.new)) }
{
    let mut refused = Vec::new(store.allocator());
    for confirmed in txs {
        offer_back(store, confirmed, &mut refused)?;
    }
    Ok(refused)
}

/// Adds the next block, with those of the transactions that pass their tests after those before them, and gives the others back with their
/// refusals. The ids are those that the transactions came with. The only error is that memory ran out, which changes nothing.
#[tactic(auto, using(crate::proofs::Growing::more_than_one))]
pub(crate) fn connect_waiting<S: Store>(
    store: &mut S,
    txs: Vec<Confirmed>,
) -> Result<Vec<Refused>, AllocError>
    ensures ok { IfOk result (λ refused. ConnectsWaiting
        (S.standing store.old) txs.items refused.items (S.standing store.new)) }
    ensures err { OnErr result (S.standing store.new ≡ S.standing store.old) }
{
    store.begin()?;
    match add_waiting(store, txs) {
        Ok(refused) => {
            store.note_height();
            Ok(refused)
        }
        Err(error) => {
            store.take_off();
            Err(error)
        }
    }
}

/// How far the height may fall below the greatest that the chain ever had.
const MAX_DEPTH: u64 = 6;

/// Whether this number of blocks cannot be taken off.
#[tactic(auto, using(crate::proofs::Growing::grants_among_newest))]
fn is_too_deep<S: Store>(store: &S, k: u64) -> bool
    ensures { result ≡ is_too_deep (S.standing store.now) k }
{
    let blocks = store.blocks();
    let height = blocks.len() as u64 - 1;
    if height < k || height - k + MAX_DEPTH < store.greatest() {
        return true;
    }
    have_grant(newest(blocks, k))
}

/// The newest `k` blocks.
fn newest(blocks: &[Block], k: u64) -> &[Block]
    requires { k ≤ length blocks.now }
    ensures { result.now ≡ drop (length blocks.now - k) blocks.now }
{
    let before = blocks.len() - k as usize;
    blocks.split_at(before).1
}

/// Whether one of the blocks holds a grant.
fn have_grant(blocks: &[Block]) -> bool
    ensures { result ≡ list_any has_grant blocks.now }
{
    for block in blocks {
        if !block.granted().is_empty() {
            return true;
        }
    }
    false
}

/// Copies the transactions of blocks, in their order.
fn copied(alloc: Global, blocks: &[Block]) -> Result<Vec<Tx>, AllocError>
    ensures { IfOk result (λ txs. txs.items ≡ reverse (transactions_of (reverse blocks.now))) }
{
    let mut txs = Vec::new(alloc);
    for block in blocks {
        copy_onto(block.transactions(), &mut txs)?;
    }
    Ok(txs)
}

/// Appends copies of transactions to others.
fn copy_onto(transactions: &[Confirmed], txs: &mut Vec<Tx>) -> Result<(), AllocError>
    ensures { OnOk result (txs.new.items ≡ txs.old.items ++ transactions.now) }
{
    for confirmed in transactions {
        txs.push(confirmed.tx().copy()?)?;
    }
    Ok(())
}

/// Takes off this number of the newest blocks, in which nothing was granted. It allocates nothing.
#[tactic(auto, using(crate::proofs::Growing::more_left, crate::proofs::Growing::none_granted_left, crate::proofs::Growing::one_fewer))]
pub(crate) fn take_off_all<S: Store>(store: &mut S, k: u64)
    requires above_first { k ≤ height_of (S.standing store.old).blocks }
    requires no_grant { list_any has_grant (take k (S.standing store.old).blocks) ≡ false }
    ensures { S.standing store.new ≡ record (S.standing store.old) {
      blocks = drop k
          (S.standing store.old).blocks;
    } }
{
    for _taken in 0..k {
        store.take_off();
    }
}

/// Takes off this number of the newest blocks, and gives their transactions in the order of the chain.
#[tactic(auto, using(crate::proofs::Growing::not_too_deep, crate::proofs::Growing::transactions_of_newest))]
pub(crate) fn disconnect<S: Store>(store: &mut S, k: u64) -> Result<Vec<Tx>, ChainError>
    ensures { MatchResult result (λ txs. Disconnects (S.standing store.old) k (Ok txs.items)
        (S.standing store.new)) (λ e. Disconnects (S.standing store.old) k (Err e)
        (S.standing store.new)) }
{
    if is_too_deep(&*store, k) {
        return Err(ChainError::TooDeep);
    }
    let blocks = store.blocks();
    let txs = copied(store.allocator(), newest(blocks, k))?;
    take_off_all(store, k);
    Ok(txs)
}
