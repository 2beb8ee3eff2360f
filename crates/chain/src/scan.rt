//! A chain that searches its blocks for every answer.

ghost use Rattle.std.specs.Prelude.{◌≡◌, ℕ, ◌%◌, ◌^◌, reverse, option_map, slice_get};
ghost use Rattle.std.specs.List.{list_any};
ghost use Rattle.std.specs.Str.{bytes_eq};
ghost use Rattle.tx.specs.Spelling.{transaction_id};
ghost use Rattle.chain.specs.Blocks.{names, is_named, has_id, created_by, created_by_all, granted_at, created_of};
ghost use Rattle.chain.specs.Scanning.{found_in, at_height, with_height};

use crate::blocks::{Block, Confirmed};
use crate::chain_blocks::Blocks;
use crate::checking::{same_outpoint, some_input_names};
use crate::coins::Coins;
use crate::connecting::grant_outpoint;
use crate::errors::{BlockError, ChainError};
use crate::store::{Found, Store};
use crate::totals::Unspent;
use crate::{checking, connecting, totals};
use std::alloc::{AllocError, Global};
use std::marker::Model;
use tx::{OutPoint, Tx, TxOut};

/// A chain that stores the list of its blocks and nothing else.
#[derive(Drop)]
pub struct Scan {
    blocks: Blocks,
    greatest: u64,
    grants: u64,
}

impl Model for Scan {
    ghost use Rattle.std.specs.Prelude.{◌≡◌, ◌%◌, ◌^◌};
    ghost use Rattle.chain.specs.Blocks.{Standing, grants_in};

    ghost Value = { Standing };

    ghost view = { λ s. record { blocks = s.blocks; greatest = s.greatest } };

    ghost invariant = { λ s. s.grants ≡ grants_in s.blocks % 2 ^ 64 };
}

/// Whether an input of a transaction of the block spends the outpoint.
#[tactic(auto, using(crate::proofs::Lists::any_reversed))]
fn block_names(block: &Block, outpoint: &OutPoint) -> bool
    ensures { result ≡ list_any (names outpoint.now) block.now.transactions }
{
    for confirmed in block.transactions() {
        if some_input_names(confirmed.tx().inputs(), outpoint) {
            return true;
        }
    }
    false
}

/// Whether an input of a transaction of one of the blocks spends the outpoint.
fn is_named(blocks: &[Block], outpoint: &OutPoint) -> bool
    ensures { result ≡ is_named blocks.now outpoint.now }
{
    for block in blocks {
        if block_names(block, outpoint) {
            return true;
        }
    }
    false
}

/// Whether the block has a transaction of this id.
#[tactic(auto, using(crate::proofs::Lists::any_reversed))]
fn block_has_id(block: &Block, id: &[u8; 32]) -> bool
    ensures { result ≡ list_any (λ t. bytes_eq (transaction_id t) id.now) block.now.transactions }
{
    for confirmed in block.transactions() {
        if confirmed.id() == id {
            return true;
        }
    }
    false
}

/// Whether one of the blocks has a transaction of this id.
fn has_id(blocks: &[Block], id: &[u8; 32]) -> bool
    ensures { result ≡ has_id blocks.now id.now }
{
    for block in blocks {
        if block_has_id(block, id) {
            return true;
        }
    }
    false
}

/// The output at this index.
fn output_at(outputs: &[TxOut], index: u32) -> Option<&TxOut>
    ensures { option_map (λ r. r.now) result ≡ slice_get outputs.now index }
{
    outputs.get(index as usize)
}

/// The output that a transaction created at an outpoint.
fn find_in_transaction<'a>(confirmed: &'a Confirmed, outpoint: &OutPoint) -> Option<&'a TxOut>
    ensures { (height : ℕ) → at_height height result ≡ found_in outpoint.now
        (created_by height confirmed.now) }
{
    if *confirmed.id() != outpoint.txid {
        return None;
    }
    output_at(confirmed.tx().outputs(), outpoint.index)
}

/// The first output that transactions created at an outpoint.
fn find_in_transactions<'a>(transactions: &'a [Confirmed], outpoint: &OutPoint) -> Option<&'a TxOut>
    ensures { (height : ℕ) → at_height height result ≡ found_in outpoint.now
        (created_by_all height (reverse transactions.now)) }
{
    for confirmed in transactions {
        if let Some(output) = find_in_transaction(confirmed, outpoint) {
            return Some(output);
        }
    }
    None
}

/// The first output that was granted at an outpoint, after this number of earlier grants.
fn find_in_grants<'a>(granted: &'a [TxOut], before: u64, outpoint: &OutPoint) -> Option<&'a TxOut>
    ensures { (height g : ℕ) → before ≡ g % 2 ^ 64 → at_height height result ≡ found_in outpoint.now
        (granted_at height g (reverse granted.now)) }
{
    for (index, output) in granted.iter().enumerate() {
        if same_outpoint(&grant_outpoint(before.wrapping_add(index as u64)), outpoint) {
            return Some(output);
        }
    }
    None
}

/// The first output that was created at an outpoint, with the height of its block.
fn find_in_blocks<'a>(blocks: &'a [Block], outpoint: &OutPoint) -> Option<(&'a TxOut, u64)>
    ensures { with_height result ≡ found_in outpoint.now (created_of (reverse blocks.now)) }
{
    let mut grants = 0u64;
    for (height, block) in blocks.iter().enumerate() {
        if let Some(output) = find_in_transactions(block.transactions(), outpoint) {
            return Some((output, height as u64));
        }
        if let Some(output) = find_in_grants(block.granted(), grants, outpoint) {
            return Some((output, height as u64));
        }
        grants = grants.wrapping_add(block.granted().len() as u64);
    }
    None
}

impl Store for Scan {
    ghost standing = { λ s. s };

    fn allocator(&self) -> Global {
        self.blocks.allocator()
    }

    fn blocks(&self) -> &[Block] {
        self.blocks.as_slice()
    }

    fn greatest(&self) -> u64 {
        self.greatest
    }

    fn find(&self, outpoint: &OutPoint) -> Option<Found<'_>> {
        let (output, height) = find_in_blocks(self.blocks.as_slice(), outpoint)?;
        Some(Found {
            output,
            height,
            spent: is_named(self.blocks.as_slice(), outpoint),
        })
    }

    #[tactic(auto, using(crate::proofs::Lists::any_reversed))]
    fn is_named(&self, outpoint: &OutPoint) -> bool {
        is_named(self.blocks.as_slice(), outpoint)
    }

    #[tactic(auto, using(crate::proofs::Lists::any_reversed))]
    fn has_id(&self, id: &[u8; 32]) -> bool {
        has_id(self.blocks.as_slice(), id)
    }

    fn begin(&mut self) -> Result<(), AllocError> {
        self.blocks.begin()
    }

    #[tactic(auto, using(crate::proofs::Growing::grants_in_stay))]
    fn add(&mut self, confirmed: Confirmed) -> Result<(), AllocError> {
        self.blocks.push(confirmed)?;
        Ok(())
    }

    fn take_off(&mut self) {
        self.blocks.pop();
    }

    fn add_grant(&mut self, output: TxOut) -> Result<(), AllocError> {
        self.blocks.grant(output)?;
        self.grants = self.grants.wrapping_add(1);
        Ok(())
    }

    fn grants(&self) -> u64 {
        self.grants
    }

    fn note_height(&mut self) {
        let height = self.blocks.as_slice().len() as u64 - 1;
        self.greatest = self.greatest.max(height);
    }
}

impl Scan {
    ghost use Rattle.std.specs.Prelude.{IfOk, ◌≡◌, ◌∷◌, []};
    ghost use Rattle.chain.specs.Blocks.{empty_block};

    /// A chain of one empty block, of height 0.
    pub fn new(alloc: Global) -> Result<Self, AllocError>
        ensures { IfOk result (λ s. s ≡ record { blocks = empty_block ∷ []; greatest = 0 }) }
    {
        Ok(Scan {
            blocks: Blocks::new(alloc)?,
            greatest: 0,
            grants: 0,
        })
    }
}

impl Coins for Scan {
    ghost standing = { λ s. s };

    fn grant(&mut self, output: TxOut) -> Result<OutPoint, ChainError> {
        connecting::grant(self, output)
    }

    fn check_input(&self, tx: &Tx, index: usize) -> Result<(), ChainError> {
        checking::check_input(self, tx, index)
    }

    fn connect(&mut self, txs: Vec<Tx>) -> Result<u64, BlockError> {
        connecting::connect(self, txs)
    }

    fn disconnect(&mut self, k: u64) -> Result<Vec<Tx>, ChainError> {
        connecting::disconnect(self, k)
    }

    fn unspent(&self) -> Result<Unspent, AllocError> {
        totals::sum_unspent(self)
    }

    fn height(&self) -> u64 {
        self.blocks.as_slice().len() as u64 - 1
    }

    fn fees(&self) -> Result<u128, AllocError> {
        totals::sum_fees(self)
    }

    fn blocks(&self) -> &[Block] {
        self.blocks.as_slice()
    }
}
