//! A chain that keeps an index of its outputs and ids beside its blocks.

use crate::blocks::{Block, Confirmed};
use crate::chain_blocks::Blocks;
use crate::coin_map::{IndexedCoin, note_output};
use crate::coins::Coins;
use crate::connecting::grant_outpoint;
use crate::errors::{BlockError, ChainError};
use crate::indexing::{forget_added, index_transaction, unindex_block, unindex_transaction};
use crate::refused::Refused;
use crate::store::{Found, Store};
use crate::totals::Unspent;
use crate::{checking, connecting, totals};
use std::alloc::{AllocError, Global};
use std::collections::{BTreeMap, BTreeSet};
use std::marker::Model;
use tx::{OutPoint, Tx, TxOut};

/// A whole chain, and not only an index: it finds outputs and ids by an index, in time logarithmic in their number. A block changes only the entries of its own
/// transactions: the outputs that they create, and those that their inputs spend. So the cost of connecting a block or taking it off depends
/// on the block, not on the chain.
#[derive(Drop)]
pub struct Index {
    blocks: Blocks,
    coins: BTreeMap<OutPoint, IndexedCoin>,
    ids: BTreeSet<[u8; 32]>,
    greatest: u64,
    grants: u64,
}

impl Model for Index {
    ghost use Rattle.std.specs.Prelude.{◌≡◌, ◌%◌, ◌^◌};
    ghost use Rattle.std.specs.Ordering.{nat_cmp};
    ghost use Rattle.std.specs.Cmp.Lexicographic.{slice_cmp};
    ghost use Rattle.std.specs.BTreeSet.{contains};
    ghost use Rattle.chain.specs.Blocks.{Standing, grants_in};
    ghost use Rattle.chain.specs.Indexing.{noted, IsIndex};

    ghost Value = { Standing };

    ghost view = { λ s. record { blocks = s.blocks; greatest = s.greatest } };

    ghost invariant = { λ s. (s.grants ≡ grants_in s.blocks % 2 ^ 64) × IsIndex s.blocks (noted s.coins) (contains (slice_cmp nat_cmp) s.ids) };
}

impl Store for Index {
    ghost standing = { λ s. s };

    fn allocator(&self) -> Global {
        self.blocks.allocator()
    }

    fn blocks(&self) -> &[Block] {
        self.blocks.as_slice()
    }

    fn greatest(&self) -> u64 {
        self.greatest
    }

    fn find(&self, outpoint: &OutPoint) -> Option<Found<'_>> {
        let coin = self.coins.get(outpoint)?;
        Some(Found {
            output: &coin.output,
            height: coin.height,
            spent: coin.spent,
        })
    }

    fn is_named(&self, outpoint: &OutPoint) -> bool {
        match self.coins.get(outpoint) {
            Some(coin) => coin.spent,
            None => false,
        }
    }

    fn has_id(&self, id: &[u8; 32]) -> bool {
        self.ids.contains(id)
    }

    fn begin(&mut self) -> Result<(), AllocError> {
        self.blocks.begin()
    }

    fn add(&mut self, confirmed: Confirmed) -> Result<(), AllocError> {
        let height = self.blocks.as_slice().len() as u64 - 1;
        index_transaction(&mut self.coins, &mut self.ids, &confirmed, height)?;
        if let Err(failed) = self.blocks.push(confirmed) {
            unindex_transaction(&mut self.coins, &mut self.ids, &failed.value, height);
            return Err(AllocError);
        }
        Ok(())
    }

    fn take_off(&mut self) {
        let block = self.blocks.pop();
        let height = self.blocks.as_slice().len() as u64;
        unindex_block(&mut self.coins, &mut self.ids, block, height);
    }

    fn add_grant(&mut self, output: TxOut) -> Result<(), AllocError> {
        let height = self.blocks.as_slice().len() as u64 - 1;
        let outpoint = grant_outpoint(self.grants);
        let added = !self.coins.contains_key(&outpoint);
        note_output(&mut self.coins, outpoint, &output, height)?;
        if let Err(error) = self.blocks.grant(output) {
            forget_added(&mut self.coins, &outpoint, added);
            return Err(error);
        }
        self.grants = self.grants.wrapping_add(1);
        Ok(())
    }

    fn grants(&self) -> u64 {
        self.grants
    }

    fn note_height(&mut self) {
        let height = self.blocks.as_slice().len() as u64 - 1;
        self.greatest = self.greatest.max(height);
    }
}

impl Index {
    ghost use Rattle.std.specs.Prelude.{IfOk, ◌≡◌, ◌∷◌, []};
    ghost use Rattle.chain.specs.Blocks.{empty_block};

    /// A chain of one empty block, of height 0.
    pub fn new(alloc: Global) -> Result<Self, AllocError>
        ensures { IfOk result (λ s. s ≡ record { blocks = empty_block ∷ []; greatest = 0 }) }
    {
        Ok(Index {
            blocks: Blocks::new(alloc)?,
            coins: BTreeMap::new(alloc),
            ids: BTreeSet::new(alloc),
            greatest: 0,
            grants: 0,
        })
    }
}

/// A state of the chain, to which it can go back.
#[derive(Clone, Copy, Debug, Drop)]
pub struct Mark {
    height: u64,
    greatest: u64,
}

impl Index {
    ghost use Rattle.std.specs.Prelude.{◌≡◌, ◌+◌, true, IfOk, OnErr, option_map, reverse, slice_get, sum_by};
    ghost use Rattle.chain.specs.Blocks.{Standing, has_id, unspent_of, fees_of, granted_of};
    ghost use Rattle.chain.specs.Checked.{is_checked};
    ghost use Rattle.chain.specs.Conserving.{GrantsAreApart};
    ghost use Rattle.chain.specs.Connecting.{ConnectsSome};
    ghost use Rattle.chain.specs.Waiting.{ConnectsWaiting};
    ghost use Rattle.chain.specs.Marking.{IsMark, IsGrown};

    /// Adds the next block, with those of the transactions that pass the tests of `connect` after those before them, in their order. It gives
    /// the refusal of each; `None` for one that is in the block. The only error is that memory ran out, which changes nothing.
    #[tactic(auto, using(crate::proofs::Undoing::grown_by_some, crate::proofs::Undoing::grown_itself))]
    pub fn connect_some(&mut self, txs: Vec<Tx>) -> Result<Vec<Option<ChainError>>, AllocError>
        ensures ok { IfOk result (λ refusals. ConnectsSome self.old txs.items refusals.items
            self.new) }
        ensures grown { IfOk result (λ _. IsGrown self.old self.new) }
        ensures err { OnErr result (self.new ≡ self.old) }
    {
        connecting::connect_some(self, txs)
    }

    /// The same for transactions that came with their ids. Those that are not in the block are given back, in their order, each with its refusal,
    /// so that none is copied or hashed again for a later block. The only error is that memory ran out, which changes nothing.
    #[tactic(auto, using(crate::proofs::Undoing::grown_by_waiting, crate::proofs::Undoing::grown_itself))]
    pub fn connect_waiting(&mut self, txs: Vec<Confirmed>) -> Result<Vec<Refused>, AllocError>
        ensures ok { IfOk result (λ refused. ConnectsWaiting self.old txs.items refused.items
            self.new) }
        ensures grown { IfOk result (λ _. IsGrown self.old self.new) }
        ensures err { OnErr result (self.new ≡ self.old) }
    {
        connecting::connect_waiting(self, txs)
    }

    /// Marks the state of the chain, so that `undo` can go back to it.
    pub fn mark(&self) -> Mark
        ensures { IsMark self.now result }
    {
        Mark {
            height: self.blocks.as_slice().len() as u64 - 1,
            greatest: self.greatest,
        }
    }

    /// Goes back to the state at a mark, where only blocks were added since, as if they had never been there. It allocates nothing.
    pub fn undo(&mut self, mark: Mark)
        requires { (before : Standing) × IsMark before mark × IsGrown before self.old }
        ensures { (before : Standing) → IsMark before mark → IsGrown before self.old
            → self.new ≡ before }
    {
        let above = Coins::height(self) - mark.height;
        connecting::take_off_all(self, above);
        self.greatest = mark.greatest;
    }

    /// A copy of the chain. The only error is that memory ran out.
    pub fn copy(&self) -> Result<Self, AllocError>
        ensures { IfOk result (λ s. s ≡ self.now) }
    {
        let ids = self.ids.clone()?;
        let coins = self.coins.clone()?;
        Ok(Index {
            blocks: self.blocks.copy()?,
            coins,
            ids,
            greatest: self.greatest,
            grants: self.grants,
        })
    }

    /// The block at a height, if the chain has one.
    pub fn block_at(&self, height: u64) -> Option<&Block>
        ensures { option_map (λ b. b.now) result ≡ slice_get (reverse self.now.blocks) height }
    {
        self.blocks.as_slice().get(height as usize)
    }

    /// Whether a transaction with this id is on the chain.
    pub fn has_id(&self, id: &[u8; 32]) -> bool
        ensures { result ≡ has_id self.now.blocks id.now }
    {
        Store::has_id(self, id)
    }

    /// Whatever calls the chain got, each transaction on it passed the tests of `connect` when it was added, after those before it.
    pub fn passed_tests(&self)
        ensures { is_checked self.now.blocks ≡ true }
    {
        let _ = &self.greatest;
    }

    /// Conservation, whatever calls the chain got: the value of its unspent outputs and its fees together are the satoshis that were granted.
    /// The premise is that the ids of its grants differ from each other and from those of its transactions.
    pub fn conserves_values(&self)
        ensures { GrantsAreApart self.now.blocks
            → sum_by (λ c. c.output.value) (unspent_of self.now.blocks) + fees_of self.now.blocks
            ≡ granted_of self.now.blocks }
    {
        let _ = &self.greatest;
    }
}

impl Coins for Index {
    ghost standing = { λ s. s };

    fn grant(&mut self, output: TxOut) -> Result<OutPoint, ChainError> {
        connecting::grant(self, output)
    }

    fn check_input(&self, tx: &Tx, index: usize) -> Result<(), ChainError> {
        checking::check_input(self, tx, index)
    }

    fn connect(&mut self, txs: Vec<Tx>) -> Result<u64, BlockError> {
        connecting::connect(self, txs)
    }

    fn disconnect(&mut self, k: u64) -> Result<Vec<Tx>, ChainError> {
        connecting::disconnect(self, k)
    }

    fn unspent(&self) -> Result<Unspent, AllocError> {
        totals::sum_unspent(self)
    }

    fn height(&self) -> u64 {
        self.blocks.as_slice().len() as u64 - 1
    }

    fn fees(&self) -> Result<u128, AllocError> {
        totals::sum_fees(self)
    }

    fn blocks(&self) -> &[Block] {
        self.blocks.as_slice()
    }
}
