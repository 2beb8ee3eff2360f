//! The list of blocks.

ghost use Rattle.std.specs.Prelude.{◌≡◌, ◌<◌, ◌∷◌, [], length, reverse, IfOk, IfErr, OnOk, OnErr};
ghost use Rattle.chain.specs.Blocks.{Contents, empty_block};
ghost use Rattle.chain.specs.Connecting.{with_transaction, with_grant};

use crate::blocks::{Block, Confirmed};
use crate::copies::copies;
use std::alloc::{AllocError, AllocFailed, Global};
use std::marker::Model;
use tx::TxOut;

/// At least one block. A contract sees them with the newest first.
#[derive(Drop)]
pub struct Blocks {
    items: Vec<Block>,
}

impl Model for Blocks {
    ghost use Rattle.std.specs.Prelude.{List, reverse, ◌<◌, length};
    ghost use Rattle.chain.specs.Blocks.{Contents};

    ghost Value = { List Contents };

    ghost view = { λ b. reverse b.items.items };

    ghost invariant = { λ b. 0 < length b.items.items };
}

impl Blocks {
    /// One empty block.
    pub fn new(alloc: Global) -> Result<Self, AllocError>
        ensures { IfOk result (λ b. b ≡ empty_block ∷ []) }
    {
        let mut items = Vec::new(alloc);
        items.push(Block::new(alloc))?;
        Ok(Blocks { items })
    }

    /// The allocator that holds them.
    pub fn allocator(&self) -> Global {
        *self.items.allocator()
    }

    /// The blocks, the oldest first.
    pub fn as_slice(&self) -> &[Block]
        ensures value { result.now ≡ reverse self.now }
        ensures some { 0 < length result.now }
        ensures count { length result.now ≡ length self.now }
    {
        self.items.as_slice()
    }

    /// A copy of the blocks. The only error is that memory ran out.
    pub fn copy(&self) -> Result<Self, AllocError>
        ensures { IfOk result (λ b. b ≡ self.now) }
    {
        let items = copies(self.allocator(), &self.items)?;
        Ok(Blocks { items })
    }

    /// Adds an empty block.
    pub fn begin(&mut self) -> Result<(), AllocError>
        ensures ok { OnOk result (self.new ≡ empty_block ∷ self.old) }
        ensures some { 0 < length self.old }
        ensures err { OnErr result (self.new ≡ self.old) }
    {
        let alloc = *self.items.allocator();
        self.items.push(Block::new(alloc))?;
        Ok(())
    }

    /// Adds a transaction to the newest block; where memory runs out, it is given back.
    pub fn push(&mut self, confirmed: Confirmed) -> Result<(), AllocFailed<Confirmed>>
        ensures ok { OnOk result (self.new ≡ with_transaction self.old confirmed) }
        ensures err { OnErr result (self.new ≡ self.old) }
        ensures back { IfErr result (λ e. e.value ≡ confirmed) }
    {
        let last = self.items.len() - 1;
        let newest = &mut self.items[last];
        newest.push(confirmed)
    }

    /// Adds a granted output to the newest block.
    pub fn grant(&mut self, output: TxOut) -> Result<(), AllocError>
        ensures ok { OnOk result (self.new ≡ with_grant self.old output) }
        ensures some { 0 < length self.old }
        ensures err { OnErr result (self.new ≡ self.old) }
    {
        let last = self.items.len() - 1;
        let newest = &mut self.items[last];
        newest.grant(output)
    }

    /// Removes the newest block and returns it.
    pub fn pop(&mut self) -> Block
        requires { 1 < length self.old }
        ensures { self.old ≡ result ∷ self.new }
    {
        match self.items.pop() {
            Some(block) => block,
            None => unreachable!(),
        }
    }
}
