//! What the two ways to store a chain have in common: what they find, and how they grow and shrink step by
//! step.

ghost use Rattle.std.specs.Prelude.{◌≡◌, ◌<◌, ◌≤◌, [], ◌∷◌, length, reverse, OnOk, OnErr, option_map, max, None, ◌%◌, ◌^◌};
ghost use Rattle.chain.specs.Blocks.{Contents, Standing, Coin, empty_block, height_of, coin_at, has_id, is_named, grants_in};
ghost use Rattle.chain.specs.Connecting.{with_transaction, with_grant, has_grant};
ghost use Rattle.chain.specs.Checks.{transaction_refusal};
ghost use Rattle.chain.specs.Storing.{found_coin, taken_off, MayTakeOff};

use crate::blocks::{Block, Confirmed};
use std::alloc::{AllocError, Global};
use tx::{OutPoint, TxOut};

/// An output that was created on the chain.
#[derive(Clone, Copy, Drop)]
pub struct Found<'a> {
    pub output: &'a TxOut,
    /// The height of its block.
    pub height: u64,
    /// An input on the chain spends it.
    pub spent: bool,
}

/// A way to store the list of blocks.
pub trait Store {
    ghost use Rattle.chain.specs.Blocks.{Standing};

    /// The list of blocks, and the greatest height that it ever had.
    ghost standing: { Self → Standing };

    /// The allocator that holds the blocks.
    fn allocator(&self) -> Global;

    /// The blocks, the first of which has height 0.
    fn blocks(&self) -> &[Block]
        ensures value { result.now ≡ reverse (standing self.now).blocks }
        ensures some { 0 < length result.now }
        ensures count { length result.now ≡ length (standing self.now).blocks };

    /// The greatest height that the chain ever had.
    fn greatest(&self) -> u64
        ensures { result ≡ (standing self.now).greatest };

    /// The output at an outpoint.
    fn find(&self, outpoint: &OutPoint) -> Option<Found<'_>>
        ensures { option_map found_coin result ≡ coin_at (standing self.now).blocks outpoint.now };

    /// Whether an input on the chain spends the outpoint.
    fn is_named(&self, outpoint: &OutPoint) -> bool
        ensures { result ≡ is_named (standing self.now).blocks outpoint.now };

    /// Whether a transaction with this id is on the chain.
    fn has_id(&self, id: &[u8; 32]) -> bool
        ensures { result ≡ has_id (standing self.now).blocks id.now };

    /// Adds an empty block.
    fn begin(&mut self) -> Result<(), AllocError>
        ensures ok { OnOk result (standing self.new
            ≡ record (standing self.old) { blocks = empty_block ∷ (standing self.old).blocks }) }
        ensures some { 0 < length (standing self.old).blocks }
        ensures err { OnErr result (standing self.new ≡ standing self.old) };

    /// Adds a transaction that passes its tests to the newest block, in which nothing was granted yet.
    fn add(&mut self, confirmed: Confirmed) -> Result<(), AllocError>
        requires passes { transaction_refusal (standing self.old).blocks confirmed ≡ None }
        requires no_grant { MayTakeOff (standing self.old).blocks }
        ensures ok { OnOk result (standing self.new
            ≡ record (standing self.old) {
              blocks = with_transaction
                  (standing self.old).blocks confirmed;
            }) }
        ensures err { OnErr result (standing self.new ≡ standing self.old) };

    /// Takes off the newest block, which holds no grant and is not the first.
    fn take_off(&mut self)
        requires more { 1 < length (standing self.old).blocks }
        requires no_grant { MayTakeOff (standing self.old).blocks }
        ensures { standing self.new ≡ record (standing self.old) {
          blocks = taken_off
              (standing self.old).blocks;
        } };

    /// Adds a granted output to the newest block.
    fn add_grant(&mut self, output: TxOut) -> Result<(), AllocError>
        ensures ok { OnOk result (standing self.new
            ≡ record (standing self.old) {
              blocks = with_grant
                  (standing self.old).blocks output;
            }) }
        ensures err { OnErr result (standing self.new ≡ standing self.old) };

    /// The number of outputs granted, modulo 2^64.
    fn grants(&self) -> u64
        ensures { result ≡ grants_in (standing self.now).blocks % 2 ^ 64 };

    /// Updates the greatest height with the height of the chain.
    fn note_height(&mut self)
        ensures { standing self.new ≡ record (standing self.old) {
          greatest = max
              (standing self.old).greatest (height_of (standing self.old).blocks);
        } };
}
