//! What every chain answers, however it is stored.

ghost use Rattle.std.specs.Prelude.{◌≡◌, length, slice_get, reverse, Ok, Err, IfOk, MatchResult};
ghost use Rattle.chain.specs.Blocks.{Standing, fees_of, height_of};
ghost use Rattle.chain.specs.Connecting.{Connects, Disconnects, Grants};
ghost use Rattle.chain.specs.Refusals.{Answers};
ghost use Rattle.chain.specs.Checks.{indexed_refusal};
ghost use Rattle.chain.specs.Totals.{IsUnspent};

use crate::blocks::Block;
use crate::errors::{BlockError, ChainError};
use crate::totals::Unspent;
use std::alloc::AllocError;
use tx::{OutPoint, Tx, TxOut};

/// A simulated chain.
pub trait Coins {
    ghost use Rattle.chain.specs.Blocks.{Standing};

    /// The list of blocks, and the greatest height that it ever had.
    ghost standing: { Self → Standing };

    /// Adds an output to the newest block, and gives its outpoint. The id is SHA-256 twice of the ASCII bytes `grant` and the number of
    /// earlier grants in eight bytes, little-endian; the index is 0. The error is `BadProgram` where the script is not a version 0
    /// witness program (BIP 141).
    fn grant(&mut self, output: TxOut) -> Result<OutPoint, ChainError>
        ensures { Grants (standing self.old) output result (standing self.new) };

    /// Checks the input at this index for the next block: `Unknown`, `Spent`, `NotFinal`, `TooYoung`, `BadProgram` or `Script`, in this
    /// order. An index with no input is `Unknown`.
    fn check_input(&self, tx: &Tx, index: usize) -> Result<(), ChainError>
        ensures { Answers (indexed_refusal (standing self.now).blocks
            (length (standing self.now).blocks) tx.now (slice_get tx.now.inputs index)) result };

    /// Adds the next block, and gives its height. Each transaction is checked for `Twice`, then its inputs in their order, then for
    /// `OutputsExceed`; it may spend outputs of those before it. A refusal names the first transaction at fault and changes nothing.
    fn connect(&mut self, txs: Vec<Tx>) -> Result<u64, BlockError>
        ensures { Connects (standing self.old) txs.items result (standing self.new) };

    /// Takes the newest `k` blocks off, and gives their transactions in the order of the chain. The error is `TooDeep` where fewer than
    /// `k` blocks are above the first, where one of the `k` holds a grant, or where the height would fall more than 6 below the
    /// greatest so far.
    fn disconnect(&mut self, k: u64) -> Result<Vec<Tx>, ChainError>
        ensures { MatchResult result (λ txs. Disconnects (standing self.old) k (Ok txs.items)
            (standing self.new)) (λ e. Disconnects (standing self.old) k (Err e)
            (standing self.new)) };

    /// The number and value of the unspent outputs, those that no input on the chain spends.
    fn unspent(&self) -> Result<Unspent, AllocError>
        ensures { IfOk result (IsUnspent (standing self.now).blocks) };

    /// The height of the newest block; the first block has height 0.
    fn height(&self) -> u64
        ensures { result ≡ height_of (standing self.now).blocks };

    /// The fees of all transactions on the chain, in satoshis.
    fn fees(&self) -> Result<u128, AllocError>
        ensures { IfOk result (λ f. f ≡ fees_of (standing self.now).blocks) };

    /// The blocks, from height 0 up.
    fn blocks(&self) -> &[Block]
        ensures { result.now ≡ reverse (standing self.now).blocks };
}
