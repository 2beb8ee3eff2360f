//! The inputs of a transaction.

ghost use Rattle.std.specs.Prelude.{◌≡◌, ◌<◌, ◌↔◌, IsTrue, IfOk, length};
ghost use Rattle.tx.specs.Fields.{inputs_with_witness, unsigned_inputs, AreInputs};

use crate::limited::{Element, LimitedList};
use crate::limits::MAX_INPUTS;
use crate::witness::Witness;
use std::alloc::AllocError;

/// The output that an input spends. Outpoints are ordered by their ids, byte by byte, and then by their indices.
#[derive(Clone, Copy, Debug, PartialEq, Eq, PartialOrd, Ord, Hash, Drop)]
pub struct OutPoint {
    /// The id of the transaction that has the output, in the hash's own byte order.
    pub txid: [u8; 32],
    /// Which of that transaction's outputs it is, from 0.
    pub index: u32,
}

/// An input. Its input script is empty, as spending a version 0 witness program requires (BIP 141).
#[derive(Debug, Drop)]
pub struct TxIn {
    pub outpoint: OutPoint,
    /// The sequence number (BIP 68).
    pub sequence: u32,
    pub witness: Witness,
}

impl TxIn {
    /// An equal input. The only error is that memory ran out.
    pub fn copy(&self) -> Result<Self, AllocError>
        ensures { IfOk result (λ i. i ≡ self.now) }
    {
        Ok(TxIn {
            outpoint: self.outpoint,
            sequence: self.sequence,
            witness: self.witness.copy()?,
        })
    }

    /// Whether the two inputs have the same outpoint, sequence number and witness.
    pub fn equals(&self, other: &Self) -> bool
        ensures { IsTrue result ↔ (self.now ≡ other.now) }
    {
        self.outpoint == other.outpoint
            && self.sequence == other.sequence
            && self.witness.equals(&other.witness)
    }
}

/// At most 4,000 inputs.
pub type Inputs = LimitedList<TxIn>;

impl Element for TxIn {
    ghost use Rattle.std.specs.Prelude.{true};
    ghost use Rattle.tx.specs.declared.limits.TheConstants.{MAX_INPUTS as max_inputs};
    ghost use Rattle.tx.specs.Fields.{IsInput};

    const LIMIT: usize = MAX_INPUTS;

    ghost LIMIT = { max_inputs };

    ghost is_bounded = { λ _. true };

    ghost Keeps = { IsInput };

    fn is_bounded(&self) -> bool {
        // The proof learns the range of each number, and the limits of the witness, where they are read.
        let _index = self.outpoint.index;
        let _sequence = self.sequence;
        let _ = self.witness.as_slice();
        true
    }

    fn copy(&self) -> Result<Self, AllocError> {
        TxIn::copy(self)
    }

    fn equals(&self, other: &Self) -> bool {
        TxIn::equals(self, other)
    }
}

impl LimitedList<TxIn> {
    /// Replaces the witness of the input at `index`, counted from 0.
    pub fn set_witness(&mut self, index: usize, witness: Witness)
        requires { index < length self.old }
        ensures value { self.new ≡ inputs_with_witness self.old index witness }
        ensures len { length self.new ≡ length self.old }
        ensures limits { AreInputs self.new }
    {
        // The proof learns the witness's limits where it is read.
        let _ = witness.as_slice();
        let input = &mut self.items[index];
        input.witness = witness;
    }

    /// Removes the witness items of all inputs.
    pub fn strip_witnesses(&mut self)
        ensures value { self.new ≡ unsigned_inputs self.old }
        ensures len { length self.new ≡ length self.old }
        ensures limits { AreInputs self.new }
    {
        let alloc = *self.items.allocator();
        for i in 0..self.items.len() {
            let input = &mut self.items[i];
            input.witness = Witness::new(alloc);
        }
    }
}
