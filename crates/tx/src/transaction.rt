//! Transactions.

ghost use Rattle.std.specs.Prelude.{◌≡◌, ◌<◌, ◌↔◌, ◌==◌, length, IsTrue, IfOk, if◌then◌else◌};
ghost use Rattle.tx.specs.Fields.{AreInputs, AreOutputs, KeepsLimits, has_witness, transaction_with_witness, unsigned_transaction};

use crate::errors::FieldError;
use crate::input::{Inputs, TxIn};
use crate::output::{Outputs, TxOut};
use crate::witness::Witness;
use std::alloc::AllocError;
use std::marker::Model;

/// Whether a witness has an item.
pub(crate) fn has_witness(inputs: &[TxIn]) -> bool
    ensures { result ≡ has_witness inputs.now }
{
    inputs.iter().any(|input| !input.witness.is_empty())
}

/// A transaction with at least one input.
#[derive(Debug, Drop)]
pub struct Tx {
    version: u32,
    inputs: Inputs,
    outputs: Outputs,
    lock_time: u32,
}

/// The fields of a transaction that was taken apart.
#[derive(Debug, Drop)]
pub struct TxParts {
    pub version: u32,
    pub inputs: Inputs,
    pub outputs: Outputs,
    /// A height below 500,000,000, else a time in seconds.
    pub lock_time: u32,
}

impl Model for Tx {
    ghost use Rattle.tx.specs.Fields.{Transaction, KeepsLimits};

    ghost Value = { Transaction };

    ghost view = { λ a. record { version = a.version; inputs = a.inputs; outputs = a.outputs; lock_time = a.lock_time } };

    ghost invariant = { λ a. KeepsLimits (record { version = a.version; inputs = a.inputs; outputs = a.outputs; lock_time = a.lock_time }) };
}

impl Clone for Tx {
    ghost use Rattle.std.specs.Prelude.{◌≡◌};

    ghost is_clone = { λ t copy. copy ≡ t };

    fn clone(&self) -> Result<Self, AllocError> {
        self.copy()
    }
}

impl Tx {
    /// A transaction of these fields, without allocating. The error is NoInputs where there is no input.
    pub fn new(
        version: u32,
        inputs: Inputs,
        outputs: Outputs,
        lock_time: u32,
    ) -> Result<Self, FieldError>
        ensures { result ≡ (if length inputs == 0 then Err FieldError.NoInputs
            else Ok (record {
              version = version;
              inputs = inputs;
              outputs = outputs;
              lock_time = lock_time;
            })) }
    {
        // The proof learns the limits of both lists where they are read.
        let _ = inputs.as_slice();
        let _ = outputs.as_slice();
        if inputs.is_empty() {
            return Err(FieldError::NoInputs);
        }
        Ok(Tx {
            version,
            inputs,
            outputs,
            lock_time,
        })
    }

    /// Takes the transaction apart without copying. `Tx::new` puts the fields together again.
    pub fn into_parts(self) -> TxParts
        ensures version { result.version ≡ self.version }
        ensures inputs { result.inputs ≡ self.inputs }
        ensures outputs { result.outputs ≡ self.outputs }
        ensures lock_time { result.lock_time ≡ self.lock_time }
        ensures some { 0 < length result.inputs }
    {
        let Tx {
            version,
            inputs,
            outputs,
            lock_time,
        } = self;
        TxParts {
            version,
            inputs,
            outputs,
            lock_time,
        }
    }

    /// The version, which says whether sequence numbers are relative locks (BIP 68).
    pub fn version(&self) -> u32
        ensures { result ≡ self.now.version }
    {
        self.version
    }

    /// The inputs, at least one.
    pub fn inputs(&self) -> &[TxIn]
        ensures value { result.now ≡ self.now.inputs }
        ensures some { 0 < length result.now }
        ensures limits { AreInputs result.now }
    {
        self.inputs.as_slice()
    }

    /// The outputs.
    pub fn outputs(&self) -> &[TxOut]
        ensures value { result.now ≡ self.now.outputs }
        ensures limits { AreOutputs result.now }
    {
        self.outputs.as_slice()
    }

    /// The lock time: a block height below 500,000,000, else a time in seconds since 1970 (BIP 65).
    pub fn lock_time(&self) -> u32
        ensures { result ≡ self.now.lock_time }
    {
        self.lock_time
    }

    /// Whether some witness has an item, so that the transaction can be encoded.
    pub fn has_witness(&self) -> bool
        ensures { result ≡ has_witness self.now.inputs }
    {
        has_witness(self.inputs.as_slice())
    }

    /// Replaces the witness of the input at `index`, counted from 0. It allocates nothing.
    pub fn set_witness(&mut self, index: usize, witness: Witness)
        requires { index < length self.old.inputs }
        ensures { self.new ≡ transaction_with_witness self.old index witness }
    {
        self.inputs.set_witness(index, witness);
    }

    /// Removes the witness items of all inputs. It allocates nothing.
    pub fn strip_witnesses(&mut self)
        ensures { self.new ≡ unsigned_transaction self.old }
    {
        self.inputs.strip_witnesses();
    }

    /// An equal transaction. The only error is that memory ran out.
    pub fn copy(&self) -> Result<Self, AllocError>
        ensures { IfOk result (λ t. t ≡ self.now) }
    {
        Ok(Tx {
            version: self.version,
            inputs: self.inputs.copy()?,
            outputs: self.outputs.copy()?,
            lock_time: self.lock_time,
        })
    }

    /// Whether the two transactions have equal fields, witnesses included.
    pub fn equals(&self, other: &Self) -> bool
        ensures { IsTrue result ↔ (self.now ≡ other.now) }
    {
        self.lock_time == other.lock_time
            && self.version == other.version
            && self.inputs.equals(&other.inputs)
            && self.outputs.equals(&other.outputs)
    }

    // What the proof of `encode` learns: every transaction keeps its limits, which are seen where a field is read.
    pub(crate) fn keeps_limits(&self)
        ensures { KeepsLimits self.now }
    {
        let _ = &self.version;
    }
}
