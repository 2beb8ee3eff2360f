//! The outputs of a transaction.

ghost use Rattle.std.specs.Prelude.{◌≡◌, ◌≤◌, ◌↔◌, nat_lt, length, IsTrue, IfOk, if◌then◌else◌};
ghost use Rattle.tx.specs.declared.limits.TheConstants.{MAX_VALUE as max_value, MAX_BYTES as max_bytes};
ghost use Rattle.tx.specs.Fields.{total_value};

use crate::errors::FieldError;
use crate::limited::{Element, LimitedList};
use crate::limits::{MAX_BYTES, MAX_OUTPUTS, MAX_VALUE};
use lists::ByteString;
use std::alloc::AllocError;
use std::marker::Model;

/// An output.
#[derive(Debug, Drop)]
pub struct TxOut {
    value: u64,
    script: ByteString,
}

impl Model for TxOut {
    ghost use Rattle.tx.specs.Parts.{Output, IsOutput};

    ghost Value = { Output };

    ghost view = { λ a. record { value = a.value; script = a.script } };

    ghost invariant = { λ a. IsOutput (record { value = a.value; script = a.script }) };
}

impl TxOut {
    /// An output of this value in satoshis with this script, which it takes over. The error is ValueTooLarge where the value is
    /// above 21,000,000 bitcoins, else OverLimit where the script has more than 10,000 bytes.
    pub fn new(value: u64, script: ByteString) -> Result<Self, FieldError>
        ensures { result ≡ (if nat_lt max_value value then Err FieldError.ValueTooLarge
            else if nat_lt max_bytes (length script) then Err FieldError.OverLimit
            else Ok (record { value = value; script = script })) }
    {
        if value > MAX_VALUE {
            return Err(FieldError::ValueTooLarge);
        }
        if script.len() > MAX_BYTES {
            return Err(FieldError::OverLimit);
        }
        Ok(TxOut { value, script })
    }

    /// The value in satoshis.
    pub fn value(&self) -> u64
        ensures value { result ≡ self.now.value }
        ensures limit { result ≤ max_value }
    {
        self.value
    }

    /// The script that says who may spend it.
    pub fn script(&self) -> &ByteString
        ensures value { result.now ≡ self.now.script }
        ensures limit { length result.now ≤ max_bytes }
    {
        &self.script
    }

    /// Takes the script out of the output without copying it.
    pub fn into_script(self) -> ByteString
        ensures value { result ≡ self.script }
        ensures limit { length result ≤ max_bytes }
    {
        let TxOut { value: _, script } = self;
        script
    }

    /// An equal output. The only error is that memory ran out.
    pub fn copy(&self) -> Result<Self, AllocError>
        ensures { IfOk result (λ o. o ≡ self.now) }
    {
        Ok(TxOut {
            value: self.value,
            script: self.script.copy()?,
        })
    }

    /// Whether the two outputs have the same value and script.
    pub fn equals(&self, other: &Self) -> bool
        ensures { IsTrue result ↔ (self.now ≡ other.now) }
    {
        self.value == other.value && self.script.equals(&other.script)
    }
}

/// At most 4,000 outputs.
pub type Outputs = LimitedList<TxOut>;

impl Element for TxOut {
    ghost use Rattle.std.specs.Prelude.{true};
    ghost use Rattle.tx.specs.declared.limits.TheConstants.{MAX_OUTPUTS as max_outputs};
    ghost use Rattle.tx.specs.Parts.{IsOutput};

    const LIMIT: usize = MAX_OUTPUTS;

    ghost LIMIT = { max_outputs };

    ghost is_bounded = { λ _. true };

    ghost Keeps = { IsOutput };

    fn is_bounded(&self) -> bool {
        // The proof learns the limits of the value and the script where they are read.
        let _ = &self.value;
        true
    }

    fn copy(&self) -> Result<Self, AllocError> {
        TxOut::copy(self)
    }

    fn equals(&self, other: &Self) -> bool {
        TxOut::equals(self, other)
    }
}

/// The sum of the values of outputs in satoshis. No number of outputs overflows it.
pub fn total_value(outputs: &[TxOut]) -> u128
    ensures { result ≡ total_value outputs.now }
{
    let mut total = 0;
    for output in outputs {
        total += u128::from(output.value());
    }
    total
}
