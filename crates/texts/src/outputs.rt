//! Outputs of transactions.

use crate::allocating::{ReadValue, read_item};
use crate::errors::ShapeError;
use crate::values::{array_of, item};
use json_value::Value;
use lists::ByteString;
use std::alloc::Global;
use tx::TxOut;

/// An array of the value in satoshis and the script in hexadecimal, both within the limits of an output.
impl ReadValue for TxOut {
    ghost use Rattle.texts.specs.Outputs.{output_of};

    ghost reads = { output_of };

    #[tactic(auto, unfolding(crate::specs::Outputs::output_of))]
    fn read_value(alloc: Global, value: &Value) -> Result<TxOut, ShapeError> {
        let pair = array_of(value, 2).ok_or(ShapeError::BadShape)?;
        let satoshis: u64 = item(pair, 0).ok_or(ShapeError::BadShape)?;
        let script: ByteString = read_item(alloc, pair, 1)?;
        TxOut::new(satoshis, script).map_err(|_| ShapeError::BadShape)
    }
}
