// Reads a transaction with the outputs that it spends.

use crate::witnesses::errors::SpentError;
use hex::FromHexError;
use lists::ByteString;
use std::alloc::Global;
use streams::InputError;
use tx::{DecodeError, Tx, TxOut, decode};

/// Reads the transaction on the first line of a text.
pub fn read_tx(alloc: Global, text: &str) -> Result<Tx, SpentError> {
    match hex::decode(alloc, text.lines().next().unwrap_or("")) {
        Ok(bytes) => match decode(alloc, bytes.as_slice()) {
            Ok(tx) => Ok(tx),
            Err(DecodeError::NoMemory) => Err(SpentError::Input(InputError::NoMemory)),
            Err(error) => Err(SpentError::Decode(error)),
        },
        Err(FromHexError::OutOfMemory) => Err(SpentError::Input(InputError::NoMemory)),
        Err(_) => Err(SpentError::Input(InputError::BadHex)),
    }
}

// Appends the output on the line of this number.
fn read_output(
    alloc: Global,
    outputs: &mut Vec<TxOut>,
    line: &str,
    number: usize,
) -> Result<(), SpentError> {
    let Some((value, program)) = line.split_once(' ') else {
        return Err(SpentError::BadLine(number));
    };
    let Ok(value) = value.parse::<u64>() else {
        return Err(SpentError::BadLine(number));
    };
    match hex::decode(alloc, program) {
        Ok(program) => match TxOut::new(value, ByteString::from_vec(program)) {
            Ok(output) => match outputs.push(output) {
                Ok(()) => Ok(()),
                Err(_) => Err(SpentError::Input(InputError::NoMemory)),
            },
            Err(_) => Err(SpentError::BadLine(number)),
        },
        Err(FromHexError::OutOfMemory) => Err(SpentError::Input(InputError::NoMemory)),
        Err(_) => Err(SpentError::BadLine(number)),
    }
}

/// Appends the outputs on the lines after the first, which have to be this many.
pub fn read_outputs(
    alloc: Global,
    outputs: &mut Vec<TxOut>,
    text: &str,
    count: usize,
) -> Result<(), SpentError> {
    if text.lines().count().saturating_sub(1) != count {
        return Err(SpentError::BadCount);
    }
    let mut number = 0usize;
    for line in text.lines() {
        number = number.saturating_add(1);
        if number > 1 {
            read_output(alloc, outputs, line, number)?;
        }
    }
    Ok(())
}
