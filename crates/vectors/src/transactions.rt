//! Reads transactions, a line of hexadecimal each. It prints the id in the hash's own byte order, and the numbers of inputs, witness items and outputs. It also prints
//! whether `tx` writes the same bytes again, with and without witnesses. A line of four words asks for a digest (BIP 143): a stripped transaction, the index of an
//! input, the script code, and the value in satoshis that the input spends.
//!
//! The lines have published transactions, the examples of BIP 143, and transactions from an independent script. The expected output is what was published of them, or
//! what that script says.

use crate::number;
use page::Page;
use sighash::digest_of;
use std::alloc::Global;
use tx::{Tx, decode, decode_stripped, encode, encode_stripped, txid};

/// The number of witness items of all inputs.
fn item_count(tx: &Tx) -> u64 {
    let mut count = 0u64;
    for input in tx.inputs() {
        count = count.saturating_add(input.witness.len() as u64);
    }
    count
}

/// Whether `tx` writes these bytes for the transaction.
fn is_written(alloc: Global, bytes: &[u8], tx: &Tx) -> bool {
    match encode(alloc, tx) {
        Ok(written) => written.as_slice() == bytes,
        Err(_) => false,
    }
}

/// Whether a transaction is another one without its witnesses, with its id.
fn is_bare(bare: &Tx, tx: &Tx) -> bool {
    match tx.copy() {
        Ok(mut copy) => {
            copy.strip_witnesses();
            bare.equals(&copy) && txid(bare) == txid(tx)
        }
        Err(_) => false,
    }
}

/// Whether these bytes are read as the transaction without its witnesses.
fn reads_bare(alloc: Global, stripped: &[u8], tx: &Tx) -> bool {
    match decode_stripped(alloc, stripped) {
        Ok(bare) => is_bare(&bare, tx),
        Err(_) => false,
    }
}

/// Whether the transaction's stripped form is read as the transaction without its witnesses.
fn comes_back(alloc: Global, tx: &Tx) -> bool {
    match encode_stripped(alloc, tx) {
        Ok(stripped) => reads_bare(alloc, stripped.as_slice(), tx),
        Err(_) => false,
    }
}

/// Shows the transaction with these bytes.
fn show_tx(page: &mut Page, bytes: &[u8], tx: &Tx) {
    page.hex("", &txid(tx));
    page.count(" inputs ", tx.inputs().len() as u64);
    page.count(" items ", item_count(tx));
    page.count(" outputs ", tx.outputs().len() as u64);
    let is_same = comes_back(page.alloc(), tx) && is_written(page.alloc(), bytes, tx);
    page.push(if is_same { " back\n" } else { " changed\n" });
}

/// Shows the transaction that is read from these bytes.
fn show_bytes(page: &mut Page, bytes: &[u8]) {
    match decode(page.alloc(), bytes) {
        Ok(tx) => show_tx(page, bytes, &tx),
        Err(refusal) => page.refuse(&refusal),
    }
}

/// Shows the transaction of a line.
fn show_transaction(page: &mut Page, text: &str) {
    match hex::decode(page.alloc(), text) {
        Ok(bytes) => show_bytes(page, bytes.as_slice()),
        Err(_) => page.push("refused BadHex\n"),
    }
}

/// Shows the digest of an input with this script code and this value.
fn show_digest(page: &mut Page, tx: &Tx, index: usize, code: &[u8], value: u64) {
    match digest_of(tx, index, code, value) {
        Ok(digest) => {
            page.hex("", &digest);
            page.push("\n");
        }
        Err(refusal) => page.refuse(&refusal),
    }
}

/// Shows the digest of an input of the transaction with these bytes.
fn show_stripped(page: &mut Page, stripped: &[u8], index: usize, code: &[u8], value: u64) {
    match decode_stripped(page.alloc(), stripped) {
        Ok(tx) => show_digest(page, &tx, index, code, value),
        Err(refusal) => page.refuse(&refusal),
    }
}

/// The same, where the script code is in hexadecimal.
fn show_coded(page: &mut Page, stripped: &[u8], index: usize, code: &str, value: u64) {
    match hex::decode(page.alloc(), code) {
        Ok(code) => show_stripped(page, stripped, index, code.as_slice(), value),
        Err(_) => page.push("refused BadHex\n"),
    }
}

/// Shows the digest that a stripped transaction and further words ask for.
fn show_asked(page: &mut Page, stripped: &str, words: &str) {
    let (index, rest) = words.split_once(' ').unwrap_or((words, ""));
    let (code, value) = rest.split_once(' ').unwrap_or((rest, ""));
    let index = number(Some(index)) as usize;
    match hex::decode(page.alloc(), stripped) {
        Ok(bytes) => show_coded(page, bytes.as_slice(), index, code, number(Some(value))),
        Err(_) => page.push("refused BadHex\n"),
    }
}

/// Shows all lines.
pub fn show_all(page: &mut Page, lines: &str) {
    for line in lines.lines() {
        match line.split_once(' ') {
            Some((stripped, words)) => show_asked(page, stripped, words),
            None => show_transaction(page, line),
        }
    }
}
