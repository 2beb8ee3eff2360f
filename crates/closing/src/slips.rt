// Witnesses with one item replaced.

use crate::cases::Slip;
use lists::ByteString;
use std::alloc::{AllocError, Global};
use tx::{Tx, Witness};

/// The bytes of a token over another digest: the last bit of the digest is flipped.
fn other_digest(alloc: Global, token: &[u8]) -> Result<ByteString, AllocError> {
    let mut bytes = Vec::from_slice(alloc, token)?;
    if let Some(last) = bytes.get_mut(64) {
        *last ^= 1;
    }
    Ok(ByteString::from_vec(bytes))
}

/// The index in a witness of the item to replace: the topmost
/// token, or the top item, which stands before the script.
fn place_of(slip: Slip, items: &[ByteString]) -> Option<usize> {
    match slip {
        Slip::OtherToken => items.iter().rposition(|item| item.len() == 66),
        Slip::OtherTop => items.len().checked_sub(2),
        _ => None,
    }
}

/// An item of the new witness: the same, or another one in its place.
fn item_of(alloc: Global, item: &ByteString, is_kept: bool) -> Result<ByteString, AllocError> {
    if is_kept {
        item.copy()
    } else if item.len() == 66 {
        other_digest(alloc, item.bytes())
    } else {
        ByteString::from_slice(alloc, &[6; 32])
    }
}

/// Appends an item. Returns whether there was memory.
fn push(witness: &mut Witness, item: Result<ByteString, AllocError>) -> bool {
    match item {
        Ok(item) => witness.push(item).is_ok(),
        Err(_) => false,
    }
}

/// Appends the items, with the one at this index replaced. Returns whether there was memory.
fn push_all(alloc: Global, witness: &mut Witness, items: &[ByteString], place: usize) -> bool {
    for (index, item) in items.iter().enumerate() {
        if !push(witness, item_of(alloc, item, index != place)) {
            return false;
        }
    }
    true
}

/// The items, with the one at this index replaced.
fn spoilt(alloc: Global, items: &[ByteString], place: usize) -> Option<Witness> {
    let mut witness = Witness::new(alloc);
    if push_all(alloc, &mut witness, items, place) {
        Some(witness)
    } else {
        None
    }
}

/// The witness of the first input, with the slip applied; `None` if there is nothing to apply.
fn witness_of(alloc: Global, slip: Slip, tx: &Tx) -> Option<Witness> {
    let items = tx.inputs().first()?.witness.as_slice();
    spoilt(alloc, items, place_of(slip, items)?)
}

/// Applies the slip to the witness of a transaction.
pub fn spoil(alloc: Global, slip: Slip, tx: &mut Tx) {
    if tx.inputs().is_empty() {
        return;
    }
    if let Some(witness) = witness_of(alloc, slip, tx) {
        tx.set_witness(0, witness);
    }
}
