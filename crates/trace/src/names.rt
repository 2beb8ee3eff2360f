//! The names of the sides, and of transactions.

use page::Piece;
use page::Piece::{Hash, Text};
use terms::Side;

/// The name of a side.
pub fn side_name(side: Side) -> Piece {
    match side {
        Side::A => Text("A"),
        Side::B => Text("B"),
    }
}

/// A transaction's id as explorers and nodes show it: its bytes in the opposite order.
pub fn explorer_id(txid: &[u8; 32]) -> Piece {
    let mut id = *txid;
    id.reverse();
    Hash(id)
}
