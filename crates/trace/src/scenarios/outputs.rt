//! Spent outputs, and new ones with who can spend them when.

use crate::names::side_name;
use crate::scenarios::coins::{Coin, Kind, Told};
use chain::Confirmed;
use page::Page;
use page::Piece::{Count, Hash, Text};
use tx::{OutPoint, Tx};

/// Writes the outputs that a transaction spends, as elements of an array.
pub fn tell_spends(line: &mut Page, tx: &Tx) {
    for input in tx.inputs() {
        let txid = input.outpoint.txid;
        let index = u64::from(input.outpoint.index);
        line.element(r#""%:%""#, &[Hash(txid), Count(index)]);
    }
}

/// Writes a new output of a transaction, and leaves its object open. Its owner is the first that can spend it.
pub fn tell_output(
    line: &mut Page,
    told: &mut Told,
    confirmed: &Confirmed,
    index: u32,
    coin: Coin,
) {
    let (kind, by) = match coin.kind {
        Kind::Funding => ("funding", "key"),
        Kind::ToLocal => ("to_local", "delay"),
        Kind::ToRemote => ("to_remote", "key"),
        Kind::Htlc => ("htlc", "timeout"),
        Kind::SecondStage => ("second_stage", "delay"),
        Kind::Wallet => ("wallet", "key"),
    };
    let (txid, owner) = (*confirmed.id(), side_name(coin.owner));
    line.element(
        r#"{"outpoint":"%:%","value":%,"kind":"%","owner":"%","ways":[{"side":"%","by":"%","due":%}"#,
        &[
            Hash(txid),
            Count(u64::from(index)),
            Count(coin.value),
            Text(kind),
            owner,
            owner,
            Text(by),
            Count(coin.due),
        ],
    );
    if matches!(coin.kind, Kind::Htlc) {
        line.write(
            r#",{"side":"%","by":"preimage","due":%}"#,
            &[side_name(coin.owner.other()), Count(coin.height)],
        );
    }
    if coin.is_revoked && matches!(coin.kind, Kind::ToLocal | Kind::SecondStage | Kind::Htlc) {
        line.write(
            r#",{"side":"%","by":"revocation","due":%}"#,
            &[side_name(coin.holder.other()), Count(coin.height)],
        );
    }
    line.push("]");
    told.come(line, &OutPoint { txid, index }, coin);
}
