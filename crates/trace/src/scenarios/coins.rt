//! What was written so far, as far as later lines depend on it: the outputs on the chain and the pool, and how to undo the changes of a block that is
//! disconnected.

use crate::scenarios::standing::Standing;
use page::Page;
use page::Piece::{Count, Hash};
use std::alloc::{AllocError, Global};
use std::collections::BTreeMap;
use terms::Side;
use tx::OutPoint;

/// The kind of an output.
#[derive(Clone, Copy, Drop)]
pub enum Kind {
    /// The funding output of a channel.
    Funding,
    ToLocal,
    ToRemote,
    Htlc,
    /// The output of an HTLC transaction.
    SecondStage,
    /// An output to a side's own payment key.
    Wallet,
}

/// An output on the chain.
#[derive(Clone, Copy, Drop)]
pub struct Coin {
    pub channel: u64,
    /// In satoshis.
    pub value: u64,
    pub kind: Kind,
    /// The side that owns it; of an HTLC, the side that offered it.
    pub owner: Side,
    /// The side whose commitment it comes from.
    pub holder: Side,
    /// Whether that commitment was revoked.
    pub is_revoked: bool,
    /// The height of its block.
    pub height: u64,
    /// The height of the first block in which its lock is reached.
    pub due: u64,
}

/// A change that a block made.
#[derive(Clone, Copy, Drop)]
pub enum Change {
    Came(OutPoint),
    Went(OutPoint),
    /// The changes before it are those of the transaction
    /// with this id, in a block of this height.
    Mined { height: u64, txid: [u8; 32] },
}

/// The outputs that were ever on the chain, their changes in order, and the ids of the transactions that wait for a block, in order.
#[derive(Drop)]
pub struct Told {
    coins: BTreeMap<OutPoint, Coin>,
    changes: Vec<Change>,
    pub waiting: Vec<[u8; 32]>,
    /// What was read of closes, and the claims on what they pay.
    pub standing: Standing,
    /// The satoshis on the chain that only A can ever spend, and at once.
    pub of_a: u64,
    /// The same of B.
    pub of_b: u64,
    /// The note on the first event that was refused; empty where none was.
    pub first_refused: Page,
    /// The events that were refused.
    pub refused: Vec<usize>,
    // both as they were written last
    told_a: u64,
    told_b: u64,
}

impl Told {
    /// Nothing yet. The only error is that memory ran out.
    pub fn new(alloc: Global) -> Result<Told, AllocError> {
        Ok(Told {
            standing: Standing::new(alloc)?,
            coins: BTreeMap::new(alloc),
            changes: Vec::new(alloc),
            waiting: Vec::new(alloc),
            of_a: 0,
            of_b: 0,
            first_refused: Page::new(alloc),
            refused: Vec::new(alloc),
            told_a: 0,
            told_b: 0,
        })
    }

    /// The output that was at an outpoint.
    pub fn coin(&self, outpoint: &OutPoint) -> Option<Coin> {
        self.coins.get(outpoint).copied()
    }

    // Adds an output that only its owner can ever spend to its owner's value, or subtracts it.
    fn count(&mut self, coin: &Coin, comes: bool) {
        if !matches!(coin.kind, Kind::Wallet | Kind::ToRemote) {
            return;
        }
        let before = match coin.owner {
            Side::A => self.of_a,
            Side::B => self.of_b,
        };
        let after = if comes {
            before.saturating_add(coin.value)
        } else {
            before.saturating_sub(coin.value)
        };
        match coin.owner {
            Side::A => self.of_a = after,
            Side::B => self.of_b = after,
        }
    }

    /// Records a change. A transaction in a block comes after the changes that it made.
    pub fn note(&mut self, line: &mut Page, change: Change) {
        if self.changes.push(change).is_err() {
            line.fail();
        }
    }

    /// Adds an output that no reorganisation takes off.
    pub fn begin(&mut self, line: &mut Page, outpoint: &OutPoint, coin: Coin) {
        if self.coins.insert(*outpoint, coin).is_err() {
            line.fail();
        }
    }

    /// Adds an output.
    pub fn come(&mut self, line: &mut Page, outpoint: &OutPoint, coin: Coin) {
        self.count(&coin, true);
        self.begin(line, outpoint, coin);
        self.note(line, Change::Came(*outpoint));
    }

    /// Spends an output, and returns its value in satoshis.
    pub fn go(&mut self, line: &mut Page, outpoint: &OutPoint) -> u64 {
        self.note(line, Change::Went(*outpoint));
        match self.coin(outpoint) {
            Some(coin) => {
                self.count(&coin, false);
                coin.value
            }
            None => 0,
        }
    }

    /// Disconnects the blocks above a height, and writes
    /// the ids of their transactions, the last first.
    pub fn back_to(&mut self, line: &mut Page, height: u64) {
        for _ in 0..self.changes.len() {
            match self.changes.last().copied() {
                Some(Change::Mined { height: at, txid }) => {
                    if at <= height {
                        return;
                    }
                    line.element(r#""%""#, &[Hash(txid)]);
                }
                Some(Change::Came(outpoint)) => {
                    if let Some(coin) = self.coins.remove(&outpoint) {
                        self.count(&coin, false);
                    }
                }
                Some(Change::Went(outpoint)) => {
                    if let Some(coin) = self.coin(&outpoint) {
                        self.count(&coin, true);
                    }
                }
                None => return,
            }
            self.changes.pop();
        }
    }

    /// Writes the value that is each side's alone, if it changed since it was written last.
    pub fn tell_alone(&mut self, line: &mut Page) {
        let (a, b) = (self.of_a, self.of_b);
        if a != self.told_a || b != self.told_b {
            line.write(r#","onchain":{"A":%,"B":%}"#, &[Count(a), Count(b)]);
            self.told_a = a;
            self.told_b = b;
        }
    }
}
