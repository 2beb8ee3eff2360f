//! Blocks, and the transactions in them.

ghost use Rattle.std.specs.Prelude.{◌≡◌, ◌∷◌, reverse, IfOk, OnOk, OnErr, IfErr, MatchOption, [], List};
ghost use Rattle.tx.specs.Spelling.{transaction_id};
ghost use Rattle.tx.specs.Fields.{Transaction};
ghost use Rattle.tx.specs.Parts.{Output};
ghost use Rattle.chain.specs.Blocks.{empty_block, Contents};

use crate::copies::{Part, copies};
use lists::Stack;
use std::alloc::{AllocError, AllocFailed, Global};
use std::marker::Model;
use tx::{Tx, TxOut, txid};

/// A transaction in a block, with its id.
#[derive(Debug, Drop)]
pub struct Confirmed {
    id: [u8; 32],
    tx: Tx,
}

impl Model for Confirmed {
    ghost use Rattle.std.specs.Prelude.{◌≡◌};
    ghost use Rattle.tx.specs.Fields.{Transaction};
    ghost use Rattle.tx.specs.Spelling.{transaction_id};

    ghost Value = { Transaction };

    ghost view = { λ c. c.tx };

    ghost invariant = { λ c. c.id ≡ transaction_id c.tx };
}

impl Confirmed {
    /// A transaction with its id, which is computed here.
    pub fn new(tx: Tx) -> Self
        ensures { result ≡ tx }
    {
        Confirmed { id: txid(&tx), tx }
    }

    /// A copy of the transaction and its id. The only error is that memory ran out.
    pub fn copy(&self) -> Result<Self, AllocError>
        ensures { IfOk result (λ c. c ≡ self.now) }
    {
        Ok(Confirmed {
            id: self.id,
            tx: self.tx.copy()?,
        })
    }

    /// The id: SHA-256 twice of the transaction without its witnesses (BIP 141, "Transaction ID"),
    /// in the hash's own byte order.
    pub fn id(&self) -> &[u8; 32]
        ensures { result.now ≡ transaction_id self.now }
    {
        &self.id
    }

    /// The transaction.
    pub fn tx(&self) -> &Tx
        ensures { result.now ≡ self.now }
    {
        &self.tx
    }

    /// The transaction, without its id.
    pub fn into_tx(self) -> Tx
        ensures { result ≡ self }
    {
        let Confirmed { tx, id: _ } = self;
        tx
    }
}

/// A block: its transactions, and the outputs that were granted while it was the newest block.
#[derive(Debug, Drop)]
pub struct Block {
    transactions: Vec<Confirmed>,
    granted: Stack<TxOut>,
}

impl Model for Block {
    ghost use Rattle.std.specs.Prelude.{reverse};
    ghost use Rattle.chain.specs.Blocks.{Contents};

    ghost Value = { Contents };

    ghost view = { λ b. record { transactions = reverse b.transactions.items; granted = b.granted } };
}

impl Block {
    /// An empty block.
    pub(crate) fn new(alloc: Global) -> Self
        ensures { result ≡ empty_block }
    {
        Block {
            transactions: Vec::new(alloc),
            granted: Stack::new(alloc),
        }
    }

    /// The transactions in their order.
    pub fn transactions(&self) -> &[Confirmed]
        ensures { result.now ≡ reverse self.now.transactions }
    {
        self.transactions.as_slice()
    }

    /// The outputs that were granted, in their order.
    pub fn granted(&self) -> &[TxOut]
        ensures { result.now ≡ reverse self.now.granted }
    {
        self.granted.values()
    }

    // Appends a transaction; where memory runs out, it is given back.
    pub(crate) fn push(&mut self, confirmed: Confirmed) -> Result<(), AllocFailed<Confirmed>>
        ensures ok { OnOk result (self.new ≡ record self.old {
          transactions = confirmed
              ∷ self.old.transactions;
        }) }
        ensures err { OnErr result (self.new ≡ self.old) }
        ensures back { IfErr result (λ e. e.value ≡ confirmed) }
    {
        self.transactions.push(confirmed)
    }

    // Appends a granted output.
    pub(crate) fn grant(&mut self, output: TxOut) -> Result<(), AllocError>
        ensures ok { OnOk result (self.new ≡ record self.old {
          granted = output
              ∷ self.old.granted;
        }) }
        ensures err { OnErr result (self.new ≡ self.old) }
    {
        self.granted.push(output)
    }

    // Removes the last transaction and returns it.
    pub(crate) fn pop(&mut self) -> Option<Confirmed>
        ensures { MatchOption result ((self.old.transactions ≡ []) × (self.new ≡ self.old))
            (λ t. self.old ≡ record self.new { transactions = t ∷ self.new.transactions }) }
    {
        self.transactions.pop()
    }
}

impl Part for Block {
    fn copied(&self) -> Result<Self, AllocError> {
        let alloc = self.granted.allocator();
        let granted = copies(alloc, self.granted.values())?;
        Ok(Block {
            transactions: copies(alloc, &self.transactions)?,
            granted: Stack::from_vec(granted),
        })
    }
}
