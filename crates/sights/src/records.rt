//! The transactions that were read.

ghost use Rattle.std.specs.Prelude.{◌≡◌};
ghost use Rattle.sights.specs.Origins.{made_of};

use crate::origins::{Origin, forget, note};
use crate::sighted::{Sighted, Stage};
use chain::Confirmed;
use lists::Stack;
use std::alloc::{AllocError, Global};
use std::collections::BTreeMap;
use std::marker::Model;
use tx::OutPoint;

/// The transactions that were read. A contract sees them as a list, the newest first.
#[derive(Drop)]
pub(crate) struct Records {
    sighted: Stack<Sighted>,
    origins: BTreeMap<[u8; 32], Origin>,
}

impl Model for Records {
    ghost use Rattle.std.specs.Prelude.{◌≡◌, ℕ, List};
    ghost use Rattle.sights.specs.declared.sighted.Sighted.{Sighted as Entry};
    ghost use Rattle.sights.specs.Origins.{origin_in, origin_of};

    ghost Value = { List Entry };

    ghost view = { λ r. r.sighted };

    ghost invariant = { λ r. (id : List ℕ) → origin_in r.origins id ≡ origin_of id r.sighted };
}

// The stage of a transaction.
fn stage_of(origin: &Origin) -> Stage
    ensures { result ≡ origin.now.stage }
{
    origin.stage
}

// The height of the block that made an output, if the transaction has it.
fn made_by(outpoint: &OutPoint, origin: &Origin) -> Option<u32>
    ensures { result ≡ made_of outpoint.now origin.now }
{
    if (outpoint.index as usize) < origin.outputs {
        Some(origin.height)
    } else {
        None
    }
}

impl Records {
    ghost use Rattle.std.specs.Prelude.{◌≡◌, [], ◌∷◌, length, reverse, OnOk, OnErr};
    ghost use Rattle.sights.specs.Sights.{stage_at, made_at, older_of, oldest, is_above, up_to};

    /// Nothing read. Does not allocate.
    pub(crate) fn new(alloc: Global) -> Records
        ensures { result ≡ [] }
    {
        Records {
            sighted: Stack::new(alloc),
            origins: BTreeMap::new(alloc),
        }
    }

    /// How many there are.
    pub(crate) fn len(&self) -> usize
        ensures { result ≡ length self.now }
    {
        self.sighted.len()
    }

    /// All of them, the oldest first.
    pub(crate) fn values(&self) -> &[Sighted]
        ensures { result.now ≡ reverse self.now }
    {
        self.sighted.values()
    }

    /// Adds a transaction of a block of a height. The only error is that memory ran out, which leaves them as they were.
    pub(crate) fn push(
        &mut self,
        height: u32,
        stage: Stage,
        confirmed: &Confirmed,
    ) -> Result<(), AllocError>
        ensures ok { OnOk result (self.new ≡ record {
          height = height;
          stage = stage;
          tx = confirmed.now;
        } ∷ self.old) }
        ensures err { OnErr result (self.new ≡ self.old) }
    {
        let id = confirmed.id();
        let number = self.sighted.len();
        let origin = Origin {
            number,
            height,
            stage,
            outputs: confirmed.tx().outputs().len(),
        };
        let tx = confirmed.copy()?;
        note(&mut self.origins, id, origin)?;
        if let Err(error) = self.sighted.push(Sighted { height, stage, tx }) {
            forget(&mut self.origins, id, number);
            return Err(error);
        }
        Ok(())
    }

    // Removes the newest, if there is one.
    fn pop(&mut self)
        ensures { self.new ≡ older_of self.old }
    {
        if let Some(last) = self.sighted.pop() {
            forget(&mut self.origins, last.tx.id(), self.sighted.len());
        }
    }

    /// Forgets the newest, down to this many.
    pub(crate) fn keep(&mut self, count: usize)
        ensures { self.new ≡ oldest count self.old }
    {
        while self.len() > count {
            self.pop();
        }
    }

    // Whether the newest is of a block above a height.
    fn is_above(&self, height: u32) -> bool
        ensures { result ≡ is_above height self.now }
    {
        match self.sighted.top() {
            Some(top) => top.height > height,
            None => false,
        }
    }

    /// Forgets what is of blocks above a height.
    pub(crate) fn forget_above(&mut self, height: u32)
        ensures { self.new ≡ up_to height self.old }
    {
        while self.is_above(height) {
            self.pop();
        }
    }

    /// The stage of the transaction with an id.
    pub(crate) fn stage_at(&self, id: &[u8; 32]) -> Option<Stage>
        ensures { result ≡ stage_at id.now self.now }
    {
        match self.origins.get(id) {
            Some(origin) => Some(stage_of(origin)),
            None => None,
        }
    }

    /// The height of the block that made an output.
    pub(crate) fn made_at(&self, outpoint: &OutPoint) -> Option<u32>
        ensures { result ≡ made_at outpoint.now self.now }
    {
        match self.origins.get(&outpoint.txid) {
            Some(origin) => made_by(outpoint, origin),
            None => None,
        }
    }
}
