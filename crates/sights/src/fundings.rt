//! The funding outputs of channels.

ghost use Rattle.std.specs.Prelude.{◌≡◌};

use lists::Stack;
use std::alloc::{AllocError, Global};
use std::collections::BTreeSet;
use std::marker::Model;
use tx::OutPoint;

/// The funding outputs of channels. A contract sees them as a list, the newest first.
#[derive(Drop)]
pub(crate) struct Fundings {
    outpoints: Stack<OutPoint>,
    set: BTreeSet<OutPoint>,
}

impl Model for Fundings {
    ghost use Rattle.std.specs.Prelude.{◌≡◌, List};
    ghost use Rattle.std.specs.BTreeSet.{contains};
    ghost use Rattle.tx.specs.declared.input.OutPoint.{OutPoint as Place};
    ghost use Rattle.chain.specs.Indexing.{outpoint_cmp};
    ghost use Rattle.sights.specs.Sights.{is_funding};

    ghost Value = { List Place };

    ghost view = { λ f. f.outpoints };

    ghost invariant = { λ f. (o : Place) → contains outpoint_cmp f.set o ≡ is_funding f.outpoints o };
}

impl Fundings {
    ghost use Rattle.std.specs.Prelude.{◌≡◌, [], ◌∷◌, OnOk, OnErr};
    ghost use Rattle.sights.specs.Sights.{is_funding};

    /// No funding output. Does not allocate.
    pub(crate) fn new(alloc: Global) -> Fundings
        ensures { result ≡ [] }
    {
        Fundings {
            outpoints: Stack::new(alloc),
            set: BTreeSet::new(alloc),
        }
    }

    /// Adds one. The only error is that memory ran out, which leaves them as they were.
    pub(crate) fn push(&mut self, outpoint: OutPoint) -> Result<(), AllocError>
        ensures ok { OnOk result (self.new ≡ outpoint ∷ self.old) }
        ensures err { OnErr result (self.new ≡ self.old) }
    {
        self.outpoints.push(outpoint)?;
        if let Err(_failed) = self.set.insert(outpoint) {
            self.outpoints.pop();
            return Err(AllocError);
        }
        Ok(())
    }

    /// Whether an outpoint is one of them.
    pub(crate) fn has(&self, outpoint: &OutPoint) -> bool
        ensures { result ≡ is_funding self.now outpoint.now }
    {
        self.set.contains(outpoint)
    }
}
