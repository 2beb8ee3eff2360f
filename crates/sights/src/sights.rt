//! A reader of blocks that keeps what they show of closes.

ghost use Rattle.std.specs.Prelude.{◌≡◌};
ghost use Rattle.sights.specs.Sights.{stage_after, stage_of_several};

use crate::fundings::Fundings;
use crate::marks::Marks;
use crate::records::Records;
use crate::sighted::{Sighted, Stage};
use crate::telling::{Told, close_in, tell};
use chain::{Block, Confirmed};
use resolve::Known;
use std::alloc::{AllocError, Global};
use std::marker::Model;
use tx::{OutPoint, TxIn};
use watch::verdict;

/// What was read of blocks for channels: the transactions that take their funding outputs, and those that take what these make. A contract sees the funding outputs and the transactions, each newest first.
#[derive(Drop)]
pub struct Sights {
    fundings: Fundings,
    records: Records,
    marks: Marks,
}

impl Model for Sights {
    ghost use Rattle.sights.specs.Sights.{Reading};
    ghost use Rattle.sights.specs.Marks.{AreMarked};

    ghost Value = { Reading };

    ghost view = { λ s. record { fundings = s.fundings; sighted = s.records } };

    ghost invariant = { λ s. AreMarked s.marks.first.items s.marks.second.items s.fundings s.records };
}

// The stage of what takes an output of a transaction of this stage by its one input.
fn stage_after(stage: Option<Stage>) -> Option<Stage>
    ensures { result ≡ stage_after stage }
{
    match stage {
        Some(Stage::Close) => Some(Stage::SecondStage),
        Some(Stage::SecondStage) => Some(Stage::Spend),
        Some(Stage::Spend) => None,
        None => None,
    }
}

// The stage of a transaction of several inputs, or of none, by what these take.
fn stage_of_several(closes: bool, follows: bool) -> Option<Stage>
    ensures { result ≡ stage_of_several closes follows }
{
    if closes {
        Some(Stage::Close)
    } else if follows {
        Some(Stage::Spend)
    } else {
        None
    }
}

impl Sights {
    ghost use Rattle.std.specs.Prelude.{◌≡◌, [], ◌∷◌, reverse, option_map, IfOk, OnOk, OnErr};
    ghost use Rattle.std.specs.List.{list_any};
    ghost use Rattle.sights.specs.Sights.{stage_by, is_close, is_there, stage_by_all, read_one, read_block, up_to, made_at};
    ghost use Rattle.sights.specs.Telling.{close_of, IsTold};

    /// Nothing read, for no channel. The only error is that memory ran out.
    #[tactic(auto, using(crate::proofs::Marked::nothing_marked))]
    pub fn new(alloc: Global) -> Result<Sights, AllocError>
        ensures { IfOk result (λ s. s ≡ record { fundings = []; sighted = [] }) }
    {
        Ok(Sights {
            marks: Marks::new(alloc)?,
            fundings: Fundings::new(alloc),
            records: Records::new(alloc),
        })
    }

    /// Reads for one more channel from now on, by its funding output, which no block that was read may take (`laws::sights_follow`). The only error is that memory ran out, which leaves the sights as they were.
    pub fn open(&mut self, funding: OutPoint) -> Result<(), AllocError>
        ensures ok { OnOk result (self.new
            ≡ record self.old { fundings = funding ∷ self.old.fundings }) }
        ensures err { OnErr result (self.new ≡ self.old) }
    {
        self.marks.mark(&funding.txid);
        self.fundings.push(funding)
    }

    // The stage of a transaction by one of its inputs.
    fn stage_by(&self, input: &TxIn) -> Option<Stage>
        ensures { result ≡ stage_by self.now.fundings self.now.sighted input.now }
    {
        if !self.marks.has(&input.outpoint.txid) {
            return None;
        }
        if self.fundings.has(&input.outpoint) {
            return Some(Stage::Close);
        }
        stage_after(self.records.stage_at(&input.outpoint.txid))
    }

    // Whether one of the inputs takes a funding output.
    fn closes(&self, inputs: &[TxIn]) -> bool
        ensures { result ≡ list_any
            (λ i. is_close (stage_by self.now.fundings self.now.sighted i)) inputs.now }
    {
        for input in inputs {
            if let Some(Stage::Close) = self.stage_by(input) {
                return true;
            }
        }
        false
    }

    // Whether one of the inputs takes an output that is followed.
    fn follows(&self, inputs: &[TxIn]) -> bool
        ensures { result ≡ list_any
            (λ i. is_there (stage_by self.now.fundings self.now.sighted i)) inputs.now }
    {
        for input in inputs {
            if let Some(_stage) = self.stage_by(input) {
                return true;
            }
        }
        false
    }

    // The stage of a transaction by its inputs.
    #[tactic(auto, using(crate::proofs::Reading::of_one, crate::proofs::Reading::of_several))]
    fn stage_by_all(&self, inputs: &[TxIn]) -> Option<Stage>
        ensures { result ≡ stage_by_all self.now.fundings self.now.sighted inputs.now }
    {
        if inputs.len() == 1 {
            return self.stage_by(&inputs[0]);
        }
        stage_of_several(self.closes(inputs), self.follows(inputs))
    }

    // Reads a transaction of a block of a height. The only error is that memory ran out, which leaves the sights as they were.
    fn read(&mut self, height: u32, confirmed: &Confirmed) -> Result<(), AllocError>
        ensures ok { OnOk result (self.new ≡ record self.old {
          sighted = read_one self.old.fundings height confirmed.now self.old.sighted;
        }) }
        ensures err { OnErr result (self.new ≡ self.old) }
    {
        match self.stage_by_all(confirmed.tx().inputs()) {
            Some(stage) => {
                self.marks.mark(confirmed.id());
                self.records.push(height, stage, confirmed)
            }
            None => Ok(()),
        }
    }

    /// Reads the next block, of this height. The only error is that memory ran out, which leaves the sights as they were.
    pub fn block(&mut self, height: u32, block: &Block) -> Result<(), AllocError>
        ensures ok { OnOk result (self.new ≡ record self.old {
          sighted = read_block self.old.fundings height block.now.transactions self.old.sighted;
        }) }
        ensures err { OnErr result (self.new ≡ self.old) }
    {
        let count = self.records.len();
        for confirmed in block.transactions() {
            if let Err(error) = self.read(height, confirmed) {
                self.records.keep(count);
                return Err(error);
            }
        }
        Ok(())
    }

    /// Forgets what it read of the blocks above a height, which were taken off.
    pub fn disconnect(&mut self, height: u32)
        ensures { self.new ≡ record self.old { sighted = up_to height self.old.sighted } }
    {
        self.records.forget_above(height);
    }

    /// What was read, the oldest first.
    pub fn sighted(&self) -> &[Sighted]
        ensures { result.now ≡ reverse self.now.sighted }
    {
        self.records.values()
    }

    /// The height of the block that made an output; `None` where none was read.
    pub fn made_at(&self, outpoint: &OutPoint) -> Option<u32>
        ensures { result ≡ made_at outpoint.now self.now.sighted }
    {
        self.records.made_at(outpoint)
    }

    /// The transaction that takes a funding output; `None` where none was read.
    pub fn close(&self, funding: &OutPoint) -> Option<&Sighted>
        ensures { option_map (λ s. s.now) result ≡ close_of funding.now self.now.sighted }
    {
        close_in(funding, self.records.values())
    }

    /// What is told of a channel by what is known of it: each claim that is due by the transaction that closed it, in order, and nothing where none was read. The only error is that memory ran out.
    pub fn told(&self, alloc: Global, known: &Known) -> Result<Vec<Told>, AllocError>
        ensures { IfOk result (λ v. IsTold self.now.sighted known.now v.items) }
    {
        match close_in(&known.terms.funding, self.records.values()) {
            None => Ok(Vec::new(alloc)),
            Some(close) => tell(alloc, &self.records, known, verdict(known, close.tx.tx())),
        }
    }
}
