//! The watch of one channel.

ghost use Rattle.std.specs.Prelude.{◌≡◌, ◌++◌, map, IfOk, OnOk, OnErr};
ghost use Rattle.watch.specs.Watching.{Extends, spends_in, claims_after, given_at};
ghost use Rattle.watch.specs.Sights.{IsSight};

use crate::learning::{htlcs_by, learnt_in};
use crate::spends::{Spend, push_spends, some_spends};
use crate::unclaimed::{Given, due_by, push_unclaimed};
use chain::{Block, Confirmed};
use claim::Claim;
use resolve::Known;
use std::alloc::{AllocError, Global};
use std::marker::Model;
use tx::OutPoint;

/// What a watch of one channel has read and given: the transactions that spend the funding output, and the claims. Both are in order, with the height of
/// their block.
#[derive(Debug, Drop)]
pub struct Watch {
    spends: Vec<Spend>,
    given: Vec<Given>,
}

impl Model for Watch {
    ghost use Rattle.watch.specs.Watching.{Seen};

    ghost Value = { Seen };

    ghost view = { λ w. record { spends = w.spends.items; given = w.given.items } };
}

/// What a watch finds in a block.
#[derive(Drop)]
pub struct Sight {
    /// The claims that are due and weren't given before, in order.
    pub claims: Vec<Claim>,
    /// The preimages that inputs of the block show, in order: each is one of an HTLC whose output the input spends.
    pub learnt: Vec<[u8; 32]>,
}

// Reads a block. If memory runs out, the earlier entries stay, and others may follow them.
fn read(
    alloc: Global,
    height: u64,
    txs: &[Confirmed],
    known: &Known,
    spends: &mut Vec<Spend>,
    given: &mut Vec<Given>,
) -> Result<Sight, AllocError>
    ensures sight { IfOk result (λ s. IsSight
        (record { spends = spends.old.items; given = given.old.items }) height txs.now known.now
        s.claims.items s.learnt.items) }
    ensures spends { OnOk result (spends.new.items ≡ spends.old.items
        ++ spends_in known.now.terms.funding height txs.now) }
    ensures given { OnOk result (given.new.items ≡ given.old.items ++ map (given_at height)
        (claims_after (record { spends = spends.old.items; given = given.old.items }) height txs.now
        known.now)) }
    ensures spends_err { OnErr result (Extends spends.old.items spends.new.items) }
    ensures given_err { OnErr result (Extends given.old.items given.new.items) }
{
    push_spends(&known.terms.funding, height, txs, spends)?;
    let commitments = htlcs_by(alloc, known, spends.as_slice())?;
    let learnt = learnt_in(alloc, commitments.as_slice(), txs)?;
    let due = due_by(alloc, known, spends.as_slice())?;
    let mut claims = Vec::new(alloc);
    push_unclaimed(height, due, given, &mut claims)?;
    Ok(Sight { claims, learnt })
}

impl Watch {
    ghost use Rattle.std.specs.Prelude.{◌≡◌, reverse, IfOk, OnOk, OnErr};
    ghost use Rattle.penalty.specs.Sets.{AreClaimsOn};
    ghost use Rattle.watch.specs.Watching.{nothing_seen, has_spends, is_spent, due_by, seen_after, seen_up_to};
    ghost use Rattle.watch.specs.Sights.{IsSight};

    /// A watch that has read no block.
    pub fn new(alloc: Global) -> Watch
        ensures { result ≡ nothing_seen }
    {
        Watch {
            spends: Vec::new(alloc),
            given: Vec::new(alloc),
        }
    }

    /// A watch that has read and given the same. The only error is that memory ran out.
    pub fn copy(&self) -> Result<Watch, AllocError>
        ensures { IfOk result (λ w. w ≡ self.now) }
    {
        let alloc = *self.spends.allocator();
        let spends = self.spends.clone()?;
        let given = Vec::from_slice(alloc, &self.given)?;
        Ok(Watch { spends, given })
    }

    // The transactions read that spend the funding output, in order.
    pub(crate) fn spends(&self) -> &[Spend]
        ensures { result.now ≡ self.now.spends }
    {
        self.spends.as_slice()
    }

    /// Whether a transaction that spends the funding output was read.
    pub fn has_spends(&self) -> bool
        ensures { result ≡ has_spends self.now }
    {
        !self.spends.is_empty()
    }

    /// Whether a transaction that spends the funding output was read or is in this block.
    pub fn is_spent(&self, funding: &OutPoint, block: &Block) -> bool
        ensures { result ≡ is_spent funding.now self.now (reverse block.now.transactions) }
    {
        self.has_spends() || some_spends(funding, block.transactions())
    }

    /// Reads the block at a height, above the blocks that it read before. It takes the transactions read so far that spend the funding output, in order. For
    /// each it gives the claims that are due by its verdict and that it hasn't given yet, told apart by outpoint and path. It also gives the preimages that
    /// inputs of this block show where they spend HTLCs of the known commitments among those transactions. What is known may be another value at each call.
    ///
    /// The only error is that memory ran out, which leaves the watch as it was.
    pub fn look(
        &mut self,
        alloc: Global,
        height: u64,
        block: &Block,
        known: &Known,
    ) -> Result<Sight, AllocError>
        ensures sight { IfOk result (λ s. IsSight self.old height
            (reverse block.now.transactions) known.now s.claims.items s.learnt.items) }
        ensures ok { OnOk result (self.new ≡ seen_after self.old height
            (reverse block.now.transactions) known.now) }
        ensures err { OnErr result (self.new ≡ self.old) }
    {
        let spends = self.spends.len();
        let given = self.given.len();
        let txs = block.transactions();
        match read(alloc, height, txs, known, &mut self.spends, &mut self.given) {
            Ok(sight) => Ok(sight),
            Err(error) => {
                self.spends.truncate(spends);
                self.given.truncate(given);
                Err(error)
            }
        }
    }

    /// All claims that are due by the verdicts of the transactions read so far that spend the funding output, in order. `look` gives each of them once, and this gives them all, whatever was given before: a caller
    /// whose filling failed, or whose claims were lost, has them again. It notes nothing as given.
    ///
    /// The only error is that memory ran out.
    pub fn due(&self, alloc: Global, known: &Known) -> Result<Vec<Claim>, AllocError>
        ensures { IfOk result (λ v. AreClaimsOn (due_by known.now self.now.spends) v.items) }
    {
        due_by(alloc, known, self.spends.as_slice())
    }

    /// Forgets what it read and gave for the blocks above a height, which were taken off, and reads none again. What was learnt from them belongs to the caller, and stays.
    pub fn back(&mut self, height: u64)
        ensures { self.new ≡ seen_up_to height self.old }
    {
        self.spends.retain(|spend| spend.height <= height);
        self.given.retain(|given| given.height <= height);
    }
}
