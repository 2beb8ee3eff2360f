//! Which funding outputs a block spends.

ghost use Rattle.std.specs.Prelude.{◌≡◌, ◌||◌, cond, true, IfOk, IfSome, OnOk};
ghost use Rattle.std.specs.List.{All, list_any};
ghost use Rattle.std.specs.Ordering.{is_eq};
ghost use Rattle.std.specs.BTreeSet.{contains};
ghost use Rattle.tx.specs.declared.input.OutPoint.{OutPoint as Place};
ghost use Rattle.tx.specs.Fields.{same_outpoint};
ghost use Rattle.chain.specs.Blocks.{names};
ghost use Rattle.chain.specs.Indexing.{outpoint_cmp};
ghost use Rattle.side.specs.Marks.{is_marked};

use crate::fundings::Fundings;
use crate::marks::Marks;
use chain::{Block, Confirmed};
use std::alloc::{AllocError, Global};
use std::collections::BTreeSet;
use std::marker::Model;
use tx::{OutPoint, TxIn};
use watch::Watch;

/// What a block spends. For many channels only outpoints that have marks of funding outputs are kept, so that each channel's is found at once.
/// A contract sees the funding outputs of the channels, and the transactions of the block.
#[derive(Drop)]
pub(crate) struct Spent<'a> {
    block: &'a Block,
    txs: &'a [Confirmed],
    fundings: &'a Fundings,
    // Among them is each funding output that the block spends.
    outpoints: Option<BTreeSet<OutPoint>>,
}

impl<'a> Model for Spent<'a> {
    ghost use Rattle.std.specs.Prelude.{◌≡◌, IfSome, reverse};
    ghost use Rattle.std.specs.List.{All, list_any};
    ghost use Rattle.std.specs.BTreeSet.{contains};
    ghost use Rattle.chain.specs.Blocks.{names};
    ghost use Rattle.chain.specs.Indexing.{outpoint_cmp};
    ghost use Rattle.side.specs.Reading.{Spends};

    ghost Value = { Spends };

    ghost view = { λ a. record { fundings = a.fundings.now; txs = a.txs.now } };

    ghost invariant = { λ a. (a.txs.now ≡ reverse a.block.now.transactions) × IfSome a.outpoints (λ s. All (λ o. contains outpoint_cmp s o ≡ list_any (names o) a.txs.now) a.fundings.now) };
}

// Adds an outpoint, if it is marked.
fn insert_if_marked(
    outpoints: &mut BTreeSet<OutPoint>,
    marks: &Marks,
    outpoint: &OutPoint,
) -> Result<(), AllocError>
    ensures { OnOk result ((o : Place) → is_marked marks.now.first.items marks.now.second.items o
        ≡ true → contains outpoint_cmp outpoints.new o ≡ cond
        (is_eq (outpoint_cmp outpoint.now o)) true (contains outpoint_cmp outpoints.old o)) }
{
    if marks.has(outpoint) {
        outpoints.insert(*outpoint)?;
    }
    Ok(())
}

// Adds the marked ones of the outpoints that inputs spend.
fn insert_all(
    outpoints: &mut BTreeSet<OutPoint>,
    marks: &Marks,
    inputs: &[TxIn],
) -> Result<(), AllocError>
    ensures { OnOk result ((o : Place) → is_marked marks.now.first.items marks.now.second.items o
        ≡ true → contains outpoint_cmp outpoints.new o
        ≡ (list_any (λ i. same_outpoint i.outpoint o) inputs.now || contains outpoint_cmp
        outpoints.old o)) }
{
    for input in inputs {
        insert_if_marked(outpoints, marks, &input.outpoint)?;
    }
    Ok(())
}

// The marked ones of the outpoints that transactions spend. The only error is that memory ran out.
fn outpoints_of(
    alloc: Global,
    marks: &Marks,
    txs: &[Confirmed],
) -> Result<BTreeSet<OutPoint>, AllocError>
    ensures { IfOk result (λ s. (o : Place) → is_marked marks.now.first.items
        marks.now.second.items o ≡ true → contains outpoint_cmp s o ≡ list_any (names o) txs.now) }
{
    let mut outpoints = BTreeSet::new(alloc);
    for confirmed in txs {
        insert_all(&mut outpoints, marks, confirmed.tx().inputs())?;
    }
    Ok(outpoints)
}

// What transactions spend of the outpoints that have marks of funding outputs, if these are marked. The only error is that memory ran out.
fn marked_in(
    alloc: Global,
    fundings: &Fundings,
    txs: &[Confirmed],
) -> Result<Option<BTreeSet<OutPoint>>, AllocError>
    ensures { IfOk result (λ found. IfSome found (λ s. All (λ o. contains outpoint_cmp s o
        ≡ list_any (names o) txs.now) fundings.now)) }
{
    match fundings.marks() {
        None => Ok(None),
        Some(marks) => Ok(Some(outpoints_of(alloc, marks, txs)?)),
    }
}

impl<'a> Spent<'a> {
    ghost use Rattle.std.specs.Prelude.{◌≡◌, ◌<◌, length, get_or, reverse, IfOk};
    ghost use Rattle.tx.specs.declared.input.OutPoint.{OutPoint as Place};
    ghost use Rattle.watch.specs.Watching.{is_spent};

    /// What a block spends, to be asked for channels with these funding outputs. The only error is that memory ran out.
    pub(crate) fn by(
        alloc: Global,
        block: &'a Block,
        fundings: &'a Fundings,
    ) -> Result<Self, AllocError>
        ensures { IfOk result (λ s. s ≡ record {
          fundings = fundings.now;
          txs = reverse
              block.now.transactions;
        }) }
    {
        let txs = block.transactions();
        let outpoints = marked_in(alloc, fundings, txs)?;
        Ok(Spent {
            block,
            txs,
            fundings,
            outpoints,
        })
    }

    /// Whether a transaction that spends a channel's funding output was read by its watch or is in the block.
    pub(crate) fn is_spent(&self, channel: usize, watch: &Watch) -> bool
        requires { channel < length self.now.fundings }
        ensures { (o : Place) → o ≡ get_or self.now.fundings channel o → result
            ≡ is_spent o watch.now self.now.txs }
    {
        let funding = self.fundings.of_channel(channel);
        match &self.outpoints {
            Some(outpoints) => watch.has_spends() || outpoints.contains(funding),
            None => watch.is_spent(funding, self.block),
        }
    }
}
