//! The transactions of a block that spend an output.

ghost use Rattle.std.specs.Prelude.{◌≡◌, ◌++◌, ◌∷◌, [], OnOk, OnErr};
ghost use Rattle.std.specs.List.{list_any};
ghost use Rattle.tx.specs.Fields.{same_outpoint};
ghost use Rattle.chain.specs.Blocks.{names};
ghost use Rattle.watch.specs.Watching.{Extends, spends_in};

use chain::Confirmed;
use std::alloc::AllocError;
use tx::{OutPoint, Tx, TxIn};

/// A transaction that spends a channel's funding output.
#[derive(Clone, Debug, Drop)]
pub struct Spend {
    /// The height of its block.
    pub height: u64,
    pub tx: Tx,
}

impl Spend {
    ghost use Rattle.std.specs.Prelude.{◌≡◌, IfOk};

    /// A copy. The only error is that memory ran out.
    pub fn copy(&self) -> Result<Spend, AllocError>
        ensures { IfOk result (λ s. s ≡ self.now) }
    {
        self.clone()
    }
}

/// Whether two outpoints are the same.
pub(crate) fn same_outpoint(o: &OutPoint, p: &OutPoint) -> bool
    ensures { result ≡ same_outpoint o.now p.now }
{
    o.txid == p.txid && o.index == p.index
}

// Whether an input names the outpoint.
fn some_input_names(inputs: &[TxIn], outpoint: &OutPoint) -> bool
    ensures { result ≡ list_any (λ i. same_outpoint i.outpoint outpoint.now) inputs.now }
{
    inputs
        .iter()
        .any(|input| same_outpoint(&input.outpoint, outpoint))
}

/// Whether one of the transactions spends an output.
pub(crate) fn some_spends(funding: &OutPoint, txs: &[Confirmed]) -> bool
    ensures { result ≡ list_any (names funding.now) txs.now }
{
    txs.iter().any(|confirmed| some_input_names(confirmed.tx().inputs(), funding))
}

// Appends a transaction if it spends the output.
fn push_spend(
    funding: &OutPoint,
    height: u64,
    tx: &Tx,
    spends: &mut Vec<Spend>,
) -> Result<(), AllocError>
    ensures ok { OnOk result (spends.new.items ≡ spends.old.items ++ spends_in funding.now height
        (tx.now ∷ [])) }
    ensures err { OnErr result (spends.new.items ≡ spends.old.items) }
{
    if some_input_names(tx.inputs(), funding) {
        let tx = tx.copy()?;
        spends.push(Spend { height, tx })?;
    }
    Ok(())
}

/// Appends the transactions that spend an output. The only error is that memory ran out; some of them may have been appended by then.
pub(crate) fn push_spends(
    funding: &OutPoint,
    height: u64,
    txs: &[Confirmed],
    spends: &mut Vec<Spend>,
) -> Result<(), AllocError>
    ensures ok { OnOk result (spends.new.items ≡ spends.old.items
        ++ spends_in funding.now height txs.now) }
    ensures err { OnErr result (Extends spends.old.items spends.new.items) }
{
    for confirmed in txs {
        push_spend(funding, height, confirmed.tx(), spends)?;
    }
    Ok(())
}
