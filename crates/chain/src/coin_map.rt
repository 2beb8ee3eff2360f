//! Outputs by their outpoints, in order, so that a look-up takes time logarithmic in their number.

ghost use Rattle.std.specs.Prelude.{◌≡◌, ◌<◌, ◌≤◌, ◌==◌, [], ◌∷◌, length, OnOk, OnErr, IfSome};
ghost use Rattle.std.specs.List.{list_any};
ghost use Rattle.std.specs.Option.{option_or};
ghost use Rattle.tx.specs.declared.input.OutPoint.{OutPoint};
ghost use Rattle.tx.specs.declared.limits.TheConstants.{MAX_OUTPUTS as max_outputs};
ghost use Rattle.tx.specs.Spelling.{transaction_id};
ghost use Rattle.tx.specs.Fields.{same_outpoint};
ghost use Rattle.chain.specs.Blocks.{created_by};
ghost use Rattle.chain.specs.Indexing.{noted, first_new, is_output_below, without, with_mark};

use crate::blocks::Confirmed;
use std::alloc::AllocError;
use std::collections::BTreeMap;
use tx::{OutPoint, TxIn, TxOut};

/// An output that was created on the chain.
#[derive(Drop)]
pub(crate) struct IndexedCoin {
    pub output: TxOut,
    /// The height of its block.
    pub height: u64,
    /// An input on the chain spends it.
    pub spent: bool,
}

impl Clone for IndexedCoin {
    ghost use Rattle.std.specs.Prelude.{◌≡◌};

    ghost is_clone = { λ coin copy. copy ≡ coin };

    fn clone(&self) -> Result<Self, AllocError> {
        Ok(IndexedCoin {
            output: self.output.copy()?,
            height: self.height,
            spent: self.spent,
        })
    }
}

/// Records an output at an outpoint that has none yet.
pub(crate) fn note_output(
    coins: &mut BTreeMap<OutPoint, IndexedCoin>,
    outpoint: OutPoint,
    output: &TxOut,
    height: u64,
) -> Result<(), AllocError>
    ensures ok { OnOk result ((q : OutPoint) → noted coins.new q ≡ option_or (noted coins.old q)
        (first_new (record { outpoint = outpoint; output = output.now; height = height } ∷ []) q)) }
    ensures err { OnErr result ((q : OutPoint) → noted coins.new q ≡ noted coins.old q) }
{
    if coins.contains_key(&outpoint) {
        return Ok(());
    }
    let coin = IndexedCoin {
        output: output.copy()?,
        height,
        spent: false,
    };
    coins.insert(outpoint, coin)?;
    Ok(())
}

/// Removes the output at an outpoint, if it was created at this height.
pub(crate) fn forget_output(
    coins: &mut BTreeMap<OutPoint, IndexedCoin>,
    outpoint: &OutPoint,
    height: u64,
)
    ensures { (q : OutPoint) → noted coins.new q ≡ without (same_outpoint outpoint.now q) height
        (noted coins.old q) }
{
    let Some(coin) = coins.get(outpoint) else {
        return;
    };
    if coin.height == height {
        coins.remove(outpoint);
    }
}

/// Removes the first `count` outputs of a transaction, if they were created at this height.
pub(crate) fn forget_outputs(
    coins: &mut BTreeMap<OutPoint, IndexedCoin>,
    id: &[u8; 32],
    count: usize,
    height: u64,
)
    requires { count ≤ max_outputs }
    ensures { (q : OutPoint) → noted coins.new q ≡ without (is_output_below id.now count q) height
        (noted coins.old q) }
{
    for index in 0..count {
        let outpoint = OutPoint {
            txid: *id,
            index: index as u32,
        };
        forget_output(coins, &outpoint, height);
    }
}

/// Records the outputs of a transaction, or none of them where memory runs out.
pub(crate) fn note_outputs(
    coins: &mut BTreeMap<OutPoint, IndexedCoin>,
    confirmed: &Confirmed,
    height: u64,
) -> Result<(), AllocError>
    requires { (q : OutPoint) → q.txid ≡ transaction_id confirmed.now
        → IfSome (noted coins.old q) (λ c. c.height < height) }
    ensures ok { OnOk result ((q : OutPoint) → noted coins.new q ≡ option_or (noted coins.old q)
        (first_new (created_by height confirmed.now) q)) }
    ensures err { OnErr result ((q : OutPoint) → noted coins.new q ≡ noted coins.old q) }
{
    let outputs = confirmed.tx().outputs();
    for (index, output) in outputs.iter().enumerate() {
        let outpoint = OutPoint {
            txid: *confirmed.id(),
            index: index as u32,
        };
        if let Err(error) = note_output(coins, outpoint, output, height) {
            forget_outputs(coins, confirmed.id(), index, height);
            return Err(error);
        }
    }
    Ok(())
}

/// Marks the output at an outpoint as spent or not.
fn mark(coins: &mut BTreeMap<OutPoint, IndexedCoin>, outpoint: &OutPoint, spent: bool)
    ensures { (q : OutPoint) → noted coins.new q ≡ with_mark (same_outpoint outpoint.now q) spent
        (noted coins.old q) }
{
    if let Some(coin) = coins.get_mut(outpoint) {
        coin.spent = spent;
    }
}

/// Marks the outputs that inputs spend as spent or not.
pub(crate) fn mark_all(coins: &mut BTreeMap<OutPoint, IndexedCoin>, inputs: &[TxIn], spent: bool)
    ensures { (q : OutPoint) → noted coins.new q ≡ with_mark
        (list_any (λ i. same_outpoint i.outpoint q) inputs.now) spent (noted coins.old q) }
{
    for input in inputs {
        mark(coins, &input.outpoint, spent);
    }
}
