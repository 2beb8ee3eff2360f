//! The outputs and ids of transactions in an index, which is updated with the blocks, transaction by transaction.

ghost use Rattle.std.specs.Prelude.{◌≡◌, ◌&&◌, if◌then◌else◌, ℕ, [], ◌∷◌, List, length, Some, None, OnOk, OnErr};
ghost use Rattle.std.specs.Ordering.{nat_cmp};
ghost use Rattle.std.specs.Cmp.Lexicographic.{slice_cmp};
ghost use Rattle.std.specs.BTreeSet.{contains};
ghost use Rattle.tx.specs.declared.input.OutPoint.{OutPoint};
ghost use Rattle.tx.specs.Fields.{same_outpoint};
ghost use Rattle.chain.specs.Blocks.{Contents, height_of};
ghost use Rattle.chain.specs.Connecting.{with_transaction};
ghost use Rattle.chain.specs.Indexing.{noted, IsIndex};
ghost use Rattle.chain.specs.Storing.{MayTakeOff};
ghost use Rattle.chain.specs.Checks.{transaction_refusal};

use crate::blocks::{Block, Confirmed};
use crate::coin_map::{IndexedCoin, forget_outputs, mark_all, note_outputs};
use std::alloc::AllocError;
use std::collections::{BTreeMap, BTreeSet};
use tx::OutPoint;

/// Adds a transaction that passes its tests after these blocks, for a block of this height. Where memory runs out, the index is as
/// it was.
pub(crate) fn index_transaction(
    coins: &mut BTreeMap<OutPoint, IndexedCoin>,
    ids: &mut BTreeSet<[u8; 32]>,
    confirmed: &Confirmed,
    height: u64,
) -> Result<(), AllocError>
    requires { (blocks : List Contents) × (height ≡ height_of blocks) × MayTakeOff blocks
        × (transaction_refusal blocks confirmed.now ≡ None)
        × IsIndex blocks (noted coins.old) (contains (slice_cmp nat_cmp) ids.old) }
    ensures ok { OnOk result ((blocks : List Contents) → MayTakeOff blocks
        → height ≡ height_of blocks → transaction_refusal blocks confirmed.now ≡ None
        → IsIndex blocks (noted coins.old) (contains (slice_cmp nat_cmp) ids.old)
        → IsIndex (with_transaction blocks confirmed.now) (noted coins.new)
        (contains (slice_cmp nat_cmp) ids.new)) }
    ensures err { OnErr result ((blocks : List Contents)
        → IsIndex blocks (noted coins.old) (contains (slice_cmp nat_cmp) ids.old)
        → IsIndex blocks (noted coins.new) (contains (slice_cmp nat_cmp) ids.new)) }
{
    let (id, tx) = (confirmed.id(), confirmed.tx());
    note_outputs(coins, confirmed, height)?;
    if let Err(_failed) = ids.insert(*id) {
        forget_outputs(coins, id, tx.outputs().len(), height);
        return Err(AllocError);
    }
    mark_all(coins, tx.inputs(), true);
    Ok(())
}

/// Takes the last transaction of a block of this height out of the index.
pub(crate) fn unindex_transaction(
    coins: &mut BTreeMap<OutPoint, IndexedCoin>,
    ids: &mut BTreeSet<[u8; 32]>,
    confirmed: &Confirmed,
    height: u64,
)
    ensures { (blocks : List Contents) → MayTakeOff blocks → height ≡ height_of blocks
        → IsIndex (with_transaction blocks confirmed.now) (noted coins.old)
        (contains (slice_cmp nat_cmp) ids.old)
        → IsIndex blocks (noted coins.new) (contains (slice_cmp nat_cmp) ids.new) }
{
    let (id, tx) = (confirmed.id(), confirmed.tx());
    mark_all(coins, tx.inputs(), false);
    forget_outputs(coins, id, tx.outputs().len(), height);
    ids.remove(id);
}

/// Takes the newest block, which holds no grant, out of the index.
pub(crate) fn unindex_block(
    coins: &mut BTreeMap<OutPoint, IndexedCoin>,
    ids: &mut BTreeSet<[u8; 32]>,
    mut block: Block,
    height: u64,
)
    ensures { (older : List Contents) → height ≡ length older → block.granted ≡ []
        → IsIndex (block ∷ older) (noted coins.old) (contains (slice_cmp nat_cmp) ids.old)
        → IsIndex older (noted coins.new) (contains (slice_cmp nat_cmp) ids.new) }
{
    while let Some(confirmed) = block.pop() {
        unindex_transaction(coins, ids, &confirmed, height);
    }
}

/// Removes the output at an outpoint again, if it was added.
pub(crate) fn forget_added(
    coins: &mut BTreeMap<OutPoint, IndexedCoin>,
    outpoint: &OutPoint,
    added: bool,
)
    ensures { (q : OutPoint) → noted coins.new q ≡ (if added && same_outpoint outpoint.now q
        then None else noted coins.old q) }
{
    if added {
        coins.remove(outpoint);
    }
}
