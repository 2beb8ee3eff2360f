// Inputs that lack nothing but signatures.

ghost use Rattle.std.specs.Prelude.{◌≡◌, ◌≤◌, map, reverse, false, length, IfOk};
ghost use Rattle.std.specs.List.{list_any};
ghost use Rattle.tx.specs.declared.limits.TheConstants.{MAX_INPUTS as max_inputs};
ghost use Rattle.claim.specs.Fitting.{witness_for};
ghost use Rattle.filling.specs.Filling.{script_of};
ghost use Rattle.filling.specs.Refusals.{is_fixed, has_fixed};
ghost use Rattle.filling.specs.Standing.{CanSpend, AllCanSpend};
ghost use Rattle.filling.specs.Spends.{blank_for, blank_input, wants_preimage, lacks_preimage};

use crate::preimages::Preimages;
use crate::witnesses::witness_of;
use claim::{Claim, Slot};
use lists::ByteString;
use std::alloc::{AllocError, Global};
use tx::{Inputs, TxIn, Witness};

// Whether a slot wants a preimage that is not there.
pub(crate) fn wants_preimage(slot: &Slot, preimages: &Preimages<'_>) -> bool
    ensures { result ≡ wants_preimage preimages.now slot.now }
{
    match slot {
        Slot::Preimage(hash) => preimages.of(hash).is_none(),
        Slot::Sig(_) | Slot::Exact(_) => false,
    }
}

// What stands in a slot before anybody signs.
fn blank(alloc: Global, slot: &Slot, preimages: &Preimages<'_>) -> Result<ByteString, AllocError>
    ensures { IfOk result (λ x. x ≡ blank_for preimages.now slot.now) }
{
    match slot {
        Slot::Sig(_) => Ok(ByteString::new(alloc)),
        Slot::Preimage(hash) => match preimages.of(hash) {
            Some(preimage) => ByteString::from_slice(alloc, &preimage),
            None => Ok(ByteString::new(alloc)),
        },
        Slot::Exact(exact) => exact.item.copy(),
    }
}

// What stands in slots, in their order.
fn blanks(
    alloc: Global,
    slots: &[Slot],
    preimages: &Preimages<'_>,
) -> Result<Vec<ByteString>, AllocError>
    ensures { IfOk result (λ xs. xs.items ≡ map (blank_for preimages.now) slots.now) }
{
    let mut items = Vec::new(alloc);
    for slot in slots {
        items.push(blank(alloc, slot, preimages)?)?;
    }
    Ok(items)
}

// The witness of an open claim before anybody signs.
fn blank_witness(
    alloc: Global,
    claim: &Claim,
    preimages: &Preimages<'_>,
) -> Result<Witness, AllocError>
    requires lone { is_fixed claim.now.shell ≡ false }
    requires preimages { lacks_preimage preimages.now claim.now ≡ false }
    ensures { IfOk result (λ w. w ≡ witness_for claim.now.place.program (script_of claim.now)
        (reverse (map (blank_for preimages.now) claim.now.slots))) }
{
    // The proof learns from the path and the height that the claim has at most 1,000 slots.
    let _ = claim.path();
    let _ = claim.needs_height();
    let mut items = blanks(alloc, claim.slots(), preimages)?;
    items.reverse();
    let program = claim.place().program.bytes();
    witness_of(alloc, program, claim.script(), items)
}

// The input of an open claim before anybody signs.
fn blank_input(alloc: Global, claim: &Claim, preimages: &Preimages<'_>) -> Result<TxIn, AllocError>
    requires lone { is_fixed claim.now.shell ≡ false }
    requires preimages { lacks_preimage preimages.now claim.now ≡ false }
    ensures value { IfOk result (λ x. x ≡ blank_input preimages.now claim.now) }
    ensures can_spend { IfOk result (λ x. CanSpend claim.now) }
{
    // The proof learns from the path that the claim spends its output.
    let _ = claim.path();
    let witness = blank_witness(alloc, claim, preimages)?;
    Ok(TxIn {
        outpoint: claim.outpoint(),
        sequence: claim.sequence(),
        witness,
    })
}

/// The inputs of open claims before anybody signs, where no preimage is lacking.
pub(crate) fn blank_inputs(
    alloc: Global,
    claims: &[&Claim],
    preimages: &Preimages<'_>,
) -> Result<Inputs, AllocError>
    requires count { length claims.now ≤ max_inputs }
    requires lone { has_fixed (map (λ c. c.now) claims.now) ≡ false }
    requires preimages { list_any (lacks_preimage preimages.now) (map (λ c. c.now) claims.now) ≡ false }
    ensures value { IfOk result (λ xs. xs
        ≡ map (blank_input preimages.now) (map (λ c. c.now) claims.now)) }
    ensures can_spend { IfOk result (λ xs. AllCanSpend (map (λ c. c.now) claims.now)) }
{
    let mut inputs = Inputs::new(alloc);
    for claim in claims {
        inputs.push_within_limit(blank_input(alloc, claim, preimages)?)?;
    }
    Ok(inputs)
}
