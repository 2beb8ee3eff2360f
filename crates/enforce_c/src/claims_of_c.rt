// Claims, from rows that the caller gives.

ghost use Rattle.std.specs.Prelude.{◌≡◌, None, MatchResult};
ghost use Rattle.enforce_c.specs.Ranges.{part};
ghost use Rattle.enforce_c.specs.Claimed.{IsFirst, item_fault, slot_fault, slots_fault, FillsAs, FillAs, IsClaimed};

use crate::claim_rows::{ClaimRow, SLOT_EXACT, SLOT_PREIMAGE, SLOT_SIGNATURE, SlotRow};
use crate::forms_of_c::key_of;
use crate::listing::listed;
use crate::ranges::part;
use crate::statuses::Refusal;
use claim::{Claim, Place, Shell, Slot, WitnessItem, accept};
use lists::ByteString;
use std::alloc::Global;
use tx::OutPoint;

// The bytes that a row names, as the item of the slot of an index.
fn item_of(alloc: Global, bytes: &[u8], index: usize, row: &SlotRow) -> Result<WitnessItem, Refusal>
    ensures { MatchResult result
        (λ w. (item_fault bytes.now index row.now ≡ None) × (w.item ≡ part row.now.bytes_at row.now.bytes_length bytes.now))
        (IsFirst (item_fault bytes.now index row.now)) }
{
    let Some(item) = part(bytes, row.bytes_at, row.bytes_length) else {
        return Err(Refusal::SlotOutOfRange(index));
    };
    match WitnessItem::new(ByteString::from_slice(alloc, item)?) {
        Ok(item) => Ok(item),
        Err(_) => Err(Refusal::ItemTooLong(index)),
    }
}

// How a row fills the slot of an index.
fn slot_of(alloc: Global, bytes: &[u8], index: usize, row: &SlotRow) -> Result<Slot, Refusal>
    ensures { MatchResult result
        (λ s. (slot_fault bytes.now index row.now ≡ None) × FillsAs bytes.now row.now s)
        (IsFirst (slot_fault bytes.now index row.now)) }
{
    match row.kind {
        SLOT_SIGNATURE => Ok(Slot::Sig(key_of(&row.key, index)?)),
        SLOT_PREIMAGE => Ok(Slot::Preimage(row.hash)),
        SLOT_EXACT => Ok(Slot::Exact(item_of(alloc, bytes, index, row)?)),
        _ => Err(Refusal::NoSuchSlot(index)),
    }
}

/// How rows fill their slots, one by one.
#[tactic(auto, using(crate::proofs::Slots::filled_next, crate::proofs::Slots::filled_all, crate::proofs::Slots::faultless_next, crate::proofs::Slots::fault_here))]
pub(crate) fn slots_of(alloc: Global, bytes: &[u8], rows: &[SlotRow]) -> Result<Vec<Slot>, Refusal>
    ensures { MatchResult result
        (λ v. (slots_fault bytes.now 0 rows.now ≡ None) × FillAs bytes.now rows.now v.items)
        (IsFirst (slots_fault bytes.now 0 rows.now)) }
{
    let mut slots = Vec::new(alloc);
    for (index, row) in rows.iter().enumerate() {
        slots.push(slot_of(alloc, bytes, index, row)?)?;
    }
    Ok(slots)
}

// The place of the claimed output, with this program.
fn place_with(alloc: Global, row: &ClaimRow, program: &[u8]) -> Result<Place, Refusal>
    ensures { MatchResult result
        (λ p. p ≡ record {
          outpoint = record { txid = row.now.txid; index = row.now.index };
          value = row.now.value;
          program = program.now;
        })
        (IsFirst None) }
{
    Ok(Place {
        outpoint: OutPoint {
            txid: row.txid,
            index: row.index,
        },
        value: row.value,
        program: ByteString::from_slice(alloc, program)?,
    })
}

/// The claim that a row asks for, in an open transaction. Checked in this order: the script's bytes, the program's and the rows of slots are there; each slot; the
/// script; its listing; the claim.
#[tactic(auto, using(crate::proofs::Slots::no_slots))]
pub(crate) fn claimed(
    alloc: Global,
    row: &ClaimRow,
    slots: &[SlotRow],
    bytes: &[u8],
) -> Result<Claim, Refusal>
    ensures { IsClaimed row.now slots.now bytes.now result }
{
    let Some(script) = part(bytes, row.script_at, row.script_length) else {
        return Err(Refusal::OutOfRange);
    };
    let Some(program) = part(bytes, row.program_at, row.program_length) else {
        return Err(Refusal::OutOfRange);
    };
    let Some(rows) = part(slots, row.first_slot, row.slots) else {
        return Err(Refusal::OutOfRange);
    };
    let place = place_with(alloc, row, program)?;
    let slots = slots_of(alloc, bytes, rows)?;
    let checked = listed(alloc, script)?;
    match accept(alloc, checked, row.path, slots, place, Shell::Open) {
        Ok(claim) => Ok(claim),
        Err(refusal) => Err(Refusal::Accept(refusal)),
    }
}
