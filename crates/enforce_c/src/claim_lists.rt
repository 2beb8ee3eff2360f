// The rows of claims.

ghost use Rattle.std.specs.Prelude.{◌≡◌, IfOk, OnOk};
ghost use Rattle.std.specs.List.{AllByRecursion};
ghost use Rattle.enforce_c.specs.ClaimLists.{slot_row, given_row, token_in, with_item, with_open, with_given, with_fixed, with_slot, with_slots, claim_row, with_claim, with_claims, claim_lists, IsReady};

use crate::claim_rows::{ClaimRow, SLOT_EXACT, SLOT_GIVEN, SLOT_PREIMAGE, SLOT_SIGNATURE, SlotRow};
use claim::{Claim, Shell, Slot};
use sighash::Token;
use std::alloc::{AllocError, Global};
use std::marker::Model;
use tx::{Tx, encode_stripped};

/// Rows of claims, rows of their slots, and the bytes that both refer to. A contract sees it as the three lists.
#[derive(Drop)]
pub struct ClaimLists {
    pub(crate) claims: Vec<ClaimRow>,
    pub(crate) slots: Vec<SlotRow>,
    pub(crate) bytes: Vec<u8>,
}

impl Model for ClaimLists {
    ghost use Rattle.enforce_c.specs.ClaimLists.{ListsOfClaims};

    ghost Value = { ListsOfClaims };

    ghost view = { λ l. record { claims = l.claims.items; slots = l.slots.items; bytes = l.bytes.items } };
}

// The row of a slot, whose bytes, if it has any, begin at an index.
fn slot_row(slot: &Slot, at: usize) -> SlotRow
    ensures { result ≡ slot_row slot.now at }
{
    let (key, hash) = ([0; 33], [0; 32]);
    match slot {
        Slot::Sig(signer) => {
            let key = signer.bytes;
            SlotRow {
                kind: SLOT_SIGNATURE,
                key,
                hash,
                bytes_at: 0,
                bytes_length: 0,
            }
        }
        Slot::Preimage(image) => {
            let hash = *image;
            SlotRow {
                kind: SLOT_PREIMAGE,
                key,
                hash,
                bytes_at: 0,
                bytes_length: 0,
            }
        }
        Slot::Exact(item) => SlotRow {
            kind: SLOT_EXACT,
            key,
            hash,
            bytes_at: at,
            bytes_length: item.item.len(),
        },
    }
}

// The row of a signature that was given over a transaction whose bytes begin at an index.
fn given_row(token: &Token, at: usize, bytes_length: usize) -> SlotRow
    ensures { result ≡ given_row token.now at bytes_length }
{
    let (mut key, mut hash) = ([0; 33], [0; 32]);
    key.copy_from_slice(&token.bytes()[..33]);
    hash.copy_from_slice(&token.bytes()[33..65]);
    SlotRow {
        kind: SLOT_GIVEN,
        key,
        hash,
        bytes_at: at,
        bytes_length,
    }
}

// The token that a slot holds.
fn token_in(slot: &Slot) -> Option<Token>
    ensures { result ≡ token_in slot.now }
{
    match slot {
        Slot::Exact(item) => Token::read(item.item.bytes()),
        _ => None,
    }
}

// The row of a claim, whose slots and bytes begin at indices.
fn claim_row(claim: &Claim, first_slot: usize, at: usize, program_at: usize) -> ClaimRow
    ensures { result ≡ claim_row claim.now first_slot at program_at }
{
    let place = claim.place();
    ClaimRow {
        txid: place.outpoint.txid,
        index: place.outpoint.index,
        value: place.value,
        script_at: at,
        script_length: claim.script().len(),
        program_at,
        program_length: place.program.len(),
        path: claim.index(),
        first_slot,
        slots: claim.slots().len(),
    }
}

impl ClaimLists {
    // The bytes of a slot, if it has any.
    fn push_item(&mut self, slot: &Slot) -> Result<(), AllocError>
        ensures { OnOk result (self.new ≡ with_item slot.now self.old) }
    {
        if let Slot::Exact(item) = slot {
            self.bytes.extend_from_slice(item.item.bytes())?;
        }
        Ok(())
    }

    // One more slot of a claim that is of any transaction.
    fn push_open(&mut self, slot: &Slot) -> Result<(), AllocError>
        ensures { OnOk result (self.new ≡ with_open slot.now self.old) }
    {
        self.slots.push(slot_row(slot, self.bytes.len()))?;
        self.push_item(slot)
    }

    // The signature that was given over a transaction.
    fn push_given(&mut self, alloc: Global, tx: &Tx, token: &Token) -> Result<(), AllocError>
        ensures { OnOk result (self.new ≡ with_given token.now tx.now self.old) }
    {
        let bytes = encode_stripped(alloc, tx)?;
        self.slots
            .push(given_row(token, self.bytes.len(), bytes.len()))?;
        self.bytes.extend_from_slice(bytes.as_slice())?;
        Ok(())
    }

    // One more slot of a claim that is of one transaction.
    fn push_fixed(&mut self, alloc: Global, tx: &Tx, slot: &Slot) -> Result<(), AllocError>
        ensures { OnOk result (self.new ≡ with_fixed (token_in slot.now) tx.now slot.now self.old) }
    {
        match token_in(slot) {
            Some(token) => self.push_given(alloc, tx, &token),
            None => self.push_open(slot),
        }
    }

    // One more slot.
    fn push_slot(&mut self, alloc: Global, shell: &Shell, slot: &Slot) -> Result<(), AllocError>
        ensures { OnOk result (self.new ≡ with_slot shell.now slot.now self.old) }
    {
        match shell {
            Shell::Open => self.push_open(slot),
            Shell::Fixed(tx) => self.push_fixed(alloc, tx, slot),
        }
    }

    // The slots of a claim.
    fn push_slots(&mut self, alloc: Global, shell: &Shell, slots: &[Slot]) -> Result<(), AllocError>
        ensures { OnOk result (self.new ≡ with_slots shell.now slots.now self.old) }
    {
        for slot in slots {
            self.push_slot(alloc, shell, slot)?;
        }
        Ok(())
    }

    // One more claim: its script and its program, its row, and its slots.
    fn push_claim(&mut self, alloc: Global, claim: &Claim) -> Result<(), AllocError>
        ensures lists { OnOk result (self.new ≡ with_claim claim.now self.old) }
        ensures ready { IsReady claim.now }
    {
        let _path = claim.path();
        let at = self.bytes.len();
        self.bytes.extend_from_slice(claim.script())?;
        let program_at = self.bytes.len();
        self.bytes.extend_from_slice(claim.place().program.bytes())?;
        self.claims
            .push(claim_row(claim, self.slots.len(), at, program_at))?;
        self.push_slots(alloc, claim.shell(), claim.slots())
    }

    // All claims.
    fn push_claims(&mut self, alloc: Global, claims: &[Claim]) -> Result<(), AllocError>
        ensures lists { OnOk result (self.new ≡ with_claims claims.now self.old) }
        ensures ready { OnOk result (AllByRecursion IsReady claims.now) }
    {
        for claim in claims {
            self.push_claim(alloc, claim)?;
        }
        Ok(())
    }

    /// The rows of claims. The only error is that memory ran out.
    pub(crate) fn of(alloc: Global, claims: &[Claim]) -> Result<ClaimLists, AllocError>
        ensures lists { IfOk result (λ l. l ≡ claim_lists claims.now) }
        ensures ready { IfOk result (λ l. AllByRecursion IsReady claims.now) }
    {
        let mut lists = ClaimLists {
            claims: Vec::new(alloc),
            slots: Vec::new(alloc),
            bytes: Vec::new(alloc),
        };
        lists.push_claims(alloc, claims)?;
        Ok(lists)
    }
}
