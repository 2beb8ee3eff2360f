// The slots that a path asks for.

ghost use Rattle.std.specs.Prelude.{◌≡◌, replicate, IfOk, OnOk, MatchResult};
ghost use Rattle.std.specs.Str.{bytes_eq};
ghost use Rattle.enforce_c.specs.Prepared.{blank, blanks, with_row, with_exact, key_with, image_with, with_hash, key_in, signer_of, with_signer, is_among, is_known, takes, assigned, with_truth, with_truths, with_hashed, with_hashes, with_value, with_values, lists_for, place_for, IsMet, IsUnmet, IsPrepared};
ghost use Rattle.enforce_c.specs.Spent.{UnlessMemory};

use crate::claim_rows::{SLOT_EXACT, SLOT_PREIMAGE, SLOT_SIGNATURE, SlotRow};
use crate::claims_of_c::slots_of;
use crate::listing::listed;
use crate::programs::program_of;
use crate::ranges::part;
use crate::slot_rows::KeyRow;
use crate::spend_rows::PreimageRow;
use crate::statuses::Refusal;
use claim::{AcceptError, Place, Shell, accept};
use digest::{hash160, sha256};
use facts::{Fact, KeySource, Stated};
use lists::ByteString;
use paths::{Checked, Path};
use std::alloc::{AllocError, Global};
use std::marker::Model;
use tx::OutPoint;

/// Rows of slots, the top of the stack first, and the bytes that they refer to. A contract sees it as both lists.
#[derive(Drop)]
pub struct SlotLists {
    pub(crate) slots: Vec<SlotRow>,
    pub(crate) bytes: Vec<u8>,
}

impl Model for SlotLists {
    ghost use Rattle.std.specs.Str.{bytes_eq};
    ghost use Rattle.enforce_c.specs.Prepared.{ListsOfSlots};

    ghost Value = { ListsOfSlots };

    ghost view = { λ l. record { slots = l.slots.items; bytes = l.bytes.items } };
}

// The row of the empty item.
fn blank() -> SlotRow
    ensures { result ≡ blank }
{
    SlotRow {
        kind: SLOT_EXACT,
        key: [0; 33],
        hash: [0; 32],
        bytes_at: 0,
        bytes_length: 0,
    }
}

// That of so many slots.
fn blanks(alloc: Global, count: usize) -> Result<Vec<SlotRow>, AllocError>
    ensures { IfOk result (λ v. v.items ≡ replicate count blank) }
{
    vec![in alloc; blank(); count]
}

// The first key with this HASH160.
fn key_with(hash: &[u8], keys: &[KeyRow]) -> Option<[u8; 33]>
    ensures { result ≡ key_with hash.now keys.now }
{
    for key in keys {
        if hash160(&key.bytes).as_slice() == hash {
            return Some(key.bytes);
        }
    }
    None
}

// The SHA-256 of the first preimage with this HASH160.
fn image_with(hash: &[u8], preimages: &[PreimageRow]) -> Option<[u8; 32]>
    ensures { result ≡ image_with hash.now preimages.now }
{
    for preimage in preimages {
        if hash160(&preimage.bytes).as_slice() == hash {
            return Some(sha256(&preimage.bytes));
        }
    }
    None
}

// Whether a key is this one.
fn is_key(key: &KeyRow, signer: &[u8; 33]) -> bool
    ensures { result ≡ bytes_eq key.now.bytes signer.now }
{
    key.bytes == *signer
}

// Whether it is among these keys.
fn is_among(signer: &[u8; 33], keys: &[KeyRow]) -> bool
    ensures { result ≡ is_among signer.now keys.now }
{
    keys.iter().any(|key| is_key(key, signer))
}

// Whether a signature is by one of these keys.
fn is_known(signer: Option<[u8; 33]>, keys: &[KeyRow]) -> bool
    ensures { result ≡ is_known signer keys.now }
{
    match signer {
        Some(signer) => is_among(&signer, keys),
        None => false,
    }
}

// Whether a choice takes a key, after which so many keys are left, and so many slots.
fn takes(keys: &[KeyRow], left: usize, wanted: usize, signer: Option<[u8; 33]>) -> bool
    ensures { result ≡ takes keys.now left wanted signer }
{
    left <= wanted || is_known(signer, keys)
}

impl SlotLists {
    // The row of a slot.
    fn put_row(&mut self, slot: usize, row: SlotRow)
        ensures { self.new ≡ with_row slot row self.old }
    {
        if slot < self.slots.len() {
            self.slots[slot] = row;
        }
    }

    // The row of these bytes.
    fn put_exact(&mut self, slot: usize, item: &[u8]) -> Result<(), AllocError>
        ensures { OnOk result (self.new ≡ with_exact slot item.now self.old) }
    {
        let mut row = blank();
        row.bytes_at = self.bytes.len();
        row.bytes_length = item.len();
        self.put_row(slot, row);
        self.bytes.extend_from_slice(item)
    }

    // The row of a key or of a preimage with the hash that is asked for, if there is one.
    fn put_hash(
        &mut self,
        slot: usize,
        key: Option<[u8; 33]>,
        image: Option<[u8; 32]>,
    ) -> Result<(), AllocError>
        ensures { OnOk result (self.new ≡ with_hash slot key image self.old) }
    {
        if let Some(key) = key {
            return self.put_exact(slot, &key);
        }
        if let Some(hash) = image {
            let mut row = blank();
            row.kind = SLOT_PREIMAGE;
            row.hash = hash;
            self.put_row(slot, row);
        }
        Ok(())
    }

    // The key of a signature: that of the script, or the bytes of its slot.
    fn signer_of(&self, source: &KeySource) -> Option<[u8; 33]>
        ensures { result ≡ signer_of source.now self.now }
    {
        match source {
            KeySource::Const(bytes) => key_in(bytes.bytes()),
            KeySource::Slot(slot) => match self.slots.get(*slot) {
                Some(row) => match part(self.bytes.as_slice(), row.bytes_at, row.bytes_length) {
                    Some(item) => key_in(item),
                    None => None,
                },
                None => None,
            },
        }
    }

    // The row of a signature by this key, if it is known.
    fn put_signer(&mut self, slot: usize, signer: Option<[u8; 33]>)
        ensures { self.new ≡ with_signer slot signer self.old }
    {
        if let Some(key) = signer {
            let mut row = blank();
            row.kind = SLOT_SIGNATURE;
            row.key = key;
            self.put_row(slot, row);
        }
    }

    // The rows of a choice of keys: those that the caller has, and those without which there are too few.
    #[tactic(auto, using(crate::proofs::Prepared::taken, crate::proofs::Prepared::left_out, crate::proofs::Prepared::all_taken, crate::proofs::Prepared::no_more))]
    fn put_assigned(&mut self, keys: &[KeyRow], slots: &[usize], sources: &[KeySource])
        ensures { self.new ≡ assigned keys.now slots.now sources.now self.old }
    {
        let mut taken = 0;
        for (index, source) in sources.iter().enumerate() {
            if taken < slots.len() {
                let signer = self.signer_of(source);
                if takes(
                    keys,
                    sources.len() - index - 1,
                    slots.len() - taken - 1,
                    signer,
                ) {
                    self.put_signer(slots[taken], signer);
                    taken += 1;
                }
            }
        }
    }

    // The row of a slot that is to be true.
    fn put_truth(&mut self, stated: &Stated) -> Result<(), AllocError>
        ensures { OnOk result (self.new ≡ with_truth stated.now self.old) }
    {
        match (&stated.fact, stated.holds) {
            (Fact::Truth(slot), true) => self.put_exact(*slot, &[1]),
            _ => Ok(()),
        }
    }

    // The row of a slot whose hash is asked for.
    fn put_hashed(
        &mut self,
        keys: &[KeyRow],
        preimages: &[PreimageRow],
        stated: &Stated,
    ) -> Result<(), AllocError>
        ensures { OnOk result (self.new ≡ with_hashed keys.now preimages.now stated.now self.old) }
    {
        match (&stated.fact, stated.holds) {
            (Fact::Hash(slot, hash), true) => {
                let key = key_with(hash.bytes(), keys);
                self.put_hash(*slot, key, image_with(hash.bytes(), preimages))
            }
            _ => Ok(()),
        }
    }

    // The rows of slots whose bytes or signers are asked for.
    fn put_value(&mut self, keys: &[KeyRow], stated: &Stated) -> Result<(), AllocError>
        ensures { OnOk result (self.new ≡ with_value keys.now stated.now self.old) }
    {
        match (&stated.fact, stated.holds) {
            (Fact::Is(slot, item), true) => self.put_exact(*slot, item.bytes()),
            (Fact::Token(slot, source), true) => {
                self.put_signer(*slot, self.signer_of(source));
                Ok(())
            }
            (Fact::Assigned(slots, sources), true) => {
                self.put_assigned(keys, slots.values(), sources.values());
                Ok(())
            }
            _ => Ok(()),
        }
    }

    // Those of facts.
    fn put_truths(&mut self, facts: &[Stated]) -> Result<(), AllocError>
        ensures { OnOk result (self.new ≡ with_truths facts.now self.old) }
    {
        for stated in facts {
            self.put_truth(stated)?;
        }
        Ok(())
    }

    fn put_hashes(
        &mut self,
        keys: &[KeyRow],
        preimages: &[PreimageRow],
        facts: &[Stated],
    ) -> Result<(), AllocError>
        ensures { OnOk result (self.new ≡ with_hashes keys.now preimages.now facts.now self.old) }
    {
        for stated in facts {
            self.put_hashed(keys, preimages, stated)?;
        }
        Ok(())
    }

    fn put_values(&mut self, keys: &[KeyRow], facts: &[Stated]) -> Result<(), AllocError>
        ensures { OnOk result (self.new ≡ with_values keys.now facts.now self.old) }
    {
        for stated in facts {
            self.put_value(keys, stated)?;
        }
        Ok(())
    }
}

// The key that has these bytes, where there are 33.
fn key_in(bytes: &[u8]) -> Option<[u8; 33]>
    ensures { result ≡ key_in bytes.now }
{
    if bytes.len() != 33 {
        return None;
    }
    let mut key = [0; 33];
    key.copy_from_slice(bytes);
    Some(key)
}

// The rows for a path. The only error is that memory ran out.
fn lists_for(
    alloc: Global,
    path: &Path,
    keys: &[KeyRow],
    preimages: &[PreimageRow],
) -> Result<SlotLists, AllocError>
    ensures { IfOk result (λ l. l ≡ lists_for keys.now preimages.now path.now) }
{
    let mut lists = SlotLists {
        slots: blanks(alloc, path.arity)?,
        bytes: Vec::new(alloc),
    };
    let facts = path.facts.values();
    lists.put_truths(facts)?;
    lists.put_hashes(keys, preimages, facts)?;
    lists.put_values(keys, facts)?;
    Ok(lists)
}

// An output with the program of a script.
fn place_for(alloc: Global, script: &[u8]) -> Result<Place, AllocError>
    ensures { IfOk result (λ p. p ≡ place_for script.now) }
{
    Ok(Place {
        outpoint: OutPoint {
            txid: [0; 32],
            index: 0,
        },
        value: 0,
        program: ByteString::from_slice(alloc, &program_of(script))?,
    })
}

// Whether a claim with these slots is accepted.
#[tactic(auto, using(crate::proofs::Prepared::is_met, crate::proofs::Prepared::not_filled, crate::proofs::Prepared::not_accepted))]
fn judged(
    alloc: Global,
    script: &[u8],
    checked: Checked,
    path: usize,
    lists: &SlotLists,
) -> Result<(), Refusal>
    ensures { MatchResult result (λ _. IsMet script.now checked path lists.now)
        (λ e. UnlessMemory e (IsUnmet script.now checked path lists.now e)) }
{
    let place = place_for(alloc, script)?;
    let slots = slots_of(alloc, lists.bytes.as_slice(), lists.slots.as_slice())?;
    match accept(alloc, checked, path, slots, place, Shell::Open) {
        Ok(_) => Ok(()),
        Err(refusal) => Err(Refusal::Accept(refusal)),
    }
}

/// The rows of the slots that a path of a script asks for. Checked in this order: the script, its listing, the path, and whether a claim with these slots is accepted.
#[tactic(auto, using(crate::proofs::Prepared::no_path, crate::proofs::Prepared::not_judged, crate::proofs::Prepared::is_prepared, crate::proofs::Prepared::not_listed))]
pub(crate) fn prepared(
    alloc: Global,
    script: &[u8],
    path: usize,
    keys: &[KeyRow],
    preimages: &[PreimageRow],
) -> Result<SlotLists, Refusal>
    ensures { IsPrepared script.now path keys.now preimages.now result }
{
    let checked = listed(alloc, script)?;
    let Some(asked) = checked.paths().get(path) else {
        return Err(Refusal::Accept(AcceptError::NoSuchPath));
    };
    let lists = lists_for(alloc, asked, keys, preimages)?;
    judged(alloc, script, checked, path, &lists)?;
    Ok(lists)
}
