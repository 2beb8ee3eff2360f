// What slots show of a fact: that it holds (`Some(true)`), that it does not (`Some(false)`), or neither (`None`). `known` is the digest that
// signatures are over, if the transaction is fixed.

ghost use Rattle.std.specs.Prelude.{◌≡◌, None, Some, is_some};
ghost use Rattle.std.specs.List.{list_any, list_all};
ghost use Rattle.claim.specs.Evidence.{is_token_with, hash_evidence, size_evidence, truth_evidence, no_unless, is_preimage, bytes_evidence, form_evidence, key_form_evidence, token_of_evidence, known_bytes, slot_token_evidence, token_evidence, is_yes, is_no, exists_choice, assigned_evidence, evidence_of};

use crate::parts::Slot;
use digest::{hash160, ripemd160, sha256};
use facts::{Fact, KeySource};
use script::limits::LOCKTIME_THRESHOLD;
use script::tokens::{has_key_form, has_signature_form, is_token_of};
use script::truths::is_true;
use sighash::Token;

/// The type flag of a relative lock: with bit 22 set, the lock is in units of 512 seconds (BIP 68, 112).
const TIME_BIT: u32 = 22;

// Whether bytes are this key, 32 bytes, and the hash type ALL.
fn is_token_with(key: &[u8], bytes: &[u8]) -> bool
    ensures { result ≡ is_token_with key.now bytes.now }
{
    bytes.len() == key.len() + 33 && &bytes[..key.len()] == key && bytes[key.len() + 32] == 1
}

// `Some(false)` if a test fails, else `None`.
fn no_unless(passes: bool) -> Option<bool>
    ensures { result ≡ no_unless passes }
{
    if passes { None } else { Some(false) }
}

// Whether HASH160 of the slot is this.
fn hash_evidence(known: Option<[u8; 32]>, hash: &[u8], slot: &Slot) -> Option<bool>
    ensures { result ≡ hash_evidence known hash.now slot.now }
{
    match slot {
        Slot::Sig(key) => match known {
            None => None,
            Some(digest) => Some(
                hash160(Token::new(&key.bytes, &digest).bytes()).as_slice() == hash,
            ),
        },
        Slot::Preimage(image) => Some(ripemd160(image).as_slice() == hash),
        Slot::Exact(exact) => Some(hash160(exact.item.bytes()).as_slice() == hash),
    }
}

// Whether the slot has n bytes.
fn size_evidence(size: u32, slot: &Slot) -> Option<bool>
    ensures { result ≡ size_evidence size slot.now }
{
    match slot {
        Slot::Sig(_) => Some(size == 66),
        Slot::Preimage(_) => Some(size == 32),
        Slot::Exact(exact) => Some(exact.item.len() == size as usize),
    }
}

// Whether the slot counts as true.
fn truth_evidence(slot: &Slot) -> Option<bool>
    ensures { result ≡ truth_evidence slot.now }
{
    match slot {
        Slot::Sig(_) => Some(true),
        Slot::Preimage(_) => None,
        Slot::Exact(exact) => Some(is_true(exact.item.bytes())),
    }
}

// Whether bytes are a preimage: 32 bytes with this SHA-256.
fn is_preimage(bytes: &[u8], image: &[u8; 32]) -> bool
    ensures { result ≡ is_preimage bytes.now image.now }
{
    bytes.len() == 32 && sha256(bytes) == *image
}

// Whether the slot is these bytes.
fn bytes_evidence(known: Option<[u8; 32]>, bytes: &[u8], slot: &Slot) -> Option<bool>
    ensures { result ≡ bytes_evidence known bytes.now slot.now }
{
    match slot {
        Slot::Sig(key) => match known {
            None => no_unless(is_token_with(&key.bytes, bytes)),
            Some(digest) => Some(Token::new(&key.bytes, &digest).bytes().as_slice() == bytes),
        },
        Slot::Preimage(image) => no_unless(is_preimage(bytes, image)),
        Slot::Exact(exact) => Some(exact.item.bytes() == bytes),
    }
}

// Whether the slot is empty or has the form of a token.
fn form_evidence(slot: &Slot) -> Option<bool>
    ensures { result ≡ form_evidence slot.now }
{
    match slot {
        Slot::Sig(_) => Some(true),
        Slot::Preimage(_) => Some(false),
        Slot::Exact(exact) => Some(has_signature_form(exact.item.bytes())),
    }
}

// Whether the slot has the form of a key.
fn key_form_evidence(slot: &Slot) -> Option<bool>
    ensures { result ≡ key_form_evidence slot.now }
{
    match slot {
        Slot::Sig(_) => Some(false),
        Slot::Preimage(_) => Some(false),
        Slot::Exact(exact) => Some(has_key_form(exact.item.bytes())),
    }
}

// Whether the slot is the token of a key whose bytes are known.
fn token_of_evidence(known: Option<[u8; 32]>, key: &[u8], slot: &Slot) -> Option<bool>
    ensures { result ≡ token_of_evidence known key.now slot.now }
{
    match slot {
        Slot::Sig(named) => Some(named.bytes.as_slice() == key),
        Slot::Preimage(_) => Some(false),
        Slot::Exact(exact) => match known {
            None => no_unless(is_token_with(key, exact.item.bytes())),
            Some(digest) => Some(is_token_of(exact.item.bytes(), key, &digest)),
        },
    }
}

// Whether the slot is the token of a key whose bytes are not known.
fn some_token_evidence(known: Option<[u8; 32]>, slot: &Slot) -> Option<bool>
    ensures { result ≡ slot_token_evidence known None slot.now }
{
    match slot {
        Slot::Sig(_) => None,
        Slot::Preimage(_) => Some(false),
        Slot::Exact(_) => None,
    }
}

// Whether the slot is the token of a key in another slot, whose bytes may be known.
fn keyed_token_evidence(known: Option<[u8; 32]>, key: &Slot, slot: &Slot) -> Option<bool>
    ensures { result ≡ slot_token_evidence known (known_bytes known (Some key.now)) slot.now }
{
    match key {
        Slot::Exact(exact) => token_of_evidence(known, exact.item.bytes(), slot),
        Slot::Sig(named) => match known {
            None => some_token_evidence(known, slot),
            Some(digest) => token_of_evidence(
                known,
                Token::new(&named.bytes, &digest).bytes(),
                slot,
            ),
        },
        Slot::Preimage(_) => some_token_evidence(known, slot),
    }
}

// Whether a slot is the token of a key. A key in a slot is known if that slot's bytes are known.
fn token_evidence(
    known: Option<[u8; 32]>,
    slots: &[Slot],
    place: usize,
    key: &KeySource,
) -> Option<bool>
    ensures { result ≡ token_evidence known slots.now place key.now }
{
    let slot = slots.get(place)?;
    match key {
        KeySource::Const(bytes) => token_of_evidence(known, bytes.bytes(), slot),
        KeySource::Slot(other) => match slots.get(*other) {
            Some(key) => keyed_token_evidence(known, key, slot),
            None => some_token_evidence(known, slot),
        },
    }
}

// Whether it is shown.
fn is_yes(answer: Option<bool>) -> bool
    ensures { result ≡ is_yes answer }
{
    match answer {
        Some(holds) => holds,
        None => false,
    }
}

// Whether it is shown not to hold.
fn is_no(answer: Option<bool>) -> bool
    ensures { result ≡ is_no answer }
{
    match answer {
        Some(holds) => !holds,
        None => false,
    }
}

// Whether tokens of an increasing choice of the keys are shown, one for each slot. Each key in turn is matched with the first slot that is left.
fn has_choice(known: Option<[u8; 32]>, slots: &[Slot], places: &[usize], keys: &[KeySource]) -> bool
    ensures { result ≡ exists_choice (λ i key. is_yes (token_evidence known slots.now i key))
        places.now keys.now }
{
    let mut taken: usize = 0;
    for key in keys {
        if taken == places.len() {
            return true;
        }
        if is_yes(token_evidence(known, slots, places[taken], key)) {
            taken += 1;
        }
    }
    taken == places.len()
}

// Whether the evidence refuses a slot as the token of each key.
fn is_refused(known: Option<[u8; 32]>, slots: &[Slot], place: usize, keys: &[KeySource]) -> bool
    ensures { result ≡ list_all (λ key. is_no (token_evidence known slots.now place key)) keys.now }
{
    keys.iter()
        .all(|key| is_no(token_evidence(known, slots, place, key)))
}

// Whether the evidence refuses one of the slots for each key.
fn has_refused(
    known: Option<[u8; 32]>,
    slots: &[Slot],
    places: &[usize],
    keys: &[KeySource],
) -> bool
    ensures { result ≡ list_any (λ i. list_all
        (λ key. is_no (token_evidence known slots.now i key)) keys.now) places.now }
{
    places
        .iter()
        .any(|place| is_refused(known, slots, *place, keys))
}

// Whether the evidence decides, for each key, if the slot holds its token.
fn is_decided(known: Option<[u8; 32]>, slots: &[Slot], place: usize, keys: &[KeySource]) -> bool
    ensures { result ≡ list_all (λ key. is_some (token_evidence known slots.now place key))
        keys.now }
{
    keys.iter()
        .all(|key| token_evidence(known, slots, place, key).is_some())
}

// Whether `is_decided` holds for each slot.
fn are_decided(
    known: Option<[u8; 32]>,
    slots: &[Slot],
    places: &[usize],
    keys: &[KeySource],
) -> bool
    ensures { result ≡ list_all (λ i. list_all
        (λ key. is_some (token_evidence known slots.now i key)) keys.now) places.now }
{
    places
        .iter()
        .all(|place| is_decided(known, slots, *place, keys))
}

// Whether the slots are tokens of an increasing choice of the keys.
fn assigned_evidence(
    known: Option<[u8; 32]>,
    slots: &[Slot],
    places: &[usize],
    keys: &[KeySource],
) -> Option<bool>
    ensures { result ≡ assigned_evidence known slots.now places.now keys.now }
{
    if has_choice(known, slots, places, keys) {
        return Some(true);
    }
    if has_refused(known, slots, places, keys) || are_decided(known, slots, places, keys) {
        return Some(false);
    }
    None
}

/// What slots show of a fact.
pub(crate) fn evidence_of(known: Option<[u8; 32]>, slots: &[Slot], fact: &Fact) -> Option<bool>
    ensures { result ≡ evidence_of known slots.now fact.now }
{
    match fact {
        Fact::Hash(place, hash) => hash_evidence(known, hash.bytes(), slots.get(*place)?),
        Fact::Size(place, size) => size_evidence(*size, slots.get(*place)?),
        Fact::Truth(place) => truth_evidence(slots.get(*place)?),
        Fact::Is(place, bytes) => bytes_evidence(known, bytes.bytes(), slots.get(*place)?),
        Fact::KeyForm(place) => key_form_evidence(slots.get(*place)?),
        Fact::Form(place) => form_evidence(slots.get(*place)?),
        Fact::Token(place, key) => token_evidence(known, slots, *place, key),
        Fact::Assigned(places, keys) => assigned_evidence(
            known,
            slots,
            places.values(),
            keys.values(),
        ),
        Fact::Lock(n) => if *n < LOCKTIME_THRESHOLD {
            Some(true)
        } else {
            None
        },
        Fact::Age(n) => if (*n >> TIME_BIT) % 2 == 1 {
            None
        } else {
            Some(true)
        },
    }
}
