// The transactions that a side broadcasts: its commitment with both signatures, and the fillings of claims.

use claim::Claim;
use commit::signing_digests;
use filling::{FillError, Filled, fill};
use keys::{Base, Key, Signer};
use lists::ByteString;
use resolve::Known;
use sighash::Token;
use sighash::programs::{key_hash_program, script_hash_program};
use std::alloc::Global;
use tx::{MAX_INPUTS, MAX_OUTPUTS, Tx, TxOut, Witness};

/// The funding output's script: `2 k1 k2 2 CHECKMULTISIG`, the lesser key first (BOLT 3, "Funding Transaction Output").
fn funding_script(key: &Key, other: &Key) -> [u8; 71] {
    let (lesser, greater) = if key.bytes < other.bytes {
        (key, other)
    } else {
        (other, key)
    };
    let mut script = [0x21; 71];
    script[0] = 0x52;
    script[2..35].copy_from_slice(&lesser.bytes);
    script[36..69].copy_from_slice(&greater.bytes);
    script[69] = 0x52;
    script[70] = 0xae;
    script
}

/// The funding output.
pub fn funding_output(alloc: Global, key: &Key, other: &Key, value: u64) -> Option<TxOut> {
    let program = script_hash_program(alloc, &funding_script(key, other)).ok()?;
    TxOut::new(value, program).ok()
}

/// A side's own token on its newest commitment.
fn own_token(alloc: Global, known: &Known) -> Option<Token> {
    let commitment = known.own.commitment.commitment();
    let digests = signing_digests(alloc, &known.terms, commitment).ok()?;
    let key = known.terms.party(known.side).bases.funding;
    known.signer.sign(&key, &digests.commitment).ok()
}

/// Appends an item. Returns whether there was memory.
fn push(alloc: Global, witness: &mut Witness, item: &[u8]) -> bool {
    match ByteString::from_slice(alloc, item) {
        Ok(item) => witness.push(item).is_ok(),
        Err(_) => false,
    }
}

/// Appends the items that spend the funding output: the empty item (BIP 147),
/// the signature of the lesser key, that of the greater, and the script.
fn push_all(
    alloc: Global,
    witness: &mut Witness,
    lesser: &Token,
    greater: &Token,
    script: &[u8],
) -> bool {
    push(alloc, witness, &[])
        && push(alloc, witness, lesser.bytes())
        && push(alloc, witness, greater.bytes())
        && push(alloc, witness, script)
}

/// Appends those items for a side's newest commitment, with its own token.
fn push_signed(alloc: Global, witness: &mut Witness, known: &Known, own: &Token) -> bool {
    let key = known.terms.party(known.side).bases.funding;
    let other = known.terms.party(known.side.other()).bases.funding;
    let script = funding_script(&key, &other);
    if key.bytes < other.bytes {
        push_all(alloc, witness, own, &known.own.token, &script)
    } else {
        push_all(alloc, witness, &known.own.token, own, &script)
    }
}

/// The witness of a side's newest commitment.
fn funding_witness(alloc: Global, known: &Known) -> Option<Witness> {
    let own = own_token(alloc, known)?;
    let mut witness = Witness::new(alloc);
    if push_signed(alloc, &mut witness, known, &own) {
        Some(witness)
    } else {
        None
    }
}

/// A transaction with a witness of its first input.
fn signed(mut tx: Tx, witness: Witness) -> Option<Tx> {
    if tx.inputs().is_empty() {
        return None;
    }
    tx.set_witness(0, witness);
    Some(tx)
}

/// A side's newest commitment, with both signatures.
pub fn closing_tx(alloc: Global, known: &Known) -> Option<Tx> {
    let witness = funding_witness(alloc, known)?;
    match known.own.commitment.commitment().tx().copy() {
        Ok(tx) => signed(tx, witness),
        Err(_) => None,
    }
}

/// One output of this value, in satoshis, to the hash of the signer's payment key (P2WPKH).
fn payout(alloc: Global, signer: &Signer, value: u64) -> Option<Vec<TxOut>> {
    let program = key_hash_program(alloc, &signer.base(Base::Payment).bytes).ok()?;
    let output = TxOut::new(value, program).ok()?;
    let mut outputs = Vec::new(alloc);
    outputs.push(output).ok()?;
    Some(outputs)
}

/// The filling of claims into these outputs, or why it is refused.
fn filled(
    alloc: Global,
    claims: &[&Claim],
    outputs: Vec<TxOut>,
    known: &Known,
) -> Result<Filled, FillError> {
    if claims.is_empty() || claims.len() > MAX_INPUTS || outputs.len() > MAX_OUTPUTS {
        return Err(FillError::NoMemory);
    }
    fill(
        alloc,
        claims,
        outputs,
        &known.signer,
        known.preimages.values(),
    )
}

/// The filling of the claims at some places into one output of this value, or why it is refused.
pub fn fill_some(
    alloc: Global,
    claims: &[Claim],
    places: &[usize],
    value: u64,
    known: &Known,
) -> Result<Filled, FillError> {
    let mut some = Vec::new(alloc);
    for place in places {
        if let Some(claim) = claims.get(*place) {
            if some.push(claim).is_err() {
                return Err(FillError::NoMemory);
            }
        }
    }
    match payout(alloc, &known.signer, value) {
        Some(outputs) => filled(alloc, some.as_slice(), outputs, known),
        None => Err(FillError::NoMemory),
    }
}
