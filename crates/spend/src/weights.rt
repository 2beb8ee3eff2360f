// The weight of a transaction, and the fee by it (BIP 141).

ghost use Rattle.std.specs.Prelude.{◌≡◌, ◌^◌, ◌<◌, length, IfOk};
ghost use Rattle.tx.specs.Spelling.{stripped_spelling};
ghost use Rattle.spend.specs.Weights.{total_size, weight_of, greatest_weight, fee_at};

use filling::UnsignedSpend;
use std::alloc::{AllocError, Global};
use tx::{EncodeError, Tx, encode, encode_stripped};

/// The greatest number of bytes of a signature: 72 of DER, and the hash type.
const SIGNATURE_SIZE: u128 = 73;

// The number of bytes of a transaction, which has `stripped` bytes without its witnesses.
fn total_size(alloc: Global, tx: &Tx, stripped: usize) -> Result<usize, AllocError>
    requires { stripped ≡ length (stripped_spelling tx.now) }
    ensures { IfOk result (λ n. n ≡ total_size tx.now) }
{
    match encode(alloc, tx) {
        Ok(bytes) => Ok(bytes.len()),
        Err(EncodeError::NoWitness) => Ok(stripped),
        Err(EncodeError::NoMemory) => Err(AllocError),
    }
}

// The weight of a transaction in weight units.
fn weight(alloc: Global, tx: &Tx) -> Result<u128, AllocError>
    ensures value { IfOk result (λ w. w ≡ weight_of tx.now) }
    ensures bound { IfOk result (λ w. w < 2 ^ 66) }
{
    let stripped = encode_stripped(alloc, tx)?.len();
    let whole = total_size(alloc, tx, stripped)?;
    Ok(3 * stripped as u128 + whole as u128)
}

/// The weight that a transaction has at most once it is signed, in weight units.
pub fn greatest_weight(alloc: Global, spend: &UnsignedSpend) -> Result<u128, AllocError>
    ensures value { IfOk result (λ w. w ≡ greatest_weight spend.now.tx spend.now.signatures) }
    ensures bound { IfOk result (λ w. w < 2 ^ 80) }
{
    Ok(weight(alloc, &spend.tx)? + SIGNATURE_SIZE * spend.signatures.len() as u128)
}

/// The satoshis for a weight at a feerate in satoshis for each 1,000 units of weight, rounded up.
pub fn fee_sat(feerate_per_kw: u32, weight: u128) -> u128
    requires { weight < 2 ^ 80 }
    ensures { result ≡ fee_at feerate_per_kw weight }
{
    (u128::from(feerate_per_kw) * weight + 999) / 1000
}
