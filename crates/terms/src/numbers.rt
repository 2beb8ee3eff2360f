//! The numbers of commitments, and the fields of their transactions that carry them (BOLT 3, "Commitment Transaction").

ghost use Rattle.std.specs.Prelude.{ℕ, ◌≡◌, ◌<◌, ◌^◌, ◌↔◌, IsTrue, Some};
ghost use Rattle.terms.specs.Numbers.{low_48_bits, mask_of, obscured, revealed, HasNumber};

use crate::agreement::Terms;
use sha2::{Digest, Sha256};
use tx::{OutPoint, Tx, TxIn};

/// The fields of a commitment transaction that carry its number.
#[derive(Clone, Copy, Debug, PartialEq, Eq, Drop)]
pub struct Obscured {
    /// The lock time: the top byte 20 (hexadecimal), which makes it a time long past, and the low 24 bits of the obscured number.
    pub lock_time: u32,
    /// The sequence of the only input: the top byte 80 (hexadecimal), which disables its relative lock, and the high 24 bits.
    pub sequence: u32,
}

/// 2^24.
const LOW_END: u64 = 1 << 24;

// The last six bytes of a hash, as a big-endian number.
fn low_48_bits(hash: &[u8; 32]) -> u64
    ensures value { result ≡ low_48_bits hash.now }
    ensures range { result < 2 ^ 48 }
{
    let high = u64::from(hash[26]) * 0x100 + u64::from(hash[27]);
    let middle = u64::from(hash[28]) * 0x100 + u64::from(hash[29]);
    let low = u64::from(hash[30]) * 0x100 + u64::from(hash[31]);
    high * 0x1_0000_0000 + middle * 0x1_0000 + low
}

/// The mask that hides the numbers of a channel's commitments: the low 48 bits of SHA-256 of the opener's payment base key, then the
/// accepter's.
#[tactic(auto, unfolding(crate::specs::Numbers::mask_of))]
pub fn mask(terms: &Terms) -> u64
    ensures value { result ≡ mask_of terms.now }
    ensures range { result < 2 ^ 48 }
{
    let opener = terms.party(terms.opener);
    let accepter = terms.party(terms.opener.other());
    let mut hasher = Sha256::new();
    hasher.update(&opener.bases.payment.bytes);
    hasher.update(&accepter.bases.payment.bytes);
    low_48_bits(&hasher.finalize())
}

/// The fields that carry commitment number `n` under a mask. Only the low 48 bits of `n` and of the mask count.
pub fn obscure(mask: u64, n: u64) -> Obscured
    ensures { result ≡ obscured mask n }
{
    let hidden = n ^ mask;
    Obscured {
        lock_time: 0x2000_0000 + (hidden % LOW_END) as u32,
        sequence: 0x8000_0000 + (hidden / LOW_END % LOW_END) as u32,
    }
}

// The number that the fields carry.
fn reveal(mask: u64, lock_time: u32, sequence: u32) -> Option<u64>
    ensures { result ≡ revealed mask lock_time sequence }
{
    if lock_time >> 24 != 0x20 || sequence >> 24 != 0x80 {
        return None;
    }
    let high = u64::from(sequence) % LOW_END;
    let low = u64::from(lock_time) % LOW_END;
    Some((high * LOW_END + low) ^ mask)
}

// Whether an input spends this output.
fn spends(input: &TxIn, output: &OutPoint) -> bool
    ensures { IsTrue result ↔ (input.now.outpoint ≡ output.now) }
{
    input.outpoint == *output
}

/// Reads a commitment's number from its lock time and its sequence (BOLT 3, Commitment Transaction). `None` if the transaction has more inputs than one,
/// if that input does not spend the funding output, or if these fields do not have this form.
pub fn number_of(terms: &Terms, tx: &Tx) -> Option<u64>
    ensures { (n : ℕ) → (result ≡ Some n) ↔ HasNumber terms.now tx.now n }
{
    let [input] = tx.inputs() else {
        return None;
    };
    if !spends(input, &terms.funding) {
        return None;
    }
    reveal(mask(terms), tx.lock_time(), input.sequence)
}
