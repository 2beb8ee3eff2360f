//! Feeds parts of a transaction to a hasher, so that their bytes need not be stored.

ghost use Rattle.std.specs.Prelude.{◌≡◌};
ghost use Rattle.std.specs.List.{flat_map};
ghost use Rattle.tx.specs.Hashing.{Absorbs};
ghost use Rattle.tx.specs.Spelling.{number, compact_size, bytes_with_length, outpoint, input, output, body, stripped_spelling, transaction_id};

use crate::input::{OutPoint, TxIn};
use crate::output::TxOut;
use crate::transaction::Tx;
use digest::sha256;
use sha2::{Digest, Sha256};

/// Feeds a number to a hasher: four bytes, little-endian.
#[tactic(auto, unfolding(crate::specs::Spelling::number))]
pub fn absorb_u32(hasher: &mut Sha256, small: u32)
    ensures { Absorbs hasher.old hasher.new (number 4 small) }
{
    hasher.update(&small.to_le_bytes());
}

/// Feeds a number to a hasher: eight bytes, little-endian.
#[tactic(auto, unfolding(crate::specs::Spelling::number))]
pub fn absorb_u64(hasher: &mut Sha256, large: u64)
    ensures { Absorbs hasher.old hasher.new (number 8 large) }
{
    hasher.update(&large.to_le_bytes());
}

/// Feeds a count to a hasher, as a minimal compactSize.
#[tactic(auto, unfolding(crate::specs::Spelling::compact_size, crate::specs::Spelling::number))]
pub fn absorb_compact_size(hasher: &mut Sha256, n: usize)
    ensures { Absorbs hasher.old hasher.new (compact_size n) }
{
    let n = n as u64;
    if n < 0xfd {
        hasher.update(&[n as u8]);
    } else if n < 0x1_0000 {
        hasher.update(&[0xfd]);
        hasher.update(&(n as u16).to_le_bytes());
    } else if n < 0x1_0000_0000 {
        hasher.update(&[0xfe]);
        hasher.update(&(n as u32).to_le_bytes());
    } else {
        hasher.update(&[0xff]);
        hasher.update(&n.to_le_bytes());
    }
}

/// Feeds bytes to a hasher, after their length as a compactSize.
#[tactic(auto, unfolding(crate::specs::Spelling::bytes_with_length))]
pub fn absorb_byte_string(hasher: &mut Sha256, bytes: &[u8])
    ensures { Absorbs hasher.old hasher.new (bytes_with_length bytes.now) }
{
    absorb_compact_size(hasher, bytes.len());
    hasher.update(bytes);
}

/// Feeds an outpoint to a hasher: the id, and the index in four bytes, little-endian.
#[tactic(auto, unfolding(crate::specs::Spelling::outpoint))]
pub fn absorb_outpoint(hasher: &mut Sha256, o: &OutPoint)
    ensures { Absorbs hasher.old hasher.new (outpoint o.now) }
{
    hasher.update(&o.txid);
    absorb_u32(hasher, o.index);
}

/// Feeds an output to a hasher: the value in eight bytes, little-endian, and the script after its
/// length.
#[tactic(auto, unfolding(crate::specs::Spelling::output))]
pub fn absorb_output(hasher: &mut Sha256, o: &TxOut)
    ensures { Absorbs hasher.old hasher.new (output o.now) }
{
    absorb_u64(hasher, o.value());
    absorb_byte_string(hasher, o.script().bytes());
}

/// Feeds outputs to a hasher, one after another.
pub fn absorb_outputs(hasher: &mut Sha256, outputs: &[TxOut])
    ensures { Absorbs hasher.old hasher.new (flat_map output outputs.now) }
{
    for o in outputs {
        absorb_output(hasher, o);
    }
}

// An input: outpoint, empty script, sequence.
#[tactic(auto, unfolding(crate::specs::Spelling::input))]
fn absorb_input(hasher: &mut Sha256, i: &TxIn)
    ensures { Absorbs hasher.old hasher.new (input i.now) }
{
    absorb_outpoint(hasher, &i.outpoint);
    absorb_compact_size(hasher, 0);
    absorb_u32(hasher, i.sequence);
}

fn absorb_inputs(hasher: &mut Sha256, inputs: &[TxIn])
    ensures { Absorbs hasher.old hasher.new (flat_map input inputs.now) }
{
    for i in inputs {
        absorb_input(hasher, i);
    }
}

#[tactic(auto, unfolding(crate::specs::Spelling::body))]
fn absorb_body(hasher: &mut Sha256, inputs: &[TxIn], outputs: &[TxOut])
    ensures { Absorbs hasher.old hasher.new (body inputs.now outputs.now) }
{
    absorb_compact_size(hasher, inputs.len());
    absorb_inputs(hasher, inputs);
    absorb_compact_size(hasher, outputs.len());
    absorb_outputs(hasher, outputs);
}

/// The id of a transaction: SHA-256 twice over its bytes without marker, flag and witnesses (BIP 141,
/// "Transaction ID"), in the hash's own byte order. An unsigned transaction has the same id as the
/// signed one.
#[tactic(auto, unfolding(crate::specs::Spelling::stripped_spelling, crate::specs::Spelling::transaction_id))]
pub fn txid(tx: &Tx) -> [u8; 32]
    ensures { result ≡ transaction_id tx.now }
{
    let mut hasher = Sha256::new();
    absorb_u32(&mut hasher, tx.version());
    absorb_body(&mut hasher, tx.inputs(), tx.outputs());
    absorb_u32(&mut hasher, tx.lock_time());
    sha256(&hasher.finalize())
}
