//! The digest that a signature is over (BIP 143).

ghost use Rattle.std.specs.Prelude.{◌≡◌, ok_or};
ghost use Rattle.digest.specs.Hash.{sha256d as sha256d_of};
ghost use Rattle.sighash.specs.Signing.{all_outpoints, all_sequences, all_outputs, signed_list, sighash};

use crate::errors::DigestError;
use digest::sha256;
use sha2::{Digest, Sha256};
use std::marker::Model;
use tx::hashing::{absorb_byte_string, absorb_outpoint, absorb_outputs, absorb_u32, absorb_u64};
use tx::{Tx, TxIn, TxOut};

// SHA-256 twice over the outpoints of all inputs.
#[tactic(auto, unfolding(crate::specs::Signing::all_outpoints))]
fn hash_outpoints(inputs: &[TxIn]) -> [u8; 32]
    ensures { result ≡ sha256d_of (all_outpoints inputs.now) }
{
    let mut hasher = Sha256::new();
    for input in inputs {
        absorb_outpoint(&mut hasher, &input.outpoint);
    }
    sha256(&hasher.finalize())
}

// SHA-256 twice over the sequence numbers of all inputs.
#[tactic(auto, unfolding(crate::specs::Signing::all_sequences))]
fn hash_sequences(inputs: &[TxIn]) -> [u8; 32]
    ensures { result ≡ sha256d_of (all_sequences inputs.now) }
{
    let mut hasher = Sha256::new();
    for input in inputs {
        absorb_u32(&mut hasher, input.sequence);
    }
    sha256(&hasher.finalize())
}

// SHA-256 twice over all outputs.
#[tactic(auto, unfolding(crate::specs::Signing::all_outputs))]
fn hash_outputs(outputs: &[TxOut]) -> [u8; 32]
    ensures { result ≡ sha256d_of (all_outputs outputs.now) }
{
    let mut hasher = Sha256::new();
    absorb_outputs(&mut hasher, outputs);
    sha256(&hasher.finalize())
}

/// A transaction with the three hashes that the digests of all its inputs share. With it, computing the digests of all inputs takes time
/// in proportion to the size of the transaction, and no memory beyond the three hashes.
#[derive(Debug, Drop)]
pub struct SighashCache<'a> {
    tx: &'a Tx,
    outpoints: [u8; 32],
    sequences: [u8; 32],
    outputs: [u8; 32],
}

impl<'a> Model for SighashCache<'a> {
    ghost use Rattle.std.specs.Prelude.{◌≡◌};
    ghost use Rattle.digest.specs.Hash.{sha256d};
    ghost use Rattle.tx.specs.Fields.{Transaction};
    ghost use Rattle.sighash.specs.Signing.{all_outpoints, all_sequences, all_outputs};

    ghost Value = { Transaction };

    ghost view = { λ a. a.tx.now };

    ghost invariant = { λ a. (a.outpoints ≡ sha256d (all_outpoints a.tx.now.inputs))
        × (a.sequences ≡ sha256d (all_sequences a.tx.now.inputs))
        × (a.outputs ≡ sha256d (all_outputs a.tx.now.outputs)) };
}

impl<'a> SighashCache<'a> {
    /// Computes the three hashes of a transaction.
    pub fn new(tx: &'a Tx) -> Self
        ensures { result ≡ tx.now }
    {
        SighashCache {
            tx,
            outpoints: hash_outpoints(tx.inputs()),
            sequences: hash_sequences(tx.inputs()),
            outputs: hash_outputs(tx.outputs()),
        }
    }

    /// The digest for the input `index`, from 0, with hash type ALL (BIP 143). `code` is the script code without its length, and `value`
    /// the value in satoshis of the output that the input spends.
    pub fn digest_of(&self, index: usize, code: &[u8], value: u64) -> Result<[u8; 32], DigestError>
        ensures { result ≡ ok_or (sighash self.now index code.now value) DigestError.NoSuchInput }
    {
        match self.tx.inputs().get(index) {
            None => Err(DigestError::NoSuchInput),
            Some(input) => Ok(self.digest_for(input, code, value)),
        }
    }

    #[tactic(auto, unfolding(crate::specs::Signing::signed_list))]
    fn digest_for(&self, input: &TxIn, code: &[u8], value: u64) -> [u8; 32]
        ensures { result ≡ sha256d_of (signed_list self.now input.now code.now value) }
    {
        let mut hasher = Sha256::new();
        absorb_u32(&mut hasher, self.tx.version());
        hasher.update(&self.outpoints);
        hasher.update(&self.sequences);
        absorb_outpoint(&mut hasher, &input.outpoint);
        absorb_byte_string(&mut hasher, code);
        absorb_u64(&mut hasher, value);
        absorb_u32(&mut hasher, input.sequence);
        hasher.update(&self.outputs);
        absorb_u32(&mut hasher, self.tx.lock_time());
        absorb_u32(&mut hasher, 1);
        sha256(&hasher.finalize())
    }
}

/// The digest for one input of a transaction that spends an output of `value` satoshis, as [`SighashCache::digest_of`] gives it. Each call hashes all inputs and all outputs of the
/// transaction: for more than one input, make one [`SighashCache`] and use that.
pub fn digest_of(tx: &Tx, index: usize, code: &[u8], value: u64) -> Result<[u8; 32], DigestError>
    ensures { result ≡ ok_or (sighash tx.now index code.now value) DigestError.NoSuchInput }
{
    SighashCache::new(tx).digest_of(index, code, value)
}
