//! The tokens of each input, signed as in the documentation of `sighash`. `vectors` has the digests from outside
//! sources.

use crate::transactions::{Sizes, transaction_of};
use sighash::{SighashCache, Token};
use std::alloc::{AllocError, Global};
use tx::Tx;

// The example in the documentation of `sighash`: a token for each input of a transaction whose inputs spend outputs of one value to one
// script.
fn sign_all(
    alloc: Global,
    tx: &Tx,
    key: &[u8; 33],
    code: &[u8],
    value: u64,
) -> Result<Vec<Token>, AllocError> {
    let cache = SighashCache::new(tx);
    let mut tokens = Vec::new(alloc);
    for index in 0..tx.inputs().len() {
        if let Ok(digest) = cache.digest_of(index, code, value) {
            tokens.push(Token::new(key, &digest))?;
        }
    }
    Ok(tokens)
}

const TWO_INPUTS: Sizes = Sizes {
    inputs: 2,
    outputs: 0,
    items: 0,
    item: 0,
    script: 0,
};

// The inputs spend two different outputs.
#[test]
fn signs_each_input(rt: HostRuntime) {
    let tx = transaction_of(&rt, rt.alloc(), &TWO_INPUTS);
    let tokens = sign_all(rt.alloc(), &tx, &[3; 33], &[0x51], 900).expect(&rt, "memory");
    assert!(rt; tokens.len() == 2);
    assert!(rt; tokens[0] != tokens[1]);
}
