// The scripts of the funding output, to_local and to_remote.

ghost use Rattle.std.specs.Prelude.{◌≡◌, IfOk};
ghost use Rattle.digest.specs.Hash.{hash160 as hash160_of};
ghost use Rattle.forms.specs.Forms.{two_of_two_form, funding_form, to_local_form, key_hash_form};

use crate::instances::instance_of;
use crate::pattern_set::Patterns;
use digest::hash160;
use keys::Key;
use paths::{Checked, Fill};
use std::alloc::{AllocError, Global};
use std::cmp::Ordering;

// The 2-of-2 script of both keys, in this order.
fn two_of_two(
    alloc: Global,
    patterns: &Patterns,
    first: &Key,
    second: &Key,
) -> Result<Checked, AllocError>
    ensures { IfOk result (λ c. c ≡ two_of_two_form first.now.bytes second.now.bytes) }
{
    let fills = [Fill::Key(first.bytes), Fill::Key(second.bytes)];
    instance_of(alloc, &patterns.two_of_two, &fills)
}

/// The funding output's script (BOLT 3, "Funding Transaction Output"): both keys sign. The lexicographically lesser key comes first, in whichever
/// order they are given. It has one path. The only error is that memory ran out.
pub fn funding(
    alloc: Global,
    patterns: &Patterns,
    key: &Key,
    other: &Key,
) -> Result<Checked, AllocError>
    ensures { IfOk result (λ c. c ≡ funding_form key.now.bytes other.now.bytes) }
{
    if other.bytes.cmp(&key.bytes) == Ordering::Less {
        two_of_two(alloc, patterns, other, key)
    } else {
        two_of_two(alloc, patterns, key, other)
    }
}

/// The script of a commitment's to_local output, and of the output of an HTLC transaction (BOLT 3): the revocation key, or the delayed key
/// after `delay_blocks` blocks. Its paths are these two, in this order. The only error is that memory ran out.
pub fn to_local(
    alloc: Global,
    patterns: &Patterns,
    revocation: &Key,
    delay_blocks: u16,
    delayed: &Key,
) -> Result<Checked, AllocError>
    ensures { IfOk result (λ c. c ≡ to_local_form revocation.now.bytes delay_blocks delayed.now.bytes) }
{
    let fills = [
        Fill::Key(revocation.bytes),
        Fill::Num(delay_blocks as u32),
        Fill::Key(delayed.bytes),
    ];
    instance_of(alloc, &patterns.to_local, &fills)
}

/// The script that P2WPKH of this key stands for (BIP 141): DUP HASH160 hash EQUALVERIFY CHECKSIG. It is the script of a commitment's to_remote
/// output (BOLT 3). Its one path takes the key and its signature. The only error is that memory ran out.
pub fn key_hash(alloc: Global, patterns: &Patterns, key: &Key) -> Result<Checked, AllocError>
    ensures { IfOk result (λ c. c ≡ key_hash_form (hash160_of key.now.bytes)) }
{
    let hash = hash160(&key.bytes);
    let fills = [Fill::Hash(hash)];
    instance_of(alloc, &patterns.key_hash, &fills)
}
