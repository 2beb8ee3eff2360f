//! Time locks of a transaction (BIP 65, BIP 68).

ghost use Rattle.std.specs.Prelude.{◌≡◌, ◌==◌};
ghost use Rattle.std.specs.List.{list_all};
ghost use Rattle.chain.specs.Locks.{is_final, is_old_enough};

use script::limits::LOCKTIME_THRESHOLD;
use tx::{Tx, TxIn};

/// The greatest time that counts as reached, in every block.
const PASSED_TIME: u64 = 0x20ff_ffff;

/// The sequence of a final input.
const FINAL: u32 = 0xffff_ffff;

/// The bit of a sequence that disables its relative lock (BIP 68).
const DISABLED: u32 = 0x8000_0000;

/// The bit of a sequence that makes its relative lock a time, in units of 512 seconds (BIP 68).
const OF_TIME: u32 = 0x40_0000;

/// Whether every input is final: its sequence is 0xffffffff.
fn are_final(inputs: &[TxIn]) -> bool
    ensures { result ≡ list_all (λ i. i.sequence == 0xffffffff) inputs.now }
{
    for input in inputs {
        if input.sequence != FINAL {
            return false;
        }
    }
    true
}

/// Whether the lock time allows the transaction in a block of this height.
pub(crate) fn is_final(height: u64, tx: &Tx) -> bool
    ensures { result ≡ is_final height tx.now.lock_time tx.now.inputs }
{
    let lock_time = u64::from(tx.lock_time());
    (lock_time < LOCKTIME_THRESHOLD && lock_time < height)
        || (lock_time >= LOCKTIME_THRESHOLD && lock_time <= PASSED_TIME)
        || are_final(tx.inputs())
}

/// Whether the sequence of an input allows it to spend, in a block of this height, a coin of that
/// height.
pub(crate) fn is_old_enough(height: u64, version: u32, sequence: u32, coin_height: u64) -> bool
    ensures { result ≡ is_old_enough height version sequence coin_height }
{
    if version < 2 || sequence / DISABLED % 2 == 1 {
        return true;
    }
    if sequence / OF_TIME % 2 == 1 {
        return false;
    }
    let age = u64::from(sequence % 0x1_0000);
    height >= coin_height && height - coin_height >= age
}
