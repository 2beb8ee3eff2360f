//! Time locks of an input.

ghost use Rattle.std.specs.Prelude.{◌≡◌, MatchResult};
ghost use Rattle.script.specs.Step.{age_passes, lock_passes};
ghost use Rattle.machine.specs.Doings.{IfStop, IsLock, HasNoLock};

use crate::halts::Halt;
use lists::{ByteString, Stack};
use script::limits::LOCKTIME_THRESHOLD;
use script::num::Limit;
use script::{Cause, Kind, Spend, num};

/// The sequence of a final input.
const FINAL: u32 = 0xffff_ffff;

/// Whether an absolute lock passes (BIP 65).
#[tactic(auto, unfolding(script::specs::Step::lock_passes))]
pub fn is_lock_reached(spend: &Spend, lock: u64) -> bool
    ensures { result ≡ lock_passes spend.now lock }
{
    let lock_time = u64::from(spend.lock_time);
    (lock < LOCKTIME_THRESHOLD) == (lock_time < LOCKTIME_THRESHOLD)
        && lock <= lock_time
        && spend.sequence != FINAL
}

/// Whether a relative lock passes (BIP 112): bit 31 disables it, bit 22 is its kind (blocks or units of 512 seconds), and the
/// lowest 16 bits are its length.
#[tactic(auto, unfolding(script::specs::Step::age_passes))]
pub fn is_age_reached(spend: &Spend, age: u64) -> bool
    ensures { result ≡ age_passes spend.now age }
{
    let sequence = u64::from(spend.sequence);
    age / 0x8000_0000 % 2 == 1
        || (spend.version >= 2
            && sequence / 0x8000_0000 % 2 != 1
            && (sequence / 0x40_0000 % 2 == 1) == (age / 0x40_0000 % 2 == 1)
            && age % 0x1_0000 <= sequence % 0x1_0000)
}

/// Reads the lock on top of the stack, a number of at most 5 bytes. A negative number fails the check `kind`.
pub fn read_lock(stack: &Stack<ByteString>, kind: Kind) -> Result<u64, Halt>
    ensures { MatchResult result (λ n. IsLock stack.now kind n)
        (λ h. IfStop h (λ c. HasNoLock stack.now kind c)) }
{
    let Some(top) = stack.top() else {
        return Err(Halt::Stop(Cause::MissingOperand));
    };
    let Some(number) = num::read(top.bytes(), Limit::Lock) else {
        return Err(Halt::failed(Kind::Number));
    };
    if number.negative {
        return Err(Halt::failed(kind));
    }
    Ok(number.magnitude)
}
