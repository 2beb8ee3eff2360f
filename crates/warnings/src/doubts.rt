// Absolute locks that hold nobody up, or nearly for ever.

ghost use Rattle.std.specs.Prelude.{◌≡◌, ◌++◌, IfOk, OnOk, None, option_to_list};
ghost use Rattle.warnings.specs.Doubts.{doubt_of, doubt_at, doubts_in};

use crate::locks::number_pushed;
use script::Op;
use script::limits::LOCKTIME_THRESHOLD;
use std::alloc::{AllocError, Global};

/// Why the number of a CHECKLOCKTIMEVERIFY is doubtful.
#[derive(Clone, Copy, Debug, PartialEq, Eq, Drop)]
pub enum LockDoubt {
    /// A height or a time that Bitcoin had passed before it had witness scripts: nobody waits.
    Passed,
    /// A height above 5,000,000.
    FarHeight,
    /// A time after the year 2099.
    FarTime,
}

/// A CHECKLOCKTIMEVERIFY whose number is doubtful.
#[derive(Clone, Copy, Debug, PartialEq, Eq, Drop)]
pub struct DoubtfulLock {
    /// The index of the opcode, counted from 0.
    pub op: usize,
    /// The number that the opcode before it pushes.
    pub number: u64,
    /// Why it is doubtful.
    pub doubt: LockDoubt,
}

// Why a lock time is doubtful, if it is.
#[tactic(auto, unfolding(crate::specs::Doubts::doubt_of))]
fn doubt_of(number: u64) -> Option<LockDoubt>
    ensures { result ≡ doubt_of number }
{
    if number < LOCKTIME_THRESHOLD {
        if number < 481_824 {
            Some(LockDoubt::Passed)
        } else if 5_000_000 < number {
            Some(LockDoubt::FarHeight)
        } else {
            None
        }
    } else if number < 1_503_539_857 {
        Some(LockDoubt::Passed)
    } else if 4_102_444_800 <= number && number < 4_294_967_295 {
        Some(LockDoubt::FarTime)
    } else {
        None
    }
}

// The doubt about an opcode before which a number was pushed.
#[tactic(auto, unfolding(crate::specs::Doubts::doubt_at))]
fn doubt_at(at: usize, before: Option<u64>, op: &Op) -> Option<DoubtfulLock>
    ensures { result ≡ doubt_at at before op.now }
{
    match op {
        Op::CheckLockTimeVerify => match before {
            Some(number) => match doubt_of(number) {
                Some(doubt) => Some(DoubtfulLock {
                    op: at,
                    number,
                    doubt,
                }),
                None => None,
            },
            None => None,
        },
        _ => None,
    }
}

// Appends a lock, if there is one. The only error is that memory ran out.
fn push_doubt(locks: &mut Vec<DoubtfulLock>, lock: Option<DoubtfulLock>) -> Result<(), AllocError>
    ensures { OnOk result (locks.new.items ≡ locks.old.items ++ option_to_list lock) }
{
    if let Some(lock) = lock {
        locks.push(lock)?;
    }
    Ok(())
}

/// The absolute locks of a script that hold nobody up, or nearly for ever, by the number that is pushed right before them. The only error is that memory ran out.
pub fn doubtful_locks(alloc: Global, ops: &[Op]) -> Result<Vec<DoubtfulLock>, AllocError>
    ensures { IfOk result (λ v. v.items ≡ doubts_in 0 None ops.now) }
{
    let mut locks = Vec::new(alloc);
    let mut before: Option<u64> = None;
    for (at, op) in ops.iter().enumerate() {
        push_doubt(&mut locks, doubt_at(at, before, op))?;
        before = number_pushed(op);
    }
    Ok(locks)
}
