// Relative locks that ask for less than their number says, or are by time, locks that no transaction reaches, and those whose bytes seem to be turned round.

ghost use Rattle.std.specs.Prelude.{◌≡◌, ◌++◌, IfOk, OnOk, None, option_to_list, option_and_then};
ghost use Rattle.script.specs.Number.{number_of};
ghost use Rattle.warnings.specs.Locks.{sequence_lock, is_plain, number_pushed, warned_at, warnings_in, is_beyond, asks_beyond, has_unreachable_lock, units_of, greater, greatest_units, magnitude_of, turned_of, pushed_by, seems_turned, turned_at, turned_in};

use facts::{Fact, Stated};
use script::Op;
use script::limits::LOCKTIME_THRESHOLD;
use script::num::{Limit, read};
use std::alloc::{AllocError, Global};

/// The lock that CHECKSEQUENCEVERIFY of a number asks for (BIP 68, BIP 112).
#[derive(Clone, Copy, Debug, PartialEq, Eq, Drop)]
pub enum SequenceLock {
    /// None: bit 31 switches it off.
    Off,
    /// An age of this number of blocks.
    Blocks(u16),
    /// An age of this number of units of 512 seconds.
    Units(u16),
}

/// A CHECKSEQUENCEVERIFY that asks for less than its number says, or for an age of 0.
#[derive(Clone, Copy, Debug, PartialEq, Eq, Drop)]
pub struct LockWarning {
    /// The index of the opcode, counted from 0.
    pub op: usize,
    /// The number that the opcode before it pushes.
    pub number: u64,
    /// What it asks for.
    pub lock: SequenceLock,
}

/// The lock that CHECKSEQUENCEVERIFY of a number asks for: bit 31 switches it off, bit 22 selects units of 512 seconds, bits 0 to 15 have the age, and no other bit counts (BIP 68).
#[tactic(auto, unfolding(crate::specs::Locks::sequence_lock))]
pub fn sequence_lock(number: u64) -> SequenceLock
    ensures { result ≡ sequence_lock number }
{
    let age = (number % 65_536) as u16;
    if number / 2_147_483_648 % 2 == 1 {
        SequenceLock::Off
    } else if number / 4_194_304 % 2 == 1 {
        SequenceLock::Units(age)
    } else {
        SequenceLock::Blocks(age)
    }
}

// Whether a number has no other bits than those of its lock, which is not 0.
#[tactic(auto, unfolding(crate::specs::Locks::is_plain))]
fn is_plain(number: u64) -> bool
    ensures { result ≡ is_plain number }
{
    (0 < number && number < 65_536) || (4_194_304 < number && number < 4_259_840)
}

// The number that an opcode pushes, if it is not negative.
#[tactic(auto, unfolding(crate::specs::Locks::number_pushed))]
pub(crate) fn number_pushed(op: &Op) -> Option<u64>
    ensures { result ≡ number_pushed op.now }
{
    match op {
        Op::Number(n) => Some(u64::from(*n)),
        Op::Push(item) => match read(item.bytes(), Limit::Lock) {
            Some(number) => {
                if number.negative {
                    None
                } else {
                    Some(number.magnitude)
                }
            }
            None => None,
        },
        _ => None,
    }
}

// The warning about an opcode before which a number was pushed.
#[tactic(auto, unfolding(crate::specs::Locks::warned_at))]
fn warned_at(at: usize, before: Option<u64>, op: &Op) -> Option<LockWarning>
    ensures { result ≡ warned_at at before op.now }
{
    match op {
        Op::CheckSequenceVerify => match before {
            Some(number) => {
                if is_plain(number) {
                    None
                } else {
                    Some(LockWarning {
                        op: at,
                        number,
                        lock: sequence_lock(number),
                    })
                }
            }
            None => None,
        },
        _ => None,
    }
}

// Appends a warning, if there is one. The only error is that memory ran out.
fn push_some(
    warnings: &mut Vec<LockWarning>,
    warning: Option<LockWarning>,
) -> Result<(), AllocError>
    ensures { OnOk result (warnings.new.items ≡ warnings.old.items ++ option_to_list warning) }
{
    if let Some(warning) = warning {
        warnings.push(warning)?;
    }
    Ok(())
}

/// The relative locks of a script that ask for less than the number that is pushed right before them says. The only error is that memory ran out.
pub fn lock_warnings(alloc: Global, ops: &[Op]) -> Result<Vec<LockWarning>, AllocError>
    ensures { IfOk result (λ v. v.items ≡ warnings_in 0 None ops.now) }
{
    let mut warnings = Vec::new(alloc);
    let mut before: Option<u64> = None;
    for (at, op) in ops.iter().enumerate() {
        push_some(&mut warnings, warned_at(at, before, op))?;
        before = number_pushed(op);
    }
    Ok(warnings)
}

// Whether a fact, if it holds, asks for a lock time by which no transaction is ever final.
fn is_beyond(fact: &Fact) -> bool
    ensures { result ≡ is_beyond fact.now }
{
    match fact {
        Fact::Lock(number) => *number > 4_294_967_294,
        _ => false,
    }
}

// Whether a fact of a path asks for a lock time by which no transaction is ever final.
fn asks_beyond(stated: &Stated) -> bool
    ensures { result ≡ asks_beyond stated.now }
{
    stated.holds && is_beyond(&stated.fact)
}

/// Whether a path with these facts asks for a lock time by which no transaction is ever final: from 4,294,967,295 on. A greater one has more than 4 bytes (BIP 144). That one has to be
/// below a median time past, which has 4 bytes too (BIP 113).
pub fn has_unreachable_lock(facts: &[Stated]) -> bool
    ensures { result ≡ has_unreachable_lock facts.now }
{
    facts.iter().any(|stated| asks_beyond(stated))
}

// The units of 512 seconds that a fact asks for, if it is a relative lock by time.
fn units_of(fact: &Fact) -> Option<u16>
    ensures { result ≡ units_of fact.now }
{
    match fact {
        Fact::Age(number) => {
            if *number / 4_194_304 % 2 == 1 {
                Some((*number % 65_536) as u16)
            } else {
                None
            }
        }
        _ => None,
    }
}

// The greater of two numbers that may be there.
fn greater(one: Option<u16>, other: Option<u16>) -> Option<u16>
    ensures { result ≡ greater one other }
{
    match (one, other) {
        (Some(n), Some(m)) => Some(m.max(n)),
        (Some(n), None) => Some(n),
        _ => other,
    }
}

/// The greatest number of units of 512 seconds that a path with these facts asks for (BIP 68); `None` where it has no relative lock by time.
pub fn greatest_units(facts: &[Stated]) -> Option<u16>
    ensures { result ≡ greatest_units facts.now }
{
    let mut units = None;
    for stated in facts.iter().rev() {
        units = greater(units_of(&stated.fact), units);
    }
    units
}

/// A lock whose number seems to have its bytes turned round.
#[derive(Clone, Copy, Debug, PartialEq, Eq, Drop)]
pub struct TurnedLock {
    /// The index of the opcode, counted from 0.
    pub op: usize,
    /// The number that the opcode before it pushes.
    pub number: u64,
    /// The number that the same bytes are from the last to the first.
    pub turned: u64,
}

// Bytes that were pushed, as a number in either order.
#[derive(Clone, Copy)]
struct Pushed {
    number: u64,
    turned: u64,
}

// The number of bytes, if it is not negative.
#[tactic(auto, unfolding(crate::specs::Locks::number_pushed))]
fn number_in(bytes: &[u8]) -> Option<u64>
    ensures { result ≡ option_and_then magnitude_of (number_of 5 bytes.now) }
{
    match read(bytes, Limit::Lock) {
        Some(number) => {
            if number.negative {
                None
            } else {
                Some(number.magnitude)
            }
        }
        None => None,
    }
}

// The number of the bytes from the last to the first, if it is not negative. Of two bytes it is that without a sign. The only error is that memory ran out.
fn turned_of(alloc: Global, bytes: &[u8]) -> Result<Option<u64>, AllocError>
    ensures { IfOk result (λ n. n ≡ turned_of bytes.now) }
{
    if bytes.len() == 2 {
        return Ok(Some(256 * u64::from(bytes[0]) + u64::from(bytes[1])));
    }
    let mut turned = Vec::new(alloc);
    turned.extend_from_slice(bytes)?;
    turned.reverse();
    Ok(number_in(turned.as_slice()))
}

// What an opcode pushes, if that is a number in both orders. The only error is that memory ran out.
#[tactic(auto, unfolding(crate::specs::Locks::pushed_by))]
fn pushed_by(alloc: Global, op: &Op) -> Result<Option<Pushed>, AllocError>
    ensures { IfOk result (λ p. p ≡ pushed_by op.now) }
{
    match op {
        Op::Push(item) => {
            let turned = turned_of(alloc, item.bytes())?;
            Ok(match (number_in(item.bytes()), turned) {
                (Some(number), Some(turned)) => Some(Pushed { number, turned }),
                _ => None,
            })
        }
        _ => Ok(None),
    }
}

// Whether a lock's number is far from what is meant with one, and with its bytes turned round near to it.
#[tactic(auto, unfolding(crate::specs::Locks::seems_turned))]
fn seems_turned(op: &Op, number: u64, turned: u64) -> bool
    ensures { result ≡ seems_turned op.now number turned }
{
    match op {
        Op::CheckLockTimeVerify => {
            5_000_000 < number
                && ((number < LOCKTIME_THRESHOLD && 100_000 <= turned && turned <= 2_000_000)
                    || (number < 1_231_006_505
                        && 1_231_006_505 <= turned
                        && turned < 2_500_000_000))
        }
        Op::CheckSequenceVerify => {
            4_032 < number
                && number < 65_536
                && 256 <= turned
                && (turned <= 2_016 || (turned < 65_536 && turned % 144 == 0 && number % 144 != 0))
        }
        _ => false,
    }
}

// The warning about an opcode before which this was pushed.
#[tactic(auto, unfolding(crate::specs::Locks::turned_at))]
fn turned_at(at: usize, before: Option<Pushed>, op: &Op) -> Option<TurnedLock>
    ensures { result ≡ turned_at at before op.now }
{
    match before {
        Some(pushed) => {
            if seems_turned(op, pushed.number, pushed.turned) {
                Some(TurnedLock {
                    op: at,
                    number: pushed.number,
                    turned: pushed.turned,
                })
            } else {
                None
            }
        }
        None => None,
    }
}

// Appends a lock, if there is one. The only error is that memory ran out.
fn push_turned(locks: &mut Vec<TurnedLock>, lock: Option<TurnedLock>) -> Result<(), AllocError>
    ensures { OnOk result (locks.new.items ≡ locks.old.items ++ option_to_list lock) }
{
    if let Some(lock) = lock {
        locks.push(lock)?;
    }
    Ok(())
}

/// The locks of a script whose number, pushed right before them, seems to have its bytes turned round. The only error is that memory ran out.
pub fn turned_locks(alloc: Global, ops: &[Op]) -> Result<Vec<TurnedLock>, AllocError>
    ensures { IfOk result (λ v. v.items ≡ turned_in 0 None ops.now) }
{
    let mut locks = Vec::new(alloc);
    let mut before: Option<Pushed> = None;
    for (at, op) in ops.iter().enumerate() {
        push_turned(&mut locks, turned_at(at, before, op))?;
        before = pushed_by(alloc, op)?;
    }
    Ok(locks)
}
