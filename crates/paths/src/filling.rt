// The paths of a pattern, once it is filled.

ghost use Rattle.std.specs.Prelude.{◌≡◌, map, IfOk};
ghost use Rattle.paths.specs.Holes.{pushed_by, fits as fits_hole, blank as blank_for, hole_bytes as hole_bytes_of, hole_number as hole_number_of, bytes_by, lock_by, age_by, filling, is_low_number as is_low, pushed_at as pushed_of};
ghost use Rattle.paths.specs.Maps.{in_key, in_fact, in_stated};
ghost use Rattle.paths.specs.Filling.{filled_facts as facts_filled, filled_path as path_filled, filled_paths as paths_filled};

use crate::constants::{
    Amount, BLANK_HASH, BLANK_KEY, Constant, Fact as HoleFact, HoleKind, KeySource as HoleKey,
    Stated as HoleStated, masked,
};
use crate::greatest_locks::{greatest_age, greatest_lock};
use crate::state::{Path, PatternPath};
use facts::{Fact, KeySource, Stated};
use lists::{ByteString, List};
use script::limits::LOCKTIME_THRESHOLD;
use script::num::{Limit, Number};
use script::tokens::has_key_form;
use script::{Op, num};
use std::alloc::{AllocError, Global};

// What the opcode at this position pushes; empty where it pushes nothing. The only error is that memory ran out.
fn pushed_at(alloc: Global, ops: &[Op], at: usize) -> Result<ByteString, AllocError>
    ensures { IfOk result (λ b. b ≡ pushed_of ops.now at) }
{
    match ops.get(at) {
        Some(Op::Push(item)) => item.copy(),
        Some(Op::Number(number)) => ByteString::from_slice(alloc, &[*number]),
        _ => Ok(ByteString::new(alloc)),
    }
}

/// Whether a hole takes these bytes.
#[tactic(auto, unfolding(crate::specs::Holes::fits))]
pub fn fits(kind: HoleKind, bytes: &[u8]) -> bool
    ensures { result ≡ fits_hole kind bytes.now }
{
    match kind {
        HoleKind::Key => has_key_form(bytes),
        HoleKind::Hash => bytes.len() == 20,
        HoleKind::Number => is_low_number(num::read(bytes, Limit::Lock)),
    }
}

// Whether it is a number from 0 to 499,999,999.
fn is_low_number(number: Option<Number>) -> bool
    ensures { result ≡ is_low number }
{
    match number {
        Some(number) => !number.negative && number.magnitude < LOCKTIME_THRESHOLD,
        None => false,
    }
}

// Default bytes that fit a hole. The only error is that memory ran out.
fn blank(alloc: Global, kind: HoleKind) -> Result<ByteString, AllocError>
    ensures { IfOk result (λ b. b ≡ blank_for kind) }
{
    match kind {
        HoleKind::Key => ByteString::from_slice(alloc, &BLANK_KEY),
        HoleKind::Hash => ByteString::from_slice(alloc, &BLANK_HASH),
        HoleKind::Number => Ok(ByteString::new(alloc)),
    }
}

// The bytes in the place of a hole: what the script pushes there if it fits, else the default. The only error is
// that memory ran out.
fn hole_bytes(
    alloc: Global,
    ops: &[Op],
    kind: HoleKind,
    at: usize,
) -> Result<ByteString, AllocError>
    ensures { IfOk result (λ b. b ≡ hole_bytes_of ops.now kind at) }
{
    let bytes = pushed_at(alloc, ops, at)?;
    if fits(kind, bytes.bytes()) {
        Ok(bytes)
    } else {
        blank(alloc, kind)
    }
}

// The number in the place of a hole. The only error is that memory ran out.
fn hole_number(alloc: Global, ops: &[Op], at: usize) -> Result<u64, AllocError>
    ensures { IfOk result (λ n. n ≡ hole_number_of ops.now at) }
{
    let bytes = hole_bytes(alloc, ops, HoleKind::Number, at)?;
    match num::read(bytes.bytes(), Limit::Lock) {
        Some(number) => Ok(number.magnitude),
        None => Ok(0),
    }
}

// The bytes of a constant. The only error is that memory ran out.
fn filled_bytes(alloc: Global, ops: &[Op], constant: &Constant) -> Result<ByteString, AllocError>
    ensures { IfOk result (λ b. b ≡ bytes_by ops.now constant.now) }
{
    match constant {
        Constant::Known(item) => item.copy(),
        Constant::Hole(kind, at) => hole_bytes(alloc, ops, *kind, *at),
    }
}

// The number of an absolute lock. The only error is that memory ran out.
fn filled_lock(alloc: Global, ops: &[Op], lock: &Amount<u64>) -> Result<u64, AllocError>
    ensures { IfOk result (λ n. n ≡ lock_by ops.now lock.now) }
{
    match lock {
        Amount::Known(n) => Ok(*n),
        Amount::Hole(at) => hole_number(alloc, ops, *at),
    }
}

// The bits of a relative lock. The only error is that memory ran out.
fn filled_age(alloc: Global, ops: &[Op], age: &Amount<u32>) -> Result<u32, AllocError>
    ensures { IfOk result (λ n. n ≡ age_by ops.now age.now) }
{
    match age {
        Amount::Known(n) => Ok(*n),
        Amount::Hole(at) => Ok(masked(hole_number(alloc, ops, *at)?)),
    }
}

// Where a key comes from. The only error is that memory ran out.
fn filled_key(alloc: Global, ops: &[Op], key: &HoleKey) -> Result<KeySource, AllocError>
    ensures { IfOk result (λ k. k ≡ in_key (filling ops.now) key.now) }
{
    match key {
        HoleKey::Const(constant) => Ok(KeySource::Const(filled_bytes(alloc, ops, constant)?)),
        HoleKey::Slot(i) => Ok(KeySource::Slot(*i)),
    }
}

// Where keys come from. The only error is that memory ran out.
fn filled_keys(alloc: Global, ops: &[Op], keys: &[HoleKey]) -> Result<Vec<KeySource>, AllocError>
    ensures { IfOk result (λ v. v.items ≡ map (in_key (filling ops.now)) keys.now) }
{
    let mut filled = Vec::new(alloc);
    for key in keys {
        filled.push(filled_key(alloc, ops, key)?)?;
    }
    Ok(filled)
}

// A fact. The only error is that memory ran out.
fn filled_fact(alloc: Global, ops: &[Op], fact: &HoleFact) -> Result<Fact, AllocError>
    ensures { IfOk result (λ f. f ≡ in_fact (filling ops.now) fact.now) }
{
    match fact {
        HoleFact::Hash(i, hash) => Ok(Fact::Hash(*i, filled_bytes(alloc, ops, hash)?)),
        HoleFact::Size(i, n) => Ok(Fact::Size(*i, *n)),
        HoleFact::Truth(i) => Ok(Fact::Truth(*i)),
        HoleFact::Is(i, bytes) => Ok(Fact::Is(*i, filled_bytes(alloc, ops, bytes)?)),
        HoleFact::KeyForm(i) => Ok(Fact::KeyForm(*i)),
        HoleFact::Form(i) => Ok(Fact::Form(*i)),
        HoleFact::Token(i, key) => Ok(Fact::Token(*i, filled_key(alloc, ops, key)?)),
        HoleFact::Assigned(slots, keys) => {
            let slots = List::from_vec(Vec::from_slice(alloc, slots.values())?);
            let keys = List::from_vec(filled_keys(alloc, ops, keys.values())?);
            Ok(Fact::Assigned(slots, keys))
        }
        HoleFact::Lock(n) => Ok(Fact::Lock(filled_lock(alloc, ops, n)?)),
        HoleFact::Age(n) => Ok(Fact::Age(filled_age(alloc, ops, n)?)),
    }
}

// Facts as they are stated. The only error is that memory ran out.
fn filled_facts(alloc: Global, ops: &[Op], facts: &[HoleStated]) -> Result<Vec<Stated>, AllocError>
    ensures { IfOk result (λ v. v.items ≡ facts_filled ops.now facts.now) }
{
    let mut filled = Vec::new(alloc);
    for stated in facts {
        filled.push(filled_stated(alloc, ops, stated)?)?;
    }
    Ok(filled)
}

// A fact as it is stated. The only error is that memory ran out.
fn filled_stated(alloc: Global, ops: &[Op], stated: &HoleStated) -> Result<Stated, AllocError>
    ensures { IfOk result (λ s. s ≡ in_stated (filling ops.now) stated.now) }
{
    let fact = filled_fact(alloc, ops, &stated.fact)?;
    Ok(Stated {
        fact,
        holds: stated.holds,
    })
}

// A path. The only error is that memory ran out.
fn filled_path(alloc: Global, ops: &[Op], path: &PatternPath) -> Result<Path, AllocError>
    ensures { IfOk result (λ p. p ≡ path_filled ops.now path.now) }
{
    let facts = List::from_vec(filled_facts(alloc, ops, path.facts.values())?);
    Ok(Path {
        arity: path.arity,
        ops: path.ops,
        height: path.height,
        lock: greatest_lock(facts.values()),
        age: greatest_age(facts.values()),
        facts,
    })
}

/// The paths of a pattern that is filled to a script of these opcodes. The only error is that memory ran out.
pub fn filled_paths(
    alloc: Global,
    ops: &[Op],
    paths: &[PatternPath],
) -> Result<List<Path>, AllocError>
    ensures { IfOk result (λ l. l ≡ paths_filled ops.now paths.now) }
{
    let mut filled = List::new(alloc);
    for path in paths {
        filled.push(filled_path(alloc, ops, path)?)?;
    }
    Ok(filled)
}
