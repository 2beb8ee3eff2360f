// Walks along every way through a script.

ghost use Rattle.std.specs.Prelude.{◌≡◌, ℕ, ◌<◌, ◌≤◌, ◌+◌, Ok, true, All, [], length, IfOk, OnOk};
ghost use Rattle.script.specs.Run.{skip_length};
ghost use Rattle.paths.specs.Answers.{Answers, IfRefused, Leaves};
ghost use Rattle.paths.specs.Following.{IsRuleAt};
ghost use Rattle.paths.specs.HoleListing.{hole_at as hole_of, states_after_jump, states_after_rule, states_after, walk, begins as begins_of, beginning};
ghost use Rattle.paths.specs.Walking.{states_of, AreStates, AreKept, IsKept, IsWaiting, IsStep, IsWalked, rest_of_walk, paths_in};

use crate::constants::{Constant, HoleKind, Sym, copied_fact};
use crate::ending::{end, refusal};
use crate::errors::CheckError;
use crate::rules::{ask, follow};
use crate::stack_opcodes::put;
use crate::state::{Halt, Listed, PatternPath, State, SymbolicJump};
use lists::{List, Stack};
use script::Op;
use script::limits::{MAX_OPS_PER_SCRIPT, MAX_STACK_SIZE};
use std::alloc::{AllocError, Global};

/// The greatest number of paths that a script may begin.
pub const MAX_PATHS: usize = 64;

/// How a path goes on after an opcode.
#[derive(Drop)]
pub enum Successors {
    /// It ends there, because no witness can go on.
    Dies,
    /// It goes on.
    Goes,
    /// It goes on, and a second path waits. That one has yet to jump past the ELSE, and begins once all paths through the
    /// first have ended.
    Splits(State),
}

/// A path that waits for its turn: the second branch of a split, which has yet to jump past the ELSE.
#[derive(Drop)]
pub struct Waiting {
    /// The position of the next opcode.
    pub at: usize,
    /// Its state there.
    pub state: State,
}

/// Every path through a script with `counted` counted opcodes.
pub fn walk_all(
    alloc: Global,
    holes: &[Option<HoleKind>],
    ops: &[Op],
    counted: usize,
) -> Result<List<PatternPath>, CheckError>
    requires { counted ≤ MAX_OPS_PER_SCRIPT }
    ensures { Answers IfRefused (paths_in
        (walk holes.now counted 0 ops.now beginning (record { begun = 1; paths = [] }))) result }
{
    let mut listed = Listed {
        begun: 1,
        paths: List::new(alloc),
    };
    let mut waiting = Stack::new(alloc);
    let first = Waiting {
        at: 0,
        state: State::new(alloc),
    };
    walk_path(alloc, holes, ops, counted, first, &mut waiting, &mut listed)?;
    while let Some(mut next) = waiting.pop() {
        begins(&mut listed)?;
        next.state.ahead = jump_len(&ops[next.at..], true);
        walk_path(alloc, holes, ops, counted, next, &mut waiting, &mut listed)?;
    }
    Ok(listed.paths)
}

// Counts one more path as begun.
fn begins(listed: &mut Listed) -> Result<(), CheckError>
    ensures exact { Leaves IfRefused (begins_of listed.old) listed.new result }
    ensures more { OnOk result (listed.old.begun < 64 × (listed.new.begun ≡ listed.old.begun + 1)) }
{
    if listed.begun >= MAX_PATHS {
        return Err(CheckError::TooManyPaths);
    }
    listed.begun += 1;
    Ok(())
}

// Walks along one path to its end. The paths that split from it wait, the newest on top.
fn walk_path(
    alloc: Global,
    holes: &[Option<HoleKind>],
    ops: &[Op],
    counted: usize,
    path: Waiting,
    waiting: &mut Stack<Waiting>,
    listed: &mut Listed,
) -> Result<(), CheckError>
    requires path { IsWaiting counted (length ops.now) path }
    requires waiting { All (IsWaiting counted (length ops.now)) waiting.old }
    ensures exact { IsWalked holes.now counted ops.now
        (rest_of_walk holes.now counted ops.now path.at path.state waiting.old listed.old)
        waiting.new listed.new result }
    ensures begun { OnOk result (listed.new.begun ≡ listed.old.begun) }
    ensures kept { OnOk result (All (IsWaiting counted (length ops.now)) waiting.new) }
{
    let mut state = path.state;
    for at in path.at..ops.len() {
        if !step(alloc, holes, ops, counted, at, &mut state, waiting)? {
            return Ok(());
        }
    }
    end(counted, ops.len(), state, listed)
}

// Steps past the opcode at this position. The result is whether the path goes on.
fn step(
    alloc: Global,
    holes: &[Option<HoleKind>],
    ops: &[Op],
    counted: usize,
    at: usize,
    state: &mut State,
    waiting: &mut Stack<Waiting>,
) -> Result<bool, CheckError>
    requires within { at < length ops.now }
    requires state { IsKept counted state.old }
    requires waiting { All (IsWaiting counted (length ops.now)) waiting.old }
    ensures exact { IsStep holes.now counted ops.now at state.old waiting.old state.new waiting.new
        result }
    ensures state { IfOk result (λ goes. goes ≡ true → IsKept counted state.new) }
    ensures waiting { OnOk result (All (IsWaiting counted (length ops.now)) waiting.new) }
{
    let rest = &ops[at + 1..];
    match next_states(alloc, holes, counted, at, &ops[at], rest, state)? {
        Successors::Dies => Ok(false),
        Successors::Goes => Ok(true),
        Successors::Splits(second) => {
            waiting.push(Waiting {
                at: at + 1,
                state: second,
            })?;
            Ok(true)
        }
    }
}

// The states after the opcode at this position, in a script with `counted` counted opcodes.
fn next_states(
    alloc: Global,
    holes: &[Option<HoleKind>],
    counted: usize,
    at: usize,
    op: &Op,
    rest: &[Op],
    state: &mut State,
) -> Result<Successors, CheckError>
    requires { IsKept counted state.old }
    ensures exact { AreStates (states_after holes.now counted at op.now rest.now state.old
        state.old.ahead) rest.now state.new result }
    ensures kept { IfOk result (AreKept counted state.new) }
{
    if state.ahead > 0 {
        state.ahead -= 1;
        return Ok(Successors::Goes);
    }
    match follow_at(alloc, holes, at, op, counted, state) {
        Ok(turn) => {
            state.measure();
            if !state.is_low() {
                return Err(CheckError::TooTall);
            }
            Ok(successors_of(alloc, turn, rest, state)?)
        }
        Err(halt) => {
            refusal(at, halt)?;
            Ok(Successors::Dies)
        }
    }
}

// Follows the opcode at a position, or pushes the hole there.
fn follow_at(
    alloc: Global,
    holes: &[Option<HoleKind>],
    at: usize,
    op: &Op,
    counted: usize,
    state: &mut State,
) -> Result<SymbolicJump, Halt>
    requires slots { state.old.slots ≤ MAX_STACK_SIZE }
    requires keys { counted + state.old.keys ≤ MAX_OPS_PER_SCRIPT }
    ensures exact { IsRuleAt holes.now counted at op.now state.old state.new result }
    ensures keys_stay { OnOk result (counted + state.new.keys ≤ MAX_OPS_PER_SCRIPT) }
{
    match hole_at(holes, at) {
        Some(kind) => {
            put(state, Sym::Const(Constant::Hole(kind, at)))?;
            Ok(SymbolicJump::Next)
        }
        None => follow(alloc, op, counted, state),
    }
}

// The hole at a position, if there is one.
fn hole_at(holes: &[Option<HoleKind>], at: usize) -> Option<HoleKind>
    ensures { result ≡ hole_of holes.now at }
{
    if at < holes.len() { holes[at] } else { None }
}

// How a path goes on after a jump. The only error is that memory ran out.
fn successors_of(
    alloc: Global,
    turn: SymbolicJump,
    rest: &[Op],
    state: &mut State,
) -> Result<Successors, AllocError>
    ensures { IfOk result (λ way. states_after_jump turn rest.now state.old
        ≡ states_of rest.now state.new way) }
{
    match turn {
        SymbolicJump::Next => Ok(Successors::Goes),
        SymbolicJump::AfterElse => {
            state.ahead = jump_len(rest, true);
            Ok(Successors::Goes)
        }
        SymbolicJump::AfterEndIf => {
            state.ahead = jump_len(rest, false);
            Ok(Successors::Goes)
        }
        SymbolicJump::Splits(fact, first) => {
            let mut second = state.copy()?;
            ask(&mut second, copied_fact(&fact)?, !first)?;
            ask(state, fact, first)?;
            Ok(Successors::Splits(second))
        }
    }
}

// The number of these opcodes that are jumped over: to after the ENDIF of the branch, or to after its ELSE if `stop`.
fn jump_len(ops: &[Op], stop: bool) -> usize
    ensures { result ≡ skip_length stop 0 ops.now }
{
    let mut depth: usize = 0;
    for (i, op) in ops.iter().enumerate() {
        match op {
            Op::If | Op::NotIf => depth += 1,
            Op::EndIf => {
                if depth == 0 {
                    return i + 1;
                }
                depth -= 1;
            }
            Op::Else => {
                if depth == 0 && stop {
                    return i + 1;
                }
            }
            _ => {}
        }
    }
    ops.len()
}
