// The end of a path.

ghost use Rattle.std.specs.Prelude.{◌≡◌, ◌≤◌, ◌+◌, ◌<◌, [], Ok, OnOk};
ghost use Rattle.paths.specs.Answers.{IfHalts, IfRefused, Leaves};
ghost use Rattle.paths.specs.HoleListing.{refusal_at, end_of, path_of as path_for, paths_at_end as ended_of, with_paths};
ghost use Rattle.paths.specs.Walking.{IsEnded};

use crate::constants::Sym;
use crate::errors::CheckError;
use crate::rules::{condition, insist, take};
use crate::state::{Halt, Listed, PatternPath, State};
use script::limits::{MAX_OPS_PER_SCRIPT, MAX_STACK_SIZE};

/// The refusal for a halt at this position; no refusal where the path dies.
pub fn refusal(at: usize, halt: Halt) -> Result<(), CheckError>
    ensures { result ≡ refusal_at at tt halt }
{
    match halt {
        Halt::NoMemory => Err(CheckError::NoMemory),
        Halt::Dead => Ok(()),
        Halt::Undecided => Err(CheckError::Undecided(at)),
        Halt::TooManyOps => Err(CheckError::TooManyOps),
    }
}

/// Ends a path after the last opcode, where `at` is the number of opcodes. Lists the path
/// unless it dies there.
pub fn end(counted: usize, at: usize, state: State, listed: &mut Listed) -> Result<(), CheckError>
    requires slots { state.slots ≤ MAX_STACK_SIZE }
    requires keys { counted + state.keys ≤ MAX_OPS_PER_SCRIPT }
    ensures exact { Leaves IfRefused (with_paths listed.old (ended_of [] counted at state))
        listed.new result }
    ensures begun { OnOk result (listed.new.begun ≡ listed.old.begun) }
{
    if let Some(path) = ended(counted, at, state)? {
        listed.paths.push(path)?;
    }
    Ok(())
}

// The path that ends; `None` if it dies.
fn ended(counted: usize, at: usize, mut state: State) -> Result<Option<PatternPath>, CheckError>
    requires slots { state.slots ≤ MAX_STACK_SIZE }
    requires keys { counted + state.keys ≤ MAX_OPS_PER_SCRIPT }
    ensures { IsEnded (ended_of [] counted at state) result }
{
    let top = take(&mut state);
    if let Err(halt) = decide(&mut state, top) {
        refusal(at, halt)?;
        return Ok(None);
    }
    if !state.is_low() {
        return Err(CheckError::TooTall);
    }
    Ok(Some(path_of(counted, state)))
}

// Requires the last element to be true and no other to be left.
fn decide(state: &mut State, top: Sym) -> Result<(), Halt>
    ensures exact { Leaves IfHalts (end_of [] state.old.stack top state.old) state.new result }
    ensures keys { OnOk result (state.new.keys ≡ state.old.keys) }
{
    if !state.stack.is_empty() {
        return Err(Halt::Dead);
    }
    let condition = condition(top)?;
    insist(state, condition)
}

// The path of a state at the end.
fn path_of(counted: usize, state: State) -> PatternPath
    requires low { state.slots + state.excess ≤ MAX_STACK_SIZE }
    requires keys { counted + state.keys ≤ MAX_OPS_PER_SCRIPT }
    ensures { result ≡ path_for counted state }
{
    PatternPath {
        arity: state.slots,
        ops: counted + state.keys,
        height: state.slots + state.excess,
        facts: state.facts,
    }
}
