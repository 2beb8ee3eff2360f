// Follows one branch of a script: the one that goes as it is told at each IF and NOTIF whose condition the witness decides.

ghost use Rattle.std.specs.Prelude.{true, All, [], ◌≡◌, ◌≤◌, ◌<◌, ◌+◌, ◌^◌, List, IfOk};
ghost use Rattle.script.specs.Spelling.{IsOp};
ghost use Rattle.strictness.specs.Balance.{is_balanced};
ghost use Rattle.strictness.specs.Words.{Word, bytes_of, words, word_of};
ghost use Rattle.strictness.specs.Turns.{step_of};
ghost use Rattle.strictness.specs.Exact.{depth_of};
ghost use Rattle.strictness.specs.Ways.{Told, dies, told, is_dead, way_at as way_of, by_way, along, IsLow, passed_on, single_end, last_end, fate_of, NobodySpendsBy};

use crate::branches::{Mode, Turn, make_turn, skipped};
use crate::entries::{Bytes, Entry, shown};
use crate::faults::Fault;
use lists::Stack;
use script::Op;
use std::alloc::{AllocError, Global};

/// Where a branch goes at an IF or NOTIF whose condition the witness decides.
#[derive(Clone, Copy)]
pub struct Choice {
    /// The opcode, counted from 0.
    pub op: usize,
    /// Whether the branch goes on right after it; else it goes on after its ELSE, or after its ENDIF where it has no ELSE.
    pub runs: bool,
}

/// Where a branch ends that consensus refuses too: the opcode, counted from 0, or the number of opcodes, and the bytes that are at fault.
/// Of `TwoLeft` they are one of the elements, and none where the script determines neither.
#[derive(Clone, Copy)]
pub struct DeadEnd {
    pub op: usize,
    pub fault: Fault,
    pub bytes: Bytes,
}

/// What becomes of a branch.
#[derive(Clone, Copy)]
pub enum Fate {
    /// It comes to this IF or NOTIF, at which it can go either way.
    Splits(usize),
    /// It ends, in consensus too.
    Dies(DeadEnd),
    /// It does not end so: in consensus a run of it may end well.
    Lives,
}

/// How a branch goes on after an opcode.
#[derive(Clone, Copy)]
pub enum Passed {
    /// To the next opcode.
    Goes(Mode),
    /// No further.
    Stops(Fate),
}

/// What becomes of the branch that makes these choices: it is followed to its end, or to the first IF or NOTIF at which it needs a further one. The only error is that memory ran out.
pub fn fate_along(alloc: Global, ops: &[Op], choices: &[Choice]) -> Result<Fate, AllocError>
    ensures exact { IfOk result (λ f. told f ≡ fate_of choices.now ops.now 0 Mode.Running []) }
    // Where it ends, no witness is taken by a run that goes this way, whatever the transaction and whichever signatures can be made.
    ensures nobody { IfOk result (λ f. is_dead (told f) ≡ true → All IsOp ops.now → is_balanced ops.now [] ≡ true → NobodySpendsBy choices.now ops.now) }
{
    followed(alloc, ops, choices)
}

// The same, by the walk.
fn followed(alloc: Global, ops: &[Op], choices: &[Choice]) -> Result<Fate, AllocError>
    ensures { IfOk result (λ f. told f ≡ fate_of choices.now ops.now 0 Mode.Running []) }
{
    let mut stack = Stack::new(alloc);
    let mut mode = Mode::Running;
    for index in 0..ops.len() {
        let way = way_at(choices, index);
        match pass(&ops[index], index, mode, way, &mut stack)? {
            Passed::Goes(then) => mode = then,
            Passed::Stops(fate) => return Ok(fate),
        }
    }
    Ok(last_fate(ops.len(), mode, &mut stack))
}

// Where a branch goes at an opcode, if that is chosen.
fn way_at(choices: &[Choice], at: usize) -> Option<bool>
    ensures { result ≡ way_of choices.now at }
{
    for choice in choices {
        if choice.op == at {
            return Some(choice.runs);
        }
    }
    None
}

// Passes an opcode, at which a branch may have a way to go.
fn pass(
    op: &Op,
    at: usize,
    mode: Mode,
    way: Option<bool>,
    stack: &mut Stack<Entry>,
) -> Result<Passed, AllocError>
    requires depth { depth_of mode ≤ at }
    requires here { at + 1 < 2 ^ 64 }
    ensures depth { IfOk result (λ p. IsLow (at + 1) p) }
    ensures exact { IfOk result (λ p. (go : Mode → List Word → Told) → passed_on go p (words stack.new) ≡ along go way at op.now mode (words stack.old)) }
{
    match mode {
        Mode::Skipping(depth, to_else) => Ok(Passed::Goes(skipped(op, depth, to_else))),
        Mode::Lost => Ok(Passed::Stops(Fate::Lives)),
        Mode::Running => {
            let turn = make_turn(op, stack)?;
            Ok(turned(turn, at, way))
        }
    }
}

// How a branch goes on after a turn.
fn turned(turn: Turn, at: usize, way: Option<bool>) -> Passed
    ensures depth { IsLow 0 result }
    ensures exact { (go : Mode → List Word → Told) → (w : List Word) → passed_on go result w ≡ by_way go way at (step_of turn) w }
{
    match turn {
        Turn::Next => Passed::Goes(Mode::Running),
        Turn::AfterElse => Passed::Goes(Mode::Skipping(0, true)),
        Turn::AfterEndIf => Passed::Goes(Mode::Skipping(0, false)),
        Turn::Splits => match way {
            Some(true) => Passed::Goes(Mode::Running),
            Some(false) => Passed::Goes(Mode::Skipping(0, true)),
            None => Passed::Stops(Fate::Splits(at)),
        },
        Turn::Ends(fault, bytes) => Passed::Stops(dead(at, fault, bytes)),
        Turn::EndsStrictly(_, _) | Turn::Lost => Passed::Stops(Fate::Lives),
    }
}

// The fate of a branch that ends here.
fn dead(op: usize, fault: Fault, bytes: Bytes) -> Fate
    ensures { told result ≡ dies op fault (bytes_of bytes) }
{
    Fate::Dies(DeadEnd { op, fault, bytes })
}

// The fate of a branch after the last opcode.
fn last_fate(at: usize, mode: Mode, stack: &mut Stack<Entry>) -> Fate
    ensures { told result ≡ last_end at mode (words stack.old) }
{
    match mode {
        Mode::Running => match stack.pop() {
            Some(top) => match stack.pop() {
                Some(second) => dead(at, Fault::TwoLeft, shown(&top, &second)),
                None => single_fate(at, &top),
            },
            None => Fate::Lives,
        },
        _ => Fate::Lives,
    }
}

// The fate of a branch that leaves one entry.
fn single_fate(at: usize, entry: &Entry) -> Fate
    ensures { told result ≡ single_end at (word_of entry.now) }
{
    match entry.truth() {
        Some(false) => dead(at, Fault::FalseLeft, entry.constant()),
        _ => Fate::Lives,
    }
}
