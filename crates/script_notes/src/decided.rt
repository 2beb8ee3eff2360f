// What constants decide on the branches of a script: where they go at an IF, and the numbers of their locks.

use crate::dead_ends::{MAX_FATES, place, turn_back};
use crate::sizes::Counted;
use lists::{ByteString, Stack};
use page::Page;
use page::Piece::{Count, Text};
use script::Op;
use std::alloc::{AllocError, Global};
use strictness::{Choice, Entry, Turn, make_turn};

/// What constants decide on the branches of a script.
#[derive(Drop)]
pub struct Decided {
    // where branches go at an IF or NOTIF, each way once
    ways: Vec<Choice>,
    /// Each lock with a number of the script, once: the push of the number, and the opcode.
    pub locks: Vec<Op>,
    // where the opcodes of the locks stand
    places: Vec<usize>,
}

impl Decided {
    /// What constants decide on the branches of a listed script.
    pub fn of(alloc: Global, ops: &[Op]) -> Result<Self, AllocError> {
        let mut decided = Decided {
            ways: Vec::new(alloc),
            locks: Vec::new(alloc),
            places: Vec::new(alloc),
        };
        decided.follow_all(alloc, ops)?;
        Ok(decided)
    }

    // Follows each branch.
    fn follow_all(&mut self, alloc: Global, ops: &[Op]) -> Result<(), AllocError> {
        let mut choices = Vec::new(alloc);
        for _turn in 0..MAX_FATES {
            let is_left = match self.follow(alloc, ops, choices.as_slice())? {
                Some(op) => {
                    choices.push(Choice { op, runs: true })?;
                    true
                }
                None => turn_back(&mut choices)?,
            };
            if !is_left {
                break;
            }
        }
        Ok(())
    }

    /// Where the lock stands that has this place among [`locks`](Decided::locks).
    pub fn place_of(&self, lock: usize) -> usize {
        match self.places.get(lock / 2) {
            Some(place) => *place,
            None => 0,
        }
    }

    // Follows the branch that makes these choices, and returns the IF or NOTIF at which it needs a further one.
    fn follow(
        &mut self,
        alloc: Global,
        ops: &[Op],
        choices: &[Choice],
    ) -> Result<Option<usize>, AllocError> {
        let mut stack = Stack::new(alloc);
        let mut next = 0usize;
        for (at, op) in ops.iter().enumerate() {
            if at >= next {
                self.keep_lock(alloc, at, op, &stack)?;
                let runs = match make_turn(op, &mut stack)? {
                    Turn::Next => true,
                    Turn::AfterElse | Turn::AfterEndIf => false,
                    Turn::Splits => match way_at(choices, at) {
                        Some(runs) => runs,
                        None => return Ok(Some(at)),
                    },
                    Turn::Ends(_, _) | Turn::EndsStrictly(_, _) | Turn::Lost => return Ok(None),
                };
                next = self.go(ops, at, runs)?;
            }
        }
        Ok(None)
    }

    // Keeps where a branch goes at an opcode, if that is an IF or NOTIF, and returns the opcode that it runs next.
    fn go(&mut self, ops: &[Op], at: usize, runs: bool) -> Result<usize, AllocError> {
        if is_condition(ops.get(at)) && !self.goes(at, runs) {
            self.ways.push(Choice { op: at, runs })?;
        }
        Ok(if runs { at } else { after(ops, at) })
    }

    // Whether some branch goes this way at an opcode.
    fn goes(&self, at: usize, runs: bool) -> bool {
        for way in &self.ways {
            if way.op == at && way.runs == runs {
                return true;
            }
        }
        false
    }

    // Keeps a lock whose number is a constant, unless it is kept.
    fn keep_lock(
        &mut self,
        alloc: Global,
        at: usize,
        op: &Op,
        stack: &Stack<Entry>,
    ) -> Result<(), AllocError> {
        let lock = match op {
            Op::CheckLockTimeVerify => Op::CheckLockTimeVerify,
            Op::CheckSequenceVerify => Op::CheckSequenceVerify,
            _ => return Ok(()),
        };
        if let Some(Entry::Known(number)) = stack.top() {
            if !self.is_kept(at, number.as_slice()) {
                let number = ByteString::from_slice(alloc, number.as_slice())?;
                self.locks.push(Op::Push(number))?;
                self.locks.push(lock)?;
                self.places.push(at)?;
            }
        }
        Ok(())
    }

    // Whether a lock is kept with this number.
    fn is_kept(&self, at: usize, number: &[u8]) -> bool {
        for (lock, op) in self.locks.iter().enumerate() {
            if let Op::Push(item) = op {
                if item.bytes() == number && self.place_of(lock) == at {
                    return true;
                }
            }
        }
        false
    }
}

fn is_condition(op: Option<&Op>) -> bool {
    match op {
        Some(Op::If | Op::NotIf) => true,
        _ => false,
    }
}

/// The way that choices go at an opcode, if one of them does.
pub(crate) fn way_at(choices: &[Choice], at: usize) -> Option<bool> {
    for choice in choices {
        if choice.op == at {
            return Some(choice.runs);
        }
    }
    None
}

/// The opcode that runs next after the ELSE of an IF, or after the ENDIF of an ELSE.
pub(crate) fn after(ops: &[Op], op: usize) -> usize {
    place(ops, Choice { op, runs: false }).1.saturating_add(1)
}

/// Notes the branches that no run ever takes, since a constant decides the IF or NOTIF before them.
pub fn note_unrun(notes: &mut Page, decided: &Decided, ops: &[Op]) {
    for (at, op) in ops.iter().enumerate() {
        let name = match op {
            Op::If => "IF",
            Op::NotIf => "NOTIF",
            _ => continue,
        };
        let end = place(
            ops,
            Choice {
                op: at,
                runs: false,
            },
        );
        match (decided.goes(at, true), decided.goes(at, false)) {
            (true, false) if end.0 == "ELSE" => note_branch(notes, ops, (name, at), end),
            (false, true) => note_branch(notes, ops, (name, at), (name, at)),
            _ => {}
        }
    }
}

// Notes a branch that no run takes, and the IF or NOTIF that a constant decides.
fn note_branch(
    notes: &mut Page,
    ops: &[Op],
    condition: (&'static str, usize),
    branch: (&'static str, usize),
) {
    let (name, at) = condition;
    notes.write(
        "note: the branch after the % at opcode % is never run, so nobody can spend by it: a constant decides the % at opcode %",
        &[
            Text(branch.0),
            Count(branch.1 as u64),
            Text(name),
            Count(at as u64),
        ],
    );
    notes.push(match ops[..at.min(ops.len())].last() {
        Some(Op::CheckLockTimeVerify | Op::CheckSequenceVerify) => {
            ", the number of the lock: is a DROP missing?\n"
        }
        _ => "\n",
    });
}

/// Notes the pushes of a number that an opcode of one byte pushes too.
pub fn note_long_pushes(notes: &mut Page, ops: &[Op]) {
    for (at, op) in ops.iter().enumerate() {
        if let (Op::Push(item), Some(short)) = (op, short_of(op)) {
            notes.write("note: opcode %, a push of ", &[Count(at as u64)]);
            notes.show(&Counted(item.bytes()));
            notes.hex(
                ": nodes relay no spend that runs it, since the opcode ",
                &[short],
            );
            notes.push(" pushes the same (minimal pushes)\n");
        }
    }
}

/// The opcode of one byte that pushes what an opcode pushes by two: a number from 1 to 16, or -1.
pub fn short_of(op: &Op) -> Option<u8> {
    match op {
        Op::Push(item) => match item.bytes() {
            [byte] if 1 <= *byte && *byte <= 16 => Some(byte.saturating_add(0x50)),
            [0x81] => Some(0x4f),
            _ => None,
        },
        _ => None,
    }
}
