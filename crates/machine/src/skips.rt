//! Opcodes that are jumped over.

ghost use Rattle.std.specs.Prelude.{◌≡◌, ◌≤◌, ◌+◌, List, ◌∷◌, suc};
ghost use Rattle.script.specs.Run.{skip_length, jump_length, op_count};
ghost use Rattle.script.specs.declared.opcode.Op.{Op as Opcode};
ghost use Rattle.machine.specs.Skips.{ahead_of, depth_of};

use script::limits::MAX_OPS_PER_SCRIPT;
use script::{Jump, Op};

/// A branch that is jumped over.
#[derive(Clone, Copy, Debug, PartialEq, Eq)]
pub struct Skip {
    /// How many IFs are open inside it.
    pub depth: usize,
    /// Whether its own ELSE ends the jump.
    pub stop: bool,
}

impl Skip {
    /// What a run jumps over after an opcode with this jump.
    pub fn begin(jump: Jump) -> Option<Skip>
        ensures jumps { (rest : List Opcode) → ahead_of result rest ≡ jump_length jump rest }
        ensures shallow { depth_of result ≡ 0 }
    {
        match jump {
            Jump::Next => None,
            Jump::AfterElse => Some(Skip {
                depth: 0,
                stop: true,
            }),
            Jump::AfterEndIf => Some(Skip {
                depth: 0,
                stop: false,
            }),
        }
    }

    /// What is left to jump over once `op` was jumped over.
    pub fn after(self, op: &Op) -> Option<Skip>
        requires { self.depth ≤ MAX_OPS_PER_SCRIPT }
        ensures jumps { (rest : List Opcode)
            → skip_length self.stop self.depth (op.now ∷ rest) ≡ suc (ahead_of result rest) }
        ensures shallow { depth_of result ≤ self.depth + op_count op.now }
    {
        match op {
            Op::If | Op::NotIf => Some(Skip {
                depth: self.depth + 1,
                stop: self.stop,
            }),
            Op::Else if self.depth == 0 && self.stop => None,
            Op::EndIf if self.depth == 0 => None,
            Op::EndIf => Some(Skip {
                depth: self.depth - 1,
                stop: self.stop,
            }),
            _ => Some(self),
        }
    }
}
