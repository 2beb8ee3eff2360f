// The names of opcodes, and how far a branch is indented.

ghost use Rattle.std.specs.Prelude.{◌≡◌, ◌<◌, ◌+◌, ◌^◌};
ghost use Rattle.trace.specs.Names.{name_of, shown_depth, depth_after};

use script::Op;

/// The opcode's name in Bitcoin's standards, without `OP_`; `PUSH` for each push.
pub fn opcode_name(op: &Op) -> &'static str
    ensures { result.now ≡ name_of op.now }
{
    match op {
        Op::Push(_) | Op::Number(_) => "PUSH",
        Op::If => "IF",
        Op::NotIf => "NOTIF",
        Op::Else => "ELSE",
        Op::EndIf => "ENDIF",
        Op::Drop => "DROP",
        Op::Dup => "DUP",
        Op::Swap => "SWAP",
        Op::Size => "SIZE",
        Op::Equal => "EQUAL",
        Op::EqualVerify => "EQUALVERIFY",
        Op::Hash160 => "HASH160",
        Op::CheckSig => "CHECKSIG",
        Op::CheckMultiSig => "CHECKMULTISIG",
        Op::CheckLockTimeVerify => "CHECKLOCKTIMEVERIFY",
        Op::CheckSequenceVerify => "CHECKSEQUENCEVERIFY",
    }
}

/// The number of branches that an opcode is in, if `ifs` IFs are open
/// before it, and the number of IFs that are open after it. ELSE and
/// ENDIF are shown at the level of their IF.
pub fn branches(op: &Op, ifs: usize) -> (usize, usize)
    requires { ifs + 1 < 2 ^ 64 }
    ensures shown { result.0 ≡ shown_depth op.now ifs }
    ensures after { result.1 ≡ depth_after op.now ifs }
{
    match op {
        Op::If | Op::NotIf => (ifs, ifs + 1),
        Op::Else => (ifs.saturating_sub(1), ifs),
        Op::EndIf => (ifs.saturating_sub(1), ifs.saturating_sub(1)),
        _ => (ifs, ifs),
    }
}
