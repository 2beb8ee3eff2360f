// The opcodes.

use lists::ByteString;
use std::alloc::{AllocError, Global};

/// One opcode of a version 0 witness script.
#[derive(Clone, Debug, Drop)]
pub enum Op {
    /// Bytes 00 to 4b: pushes an item of at most 75 bytes.
    Push(ByteString),
    /// Bytes 51 to 60: pushes a number from 1 to 16.
    Number(u8),
    /// 63: runs the branch if the top is true.
    If,
    /// 64: runs the branch if the top is false.
    NotIf,
    /// 67
    Else,
    /// 68
    EndIf,
    /// 75: removes the top.
    Drop,
    /// 76: duplicates the top.
    Dup,
    /// 7c: exchanges the two topmost elements.
    Swap,
    /// 82: pushes the length of the top in bytes, and keeps the top.
    Size,
    /// 87: replaces the two topmost elements by whether they are equal.
    Equal,
    /// 88: removes the two topmost elements, and fails if they differ.
    EqualVerify,
    /// a9: replaces the top by RIPEMD-160 of its SHA-256.
    Hash160,
    /// ac
    CheckSig,
    /// ae
    CheckMultiSig,
    /// b1 (BIP 65)
    CheckLockTimeVerify,
    /// b2 (BIP 112)
    CheckSequenceVerify,
}

impl Op {
    ghost use Rattle.std.specs.Prelude.{◌≡◌, ◌≤◌, length, IfOk};
    ghost use Rattle.script.specs.Spelling.{code_of, payload_of};
    ghost use Rattle.script.specs.Run.{op_count as op_count_of};

    /// The opcode's byte; that of a push is the length of its item.
    pub fn code(&self) -> usize
        ensures { result ≡ code_of self.now }
    {
        match self {
            Op::Push(item) => item.len(),
            Op::Number(n) => 0x50 + *n as usize,
            Op::If => 0x63,
            Op::NotIf => 0x64,
            Op::Else => 0x67,
            Op::EndIf => 0x68,
            Op::Drop => 0x75,
            Op::Dup => 0x76,
            Op::Swap => 0x7c,
            Op::Size => 0x82,
            Op::Equal => 0x87,
            Op::EqualVerify => 0x88,
            Op::Hash160 => 0xa9,
            Op::CheckSig => 0xac,
            Op::CheckMultiSig => 0xae,
            Op::CheckLockTimeVerify => 0xb1,
            Op::CheckSequenceVerify => 0xb2,
        }
    }

    /// How many bytes follow the opcode's own: those of a push's item.
    pub fn payload_len(&self) -> usize
        ensures { result ≡ length (payload_of self.now) }
    {
        match self {
            Op::Push(item) => item.len(),
            _ => 0,
        }
    }

    /// What the opcode adds to the counted opcodes of a run: 1 if its byte is above 60 (hexadecimal), else 0.
    pub fn op_count(&self) -> usize
        ensures value { result ≡ op_count_of self.now }
        ensures bound { result ≤ 1 }
    {
        if self.code() > 0x60 { 1 } else { 0 }
    }

    /// An equal opcode. The only error is that memory ran out.
    pub fn copy(&self) -> Result<Op, AllocError>
        ensures { IfOk result (λ op. op ≡ self.now) }
    {
        self.clone()
    }
}
