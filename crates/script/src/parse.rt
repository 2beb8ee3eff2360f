// From bytes to opcodes.

ghost use Rattle.std.specs.Prelude.{◌≡◌, ◌⊎◌, ◌<◌, ◌≤◌, List, [], length, All, IfOk, IfErr, IfSome, IfNone, OnOk, MatchResult};
ghost use Rattle.script.specs.Run.{counted_in};
ghost use Rattle.script.specs.declared.opcode.Op.{Op as Opcode};
ghost use Rattle.script.specs.Spelling.{Spells, IsFault, StartsNone, Begins, Refuses, IsOp, code_of, payload_of};
ghost use Rattle.script.specs.declared.parse.ParseError.TheVariants.{NoMemory};

use crate::limits::MAX_SCRIPT_SIZE;
use crate::opcode::Op;
use lists::ByteString;
use std::alloc::{AllocError, AllocFailed, Global};
use std::marker::Model;
use thiserror::Error;

/// Why bytes are not a script. Positions count bytes from 0.
#[derive(Debug, PartialEq, Eq, Drop, Error)]
pub enum ParseError {
    /// Memory ran out.
    #[error("NoMemory")]
    NoMemory,
    /// The byte at this position is not an opcode.
    #[error("BadOpcode {0}")]
    BadOpcode(usize),
    /// The push whose opcode is at this position has too few bytes after it.
    #[error("Truncated {0}")]
    Truncated(usize),
    /// There are more than 10,000 bytes.
    #[error("TooLong")]
    TooLong,
}

/// A script: a list of opcodes, with the bytes that spell it (BIP 141's witness script, at most 10,000 bytes). A contract sees it as the
/// list of its opcodes.
#[derive(Drop)]
pub struct Script {
    bytes: Vec<u8>,
    ops: Vec<Op>,
}

impl Model for Script {
    ghost use Rattle.std.specs.Prelude.{List, ◌≤◌, length};
    ghost use Rattle.script.specs.declared.opcode.Op.{Op as Opcode};

    ghost Value = { List Opcode };

    ghost use Rattle.script.specs.declared.limits.TheConstants.{MAX_SCRIPT_SIZE as max_script_size};
    ghost use Rattle.script.specs.Spelling.{Spells};

    ghost view = { λ s. s.ops.items };

    ghost invariant = { λ s. Spells s.ops.items s.bytes.items × (length s.bytes.items ≤ max_script_size) };
}

impl ParseError {
    ghost use Rattle.std.specs.Prelude.{◌≡◌};
    ghost use Rattle.script.specs.Refusals.{refusal_number};

    /// The refusal's number; 0 is out of memory.
    pub fn number(&self) -> u8
        ensures { result ≡ refusal_number self.now }
    {
        match self {
            ParseError::NoMemory => 0,
            ParseError::BadOpcode(_) => 1,
            ParseError::Truncated(_) => 2,
            ParseError::TooLong => 3,
        }
    }
}

impl Script {
    /// Reads bytes as opcodes. The error is `TooLong` for more than 10,000 bytes, else the first fault from the left.
    pub fn parse(alloc: Global, bytes: &[u8]) -> Result<Self, ParseError>
        ensures ok { IfOk result (λ s. Spells s bytes.now) }
        ensures short { OnOk result (length bytes.now ≤ MAX_SCRIPT_SIZE) }
        ensures fault { IfErr result (IsFault bytes.now) }

        // At most 10,000 bytes that split into opcodes are refused only if memory runs out, and split in one way only.
        ensures exact { (ops : List Opcode) → Spells ops bytes.now
            → length bytes.now ≤ MAX_SCRIPT_SIZE
            → MatchResult result (λ s. s ≡ ops) (λ e. e ≡ ParseError.NoMemory) }
    {
        read(alloc, bytes)
    }

    /// The bytes that were parsed.
    pub fn bytes(&self) -> &[u8]
        ensures spelt { Spells self.now result.now }
        ensures short { length result.now ≤ MAX_SCRIPT_SIZE }
    {
        self.bytes.as_slice()
    }

    /// The bytes themselves, taken out of the script. It allocates nothing.
    pub fn into_bytes(self) -> ByteString
        ensures spelt { Spells self result }
        ensures short { length result ≤ MAX_SCRIPT_SIZE }
    {
        let Script { bytes, ops: _ } = self;
        ByteString::from_vec(bytes)
    }

    /// The opcodes.
    pub fn ops(&self) -> &[Op]
        ensures value { result.now ≡ self.now }
        ensures valid { All IsOp result.now }
    {
        // Borrowing both fields gives the prover the script's invariant, which says that the opcodes are valid.
        let _bytes = &self.bytes;
        self.ops.as_slice()
    }

    /// How many opcodes of the whole script count towards the limit of 201: those with a byte above 60 (hexadecimal).
    pub fn counted(&self) -> usize
        ensures { result ≡ counted_in self.now }
    {
        let mut counted = 0;
        for op in &self.ops {
            counted += op.op_count();
        }
        counted
    }

    /// An equal script. The only error is that memory ran out.
    pub fn copy(&self) -> Result<Self, AllocError>
        ensures { IfOk result (λ s. s ≡ self.now) }
    {
        Ok(Script {
            bytes: self.bytes.clone()?,
            ops: self.ops.clone()?,
        })
    }
}

// Reads bytes as opcodes.
fn read(alloc: Global, bytes: &[u8]) -> Result<Script, ParseError>
    ensures ok { IfOk result (λ s. Spells s bytes.now) }
    ensures short { OnOk result (length bytes.now ≤ MAX_SCRIPT_SIZE) }
    ensures fault { IfErr result (IsFault bytes.now) }
{
    if bytes.len() > MAX_SCRIPT_SIZE {
        return Err(ParseError::TooLong);
    }
    let mut ops = Vec::new(alloc);
    let mut rest = bytes;
    while let Some((first, after)) = rest.split_first() {
        let at = bytes.len() - rest.len();
        let op = read_op(alloc, *first, after, at)?;
        rest = &after[op.payload_len()..];
        ops.push(op)?;
    }
    Ok(Script {
        bytes: Vec::from_slice(alloc, bytes)?,
        ops,
    })
}

// The opcode that begins with the byte `first` at position `at` and continues in `after`.
fn read_op(alloc: Global, first: u8, after: &[u8], at: usize) -> Result<Op, ParseError>
    ensures ok { IfOk result (Begins first after.now) }
    ensures err { IfErr result (Refuses first after.now at) }
{
    match first {
        0..=75 => {
            let len = first as usize;
            if after.len() < len {
                return Err(ParseError::Truncated(at));
            }
            Ok(Op::Push(ByteString::from_slice(alloc, &after[..len])?))
        }
        81..=96 => Ok(Op::Number(first - 80)),
        _ => plain(first).ok_or(ParseError::BadOpcode(at)),
    }
}

// The opcode that consists of this one byte.
fn plain(byte: u8) -> Option<Op>
    requires low { 75 < byte }
    requires high { byte < 81 ⊎ 96 < byte }
    ensures some { IfSome result (λ op. IsOp op × (code_of op ≡ byte) × (payload_of op ≡ [])) }
    ensures none { IfNone result (StartsNone byte) }
{
    match byte {
        0x63 => Some(Op::If),
        0x64 => Some(Op::NotIf),
        0x67 => Some(Op::Else),
        0x68 => Some(Op::EndIf),
        0x75 => Some(Op::Drop),
        0x76 => Some(Op::Dup),
        0x7c => Some(Op::Swap),
        0x82 => Some(Op::Size),
        0x87 => Some(Op::Equal),
        0x88 => Some(Op::EqualVerify),
        0xa9 => Some(Op::Hash160),
        0xac => Some(Op::CheckSig),
        0xae => Some(Op::CheckMultiSig),
        0xb1 => Some(Op::CheckLockTimeVerify),
        0xb2 => Some(Op::CheckSequenceVerify),
        _ => None,
    }
}

impl From<AllocError> for ParseError {
    ghost from_gives = { λ _ e. e ≡ NoMemory };

    fn from(_error: AllocError) -> ParseError {
        ParseError::NoMemory
    }
}

impl<T: Drop> From<AllocFailed<T>> for ParseError {
    ghost from_gives = { λ _ e. e ≡ NoMemory };

    fn from(_error: AllocFailed<T>) -> ParseError {
        ParseError::NoMemory
    }
}
