// Pieces of a pattern, what fills its holes, and why either is refused.

ghost use Rattle.std.specs.Prelude.{◌≡◌, ◌+◌, ◌<◌, nat_le, ◌∷◌, ◌++◌, map, All, IfOk, OnOk, MatchOption};
ghost use Rattle.std.specs.List.{list_all};
ghost use Rattle.script.specs.Spelling.{IsOp, code_of, payload_of, spelling};
ghost use Rattle.paths.specs.Patterns.{hole_of as hole_for, op_of, is_op, longest as longest_of_all, longest_of as longest_piece, filled as filled_with, takes as hole_takes, op_by};
ghost use Rattle.paths.specs.PatternRefusals.{pattern_refusal_number, instance_refusal_number};
ghost use Rattle.paths.specs.declared.pieces.PatternError.TheVariants.{Check};
ghost use Rattle.paths.specs.declared.pieces.InstanceError.TheVariants.{NoMemory as OutOfMemory};
ghost use Rattle.paths.specs.declared.errors.CheckError.TheVariants.{NoMemory};

use crate::constants::HoleKind;
use crate::errors::CheckError;
use crate::filling::fits;
use lists::{ByteString, List};
use script::limits::{LOCKTIME_THRESHOLD, MAX_SCRIPT_SIZE};
use script::{Op, num};
use std::alloc::{AllocError, AllocFailed, Global};
use thiserror::Error;

/// A piece of a pattern of scripts.
#[derive(Debug, Drop)]
pub enum Piece {
    /// This opcode.
    Op(Op),
    /// A push of a key of 33 bytes.
    KeyHole,
    /// A push of a hash of 20 bytes.
    HashHole,
    /// A push of a number from 0 to 499,999,999.
    NumHole,
}

/// What fills a hole.
#[derive(Debug, Drop)]
pub enum Fill {
    /// A compressed key, which begins with 02 or 03.
    Key([u8; 33]),
    /// A hash.
    Hash([u8; 20]),
    /// A number from 0 to 499,999,999. It is an empty push for 0, an opcode of its own from 1 to 16, else the push of its minimal encoding.
    Num(u32),
}

/// Why a pattern is not listed.
#[derive(Clone, Copy, PartialEq, Eq, Debug, Error)]
pub enum PatternError {
    /// The listing is refused, as a script's may be.
    #[error("{0}")]
    Check(CheckError),
    /// A script that fills it could exceed 10,000 bytes.
    #[error("TooLong")]
    TooLong,
    /// A piece is not a valid opcode: it pushes more than 75 bytes, or its number is not from 1 to 16.
    #[error("BadOpcode")]
    BadOpcode,
}

/// Why a pattern is not filled.
#[derive(Clone, Copy, PartialEq, Eq, Debug, Error)]
pub enum InstanceError {
    /// Memory ran out.
    #[error("NoMemory")]
    NoMemory,
    /// The number of fills differs from that of the holes, or a fill does not fit its hole in kind or range.
    #[error("WrongHoles")]
    WrongHoles,
}

impl PatternError {
    /// The number of the refusal; 0 is out of memory.
    pub fn number(&self) -> u8
        ensures { result ≡ pattern_refusal_number self.now }
    {
        match self {
            PatternError::Check(error) => error.number(),
            PatternError::TooLong => 6,
            PatternError::BadOpcode => 7,
        }
    }
}

impl InstanceError {
    /// The number of the refusal; 0 is out of memory.
    pub fn number(&self) -> u8
        ensures { result ≡ instance_refusal_number self.now }
    {
        match self {
            InstanceError::NoMemory => 0,
            InstanceError::WrongHoles => 1,
        }
    }
}

impl From<CheckError> for PatternError {
    ghost from_gives = { λ c e. e ≡ Check c };

    fn from(error: CheckError) -> PatternError {
        PatternError::Check(error)
    }
}

impl From<AllocError> for PatternError {
    ghost from_gives = { λ _ e. e ≡ Check NoMemory };

    fn from(_error: AllocError) -> PatternError {
        PatternError::Check(CheckError::NoMemory)
    }
}

impl From<AllocError> for InstanceError {
    ghost from_gives = { λ _ e. e ≡ OutOfMemory };

    fn from(_error: AllocError) -> InstanceError {
        InstanceError::NoMemory
    }
}

impl<T: Drop> From<AllocFailed<T>> for InstanceError {
    ghost from_gives = { λ _ e. e ≡ OutOfMemory };

    fn from(_error: AllocFailed<T>) -> InstanceError {
        InstanceError::NoMemory
    }
}

/// What a hole takes; `None` for an opcode.
pub fn hole_of(piece: &Piece) -> Option<HoleKind>
    ensures { result ≡ hole_for piece.now }
{
    match piece {
        Piece::Op(_) => None,
        Piece::KeyHole => Some(HoleKind::Key),
        Piece::HashHole => Some(HoleKind::Hash),
        Piece::NumHole => Some(HoleKind::Number),
    }
}

/// The holes by their positions. The only error is that memory ran out.
pub fn holes_of(alloc: Global, pieces: &[Piece]) -> Result<Vec<Option<HoleKind>>, AllocError>
    ensures { IfOk result (λ v. v.items ≡ map hole_for pieces.now) }
{
    let mut holes = Vec::new(alloc);
    for piece in pieces {
        holes.push(hole_of(piece))?;
    }
    Ok(holes)
}

// A copy of a piece's opcode; an empty push for a hole. The only error is that memory ran out.
fn copied_op(alloc: Global, piece: &Piece) -> Result<Op, AllocError>
    ensures { IfOk result (λ o. o ≡ op_of piece.now) }
{
    match piece {
        Piece::Op(op) => op.copy(),
        _ => Ok(Op::Push(ByteString::new(alloc))),
    }
}

/// The opcodes, where an empty push stands for each hole. The only error is that memory ran out.
pub fn ops_of(alloc: Global, pieces: &[Piece]) -> Result<Vec<Op>, AllocError>
    ensures { IfOk result (λ v. v.items ≡ map op_of pieces.now) }
{
    let mut ops = Vec::new(alloc);
    for piece in pieces {
        ops.push(copied_op(alloc, piece)?)?;
    }
    Ok(ops)
}

/// Whether a value is a valid opcode: a push has at most 75 bytes, and a number is from 1 to 16.
pub fn is_opcode(op: &Op) -> bool
    ensures { result ≡ is_op op.now }
{
    match op {
        Op::Push(item) => item.len() <= 75,
        Op::Number(n) => 1 <= *n && *n <= 16,
        _ => true,
    }
}

/// Whether all of these are valid opcodes.
pub fn are_opcodes(ops: &[Op]) -> bool
    ensures { result ≡ list_all is_op ops.now }
{
    ops.iter().all(|op| is_opcode(op))
}

// `left` less the greatest length of a piece in bytes; `None` if the piece may be longer.
fn left_after(piece: &Piece, left: usize) -> Option<usize>
    ensures { MatchOption result (left < longest_piece piece.now)
        (λ n. n + longest_piece piece.now ≡ left) }
{
    let len = match piece {
        Piece::Op(op) => op.payload_len(),
        Piece::KeyHole => 33,
        Piece::HashHole => 20,
        Piece::NumHole => 4,
    };
    if len < left {
        Some(left - len - 1)
    } else {
        None
    }
}

/// Whether no script that fills the pieces exceeds 10,000 bytes.
#[tactic(auto, using(crate::proofs::FillPieces::longest_step, crate::proofs::FillPieces::longest_over))]
pub fn is_short(pieces: &[Piece]) -> bool
    ensures { result ≡ nat_le (longest_of_all pieces.now) 10000 }
{
    let mut left = MAX_SCRIPT_SIZE;
    for piece in pieces {
        match left_after(piece, left) {
            Some(less) => left = less,
            None => return false,
        }
    }
    true
}

/// Whether a fill fits a hole.
pub fn takes(kind: HoleKind, fill: &Fill) -> bool
    ensures { result ≡ hole_takes kind fill.now }
{
    match (kind, fill) {
        (HoleKind::Key, Fill::Key(key)) => fits(HoleKind::Key, key),
        (HoleKind::Hash, Fill::Hash(hash)) => fits(HoleKind::Hash, hash),
        (HoleKind::Number, Fill::Num(n)) => u64::from(*n) < LOCKTIME_THRESHOLD,
        _ => false,
    }
}

/// The opcode that pushes a fill. The only error is that memory ran out.
pub fn op_for(alloc: Global, fill: &Fill) -> Result<Op, AllocError>
    ensures { IfOk result (λ o. o ≡ op_by fill.now) }
{
    match fill {
        Fill::Key(key) => Ok(Op::Push(ByteString::from_slice(alloc, key)?)),
        Fill::Hash(hash) => Ok(Op::Push(ByteString::from_slice(alloc, hash)?)),
        Fill::Num(n) => {
            if 1 <= *n && *n <= 16 {
                Ok(Op::Number(*n as u8))
            } else {
                Ok(Op::Push(num::write(alloc, u64::from(*n))?))
            }
        }
    }
}

/// The opcodes of pieces with their holes filled in order. `None` if number, kind or range of the fills do not fit. The only error is that
/// memory ran out.
#[tactic(auto, using(crate::proofs::FillPieces::step_op, crate::proofs::FillPieces::step_fill, crate::proofs::FillPieces::no_fill, crate::proofs::FillPieces::wrong_fill))]
pub fn filled_ops(
    alloc: Global,
    pieces: &[Piece],
    fills: &[Fill],
) -> Result<Option<List<Op>>, AllocError>
    ensures { IfOk result (λ o. o ≡ filled_with pieces.now fills.now) }
{
    let mut ops = List::new(alloc);
    let mut rest = fills;
    for piece in pieces {
        match hole_of(piece) {
            None => ops.push(copied_op(alloc, piece)?)?,
            Some(kind) => {
                let Some((fill, after)) = rest.split_first() else {
                    return Ok(None);
                };
                if !takes(kind, fill) {
                    return Ok(None);
                }
                ops.push(op_for(alloc, fill)?)?;
                rest = after;
            }
        }
    }
    if rest.is_empty() {
        Ok(Some(ops))
    } else {
        Ok(None)
    }
}

/// The bytes of opcodes, one after another. The only error is that memory ran out.
#[tactic(auto, using(crate::proofs::FillPieces::spell_step))]
pub fn spelt(alloc: Global, ops: &[Op]) -> Result<Vec<u8>, AllocError>
    requires { All IsOp ops.now }
    ensures { IfOk result (λ v. v.items ≡ spelling ops.now) }
{
    let mut bytes = Vec::new(alloc);
    for op in ops {
        spell(&mut bytes, op)?;
    }
    Ok(bytes)
}

// Appends the bytes of an opcode. The only error is that memory ran out.
fn spell(bytes: &mut Vec<u8>, op: &Op) -> Result<(), AllocError>
    requires { IsOp op.now }
    ensures { OnOk result (bytes.new.items ≡ bytes.old.items ++ code_of op.now
        ∷ payload_of op.now) }
{
    bytes.push(op.code() as u8)?;
    if let Op::Push(item) = op {
        bytes.extend_from_slice(item.bytes())?;
    }
    Ok(())
}
