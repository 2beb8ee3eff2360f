// Patterns of scripts, checked once for all their fills.

ghost use Rattle.std.specs.Prelude.{◌≡◌, ◌≤◌, length, All, MatchResult, Ok};
ghost use Rattle.script.specs.Spelling.{IsOp, spelling};
ghost use Rattle.paths.specs.Patterns.{IsPattern, ArePatternPaths, IsInstance, pattern_of};

use crate::filling::filled_paths;
use crate::listing::{Checked, pattern_paths};
use crate::pieces::{
    Fill, InstanceError, PatternError, Piece, are_opcodes, filled_ops, holes_of, is_short, ops_of,
    spelt,
};
use crate::state::PatternPath;
use lists::List;
use script::limits::MAX_SCRIPT_SIZE;
use script::{Op, Script};
use std::alloc::Global;
use std::marker::Model;

/// A pattern with every way through it. Only `check_pattern` makes one. A contract sees it as its pieces and its paths.
#[derive(Drop)]
pub struct CheckedPattern {
    pieces: List<Piece>,
    paths: List<PatternPath>,
}

impl Model for CheckedPattern {
    ghost use Rattle.std.specs.Prelude.{◌≡◌, Ok};
    ghost use Rattle.paths.specs.Patterns.{ListedPattern, pattern_of};

    ghost Value = { ListedPattern };

    ghost view = { λ p. record { pieces = p.pieces; paths = p.paths } };

    ghost invariant = { λ p. pattern_of p.pieces ≡ Ok p.paths };
}

/// Lists every way through a pattern. A piece that is not a valid opcode (`BadOpcode`) is refused first, then what `check` refuses. A rule that would
/// need the value of a hole is `Undecided`. Last, `TooLong` refuses a pattern that could be filled to a script of more than 10,000 bytes.
#[tactic(auto, using(crate::proofs::FillPattern::bad_pattern, crate::proofs::FillPattern::refused_pattern, crate::proofs::FillPattern::long_pattern, crate::proofs::FillPattern::listed_pattern))]
pub fn check_pattern(alloc: Global, pieces: Vec<Piece>) -> Result<CheckedPattern, PatternError>
    ensures { IsPattern pieces.items result }
{
    let paths = pattern_paths_of(alloc, &pieces)?;
    Ok(CheckedPattern {
        pieces: List::from_vec(pieces),
        paths,
    })
}

// Every way through a pattern.
#[tactic(auto, using(crate::proofs::FillPattern::bad_pattern, crate::proofs::FillPattern::refused_pattern, crate::proofs::FillPattern::long_pattern, crate::proofs::FillPattern::listed_pattern))]
fn pattern_paths_of(alloc: Global, pieces: &[Piece]) -> Result<List<PatternPath>, PatternError>
    ensures { ArePatternPaths pieces.now result }
{
    let holes = holes_of(alloc, pieces)?;
    let ops = ops_of(alloc, pieces)?;
    if !are_opcodes(&ops) {
        return Err(PatternError::BadOpcode);
    }
    let paths = pattern_paths(alloc, &holes, &ops)?;
    if !is_short(pieces) {
        return Err(PatternError::TooLong);
    }
    Ok(paths)
}

impl CheckedPattern {
    /// The script with these fills, one for each hole in order, and its paths: what `check` gives for that script, without walking it. Fills whose
    /// number, kind or range does not fit the holes are refused (`WrongHoles`). The other error is that memory ran out.
    pub fn instance(&self, alloc: Global, fills: &[Fill]) -> Result<Checked, InstanceError>
        ensures { IsInstance self.now.pieces fills.now result }
    {
        fill(alloc, self.pieces.values(), self.paths.values(), fills)
    }
}

// Fills the holes of a pattern that has these paths.
#[tactic(auto, using(crate::proofs::FillPattern::filled_valid, crate::proofs::FillPattern::filled_short, crate::proofs::FillPattern::filled_listed))]
fn fill(
    alloc: Global,
    pieces: &[Piece],
    paths: &[PatternPath],
    fills: &[Fill],
) -> Result<Checked, InstanceError>
    requires { pattern_of pieces.now ≡ Ok paths.now }
    ensures { IsInstance pieces.now fills.now result }
{
    match filled_ops(alloc, pieces, fills)? {
        Some(ops) => {
            let script = script_of(alloc, ops.values())?;
            let filled = filled_paths(alloc, ops.values(), paths)?;
            Ok(Checked::from_parts(script, filled))
        }
        None => Err(InstanceError::WrongHoles),
    }
}

// The script of these opcodes. The only error is that memory ran out.
fn script_of(alloc: Global, ops: &[Op]) -> Result<Script, InstanceError>
    requires valid { All IsOp ops.now }
    requires short { length (spelling ops.now) ≤ MAX_SCRIPT_SIZE }
    ensures { MatchResult result (λ s. s ≡ ops.now) (λ e. e ≡ InstanceError.NoMemory) }
{
    let bytes = spelt(alloc, ops)?;
    match Script::parse(alloc, &bytes) {
        Ok(script) => Ok(script),
        Err(_) => Err(InstanceError::NoMemory),
    }
}
