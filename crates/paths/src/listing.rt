// A script with all its paths.

ghost use Rattle.std.specs.Prelude.{◌≡◌};
ghost use Rattle.std.specs.Prelude.{All, IfOk};
ghost use Rattle.paths.specs.Outcome.{IsListing};
ghost use Rattle.paths.specs.Sound.{IsSound};
ghost use Rattle.paths.specs.Exhaustive.{IsExhaustive};
ghost use Rattle.paths.specs.Answers.{Answers, IfRefused};
ghost use Rattle.paths.specs.Listing.{listing};
ghost use Rattle.paths.specs.HoleListing.{pattern_listing};
ghost use Rattle.script.specs.Run.{counted_in as counted_of};

use crate::balance::is_balanced;
use crate::constants::HoleKind;
use crate::errors::CheckError;
use crate::filling::filled_paths;
use crate::state::{Path, PatternPath};
use crate::walking::walk_all;
use lists::{ByteString, List};
use script::limits::{MAX_OPS_PER_SCRIPT, MAX_SCRIPT_SIZE};
use script::{Op, Script};
use std::alloc::{AllocError, Global};
use std::marker::Model;

/// A script with every path on which it runs clean. Only `check` and [`CheckedPattern::instance`](crate::CheckedPattern::instance) make one. A contract sees it as its opcodes and its paths.
#[derive(Drop)]
pub struct Checked {
    script: Script,
    paths: List<Path>,
}

impl Model for Checked {
    ghost use Rattle.std.specs.Prelude.{◌≡◌, Ok};
    ghost use Rattle.paths.specs.Listing.{CheckedScript, listing};

    ghost Value = { CheckedScript };

    ghost view = { λ c. record { ops = c.script; paths = c.paths } };

    ghost invariant = { λ c. listing c.script ≡ Ok c.paths };
}

/// One way through a script: the bytes of the script, and the path.
#[derive(Drop)]
pub struct Way {
    pub script: ByteString,
    pub path: Path,
}

impl Checked {
    ghost use Rattle.std.specs.Prelude.{◌≡◌, ◌<◌, ◌≤◌, length, slice_get, All, Ok, Some, IfOk};
    ghost use Rattle.script.specs.Spelling.{Spells};
    ghost use Rattle.paths.specs.Listing.{listing};
    ghost use Rattle.paths.specs.Sound.{IsSound};
    ghost use Rattle.paths.specs.Exhaustive.{IsExhaustive};

    /// A script with its paths. It allocates nothing.
    pub(crate) fn from_parts(script: Script, paths: List<Path>) -> Self
        requires { listing script ≡ Ok paths }
        ensures { result ≡ record { ops = script; paths = paths } }
    {
        Checked { script, paths }
    }

    /// The script.
    pub fn script(&self) -> &Script
        ensures { result.now ≡ self.now.ops }
    {
        &self.script
    }

    /// Its paths, in the text order of their branches.
    pub fn paths(&self) -> &[Path]
        ensures value { result.now ≡ self.now.paths }
        ensures listed { listing self.now.ops ≡ Ok self.now.paths }

        // Whatever meets a path runs clean, as the path says.
        ensures sound { All (IsSound self.now.ops) self.now.paths }

        // Nothing else satisfies the script.
        ensures exhaustive { IsExhaustive self.now.ops self.now.paths }
    {
        // Borrowing both fields gives the prover the invariant: these are the script's paths.
        let _script = &self.script;
        self.paths.values()
    }

    /// One way through the script, without the others. It allocates nothing.
    pub fn into_way(self, index: usize) -> Way
        requires { index < length self.paths }
        ensures spelt { Spells self.ops result.script }
        ensures short { length result.script ≤ MAX_SCRIPT_SIZE }
        ensures listed { listing self.ops ≡ Ok self.paths }
        ensures path { slice_get self.paths index ≡ Some result.path }
    {
        let Checked { script, paths } = self;
        let mut paths = paths.into_vec();
        let path = paths.swap_remove(index);
        Way {
            script: script.into_bytes(),
            path,
        }
    }

    /// A copy of the script with its paths, which are not listed again. The only error is that memory ran out.
    pub fn copy(&self) -> Result<Self, AllocError>
        ensures { IfOk result (λ c. c ≡ self.now) }
    {
        Ok(Checked {
            script: self.script.copy()?,
            paths: self.paths.clone()?,
        })
    }
}

/// Lists every way through a script, in the text order of its branches: the second branch of a split begins once all paths through the first have ended. The number of steps is at most the
/// number of paths begun times the number of opcodes.
///
/// `NoMemory` may come at any time. The other refusals are checked in this order:
/// - `OpenBranch`: branches of the whole script do not close.
/// - `TooManyOps`: more than 201 opcodes of the whole script count.
/// - Then the first fault that the paths meet. `Undecided`: no rule decides an opcode or an end. `TooManyOps`: the keys of a CHECKMULTISIG lift the count above 201. `TooTall`: more than 1,000
///   elements. `TooManyPaths`: a 65th path begins.
#[tactic(auto, using(crate::proofs::SoundListing::exact_sound))]
pub fn check(alloc: Global, script: Script) -> Result<Checked, CheckError>
    ensures exact { IsListing script result }

    // Any witness that meets a listed path runs clean, with exactly its counted opcodes and its height, at most 1,000.
    ensures sound { IfOk result (λ c. All (IsSound c.ops) c.paths) }

    // Nothing else satisfies the script: any witness that runs clean, under any spend, meets a listed path.
    ensures exhaustive { IfOk result (λ c. IsExhaustive c.ops c.paths) }
{
    list(alloc, script)
}

// Lists the paths, as the definition does.
fn list(alloc: Global, script: Script) -> Result<Checked, CheckError>
    ensures exact { IsListing script result }
{
    let paths = known_paths(alloc, script.ops())?;
    Ok(Checked { script, paths })
}

// Every way through a script: those through a pattern without holes.
#[tactic(auto, using(crate::proofs::FillListing::known_listed, crate::proofs::FillListing::known_refusal))]
fn known_paths(alloc: Global, ops: &[Op]) -> Result<List<Path>, CheckError>
    ensures { Answers IfRefused (listing ops.now) result }
{
    let paths = pattern_paths(alloc, &[], ops)?;
    let filled = filled_paths(alloc, ops, paths.values())?;
    Ok(filled)
}

/// Every way through a pattern, where an empty push stands for each hole.
#[tactic(auto, unfolding(crate::specs::HoleListing::pattern_listing))]
pub fn pattern_paths(
    alloc: Global,
    holes: &[Option<HoleKind>],
    ops: &[Op],
) -> Result<List<PatternPath>, CheckError>
    ensures { Answers IfRefused (pattern_listing holes.now ops.now) result }
{
    if !is_balanced(alloc, ops)? {
        return Err(CheckError::OpenBranch);
    }
    let counted = counted_in(ops);
    if counted > MAX_OPS_PER_SCRIPT {
        return Err(CheckError::TooManyOps);
    }
    walk_all(alloc, holes, ops, counted)
}

// The number of counted opcodes.
fn counted_in(ops: &[Op]) -> usize
    ensures { result ≡ counted_of ops.now }
{
    let mut counted = 0;
    for op in ops {
        counted += op.op_count();
    }
    counted
}
