//! The expected paths of a script that is given in parts.

use crate::fixtures::checked_parts;
use paths::{Checked, Path};
use std::alloc::Global;
use std::process::Abort;

/// The parts of a script, each repeated the given number of times.
pub type Parts = &'static [(&'static [u8], usize)];

/// The expected numbers of a path: its arity, its facts, its counted opcodes and its greatest height; its lock, and its
/// age.
#[derive(Clone, Copy)]
pub struct Wanted(pub [usize; 4], pub Option<u64>, pub Option<u16>);

fn is_wanted(path: &Path, wanted: &Wanted) -> bool {
    [path.arity, path.facts.len(), path.ops, path.height] == wanted.0
        && path.lock == wanted.1
        && path.age == wanted.2
}

// Whether the paths are the expected ones, in this order.
fn has_paths(checked: &Checked, wanted: &[Wanted]) -> bool {
    for (path, numbers) in checked.paths().iter().zip(wanted) {
        if !is_wanted(path, numbers) {
            return false;
        }
    }
    checked.paths().len() == wanted.len()
}

/// Whether a script of these parts has the expected paths.
pub fn lists(rt: &impl Abort, alloc: Global, parts: &[(&[u8], usize)], wanted: &[Wanted]) -> bool {
    has_paths(&checked_parts(rt, alloc, parts), wanted)
}
