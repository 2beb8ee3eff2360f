//! Marks for outpoints, by which most others are told apart at a glance.

ghost use Rattle.std.specs.Prelude.{◌≡◌, ◌≤◌, ◌+◌, ◌*◌};
ghost use Rattle.side.specs.Marks.{byte_in, place_in, is_set};

use std::alloc::{AllocError, Global};
use tx::OutPoint;

// One place for each value of two bytes.
const PLACES: usize = 65_536;

/// Marks for outpoints, in two tables by two bytes each of a transaction's id. An outpoint without its marks is none of those that were marked. Of 1,000 marked ones and random ids, one of some
/// 4,000 others has both marks too.
#[derive(Drop)]
pub(crate) struct Marks {
    first: Vec<bool>,
    second: Vec<bool>,
}

// A byte of an id; 0 past its end.
fn byte_in(txid: &[u8; 32], index: usize) -> usize
    ensures value { result ≡ byte_in txid.now index }
    ensures bound { result ≤ 255 }
{
    match txid.get(index) {
        Some(byte) => usize::from(*byte),
        None => 0,
    }
}

// The place of an id in a table by two bytes.
fn place_in(txid: &[u8; 32], first: usize, second: usize) -> usize
    ensures { result ≡ place_in txid.now first second }
{
    byte_in(txid, first) * 256 + byte_in(txid, second)
}

// Whether a place of a table is marked.
fn is_set(table: &[bool], place: usize) -> bool
    ensures { result ≡ is_set table.now place }
{
    match table.get(place) {
        Some(mark) => *mark,
        None => false,
    }
}

// Marks a place of a table.
fn set(table: &mut [bool], place: usize) {
    if let Some(mark) = table.get_mut(place) {
        *mark = true;
    }
}

impl Marks {
    ghost use Rattle.std.specs.Prelude.{◌≡◌};
    ghost use Rattle.std.specs.List.{list_all};
    ghost use Rattle.side.specs.Marks.{is_marked};

    /// Marks for these outpoints. The only error is that memory ran out.
    pub(crate) fn of(alloc: Global, outpoints: &[OutPoint]) -> Result<Marks, AllocError> {
        let mut first = vec![in alloc; false; PLACES]?;
        let mut second = vec![in alloc; false; PLACES]?;
        for outpoint in outpoints {
            set(&mut first, place_in(&outpoint.txid, 0, 1));
            set(&mut second, place_in(&outpoint.txid, 2, 3));
        }
        Ok(Marks { first, second })
    }

    /// Whether an outpoint has both of its marks.
    pub(crate) fn has(&self, outpoint: &OutPoint) -> bool
        ensures { result ≡ is_marked self.now.first.items self.now.second.items outpoint.now }
    {
        is_set(&self.first, place_in(&outpoint.txid, 0, 1))
            && is_set(&self.second, place_in(&outpoint.txid, 2, 3))
    }

    /// Whether all of these outpoints have both of their marks.
    pub(crate) fn has_all(&self, outpoints: &[OutPoint]) -> bool
        ensures { result ≡ list_all (is_marked self.now.first.items self.now.second.items)
            outpoints.now }
    {
        outpoints.iter().all(|outpoint| self.has(outpoint))
    }
}
