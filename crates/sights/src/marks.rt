//! Marks for ids, by which most inputs of a block are passed over at a glance.

ghost use Rattle.std.specs.Prelude.{◌≡◌, ◌≤◌, ◌+◌, ◌*◌, ℕ, true};
ghost use Rattle.sights.specs.Marks.{byte_in, place_in, is_set};

use std::alloc::{AllocError, Global};

// One place for each value of two bytes.
const PLACES: usize = 65_536;

/// Marks for ids, in two tables by two bytes each. An id without its marks is none of those that were marked. Marks stay: one of what was taken off again costs a look-up.
#[derive(Drop)]
pub(crate) struct Marks {
    first: Vec<bool>,
    second: Vec<bool>,
}

// A byte of an id; 0 past its end.
fn byte_in(id: &[u8; 32], index: usize) -> usize
    ensures value { result ≡ byte_in id.now index }
    ensures bound { result ≤ 255 }
{
    match id.get(index) {
        Some(byte) => usize::from(*byte),
        None => 0,
    }
}

// The place of an id in a table by two bytes.
fn place_in(id: &[u8; 32], first: usize, second: usize) -> usize
    ensures { result ≡ place_in id.now first second }
{
    byte_in(id, first) * 256 + byte_in(id, second)
}

// Whether a place of a table is marked. One that the table lacks counts as marked.
fn is_set(table: &[bool], place: usize) -> bool
    ensures { result ≡ is_set table.now place }
{
    match table.get(place) {
        Some(mark) => *mark,
        None => true,
    }
}

// Marks a place of a table.
#[tactic(auto, using(crate::proofs::Marked::past, crate::proofs::Marked::set_here, crate::proofs::Marked::set_others))]
fn set(table: &mut [bool], place: usize)
    ensures here { is_set table.new place ≡ true }
    ensures others { (q : ℕ) → is_set table.old q ≡ true → is_set table.new q ≡ true }
{
    if place < table.len() {
        table[place] = true;
    }
}

impl Marks {
    ghost use Rattle.std.specs.Prelude.{◌≡◌, ℕ, List, true};
    ghost use Rattle.sights.specs.Marks.{is_marked};

    /// No marks. The only error is that memory ran out.
    pub(crate) fn new(alloc: Global) -> Result<Marks, AllocError> {
        Ok(Marks {
            first: vec![in alloc; false; PLACES]?,
            second: vec![in alloc; false; PLACES]?,
        })
    }

    /// Marks an id. Those that are marked stay so.
    #[tactic(auto, using(crate::proofs::Marked::marked_here, crate::proofs::Marked::marked_still))]
    pub(crate) fn mark(&mut self, id: &[u8; 32])
        ensures here { is_marked self.new.first.items self.new.second.items id.now ≡ true }
        ensures others { (q : List ℕ)
            → is_marked self.old.first.items self.old.second.items q ≡ true
            → is_marked self.new.first.items self.new.second.items q ≡ true }
    {
        set(&mut self.first, place_in(id, 0, 1));
        set(&mut self.second, place_in(id, 2, 3));
    }

    /// Whether an id has both of its marks.
    pub(crate) fn has(&self, id: &[u8; 32]) -> bool
        ensures { result ≡ is_marked self.now.first.items self.now.second.items id.now }
    {
        is_set(&self.first, place_in(id, 0, 1)) && is_set(&self.second, place_in(id, 2, 3))
    }
}
