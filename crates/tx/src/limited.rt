//! Lists of a limited length, whose elements keep the limits of their kind.

ghost use Rattle.std.specs.Prelude.{◌≡◌, ◌<◌, ◌≤◌, ◌↔◌, ◌==◌, ◌&&◌, nat_lt, nat_le, true, false, [], ◌∷◌, ◌++◌, ℕ, Bool, length, IfOk, OnOk, OnErr, IsErrOf, IsTrue, if◌then◌else◌};
ghost use Rattle.std.specs.List.{list_all, AllByRecursion};
ghost use Rattle.std.specs.Bool.{OnTrue};
ghost use Rattle.tx.specs.Parts.{IsWithin};

use crate::errors::LimitError;
use std::alloc::{AllocError, Global};
use std::marker::Model;

/// What the lists of a transaction are made of: an input, an output or a witness item.
pub trait Element: Drop {
    /// The greatest number of elements of a list.
    const LIMIT: usize;

    ghost LIMIT: { ℕ };

    // whether an element keeps the limits of its kind
    ghost is_bounded: { Self → Bool };

    // the limits of its kind
    ghost Keeps: { Self → Type 0 };

    /// Whether the element keeps the limits of its kind. An input and an output always do.
    fn is_bounded(&self) -> bool
        ensures value { result ≡ is_bounded self.now }
        ensures limits { OnTrue result (Keeps self.now) };

    /// An equal element. The only error is that memory ran out.
    fn copy(&self) -> Result<Self, AllocError>
        ensures { IfOk result (λ x. x ≡ self.now) };

    /// Whether the two are equal.
    fn equals(&self, other: &Self) -> bool
        ensures { IsTrue result ↔ (self.now ≡ other.now) };
}

/// A list of at most `T::LIMIT` elements, each of which keeps the limits of its kind. A contract sees it as the list
/// of their values. It keeps the allocator that it was made with.
#[derive(Debug, Drop)]
pub struct LimitedList<T: Element> {
    pub(crate) items: Vec<T>,
}

impl<T: Element> Model for LimitedList<T> {
    ghost use Rattle.std.specs.Prelude.{List};
    ghost use Rattle.tx.specs.Parts.{IsWithin};

    ghost Value = { List T };

    ghost view = { λ a. a.items.items };

    ghost invariant = { λ a. IsWithin T.LIMIT T.Keeps a.items.items };
}

impl<T: Element> LimitedList<T> {
    /// The empty list, which takes no memory.
    pub fn new(alloc: Global) -> Self
        ensures { result ≡ [] }
    {
        LimitedList {
            items: Vec::new(alloc),
        }
    }

    /// The list of these elements, without copying them: OverLimit where there are more than `T::LIMIT`, or one of them
    /// does not keep the limits of its kind.
    pub fn from_vec(items: Vec<T>) -> Result<Self, LimitError>
        ensures value { result ≡ (if list_all T.is_bounded items.items && nat_le
            (length items.items) T.LIMIT then Ok items.items else Err LimitError.OverLimit) }
        // Where the kind has no limits of its own, only the number of elements counts.
        ensures by_number { ((x : T) → T.is_bounded x ≡ true)
            → result ≡ (if nat_le (length items.items) T.LIMIT then Ok items.items
            else Err LimitError.OverLimit) }
    {
        if !are_bounded(items.as_slice()) || items.len() > T::LIMIT {
            return Err(LimitError::OverLimit);
        }
        Ok(LimitedList { items })
    }

    /// Adds an element at the end: OverLimit where the list is full, or the element does not keep the limits of its kind. A
    /// refusal leaves the list as it was, and drops the new element.
    pub fn push(&mut self, item: T) -> Result<(), LimitError>
        ensures ok { OnOk result (self.new ≡ self.old ++ item ∷ []) }
        ensures err { OnErr result (self.new ≡ self.old) }
        ensures over { IsErrOf result LimitError.OverLimit
            ↔ ((T.is_bounded item && nat_lt (length self.old) T.LIMIT) ≡ false) }
    {
        if !item.is_bounded() || self.items.len() >= T::LIMIT {
            return Err(LimitError::OverLimit);
        }
        self.items.push(item)?;
        Ok(())
    }

    /// Adds an element at the end of a list that has room for it. The only error is that memory ran out: it leaves the list
    /// as it was, and drops the new element.
    pub fn push_within_limit(&mut self, item: T) -> Result<(), AllocError>
        requires room { length self.old < T.LIMIT }
        requires bounded { T.is_bounded item ≡ true }
        ensures ok { OnOk result (self.new ≡ self.old ++ item ∷ []) }
        ensures err { OnErr result (self.new ≡ self.old) }
    {
        // The proof learns from the answer that the element keeps its limits.
        let _ = item.is_bounded();
        self.items.push(item)?;
        Ok(())
    }

    /// The elements.
    pub fn as_slice(&self) -> &[T]
        ensures value { result.now ≡ self.now }
        ensures limits { IsWithin T.LIMIT T.Keeps result.now }
    {
        self.items.as_slice()
    }

    /// Gives the elements back as a `Vec` without allocating.
    pub fn into_vec(self) -> Vec<T>
        ensures value { result.items ≡ self }
        ensures limits { IsWithin T.LIMIT T.Keeps result.items }
    {
        let LimitedList { items } = self;
        items
    }

    /// How many elements there are.
    pub fn len(&self) -> usize
        ensures value { result ≡ length self.now }
        ensures limit { result ≤ T.LIMIT }
    {
        self.items.len()
    }

    /// Whether the list is empty.
    pub fn is_empty(&self) -> bool
        ensures { result ≡ (length self.now == 0) }
    {
        self.items.is_empty()
    }

    /// An equal list. The only error is that memory ran out.
    pub fn copy(&self) -> Result<Self, AllocError>
        ensures { IfOk result (λ xs. xs ≡ self.now) }
    {
        let mut items = Vec::new(*self.items.allocator());
        for item in &self.items {
            items.push(item.copy()?)?;
        }
        Ok(LimitedList { items })
    }

    /// Whether the two lists have equal elements in the same order.
    pub fn equals(&self, other: &Self) -> bool
        ensures { IsTrue result ↔ (self.now ≡ other.now) }
    {
        are_equal(self.items.as_slice(), other.items.as_slice())
    }
}

// Whether each element keeps the limits of its kind.
fn are_bounded<T: Element>(items: &[T]) -> bool
    ensures value { result ≡ list_all T.is_bounded items.now }
    ensures limits { OnTrue result (AllByRecursion T.Keeps items.now) }
{
    for item in items {
        if !item.is_bounded() {
            return false;
        }
    }
    true
}

// Whether two slices have equal elements in the same order.
fn are_equal<T: Element>(some: &[T], others: &[T]) -> bool
    ensures { IsTrue result ↔ (some.now ≡ others.now) }
{
    if some.len() != others.len() {
        return false;
    }
    for (i, item) in some.iter().enumerate() {
        if !item.equals(&others[i]) {
            return false;
        }
    }
    true
}
