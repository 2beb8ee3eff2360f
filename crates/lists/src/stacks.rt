//! Stacks of values, which contracts see as lists with the top first.

ghost use Rattle.std.specs.Prelude.{◌≡◌, ◌==◌, List, [], ◌∷◌, length, reverse, OnOk, OnErr, MatchOption};

use std::alloc::{AllocError, Global};
use std::marker::Model;

/// A stack. A contract sees it as the list of its values, the top first.
#[derive(Debug, Drop)]
pub struct Stack<T> {
    items: Vec<T>,
}

impl<T> Model for Stack<T> {
    ghost use Rattle.std.specs.Prelude.{List, reverse};

    ghost Value = { List T };

    ghost view = { λ s. reverse s.items.items };
}

impl<T: Drop> Stack<T> {
    /// The empty stack, which takes no memory.
    pub fn new(alloc: Global) -> Self
        ensures { result ≡ [] }
    {
        Stack {
            items: Vec::new(alloc),
        }
    }

    /// The stack of these values, the last of which is the top. It allocates nothing.
    pub fn from_vec(items: Vec<T>) -> Self
        ensures { result ≡ reverse items.items }
    {
        Stack { items }
    }

    /// The allocator that the stack was made with.
    pub fn allocator(&self) -> Global {
        *self.items.allocator()
    }

    /// How many values there are.
    pub fn len(&self) -> usize
        ensures { result ≡ length self.now }
    {
        self.items.len()
    }

    /// Whether the stack is empty.
    pub fn is_empty(&self) -> bool
        ensures { result ≡ (length self.now == 0) }
    {
        self.items.is_empty()
    }

    /// Pushes a value. The only error is that memory ran out, which leaves the stack as it was.
    pub fn push(&mut self, value: T) -> Result<(), AllocError>
        ensures pushed { OnOk result (self.new ≡ value ∷ self.old) }
        ensures err { OnErr result (self.new ≡ self.old) }
    {
        self.items.push(value)?;
        Ok(())
    }

    /// Removes and returns the top; `None` if the stack is empty.
    pub fn pop(&mut self) -> Option<T>
        ensures { MatchOption result ((self.old ≡ []) × (self.new ≡ []))
            (λ x. self.old ≡ x ∷ self.new) }
    {
        self.items.pop()
    }

    /// The top; `None` if the stack is empty.
    pub fn top(&self) -> Option<&T>
        ensures { MatchOption result (self.now ≡ [])
            (λ x. (rest : List T) × (self.now ≡ x.now ∷ rest)) }
    {
        self.items.last()
    }

    /// The values, the top last.
    pub fn values(&self) -> &[T]
        ensures { result.now ≡ reverse self.now }
    {
        self.items.as_slice()
    }
}
