// Copies of paths.

ghost use Rattle.std.specs.Prelude.{◌≡◌, IfOk};

use crate::state::Path;
use std::alloc::AllocError;

impl Clone for Path {
    ghost is_clone = { λ p copy. copy ≡ p };

    fn clone(&self) -> Result<Self, AllocError> {
        Ok(Path {
            arity: self.arity,
            facts: self.facts.clone()?,
            ops: self.ops,
            height: self.height,
            lock: self.lock,
            age: self.age,
        })
    }
}

impl Path {
    /// A copy of a path. The only error is that memory ran
    /// out.
    pub fn copy(&self) -> Result<Self, AllocError>
        ensures { IfOk result (λ p. p ≡ self.now) }
    {
        self.clone()
    }
}
