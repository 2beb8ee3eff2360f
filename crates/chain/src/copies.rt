//! Copies of what blocks hold.

ghost use Rattle.std.specs.Prelude.{◌≡◌, IfOk};

use crate::blocks::Confirmed;
use std::alloc::{AllocError, Global};
use tx::TxOut;

/// What a list of blocks is made of.
pub trait Part: Drop {
    ghost use Rattle.std.specs.Prelude.{◌≡◌, IfOk};

    /// An equal part. The only error is that memory ran out.
    fn copied(&self) -> Result<Self, AllocError>
        ensures { IfOk result (λ x. x ≡ self.now) };
}

impl Part for Confirmed {
    fn copied(&self) -> Result<Self, AllocError> {
        self.copy()
    }
}

impl Part for TxOut {
    fn copied(&self) -> Result<Self, AllocError> {
        self.copy()
    }
}

/// Copies of parts, in their order. The only error is that memory ran out.
pub(crate) fn copies<T: Part>(alloc: Global, parts: &[T]) -> Result<Vec<T>, AllocError>
    ensures { IfOk result (λ copies. copies.items ≡ parts.now) }
{
    let mut copies = Vec::with_capacity(alloc, parts.len())?;
    for part in parts {
        copies.push(part.copied()?)?;
    }
    Ok(copies)
}
