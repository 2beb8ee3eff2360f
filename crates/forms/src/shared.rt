//! Patterns that are listed once and shared.

use crate::checking::patterns;
use crate::pattern_set::Patterns;
use std::alloc::{AllocError, Global};
use std::marker::Model;
use std::sync::Arc;

/// The patterns of the scripts, listed once and shared. A contract sees nothing of them, because they are the same everywhere.
#[derive(Drop)]
pub struct SharedPatterns {
    patterns: Arc<Patterns>,
}

impl Model for SharedPatterns {
    ghost use Rattle.std.specs.Prelude.{⊤};

    ghost Value = { ⊤ };

    ghost view = { λ s. tt };
}

impl SharedPatterns {
    /// Lists the patterns. The only error is that memory ran out.
    pub fn new(alloc: Global) -> Result<SharedPatterns, AllocError> {
        Ok(SharedPatterns {
            patterns: Arc::new(alloc, patterns(alloc)?)?,
        })
    }

    /// The patterns.
    pub fn get(&self) -> &Patterns {
        &self.patterns
    }

    /// The same patterns for another holder. It takes no memory, and is refused only at 2^63 - 1 holders.
    pub fn share(&self) -> Result<SharedPatterns, AllocError> {
        Ok(SharedPatterns {
            patterns: Arc::try_clone(&self.patterns)?,
        })
    }
}
