// Copies of what a claim is made of.

ghost use Rattle.std.specs.Prelude.{◌≡◌, IfOk};

use crate::parts::{Place, Shell, Slot, WitnessItem};
use lists::List;
use std::alloc::AllocError;

impl Clone for WitnessItem {
    ghost is_clone = { λ w copy. copy ≡ w };

    fn clone(&self) -> Result<Self, AllocError> {
        Ok(WitnessItem {
            item: self.item.copy()?,
        })
    }
}

impl WitnessItem {
    /// A copy of an item. The only error is that memory ran
    /// out.
    pub fn copy(&self) -> Result<Self, AllocError>
        ensures { IfOk result (λ w. w ≡ self.now) }
    {
        self.clone()
    }
}

impl Slot {
    /// A copy of a slot. The only error is that memory ran
    /// out.
    pub fn copy(&self) -> Result<Self, AllocError>
        ensures { IfOk result (λ s. s ≡ self.now) }
    {
        self.clone()
    }
}

impl Place {
    /// A copy of a place. The only error is that memory ran
    /// out.
    pub fn copy(&self) -> Result<Self, AllocError>
        ensures { IfOk result (λ p. p ≡ self.now) }
    {
        self.clone()
    }
}

impl Shell {
    /// A copy of a shell. The only error is that memory ran
    /// out.
    pub fn copy(&self) -> Result<Self, AllocError>
        ensures { IfOk result (λ s. s ≡ self.now) }
    {
        self.clone()
    }
}

// A copy of slots.
pub(crate) fn copied_slots(slots: &List<Slot>) -> Result<List<Slot>, AllocError>
    ensures { IfOk result (λ s. s ≡ slots.now) }
{
    slots.clone()
}
