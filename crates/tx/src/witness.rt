//! The witness of an input (BIP 141).

ghost use Rattle.std.specs.Prelude.{◌≡◌};

use crate::limited::{Element, LimitedList};
use crate::limits::{MAX_BYTES, MAX_ITEMS};
use lists::ByteString;
use std::alloc::AllocError;

/// At most 1,001 items of at most 10,000 bytes each, the bottom of the stack first.
pub type Witness = LimitedList<ByteString>;

impl Element for ByteString {
    ghost use Rattle.std.specs.Prelude.{nat_le, length};
    ghost use Rattle.tx.specs.declared.limits.TheConstants.{MAX_ITEMS as max_items, MAX_BYTES as max_bytes};
    ghost use Rattle.tx.specs.Parts.{IsBounded};

    const LIMIT: usize = MAX_ITEMS;

    ghost LIMIT = { max_items };

    ghost is_bounded = { λ bytes. nat_le (length bytes) max_bytes };

    ghost Keeps = { IsBounded };

    fn is_bounded(&self) -> bool {
        self.len() <= MAX_BYTES
    }

    fn copy(&self) -> Result<Self, AllocError> {
        ByteString::copy(self)
    }

    fn equals(&self, other: &Self) -> bool {
        ByteString::equals(self, other)
    }
}
