// What counts as true.

ghost use Rattle.std.specs.Prelude.{◌≡◌, ◌==◌, not, IfOk};
ghost use Rattle.std.specs.List.{list_any};
ghost use Rattle.script.specs.Step.{truth, flag as flag_of};

use lists::ByteString;
use std::alloc::{AllocError, Global};

/// Whether an item counts as true: some byte is not zero, not counting a last byte of 80 (hexadecimal).
pub fn is_true(item: &[u8]) -> bool
    ensures { result ≡ truth item.now }
{
    match item.split_last() {
        None => false,
        Some((last, front)) => has_nonzero(front) || (*last != 0 && *last != 0x80),
    }
}

// Whether some byte is not 0.
fn has_nonzero(bytes: &[u8]) -> bool
    ensures { result ≡ list_any (λ b. not (b == 0)) bytes.now }
{
    bytes.iter().any(|byte| *byte != 0)
}

/// The element that a test pushes: 01 if it holds, else the empty one. The only error is that memory ran out.
pub fn flag(alloc: Global, holds: bool) -> Result<ByteString, AllocError>
    ensures { IfOk result (λ x. x ≡ flag_of holds) }
{
    if holds {
        ByteString::from_slice(alloc, &[1])
    } else {
        Ok(ByteString::new(alloc))
    }
}
