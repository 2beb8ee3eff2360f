// Flags by number. A flag is set once and stays set.

ghost use Rattle.std.specs.Prelude.{◌≡◌, ◌<◌, ◌≤◌, ℕ, length, slice_get, Some, true, false};

// The first number from `from` on whose flag is
// not set, or the number of flags if all are.
pub(crate) fn first_unset(flags: &[bool], from: usize) -> usize
    requires { from ≤ length flags.now }
    ensures from { from ≤ result }
    ensures within { result ≤ length flags.now }
    ensures set { (n : ℕ) → from ≤ n → n < result → slice_get flags.now n ≡ Some true }
    ensures unset { result < length flags.now → slice_get flags.now result ≡ Some false }
{
    let mut number = from;
    while number < flags.len() && flags[number] {
        number += 1;
    }
    number
}
