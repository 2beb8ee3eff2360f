// What consensus takes as a signature.

ghost use Rattle.std.specs.Prelude.{◌≡◌, ◌≤◌, ◌<◌, slice_index};
ghost use Rattle.strictness.specs.Values.{is_der as is_der_of, has_integer_at as has_integer_of};

/// Whether bytes have the form of a signature in consensus: two integers in strict DER, followed by the hash type (BIP 66).
#[tactic(auto, unfolding(crate::specs::Values::is_der))]
pub fn is_der(bytes: &[u8]) -> bool
    ensures { result ≡ is_der_of bytes.now }
{
    let first = byte_at(bytes, 3);
    bytes.len() >= 9
        && bytes.len() <= 73
        && byte_at(bytes, 0) == 0x30
        && byte_at(bytes, 1) + 3 == bytes.len()
        && 5 + first < bytes.len()
        && first + byte_at(bytes, 5 + first) + 7 == bytes.len()
        && has_integer_at(bytes, 2)
        && has_integer_at(bytes, 4 + first)
}

// Whether an integer of DER stands at an index: its tag, its length, and bytes of which the first is no sign, nor a zero that could be left out.
fn has_integer_at(bytes: &[u8], at: usize) -> bool
    requires { at ≤ 259 }
    ensures { result ≡ has_integer_of bytes.now at }
{
    byte_at(bytes, at) == 2
        && byte_at(bytes, at + 1) > 0
        && byte_at(bytes, at + 2) < 0x80
        && (byte_at(bytes, at + 1) == 1
            || byte_at(bytes, at + 2) != 0
            || byte_at(bytes, at + 3) >= 0x80)
}

// The byte at an index, and 0 past the end.
fn byte_at(bytes: &[u8], index: usize) -> usize
    ensures value { result ≡ slice_index bytes.now index }
    ensures small { result < 256 }
{
    match bytes.get(index) {
        Some(byte) => usize::from(*byte),
        None => 0,
    }
}
