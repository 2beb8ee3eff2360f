// What consensus takes as a number.

ghost use Rattle.std.specs.Prelude.{◌≡◌, ◌<◌, ◌≤◌};
ghost use Rattle.strictness.specs.Values.{natural_of, natural_by as natural_with};

/// The number of an item of at most `limit` bytes, minimally encoded or not; `None` where it is longer, or negative. Zero may have a sign.
pub fn read_natural(bytes: &[u8], limit: usize) -> Option<u64>
    requires { limit ≤ 5 }
    ensures { result ≡ natural_of limit bytes.now }
{
    if bytes.is_empty() {
        return Some(0);
    }
    if bytes.len() > limit {
        return None;
    }
    let mut value: u64 = 0;
    let mut scale: u64 = 1;
    for byte in bytes {
        value += u64::from(*byte) * scale;
        scale *= 256;
    }
    natural_by(scale / 2, value)
}

// The number of a value whose sign is this bit; `None` if it is negative.
fn natural_by(sign: u64, value: u64) -> Option<u64>
    requires { 0 < sign }
    ensures { result ≡ natural_with sign value }
{
    let magnitude = value % sign;
    if value >= sign && magnitude != 0 {
        None
    } else {
        Some(magnitude)
    }
}
