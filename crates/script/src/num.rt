// Script numbers: little-endian, with a sign bit in the last byte, minimally encoded.

ghost use Rattle.std.specs.Prelude.{◌≡◌, ◌<◌, ◌≤◌, ◌^◌, ◌++◌, Some, false, IfOk, OnOk};
ghost use Rattle.script.specs.Number.{bytes_in, number_of, minimal_bytes_of, lowest};

use lists::ByteString;
use std::alloc::{AllocError, Global};

/// A signed number: its magnitude and its sign. Zero is not negative.
#[derive(Clone, Copy, PartialEq, Eq, Debug)]
pub struct Number {
    pub negative: bool,
    pub magnitude: u64,
}

/// What a number is for, which limits its size in bytes.
#[derive(Clone, Copy, PartialEq, Eq, Debug)]
pub enum Limit {
    /// A count of keys or signatures, or a size: at most 4 bytes.
    Count,
    /// A lock (BIP 65, 112): at most 5 bytes.
    Lock,
}

/// The number that an item encodes; `None` where the item is longer than its limit or not minimally
/// encoded.
pub fn read(bytes: &[u8], limit: Limit) -> Option<Number>
    ensures { result ≡ number_of (bytes_in limit) bytes.now }
{
    match limit {
        Limit::Count => read_up_to(bytes, 4),
        Limit::Lock => read_up_to(bytes, 5),
    }
}

// The number that an item of at most `limit` bytes encodes.
fn read_up_to(bytes: &[u8], limit: usize) -> Option<Number>
    requires { limit ≤ 5 }
    ensures { result ≡ number_of limit bytes.now }
{
    if bytes.is_empty() {
        return Some(Number {
            negative: false,
            magnitude: 0,
        });
    }
    if bytes.len() > limit {
        return None;
    }
    let mut value: u64 = 0;
    let mut scale: u64 = 1;
    for byte in bytes {
        value += u64::from(*byte) * scale;
        scale *= 256;
    }
    let half = scale / 2;
    let negative = value >= half;
    let magnitude = value % half;
    if 2 * magnitude < scale / 256 {
        return None;
    }
    Some(Number {
        negative,
        magnitude,
    })
}

/// The minimal encoding of a number that is not negative. The only error is that memory ran out.
pub fn write(alloc: Global, n: u64) -> Result<ByteString, AllocError>
    ensures item { IfOk result (λ i. i ≡ minimal_bytes_of n) }

    // Reading it gives the same number, if that has at most 32 bits.
    ensures read { IfOk result (λ i. n < 2 ^ 32
        → number_of 5 i ≡ Some (record { negative = false; magnitude = n })) }
{
    let mut bytes = Vec::new(alloc);
    let mut rest = n;
    for _step in 0usize..9 {
        if rest != 0 {
            push_lowest(&mut bytes, rest)?;
            rest /= 256;
        }
    }
    Ok(ByteString::from_vec(bytes))
}

// Appends the lowest digit, with a byte for the sign where it needs one.
fn push_lowest(bytes: &mut Vec<u8>, n: u64) -> Result<(), AllocError>
    ensures { OnOk result (bytes.new.items ≡ bytes.old.items ++ lowest n) }
{
    if 128 <= n && n < 256 {
        bytes.push(n as u8)?;
        bytes.push(0)?;
        return Ok(());
    }
    bytes.push((n % 256) as u8)?;
    Ok(())
}
