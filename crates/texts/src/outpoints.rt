//! Outpoints.

ghost use Rattle.std.specs.Prelude.{◌≡◌};
ghost use Rattle.texts.specs.Outpoints.{digits_from, index_in, outpoint_in};

use crate::values::FromValue;
use hex::FromHex;
use json_value::Value;
use tx::OutPoint;

// The number that decimal digits spell, if it is below 2^32.
#[tactic(auto, unfolding(crate::specs::Outpoints::digits_from))]
fn digits_from(digits: &[u8]) -> Option<u32>
    ensures { result ≡ digits_from 0 digits.now }
{
    let mut number: u32 = 0;
    for digit in digits {
        if !digit.is_ascii_digit() {
            return None;
        }
        let next = u64::from(number) * 10 + u64::from(*digit - b'0');
        number = u32::try_from(next).ok()?;
    }
    Some(number)
}

// The index of an output in decimal digits, without leading zeros.
fn index_in(digits: &[u8]) -> Option<u32>
    ensures { result ≡ index_in digits.now }
{
    match digits {
        [] => None,
        [b'0', _, ..] => None,
        _ => digits_from(digits),
    }
}

#[tactic(auto, unfolding(crate::specs::Outpoints::outpoint_in))]
fn outpoint_in(text: &[u8]) -> Option<OutPoint>
    ensures { result ≡ outpoint_in text.now }
{
    if text.len() < 65 || text[64] != b':' {
        return None;
    }
    let (txid, rest) = text.split_at(64);
    let txid = <[u8; 32] as FromHex>::from_hex(txid).ok()?;
    let index = index_in(&rest[1..])?;
    Some(OutPoint { txid, index })
}

/// The string `txid:index`: the id's 32 bytes in hexadecimal, in both letter cases and in the hash's own byte order (not reversed), and the
/// index in decimal digits.
impl FromValue for OutPoint {
    ghost use Rattle.texts.specs.Outpoints.{outpoint_of};

    ghost reads = { outpoint_of };

    fn from_value(value: &Value) -> Option<OutPoint> {
        outpoint_in(value.as_str()?.as_bytes())
    }
}
