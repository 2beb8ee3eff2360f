//! Fields of a fixed or a stated length, read from the front of bytes.

ghost use Rattle.std.specs.Prelude.{◌≡◌, ◌≤◌, ◌^◌, length, IfOk};
ghost use Rattle.tx.specs.declared.limits.TheConstants.{MAX_BYTES as max_bytes};
ghost use Rattle.tx.specs.Reading.{Gives, bytes_at, number_at, wide_at, compact_size_at, compact_size_up_to, byte_string_at, marker_at};

use crate::errors::DecodeError;
use crate::limits::MAX_BYTES;
use byteorder::{ByteOrder, LittleEndian};
use lists::ByteString;
use std::alloc::Global;

/// The first `count` bytes, and those after them.
#[tactic(auto, unfolding(crate::specs::Reading::bytes_at))]
pub(crate) fn split(bytes: &[u8], count: usize) -> Result<(&[u8], &[u8]), DecodeError>
    ensures length { IfOk result (λ x. length x.0.now ≡ count) }
    ensures value { Gives (λ x. (x.0.now, x.1.now)) result (bytes_at count bytes.now) }
{
    if bytes.len() < count {
        return Err(DecodeError::Truncated);
    }
    Ok(bytes.split_at(count))
}

#[tactic(auto, unfolding(crate::specs::Reading::number_at, crate::specs::Reading::bytes_at))]
fn u16_at(bytes: &[u8]) -> Result<(u16, &[u8]), DecodeError>
    ensures { Gives (λ x. (x.0, x.1.now)) result (number_at 2 bytes.now) }
{
    if bytes.len() < 2 {
        return Err(DecodeError::Truncated);
    }
    let (digits, rest) = bytes.split_at(2);
    Ok((LittleEndian::read_u16(digits), rest))
}

/// A little-endian number in four bytes.
#[tactic(auto, unfolding(crate::specs::Reading::number_at, crate::specs::Reading::bytes_at))]
pub(crate) fn u32_at(bytes: &[u8]) -> Result<(u32, &[u8]), DecodeError>
    ensures { Gives (λ x. (x.0, x.1.now)) result (number_at 4 bytes.now) }
{
    if bytes.len() < 4 {
        return Err(DecodeError::Truncated);
    }
    let (digits, rest) = bytes.split_at(4);
    Ok((LittleEndian::read_u32(digits), rest))
}

/// A little-endian number in eight bytes.
#[tactic(auto, unfolding(crate::specs::Reading::number_at, crate::specs::Reading::bytes_at))]
pub(crate) fn u64_at(bytes: &[u8]) -> Result<(u64, &[u8]), DecodeError>
    ensures { Gives (λ x. (x.0, x.1.now)) result (number_at 8 bytes.now) }
{
    if bytes.len() < 8 {
        return Err(DecodeError::Truncated);
    }
    let (digits, rest) = bytes.split_at(8);
    Ok((LittleEndian::read_u64(digits), rest))
}

#[tactic(auto, unfolding(crate::specs::Reading::wide_at))]
fn wide_u16_at(bytes: &[u8]) -> Result<(u64, &[u8]), DecodeError>
    ensures { Gives (λ x. (x.0, x.1.now)) result (wide_at 2 0xfd bytes.now) }
{
    let (count, rest) = u16_at(bytes)?;
    if count < 0xfd {
        return Err(DecodeError::LongCount);
    }
    Ok((u64::from(count), rest))
}

#[tactic(auto, unfolding(crate::specs::Reading::wide_at))]
fn wide_u32_at(bytes: &[u8]) -> Result<(u64, &[u8]), DecodeError>
    ensures { Gives (λ x. (x.0, x.1.now)) result (wide_at 4 (2 ^ 16) bytes.now) }
{
    let (count, rest) = u32_at(bytes)?;
    if count < 0x1_0000 {
        return Err(DecodeError::LongCount);
    }
    Ok((u64::from(count), rest))
}

#[tactic(auto, unfolding(crate::specs::Reading::wide_at))]
fn wide_u64_at(bytes: &[u8]) -> Result<(u64, &[u8]), DecodeError>
    ensures { Gives (λ x. (x.0, x.1.now)) result (wide_at 8 (2 ^ 32) bytes.now) }
{
    let (count, rest) = u64_at(bytes)?;
    if count < 0x1_0000_0000 {
        return Err(DecodeError::LongCount);
    }
    Ok((count, rest))
}

#[tactic(auto, unfolding(crate::specs::Reading::compact_size_at))]
fn compact_size_at(bytes: &[u8]) -> Result<(u64, &[u8]), DecodeError>
    ensures { Gives (λ x. (x.0, x.1.now)) result (compact_size_at bytes.now) }
{
    match bytes {
        [] => Err(DecodeError::Truncated),
        [0xfd, rest @ ..] => wide_u16_at(rest),
        [0xfe, rest @ ..] => wide_u32_at(rest),
        [0xff, rest @ ..] => wide_u64_at(rest),
        [count, rest @ ..] => Ok((u64::from(*count), rest)),
    }
}

/// A minimal compactSize of at most `limit`.
#[tactic(auto, unfolding(crate::specs::Reading::compact_size_up_to))]
pub(crate) fn compact_size_up_to(limit: usize, bytes: &[u8]) -> Result<(usize, &[u8]), DecodeError>
    ensures bound { IfOk result (λ x. x.0 ≤ limit) }
    ensures value { Gives (λ x. (x.0, x.1.now)) result (compact_size_up_to limit bytes.now) }
{
    let (count, rest) = compact_size_at(bytes)?;
    if count > limit as u64 {
        return Err(DecodeError::OverLimit);
    }
    Ok((count as usize, rest))
}

/// Bytes that follow their length, a minimal compactSize.
#[tactic(auto, unfolding(crate::specs::Reading::byte_string_at))]
pub(crate) fn byte_string_at(
    alloc: Global,
    bytes: &[u8],
) -> Result<(ByteString, &[u8]), DecodeError>
    ensures bound { IfOk result (λ x. length x.0 ≤ max_bytes) }
    ensures value { Gives (λ x. (x.0, x.1.now)) result (byte_string_at bytes.now) }
{
    let (len, rest) = compact_size_up_to(MAX_BYTES, bytes)?;
    let (string, rest) = split(rest, len)?;
    Ok((ByteString::from_slice(alloc, string)?, rest))
}

/// The bytes after the marker or the flag.
#[tactic(auto, unfolding(crate::specs::Reading::marker_at))]
pub(crate) fn marker_at(wanted: u8, bytes: &[u8]) -> Result<&[u8], DecodeError>
    ensures { Gives (λ x. x.now) result (marker_at wanted bytes.now) }
{
    match bytes {
        [] => Err(DecodeError::Truncated),
        [byte, rest @ ..] => {
            if *byte != wanted {
                return Err(DecodeError::BadMarker);
            }
            Ok(rest)
        }
    }
}
