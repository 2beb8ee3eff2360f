//! Values and questions that several test modules share.

use hex::FromHex;
use lists::ByteString;
use std::alloc::Global;
use std::fmt::Display;
use std::process::Abort;

/// An item of this length.
pub fn item(rt: &impl Abort, alloc: Global, len: usize) -> ByteString {
    ByteString::from_vec(vec![in alloc; 9u8; len].expect(rt, "memory"))
}

/// Whether a hexadecimal text spells these bytes.
pub fn is_hex<const N: usize>(bytes: &[u8; N], text: &str) -> bool {
    <[u8; N] as FromHex>::from_hex(text) == Ok(*bytes)
}

/// Whether a value is printed as this text.
pub fn is_printed<T: Display>(alloc: Global, value: &T, text: &str) -> bool {
    match format!(in alloc; "{value}") {
        Ok(printed) => printed.as_str() == text,
        Err(_) => false,
    }
}
