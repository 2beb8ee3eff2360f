//! What the tests share: keys, and printed text.

use hex::FromHex;
use keys::Key;
use std::alloc::Global;
use std::fmt::Display;
use std::process::Abort;

/// The key with these 66 hexadecimal digits.
pub(crate) fn key(rt: &impl Abort, text: &str) -> Key {
    let bytes = <[u8; 33] as FromHex>::from_hex(text).expect(rt, "66 hex digits");
    Key::read(&bytes).expect(rt, "a key")
}

/// Whether a value is printed as this text.
pub(crate) fn is_printed<T: Display>(alloc: Global, value: &T, text: &str) -> bool {
    match format!(in alloc; "{value}") {
        Ok(printed) => printed.as_str() == text,
        Err(_) => false,
    }
}
