//! Keys and tokens.

ghost use Rattle.std.specs.Prelude.{◌≡◌};

use crate::values::{FromValue, array_of, item};
use json_value::Value;
use keys::Key;
use sighash::Token;
use terms::BaseKeys;

/// The 33 bytes of a compressed key in hexadecimal, the first of which is 02 or 03.
impl FromValue for Key {
    ghost use Rattle.texts.specs.Keys.{key_of};

    ghost reads = { key_of };

    fn from_value(value: &Value) -> Option<Key> {
        let bytes = <[u8; 33]>::from_value(value)?;
        Key::read(&bytes)
    }
}

/// An array of five keys: funding, payment, delayed, htlc and revocation.
impl FromValue for BaseKeys {
    ghost use Rattle.texts.specs.Keys.{base_keys_of};

    ghost reads = { base_keys_of };

    #[tactic(auto, unfolding(crate::specs::Keys::base_keys_of))]
    fn from_value(value: &Value) -> Option<BaseKeys> {
        let keys = array_of(value, 5)?;
        Some(BaseKeys {
            funding: item(keys, 0)?,
            payment: item(keys, 1)?,
            delayed: item(keys, 2)?,
            htlc: item(keys, 3)?,
            revocation: item(keys, 4)?,
        })
    }
}

/// The 66 bytes of a signature token in hexadecimal.
impl FromValue for Token {
    ghost use Rattle.texts.specs.Keys.{token_bytes_of};

    ghost reads = { token_bytes_of };

    fn from_value(value: &Value) -> Option<Token> {
        let bytes = <[u8; 66]>::from_value(value)?;
        Token::read(&bytes)
    }
}
