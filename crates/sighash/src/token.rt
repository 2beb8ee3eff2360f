//! Signature tokens.

ghost use Rattle.std.specs.Prelude.{◌≡◌, Some, None, if◌then◌else◌};
ghost use Rattle.script.specs.Token.{token_of, is_token};

use std::marker::Model;

/// A token, which stands for an ECDSA signature with hash type ALL: a key (33 bytes), the digest that it
/// signs (32 bytes), and the byte 1.
#[derive(Clone, Copy, Debug, PartialEq, Eq, Drop)]
pub struct Token {
    bytes: [u8; 66],
}

impl Model for Token {
    ghost use Rattle.std.specs.Prelude.{ℕ, List};

    ghost Value = { List ℕ };

    ghost view = { λ a. a.bytes };

    ghost inverse = { λ bytes. record { bytes = bytes } };
}

impl Token {
    /// The token of a key over a digest.
    pub fn new(key: &[u8; 33], digest: &[u8; 32]) -> Self
        ensures { result ≡ token_of key.now digest.now }
    {
        let mut bytes = [1; 66];
        bytes[..33].copy_from_slice(key);
        bytes[33..65].copy_from_slice(digest);
        Token { bytes }
    }

    /// The token with these bytes; `None` where they do not have a token's form: 66 bytes, the first 2 or
    /// 3 and the last 1.
    #[tactic(auto, unfolding(script::specs::Token::is_token))]
    pub fn read(bytes: &[u8]) -> Option<Self>
        ensures { result ≡ (if is_token bytes.now then Some bytes.now else None) }
    {
        if bytes.len() != 66 || (bytes[0] != 2 && bytes[0] != 3) || bytes[65] != 1 {
            return None;
        }
        let mut copy = [0; 66];
        copy.copy_from_slice(bytes);
        Some(Token { bytes: copy })
    }

    /// The bytes.
    pub fn bytes(&self) -> &[u8; 66]
        ensures { result.now ≡ self.now }
    {
        &self.bytes
    }
}
