//! Tokens on commitments and on HTLC transactions.

ghost use Rattle.std.specs.Prelude.{◌≡◌, ◌↔◌, IsTrue, map};
ghost use Rattle.script.specs.Token.{token_of};

use keys::Key;
use sighash::Token;

/// Whether a token is that of a key over a digest.
pub(crate) fn is_token(key: &Key, digest: &[u8; 32], token: &Token) -> bool
    ensures { IsTrue result ↔ (token.now ≡ token_of key.now.bytes digest.now) }
{
    *token == Token::new(&key.bytes, digest)
}

/// Whether tokens are those of a key over digests, one for each in order.
pub(crate) fn are_tokens(key: &Key, digests: &[[u8; 32]], tokens: &[Token]) -> bool
    ensures { IsTrue result ↔ (tokens.now ≡ map (token_of key.now.bytes) digests.now) }
{
    if tokens.len() != digests.len() {
        return false;
    }
    for (i, digest) in digests.iter().enumerate() {
        if tokens[i] != Token::new(&key.bytes, digest) {
            return false;
        }
    }
    true
}
