// Tests of keys and tokens.

ghost use Rattle.std.specs.Prelude.{◌≡◌, length};
ghost use Rattle.std.specs.Str.{bytes_eq};
ghost use Rattle.script.specs.Token.{is_key, is_token, is_signature, token_of};

/// Whether an item has the form of a key: 33 bytes, the first of them 02 or 03.
#[tactic(auto, unfolding(crate::specs::Token::is_key))]
pub fn has_key_form(item: &[u8]) -> bool
    ensures { result ≡ is_key item.now }
{
    item.len() == 33 && (item[0] == 2 || item[0] == 3)
}

/// Whether an item is empty or has the form of a token.
#[tactic(auto, unfolding(crate::specs::Token::is_signature, crate::specs::Token::is_token))]
pub fn has_signature_form(item: &[u8]) -> bool
    ensures { result ≡ is_signature item.now }
{
    item.is_empty() || (item.len() == 66 && (item[0] == 2 || item[0] == 3) && item[65] == 1)
}

/// Whether an item is the token of a key over a digest.
pub fn is_token_of(item: &[u8], key: &[u8], digest: &[u8]) -> bool
    ensures { result ≡ bytes_eq item.now (token_of key.now digest.now) }
{
    match item.strip_prefix(key) {
        Some(rest) => match rest.strip_prefix(digest) {
            Some(end) => end.len() == 1 && end[0] == 1,
            None => false,
        },
        None => false,
    }
}
