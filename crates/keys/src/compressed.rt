// Compressed public keys.

ghost use Rattle.std.specs.Prelude.{◌≡◌, IsTrue, IfSome, IfNone, false};
ghost use Rattle.script.specs.Token.{is_key};

use script::tokens::has_key_form;

/// A compressed public key: 33 bytes, the first of which is 02 or 03 (BIP 141).
///
/// It need not be a point of the curve: any bytes of this form are a key.
#[derive(Clone, Copy, Debug, PartialEq, Eq)]
pub struct Key {
    pub bytes: [u8; 33],
    ghost form: { IsTrue (is_key bytes) },
}

impl Key {
    /// The key with these bytes; `None` where they do not have the form of a key.
    pub fn read(bytes: &[u8; 33]) -> Option<Key>
        ensures some { IfSome result (λ k. k.bytes ≡ bytes.now) }
        ensures none { IfNone result (is_key bytes.now ≡ false) }
    {
        if !has_key_form(bytes) {
            return None;
        }
        Some(Key { bytes: *bytes })
    }
}
