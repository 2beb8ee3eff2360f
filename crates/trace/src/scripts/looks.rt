// What pushed bytes look like.

use script::num::{Limit, Number, read};
use script::tokens::has_key_form;

/// What bytes look like to a reader of scripts.
#[derive(Clone, Copy, Drop)]
pub enum Look {
    /// A compressed public key: 33 bytes, the first 02 or 03.
    Key,
    /// A hash: 20 or 32 bytes.
    Hash,
    /// A number of at most 5 bytes, minimally encoded.
    Number(Number),
    /// Something else.
    Bytes,
}

impl Look {
    ghost use Rattle.std.specs.Prelude.{◌≡◌};
    ghost use Rattle.trace.specs.Looks.{look_of};

    /// Classifies bytes.
    pub fn of(item: &[u8]) -> Look
        ensures { result ≡ look_of item.now }
    {
        if has_key_form(item) {
            return Look::Key;
        }
        if item.len() == 20 || item.len() == 32 {
            return Look::Hash;
        }
        match read(item, Limit::Lock) {
            Some(number) => Look::Number(number),
            None => Look::Bytes,
        }
    }
}
