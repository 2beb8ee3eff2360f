// The patterns of the scripts.

ghost use Rattle.std.specs.Prelude.{◌≡◌};
ghost use Rattle.forms.specs.Pieces.{two_of_two_pieces, to_local_pieces, key_hash_pieces, offered_pieces, received_pieces};

use paths::CheckedPattern;

/// The scripts of BOLT 3 as patterns, each checked once for all its keys, hashes and numbers. [`patterns`](crate::patterns) makes them, and the builders borrow them.
#[derive(Drop)]
pub struct Patterns {
    pub(crate) two_of_two: CheckedPattern,
    pub(crate) to_local: CheckedPattern,
    pub(crate) key_hash: CheckedPattern,
    pub(crate) offered: CheckedPattern,
    pub(crate) received: CheckedPattern,
    ghost of_two_of_two: { two_of_two.pieces ≡ two_of_two_pieces },
    ghost of_to_local: { to_local.pieces ≡ to_local_pieces },
    ghost of_key_hash: { key_hash.pieces ≡ key_hash_pieces },
    ghost of_offered: { offered.pieces ≡ offered_pieces },
    ghost of_received: { received.pieces ≡ received_pieces },
}
