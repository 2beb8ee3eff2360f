// Marks, and the words that encode them.

ghost use Rattle.std.specs.Prelude.{◌≡◌};
ghost use Rattle.board.specs.Order.{word_of, mark_in};

/// How far the chain has come: a height, and the number of reorganisations before it.
///
/// Marks are compared by the round first, so a height of a newer round is greater than every height of an older one.
#[derive(Clone, Copy, Debug, PartialEq, Eq, PartialOrd, Ord)]
pub struct Mark {
    /// The number of reorganisations so far.
    pub round: u32,
    /// The height, in blocks.
    pub height: u32,
}

impl Mark {
    // the mark as one word: the round in the upper half, the height in the lower one
    pub(crate) fn word(self) -> u64
        ensures { result ≡ word_of self }
    {
        (u64::from(self.round) << 32) + u64::from(self.height)
    }

    // the mark that a word encodes
    pub(crate) fn from_word(word: u64) -> Mark
        ensures { result ≡ mark_in word }
    {
        Mark {
            round: (word >> 32) as u32,
            height: (word % (1 << 32)) as u32,
        }
    }
}
