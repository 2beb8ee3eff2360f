//! The two sides of a channel.

use book::Opening;

/// How each side opens a channel.
#[derive(Clone, Copy, Debug)]
pub struct Both {
    pub a: Opening,
    pub b: Opening,
}
