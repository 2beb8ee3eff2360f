//! What is left of a world once it is taken apart.

use book::Book;
use chain::Index;

/// The books of a world's two sides, and its chain.
#[derive(Drop)]
pub struct BooksAndChain {
    pub a: Book,
    pub b: Book,
    pub chain: Index,
}
