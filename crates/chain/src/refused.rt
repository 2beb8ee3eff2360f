//! What a block does not take.

use crate::blocks::Confirmed;
use crate::errors::ChainError;

/// A transaction that a block did not take, and why.
#[derive(Debug, Drop)]
pub struct Refused {
    pub confirmed: Confirmed,
    pub refusal: ChainError,
}
