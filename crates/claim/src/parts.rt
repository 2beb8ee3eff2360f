// What a claim is made of.

ghost use Rattle.std.specs.Prelude.{◌≡◌, ◌≤◌, ◌<◌, length, MatchResult};
ghost use Rattle.script.specs.declared.limits.TheConstants.{MAX_SCRIPT_ELEMENT_SIZE as max_element_size};

use keys::Key;
use lists::ByteString;
use script::limits::MAX_SCRIPT_ELEMENT_SIZE;
use tx::{OutPoint, Tx};

/// An item that a witness may hold: at most 520 bytes.
#[derive(Debug, Drop)]
pub struct WitnessItem {
    pub item: ByteString,
    ghost short: { length item ≤ max_element_size },
}

/// How a claim fills a slot of its path.
#[derive(Clone, Debug, Drop)]
pub enum Slot {
    /// The token of this key over the spend's digest.
    Sig(Key),
    /// 32 bytes whose SHA-256 is this hash.
    Preimage([u8; 32]),
    /// These bytes.
    Exact(WitnessItem),
}

/// The claimed output: its outpoint, value and program.
#[derive(Clone, Debug, Drop)]
pub struct Place {
    pub outpoint: OutPoint,
    /// In satoshis.
    pub value: u64,
    pub program: ByteString,
}

/// The transaction round a claim.
#[derive(Clone, Debug, Drop)]
pub enum Shell {
    /// Any transaction of version 2, with a lock time that the claim allows.
    Open,
    /// This transaction, whatever its witness.
    Fixed(Tx),
}

impl WitnessItem {
    /// The item. If it has more than 520 bytes, it is handed back as the
    /// error.
    pub fn new(item: ByteString) -> Result<Self, ByteString>
        ensures { MatchResult result (λ w. w.item ≡ item)
            (λ i. (i ≡ item) × (MAX_SCRIPT_ELEMENT_SIZE < length item)) }
    {
        if item.len() > MAX_SCRIPT_ELEMENT_SIZE {
            return Err(item);
        }
        Ok(WitnessItem { item })
    }
}
