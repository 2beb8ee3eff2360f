//! Transactions by their ids, so that a look-up takes time logarithmic in their number.

ghost use Rattle.std.specs.Prelude.{◌≡◌, ℕ, List, if◌then◌else◌, Some, None, OnOk, OnErr};
ghost use Rattle.std.specs.Option.{option_or};
ghost use Rattle.std.specs.Str.{bytes_eq};
ghost use Rattle.sights.specs.Origins.{origin_in, without};

use crate::sighted::Stage;
use std::alloc::AllocError;
use std::collections::BTreeMap;

/// What is held of a transaction that was read.
#[derive(Clone, Copy, Debug, Drop)]
pub(crate) struct Origin {
    /// How many were read before it.
    pub number: usize,
    /// The height of its block.
    pub height: u32,
    pub stage: Stage,
    /// How many outputs it has.
    pub outputs: usize,
}

/// Records a transaction, unless there is one with its id.
pub(crate) fn note(
    origins: &mut BTreeMap<[u8; 32], Origin>,
    id: &[u8; 32],
    origin: Origin,
) -> Result<(), AllocError>
    ensures ok { OnOk result ((q : List ℕ) → origin_in origins.new q ≡ option_or
        (origin_in origins.old q) (if bytes_eq id.now q then Some origin else None)) }
    ensures err { OnErr result ((q : List ℕ) → origin_in origins.new q ≡ origin_in origins.old q) }
{
    if origins.contains_key(id) {
        return Ok(());
    }
    origins.insert(*id, origin)?;
    Ok(())
}

/// Removes the transaction with an id, if it has this number.
pub(crate) fn forget(origins: &mut BTreeMap<[u8; 32], Origin>, id: &[u8; 32], number: usize)
    ensures { (q : List ℕ) → origin_in origins.new q ≡ without (bytes_eq id.now q) number
        (origin_in origins.old q) }
{
    let Some(origin) = origins.get(id) else {
        return;
    };
    if origin.number == number {
        origins.remove(id);
    }
}
