//! Preimages that spends of HTLCs show, and what is buried deep enough.

ghost use Rattle.std.specs.Prelude.{◌≡◌, option_map};
ghost use Rattle.resolve.specs.Preimages.{shown_by, preimage_shown, is_deep};

use lists::ByteString;
use tx::Tx;

/// The number of blocks above one that is 100 deep.
const BLOCKS_ABOVE: u64 = 99;

// The second to last of three or five items.
fn shown_by(items: &[ByteString]) -> Option<&[u8]>
    ensures { option_map (λ x. x.now) result ≡ shown_by items.now }
{
    match items {
        [_, item, _] => Some(item.bytes()),
        [_, _, _, item, _] => Some(item.bytes()),
        _ => None,
    }
}

/// The preimage that an input of a transaction shows where it spends an HTLC (BOLT 5, "HTLC Output Handling"). It is the second to last item of the witness, if
/// that has 32 bytes. The witness has three items in a direct claim on the peer's commitment, or five in an HTLC-success transaction. `None` if there is no
/// such item, or if the transaction has no input at the index. It allocates nothing.
pub fn preimage_in(tx: &Tx, index: usize) -> Option<[u8; 32]>
    ensures { result ≡ preimage_shown tx.now index }
{
    let input = tx.inputs().get(index)?;
    let item = shown_by(input.witness.as_slice())?;
    if item.len() != 32 {
        return None;
    }
    let mut preimage = [0; 32];
    preimage.copy_from_slice(item);
    Some(preimage)
}

/// Whether what is in the block of a height is 100 blocks deep under this tip, so that nothing more is to be done about it. BOLT 5, "General Nomenclature",
/// calls it irrevocably resolved.
pub fn is_final(height: u64, tip: u64) -> bool
    ensures { result ≡ is_deep height tip }
{
    tip >= BLOCKS_ABOVE && tip - BLOCKS_ABOVE >= height
}
