//! Laws over the definitions alone.

ghost use Rattle.watch.specs.Finding.{RevokedAreFound, OnlyRevokedAreFound};
ghost use Rattle.watch.specs.Showing.{KeysAreKeys, SpendersGo, PreimagesAreLearnt};
ghost use Rattle.watch.specs.Standing.{SeesWhatStands};
ghost use Rattle.watch.specs.Settling.{ReadingSettles, EmptyBlocksGiveNothing, GivenStaysDue};

use paths::laws::scripts_are_satisfied_exactly;

/// A watch has seen exactly what the blocks that are still on the chain show it, each by what was known when it was read. This holds after any calls that read blocks, each above the blocks that
/// are still on the chain, or that take blocks off.
pub fn sees_what_stands()
    ensures { SeesWhatStands }
{}

/// The transaction of a known revoked commitment, signed or not, has the verdict Revoked with its number, unless a newer known commitment has its id. No transaction of another id has that
/// verdict.
pub fn revoked_are_found()
    ensures found { RevokedAreFound }
    ensures only { OnlyRevokedAreFound }
{}

/// If an input spends the output of an HTLC by a clean run (BIP 141), its witness takes one of the paths of the HTLC's script. Otherwise the witness ends with another script with the same SHA-256.
/// Whoever takes the path with the preimage shows the watch a preimage of the payment hash, or an item of 32 bytes whose SHA-256 is another value with the same RIPEMD-160.
pub fn preimages_are_learnt()
    ensures keys { KeysAreKeys }
    ensures go { SpendersGo }
    ensures learnt { PreimagesAreLearnt }
{
    // The proof takes from it that whatever runs clean meets a listed path.
    scripts_are_satisfied_exactly();
}

/// After a watch has read a block, it has given all that is due by what is known. From then on an empty block gives it nothing, as long as no more is known.
pub fn empty_blocks_give_nothing()
    ensures settles { ReadingSettles }
    ensures nothing { EmptyBlocksGiveNothing }
{}

/// What a watch gives after a block is due then. By the same knowledge it stays due, whatever the watch reads after that, as long as the transactions that it has read by then are not taken off. So no claim is lost with a
/// batch that failed.
pub fn given_stays_due()
    ensures { GivenStaysDue }
{}
