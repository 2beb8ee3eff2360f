//! The transactions that a side broadcasts.

ghost use Rattle.std.specs.Prelude.{◌≡◌, IfOk};
ghost use Rattle.world.specs.Worlds.{channel_of};
ghost use Rattle.world.specs.Publishing.{preimages_known, commitment_in, closing_in, htlc_tx_in, IsAnswer};

use crate::errors::EventError;
use crate::nodes::Node;
use publish::{signed_commitment, signed_htlc_tx};
use std::alloc::{AllocError, Global};
use tx::Tx;

/// A side's commitment of a number, with both signatures. Refused with `NoSuchChannel`, `NoSuchTx`.
pub(crate) fn commitment(
    alloc: Global,
    me: &Node,
    channel: u64,
    number: u64,
) -> Result<Tx, EventError>
    ensures { IsAnswer (commitment_in number (channel_of me.now channel)) result }
{
    let Some(state) = me.book.channel(channel) else {
        return Err(EventError::NoSuchChannel);
    };
    let patterns = me.book.patterns()?;
    match signed_commitment(alloc, patterns.get(), state, number)? {
        Some(tx) => Ok(tx),
        None => Err(EventError::NoSuchTx),
    }
}

/// A side's newest commitment, which closes the channel, with both signatures. Refused with `NoSuchChannel`.
pub(crate) fn closing(alloc: Global, me: &Node, channel: u64) -> Result<Tx, EventError>
    ensures { IsAnswer (closing_in (channel_of me.now channel)) result }
{
    let Some(state) = me.book.channel(channel) else {
        return Err(EventError::NoSuchChannel);
    };
    commitment(alloc, me, channel, state.number())
}

// The preimages that a side knows in a channel: those of its fulfils, and those that blocks showed to the side.
fn preimages_known(alloc: Global, me: &Node, channel: u64) -> Result<Vec<[u8; 32]>, AllocError>
    ensures { IfOk result (λ preimages. preimages.items ≡ preimages_known channel me.now) }
{
    let mut preimages = Vec::from_slice(alloc, me.book.preimages(channel))?;
    preimages.extend_from_slice(&me.learnt)?;
    Ok(preimages)
}

/// The HTLC transaction of a side's commitment of a number, for the
/// untrimmed HTLC at an index. Refused with `NoSuchChannel`, `NoSuchTx`.
pub(crate) fn htlc_tx(
    alloc: Global,
    me: &Node,
    channel: u64,
    number: u64,
    htlc: u64,
) -> Result<Tx, EventError>
    ensures { IsAnswer (htlc_tx_in number htlc (preimages_known channel me.now)
        (channel_of me.now channel)) result }
{
    let Some(state) = me.book.channel(channel) else {
        return Err(EventError::NoSuchChannel);
    };
    let preimages = preimages_known(alloc, me, channel)?;
    let patterns = me.book.patterns()?;
    match signed_htlc_tx(
        alloc,
        patterns.get(),
        state,
        number,
        htlc as usize,
        &preimages,
    )? {
        Some(tx) => Ok(tx),
        None => Err(EventError::NoSuchTx),
    }
}
