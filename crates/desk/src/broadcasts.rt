// What the side of a book can broadcast.

ghost use Rattle.std.specs.Prelude.{◌++◌, slice_get};
ghost use Rattle.book.specs.Books.{replay};
ghost use Rattle.book.specs.Knowing.{preimages_in};
ghost use Rattle.desk.specs.Broadcasts.{commitment_in, htlc_tx_in, IsToldAs};

use book::Book;
use book::errors::KnowError;
use publish::{signed_commitment, signed_htlc_tx};
use std::alloc::Global;
use tx::Tx;

/// The commitment of a number, or the newest where there is none, with both signatures.
pub(crate) fn commitment_of(
    alloc: Global,
    book: &Book,
    channel: u64,
    number: Option<u64>,
) -> Result<Option<Tx>, KnowError>
    ensures { IsToldAs (commitment_in number (slice_get (replay book.now) channel)) result }
{
    let Some(state) = book.channel(channel) else {
        return Err(KnowError::NoSuchChannel);
    };
    let patterns = book.patterns()?;
    let number = number.unwrap_or(state.number());
    Ok(signed_commitment(alloc, patterns.get(), state, number)?)
}

/// An HTLC transaction of the commitment of a number, with both signatures, and with the preimages of the book or these.
pub(crate) fn htlc_tx_of(
    alloc: Global,
    book: &Book,
    channel: u64,
    number: u64,
    htlc: u64,
    learnt: &[[u8; 32]],
) -> Result<Option<Tx>, KnowError>
    ensures { IsToldAs (htlc_tx_in number htlc (preimages_in channel book.now ++ learnt.now)
        (slice_get (replay book.now) channel)) result }
{
    let Some(state) = book.channel(channel) else {
        return Err(KnowError::NoSuchChannel);
    };
    let mut preimages = Vec::from_slice(alloc, book.preimages(channel))?;
    preimages.extend_from_slice(learnt)?;
    let patterns = book.patterns()?;
    Ok(signed_htlc_tx(
        alloc,
        patterns.get(),
        state,
        number,
        htlc as usize,
        &preimages,
    )?)
}
