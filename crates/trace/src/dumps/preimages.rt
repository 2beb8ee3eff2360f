// Notes on the preimages of received HTLCs: those that another channel has, and those of what this side failed or does not fulfil.

use crate::dumps::claims::hashes_of;
use crate::dumps::received::{Received, gives_up, received_of};
use crate::dumps::standing::{Source, closed_with, stands};
use book::Book;
use channel::Channel;
use page::Page;
use page::Piece::Count;
use std::alloc::{AllocError, Global};

// A hash whose preimage a channel has.
#[derive(Clone, Copy)]
struct Known {
    channel: u64,
    hash: [u8; 32],
}

/// Notes the received HTLCs of each channel whose preimage the book has: those which their channel lacks, or fails, or does not fulfil while this side has not closed it.
pub fn note_preimages(notes: &mut Page, book: &Book) {
    match known_of(notes.alloc(), book) {
        Ok(known) => match received_of(notes.alloc(), book.entries()) {
            Ok(received) => note_channels(notes, book, known.as_slice(), received.as_slice()),
            Err(_) => notes.fail(),
        },
        Err(_) => notes.fail(),
    }
}

// The hashes whose preimages the channels of a book have.
fn known_of(alloc: Global, book: &Book) -> Result<Vec<Known>, AllocError> {
    let mut known: Vec<Known> = Vec::new(alloc);
    for channel in 0..book.channel_count() {
        let hashes = hashes_of(alloc, book.preimages(channel))?;
        for hash in hashes.as_slice() {
            known.push(Known {
                channel,
                hash: *hash,
            })?;
        }
    }
    Ok(known)
}

// Notes the received HTLCs channel by channel.
fn note_channels(notes: &mut Page, book: &Book, known: &[Known], received: &[Received]) {
    for index in 0..book.channel_count() {
        if let Some(channel) = book.channel(index) {
            for one in received {
                if one.channel == index {
                    if let Some(place) = place_of(known, one) {
                        note_known(notes, book, channel, received, one, place);
                    }
                }
            }
        }
    }
}

// The channel that has the preimage of a received HTLC: its own, or else the first.
fn place_of(known: &[Known], one: &Received) -> Option<u64> {
    let mut first: Option<u64> = None;
    for place in known {
        if place.hash == one.htlc.hash && (first.is_none() || place.channel == one.channel) {
            first = Some(place.channel);
        }
    }
    first
}

// Notes a received HTLC whose preimage a channel has.
fn note_known(
    notes: &mut Page,
    book: &Book,
    channel: &Channel,
    received: &[Received],
    one: &Received,
    place: u64,
) {
    let (peer, id) = (channel.side().other(), one.htlc.id);
    let is_there = stands(channel, Source::Ours, peer, id)
        || stands(channel, Source::Theirs, peer, id);
    if let Some(failed) = one.failed {
        if is_there || gives_up(received, book.entries(), one, failed) {
            write_failed(notes, one, place);
        }
    } else if is_there && place != one.channel {
        write_lacking(notes, one, place);
    } else if is_there
        && one.fulfilled.is_none()
        && closed_with(book, one.channel, channel).is_none()
    {
        write_unfulfilled(notes, one);
    }
}

fn write_failed(notes: &mut Page, one: &Received, place: u64) {
    notes.write(
        "note: channel % failed the received HTLC %, whose preimage channel % has: it can't be fulfilled any more\n",
        &[Count(one.channel), Count(one.htlc.id), Count(place)],
    );
}

fn write_lacking(notes: &mut Page, one: &Received, place: u64) {
    notes.write(
        "note: channel % lacks the preimage of the received HTLC %, which channel % has: it can't be claimed before it is fulfilled in channel % too\n",
        &[
            Count(one.channel),
            Count(one.htlc.id),
            Count(place),
            Count(one.channel),
        ],
    );
}

fn write_unfulfilled(notes: &mut Page, one: &Received) {
    notes.write(
        "note: channel % has the preimage of the received HTLC %, and did not fulfil it: the peer may take it back in any block above %\n",
        &[
            Count(one.channel),
            Count(one.htlc.id),
            Count(u64::from(one.htlc.expiry_height)),
        ],
    );
}
